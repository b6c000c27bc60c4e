ghost use Rattle.std.specs.Prelude.{ℕ};

use crossbeam_queue::protocol::{Join, Lesson, Outcome, Protocol, Split};
use std::collections::LinkedList;
use std::marker::{Brand, PhantomData};
use wt_proto::{Letter, Stamped};

/// What a pass knows: how many sources the inbox has, the range of them that the pass has, what was put in through it,
/// whether it may take, and what it took. No value of it is made.
pub struct View {
    pub sources: u64,
    pub lo: u64,
    pub hi: u64,
    pub sent: LinkedList<Stamped>,
    pub takes: bool,
    pub taken: LinkedList<Stamped>,
}

/// The rule of an inbox.
pub struct PerSource;

impl Protocol<Letter, View> for PerSource {
    ghost use Rattle.inbox.specs.Views.{view_at_first};
    ghost use Rattle.inbox.specs.Rule.{Keeps};

    ghost holds = { Keeps };

    ghost first = { view_at_first };
}

/// A deposit.
pub struct Deposited;

impl Outcome<Letter, View> for Deposited {
    ghost use Rattle.inbox.specs.Rule.{Deposits};

    ghost then = { Deposits };
}

/// A take, and a look.
pub struct Took;

impl Outcome<Letter, View> for Took {
    ghost use Rattle.inbox.specs.Rule.{Takes};

    ghost then = { Takes };
}

impl Lesson<Letter, View> for Took {
    ghost use Rattle.inbox.specs.Rule.{KnowsHeld};

    ghost fact = { KnowsHeld };
}

/// A number that is known only at run time: of sources, or where a range of them is cut.
pub trait Place {
    ghost place: { ℕ };
}

impl Place for Brand {
    ghost place = { 0 };
}

/// Leaves an inbox that was just made so many sources.
pub struct Opening<J> {
    marker: PhantomData<J>,
}

impl<J: Place> Split<View> for Opening<J> {
    ghost use Rattle.inbox.specs.Views.{empty_view, open_of};

    ghost left = { λ v. open_of J.place };

    ghost right = { λ v. empty_view };
}

/// Cuts a range.
pub struct Cut<J> {
    marker: PhantomData<J>,
}

impl<J: Place> Split<View> for Cut<J> {
    ghost use Rattle.inbox.specs.Views.{lower_of, upper_of};

    ghost left = { lower_of J.place };

    ghost right = { upper_of J.place };
}

/// Puts two ranges together.
pub struct Both;

impl Join<View> for Both {
    ghost use Rattle.inbox.specs.Views.{empty_view, join_of};

    ghost both = { join_of };

    ghost spent = { empty_view };
}
