ghost use Rattle.std.specs.Prelude.{◌≡◌, ◌<◌, true, IfErr, IfNone, IfOk, IfSome, OnOk};
ghost use Rattle.inbox.specs.Views.{HasListsOf, HasSource, HasTakenAll, HasTakenMerge, IsWhole, TakesInOrder, deposit_of, join_of, lower_of, open_of, take_of, upper_of};

use crate::view::{Both, Cut, Deposited, Opening, PerSource, Place, Took, View};
use crossbeam_queue::{RuledSegQueue, SegPass};
use std::alloc::Global;
use std::marker::{Brand, Model};
use std::sync::Wait;
use wt_params::NoMemory;
use wt_proto::{Back, Letter, Stamped};

type Queue = RuledSegQueue<Letter, View, PerSource>;

/// An inbox of so many sources, which threads share by reference. Contracts see which one it is.
pub struct Inbox {
    alloc: Global,
    queue: Queue,
}

impl Model for Inbox {
    ghost use Rattle.std.specs.declared.alloc.Global.{Global};
    ghost use Rattle.crossbeam_queue.specs.SegTies.{SegId};

    ghost Value = { SegId Global };

    ghost view = { λ inbox. inbox.queue };
}

/// The right to put messages of a range of sources into an inbox, and perhaps to take. It has no memory of its own.
/// Contracts see its inbox, and its view: what was put in through it, and what it took.
#[derive(Drop)]
pub struct Pass {
    seat: SegPass<Letter, View>,
    lo: u32,
    hi: u32,
    takes: bool,
}

impl Model for Pass {
    ghost use Rattle.std.specs.Prelude.{◌≡◌, None};
    ghost use Rattle.inbox.specs.Passes.{IsPass, PassModel};

    ghost Value = { PassModel };

    ghost view = { λ pass. record {
      of = record { web = pass.seat.web; heap = pass.seat.heap };
      view = pass.seat.me.view.client;
    } };

    ghost invariant = { λ pass.
        (pass.seat.me.hand ≡ None) × (pass.seat.me.spare ≡ None)
        × IsPass pass.lo pass.hi pass.takes pass.seat.me.view.client };
}

impl Inbox {
    /// An inbox that holds nothing, with the pass of all its sources, which may take.
    pub fn open(_rt: &impl Wait, alloc: Global, nodes: u32) -> Result<(Inbox, Pass), NoMemory>
        ensures of { IfOk result (λ r. r.1.of ≡ r.0) }
        ensures view { IfOk result (λ r. r.1.view ≡ open_of nodes) }
    {
        open_for::<Brand>(alloc, nodes)
    }

    /// Puts a message in, at the end. Where memory is refused it comes back, and nothing has changed.
    pub fn deposit(&self, rt: &impl Wait, pass: &mut Pass, message: Stamped) -> Result<(), Back>
        requires of { pass.old.of ≡ self.now }
        requires source { HasSource pass.old.view message.from }
        ensures ok { OnOk result (pass.new ≡ record (pass.old) { view = deposit_of message pass.old.view }) }
        ensures back { IfErr result (λ back. (back.message ≡ message) × (pass.new ≡ pass.old)) }
        ensures order { TakesInOrder pass.new.view }
    {
        match Letter::new(self.alloc, message) {
            Ok(letter) => match self.deposit_letter(rt, pass, letter) {
                Ok(()) => Ok(()),
                Err(letter) => Err(Back {
                    message: letter.into_message(),
                }),
            },
            Err(back) => {
                pass.keeps_order();
                Err(back)
            }
        }
    }

    /// The same with a message that has its place.
    pub fn deposit_letter(
        &self,
        rt: &impl Wait,
        pass: &mut Pass,
        message: Letter,
    ) -> Result<(), Letter>
        requires of { pass.old.of ≡ self.now }
        requires source { HasSource pass.old.view message.from }
        ensures ok { OnOk result (pass.new ≡ record (pass.old) { view = deposit_of message pass.old.view }) }
        ensures back { IfErr result (λ back. (back ≡ message) × (pass.new ≡ pass.old)) }
        ensures order { TakesInOrder pass.new.view }
    {
        let queue = &self.queue;
        queue.push_as::<Deposited, _>(rt, &mut pass.seat, message)
    }

    /// Takes the first message. None comes only where the inbox held nothing at that step.
    pub fn take(&self, rt: &impl Wait, pass: &mut Pass) -> Option<Stamped>
        requires of { pass.old.of ≡ self.now }
        requires right { pass.old.view.takes ≡ true }
        ensures some { IfSome result (λ message. pass.new ≡ record (pass.old) { view = take_of message pass.old.view }) }
        ensures none { IfNone result ((pass.new ≡ pass.old) × HasTakenAll pass.new.view) }
        ensures merge { IfNone result (IsWhole pass.new.view → HasTakenMerge pass.new.view) }
        ensures order { TakesInOrder pass.new.view }
    {
        match self.take_letter(rt, pass) {
            None => None,
            Some(letter) => Some(letter.into_message()),
        }
    }

    /// The same in the message's place.
    pub fn take_letter(&self, rt: &impl Wait, pass: &mut Pass) -> Option<Letter>
        requires of { pass.old.of ≡ self.now }
        requires right { pass.old.view.takes ≡ true }
        ensures some { IfSome result (λ message. pass.new ≡ record (pass.old) { view = take_of message pass.old.view }) }
        ensures none { IfNone result ((pass.new ≡ pass.old) × HasTakenAll pass.new.view) }
        ensures merge { IfNone result (IsWhole pass.new.view → HasTakenMerge pass.new.view) }
        ensures order { TakesInOrder pass.new.view }
    {
        self.queue.pop_as::<Took, _>(rt, &mut pass.seat)
    }
}

impl Drop for Inbox {
    fn drop(self) {
        let Inbox { alloc: _, queue } = self;
        queue.destroy();
    }
}

impl Pass {
    /// The first of its sources.
    pub fn lo(&self) -> u32
        ensures { result ≡ self.now.view.lo }
    {
        self.lo
    }

    /// The end of its range: one more than the last of its sources.
    pub fn hi(&self) -> u32
        ensures { result ≡ self.now.view.hi }
    {
        self.hi
    }

    /// Whether it may take.
    pub fn may_take(&self) -> bool
        ensures { result ≡ self.now.view.takes }
    {
        self.takes
    }

    // The law that what it has taken is in order.
    #[inline(always)]
    fn keeps_order(&self)
        ensures { TakesInOrder self.now.view }
    {
        let _ = &self.seat;
    }

    /// Cuts its range in two, and what was put in with it. The lower part keeps the right to take, and what was taken.
    pub fn split(self, _rt: &impl Wait, inbox: &Inbox, mid: u32) -> (Pass, Pass)
        requires of { self.of ≡ inbox.now }
        requires inside { (self.view.lo < mid) × (mid < self.view.hi) }
        ensures lower { result.0 ≡ record self { view = lower_of mid self.view } }
        ensures upper { result.1 ≡ record self { view = upper_of mid self.view } }
        ensures lists { HasListsOf result.0.view self.view × HasListsOf result.1.view self.view }
        ensures order { TakesInOrder result.0.view }
    {
        let mut lower = self;
        let upper = lower.split_off(inbox, mid);
        (lower, upper)
    }

    /// The same with the lower part in place.
    pub fn split_off(&mut self, inbox: &Inbox, mid: u32) -> Pass
        requires of { self.old.of ≡ inbox.now }
        requires inside { (self.old.view.lo < mid) × (mid < self.old.view.hi) }
        ensures lower { self.new ≡ record (self.old) { view = lower_of mid self.old.view } }
        ensures upper { result ≡ record (self.old) { view = upper_of mid self.old.view } }
        ensures lists { HasListsOf self.new.view self.old.view × HasListsOf result.view self.old.view }
        ensures order { TakesInOrder self.new.view }
    {
        cut::<Brand>(self, inbox, mid)
    }

    /// Puts it together with the pass of the sources that come next. The whole may take where one of them may.
    pub fn join(self, rt: &impl Wait, other: Pass, inbox: &Inbox) -> Pass
        requires of { (self.of ≡ inbox.now) × (other.of ≡ inbox.now) }
        requires next { self.view.hi ≡ other.view.lo }
        ensures both { result ≡ record self { view = join_of self.view other.view } }
        ensures lists { HasListsOf self.view result.view × HasListsOf other.view result.view }
        ensures order { TakesInOrder result.view }
    {
        let mut both = self;
        both.absorb(rt, other, inbox);
        both
    }

    /// The same in place.
    pub fn absorb(&mut self, rt: &impl Wait, other: Pass, inbox: &Inbox)
        requires of { (self.old.of ≡ inbox.now) × (other.of ≡ inbox.now) }
        requires next { self.old.view.hi ≡ other.view.lo }
        ensures both { self.new ≡ record (self.old) { view = join_of self.old.view other.view } }
        ensures lists { HasListsOf self.old.view self.new.view × HasListsOf other.view self.new.view }
        ensures order { TakesInOrder self.new.view }
    {
        let Pass {
            seat,
            lo: _,
            hi,
            takes,
        } = other;
        inbox.queue.absorb::<Both>(&mut self.seat, seat);
        self.hi = hi;
        self.takes |= takes;
        // What was taken of the other's sources is known by a look.
        inbox.queue.len_as::<Took, _>(rt, &mut self.seat);
    }
}

// Its number of sources is picked at the call.
fn open_for<J: Place>(alloc: Global, nodes: u32) -> Result<(Inbox, Pass), NoMemory>
    requires { nodes ≡ J.place }
    ensures of { IfOk result (λ r. r.1.of ≡ r.0) }
    ensures view { IfOk result (λ r. r.1.view ≡ open_of nodes) }
{
    let (queue, mut seat) = Queue::with_rule(alloc)?;
    queue.another::<Opening<J>>(&mut seat);
    let pass = Pass {
        seat,
        lo: 0,
        hi: nodes,
        takes: true,
    };
    Ok((Inbox { alloc, queue }, pass))
}

// The place of the cut is picked at the call.
fn cut<J: Place>(pass: &mut Pass, inbox: &Inbox, mid: u32) -> Pass
    requires place { mid ≡ J.place }
    requires of { pass.old.of ≡ inbox.now }
    requires inside { (pass.old.view.lo < mid) × (mid < pass.old.view.hi) }
    ensures lower { pass.new ≡ record (pass.old) { view = lower_of mid pass.old.view } }
    ensures upper { result ≡ record (pass.old) { view = upper_of mid pass.old.view } }
    ensures lists { HasListsOf pass.new.view pass.old.view × HasListsOf result.view pass.old.view }
    ensures order { TakesInOrder pass.new.view }
{
    let seat = inbox.queue.another::<Cut<J>>(&mut pass.seat);
    let hi = pass.hi;
    pass.hi = mid;
    Pass {
        seat,
        lo: mid,
        hi,
        takes: false,
    }
}
