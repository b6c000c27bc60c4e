ghost use Rattle.std.specs.Prelude.{◌≡◌, ◌+◌, [], ◌∷◌, IfErr, IfOk, OnOk, OnErr, MatchOption};
ghost use Rattle.wt_proto.specs.Messages.{key_of};
ghost use Rattle.event_queue.specs.Rising.{IsRising, HasNoKey, insert_of, peek_of};
ghost use Rattle.event_queue.specs.Merging.{is_sooner};

use crate::ring::Ring;
use crate::sorted::Sorted;
use crate::steps::Steps;
use std::alloc::Global;
use std::marker::Model;
use std::sync::ledger::Ledger;
use wt_proto::{Back, Key, Letter, Stamped};

/// Messages, the one of the least key first. No two have the same key. Contracts see them as a list.
#[derive(Debug, Drop)]
pub struct Queue {
    alloc: Global,
    /// The messages of the cycles that are near.
    ring: Ring,
    /// All others. A message stays where it was put.
    far: Sorted,
}

impl Model for Queue {
    ghost use Rattle.std.specs.Prelude.{List};
    ghost use Rattle.wt_proto.specs.declared.message.Stamped.{Stamped};
    ghost use Rattle.event_queue.specs.Merging.{AreParts, merged};

    ghost Value = { List Stamped };

    ghost view = { λ queue. merged queue.ring.messages queue.far };

    ghost invariant = { λ queue. AreParts queue.ring.messages queue.far };
}

impl Queue {
    /// A queue without messages. It takes no memory.
    pub fn new(alloc: Global) -> Queue
        ensures { result ≡ [] }
    {
        Queue {
            alloc,
            ring: Ring::new(alloc),
            far: Sorted::new(alloc),
        }
    }

    /// Puts a message in its place by its key. Where memory is refused, the message comes back and the queue stays
    /// as it was.
    #[inline(always)]
    pub fn insert<L: Ledger>(&mut self, message: Stamped, steps: &mut Steps<L>) -> Result<(), Back>
        requires new_key { HasNoKey (key_of message) self.old }
        ensures ok { OnOk result (self.new ≡ insert_of message self.old) }
        ensures back { IfErr result (λ back. back.message ≡ message) }
        ensures err { OnErr result (self.new ≡ self.old) }
        ensures rising { IsRising self.new }
        ensures step { steps.new ≡ steps.old + 1 }
    {
        steps.tick();
        let letter = Letter::new(self.alloc, message)?;
        match self.put(letter) {
            Ok(()) => Ok(()),
            Err(letter) => Err(Back {
                message: letter.into_message(),
            }),
        }
    }

    /// The same with a message that has its place.
    #[inline(always)]
    pub fn insert_letter<L: Ledger>(
        &mut self,
        message: Letter,
        steps: &mut Steps<L>,
    ) -> Result<(), Letter>
        requires new_key { HasNoKey (key_of message) self.old }
        ensures ok { OnOk result (self.new ≡ insert_of message self.old) }
        ensures back { IfErr result (λ back. back ≡ message) }
        ensures err { OnErr result (self.new ≡ self.old) }
        ensures rising { IsRising self.new }
        ensures step { steps.new ≡ steps.old + 1 }
    {
        steps.tick();
        self.put(message)
    }

    /// Puts a message that has its place among the others by its key.
    #[inline(always)]
    fn put(&mut self, message: Letter) -> Result<(), Letter>
        requires new_key { HasNoKey (key_of message) self.old }
        ensures ok { OnOk result (self.new ≡ insert_of message self.old) }
        ensures back { IfErr result (λ back. back ≡ message) }
        ensures err { OnErr result (self.new ≡ self.old) }
        ensures rising { IsRising self.new }
    {
        if self.ring.is_near(message.message().time) {
            self.ring.insert(message)
        } else {
            self.far.insert(message)
        }
    }

    /// The least key. None exactly where there is no message.
    #[inline(always)]
    pub fn peek<L: Ledger>(&self, steps: &mut Steps<L>) -> Option<Key>
        ensures value { result ≡ peek_of self.now }
        ensures rising { IsRising self.now }
        ensures step { steps.new ≡ steps.old + 1 }
    {
        steps.tick();
        let near = self.ring.peek();
        let far = self.far.peek();
        if is_sooner(near, far) { near } else { far }
    }

    /// Takes the message of the least key out. None exactly where there is no message.
    #[inline(always)]
    pub fn pop<L: Ledger>(&mut self, steps: &mut Steps<L>) -> Option<Stamped>
        ensures value { MatchOption result ((self.old ≡ []) × (self.new ≡ [])) (λ message. self.old ≡ message ∷ self.new) }
        ensures rising { IsRising self.new }
        ensures step { steps.new ≡ steps.old + 1 }
    {
        match self.take(steps) {
            None => None,
            Some(letter) => Some(letter.into_message()),
        }
    }

    /// The same in the message's place.
    #[inline(always)]
    pub fn take<L: Ledger>(&mut self, steps: &mut Steps<L>) -> Option<Letter>
        ensures value { MatchOption result ((self.old ≡ []) × (self.new ≡ [])) (λ message. self.old ≡ message ∷ self.new) }
        ensures rising { IsRising self.new }
        ensures step { steps.new ≡ steps.old + 1 }
    {
        steps.tick();
        if is_sooner(self.ring.peek(), self.far.peek()) {
            self.ring.pop()
        } else {
            self.far.pop()
        }
    }
}

/// Whether the first of the near messages comes before the first of the far ones.
fn is_sooner(near: Option<Key>, far: Option<Key>) -> bool
    ensures { result ≡ is_sooner near far }
{
    match (near, far) {
        (None, _) => false,
        (Some(_), None) => true,
        (Some(near), Some(far)) => near < far,
    }
}
