ghost use Rattle.std.specs.Prelude.{◌≡◌, ◌≤◌, ◌+◌, [], ◌∷◌, length, IfErr, OnOk, OnErr, MatchOption};
ghost use Rattle.wt_proto.specs.Messages.{key_of};
ghost use Rattle.event_queue.specs.Rising.{IsRising, HasNoKey, insert_of, peek_of};

use event_queue::{Queue, Steps};
use std::alloc::Global;
use std::marker::Model;
use std::sync::ledger::Ledger;
use wt_proto::{Key, Letter};

/// A queue, and how many messages it has. Contracts see the list of its messages.
#[derive(Debug, Drop)]
pub struct CountedQueue {
    queue: Queue,
    count: u64,
}

impl Model for CountedQueue {
    ghost use Rattle.std.specs.Prelude.{List};
    ghost use Rattle.wt_proto.specs.declared.message.Stamped.{Stamped};
    ghost use Rattle.quantum.specs.Counted.{IsCounted};

    ghost Value = { List Stamped };

    ghost view = { λ counted. counted.queue };

    ghost invariant = { λ counted. IsCounted counted.queue counted.count };
}

impl CountedQueue {
    /// No messages. It takes no memory.
    pub fn new(alloc: Global) -> CountedQueue
        ensures { result ≡ [] }
    {
        CountedQueue {
            queue: Queue::new(alloc),
            count: 0,
        }
    }

    /// How many messages there are. This is no call of the queue.
    pub fn len(&self) -> u64
        ensures value { result ≡ length self.now }
        ensures rising { IsRising self.now }
    {
        self.count
    }

    /// Puts a message in its place by its key. Where memory is refused, the message comes back and the queue stays
    /// as it was.
    #[inline(always)]
    pub fn insert_letter<L: Ledger>(
        &mut self,
        message: Letter,
        steps: &mut Steps<L>,
    ) -> Result<(), Letter>
        requires new_key { HasNoKey (key_of message) self.old }
        ensures ok { OnOk result (self.new ≡ insert_of message self.old) }
        ensures back { IfErr result (λ back. back ≡ message) }
        ensures err { OnErr result (self.new ≡ self.old) }
        ensures rising { IsRising self.new }
        ensures step { OnOk result (steps.new ≡ steps.old + 1) }
        ensures bound { steps.new ≤ steps.old + 1 }
    {
        if self.count == u64::MAX {
            return Err(message);
        }
        match self.queue.insert_letter(message, steps) {
            Ok(()) => {
                self.count += 1;
                Ok(())
            }
            Err(message) => Err(message),
        }
    }

    /// The least key. None exactly where there is no message.
    #[inline(always)]
    pub fn peek<L: Ledger>(&self, steps: &mut Steps<L>) -> Option<Key>
        ensures value { result ≡ peek_of self.now }
        ensures rising { IsRising self.now }
        ensures step { steps.new ≡ steps.old + 1 }
    {
        self.queue.peek(steps)
    }

    /// Takes the message of the least key out, in its place. None exactly where there is no message.
    #[inline(always)]
    pub fn take<L: Ledger>(&mut self, steps: &mut Steps<L>) -> Option<Letter>
        ensures value { MatchOption result ((self.old ≡ []) × (self.new ≡ [])) (λ message. self.old ≡ message ∷ self.new) }
        ensures rising { IsRising self.new }
        ensures step { steps.new ≡ steps.old + 1 }
    {
        match self.queue.take(steps) {
            None => None,
            Some(letter) => {
                self.count -= 1;
                Some(letter)
            }
        }
    }
}
