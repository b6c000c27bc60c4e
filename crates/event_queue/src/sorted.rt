ghost use Rattle.std.specs.Prelude.{◌≡◌, ◌≤◌, true, false, [], ◌∷◌, length, IfErr, OnOk, OnErr, MatchOption, IsTrue, ◌↔◌};
ghost use Rattle.std.specs.List.{AllWithin};
ghost use Rattle.wt_proto.specs.Messages.{key_of};
ghost use Rattle.event_queue.specs.Rising.{IsRising, HasNoKey, is_before, insert_of, peek_of};

use std::alloc::Global;
use std::collections::VecDeque;
use std::marker::Model;
use wt_proto::{Key, Letter};

/// Messages in one row, the one of the least key first. No two have the same key. Contracts see them as a list.
#[derive(Debug, Drop)]
pub(crate) struct Sorted {
    letters: VecDeque<Letter>,
}

impl Model for Sorted {
    ghost use Rattle.std.specs.Prelude.{List};
    ghost use Rattle.wt_proto.specs.declared.message.Stamped.{Stamped};
    ghost use Rattle.event_queue.specs.Rising.{IsRising};

    ghost Value = { List Stamped };

    ghost view = { λ sorted. sorted.letters.items };

    ghost invariant = { λ sorted. IsRising sorted.letters.items };
}

impl Sorted {
    /// No messages. It takes no memory.
    pub fn new(alloc: Global) -> Sorted
        ensures { result ≡ [] }
    {
        Sorted {
            letters: VecDeque::new(alloc),
        }
    }

    /// Whether there is no message.
    #[inline(always)]
    pub fn is_empty(&self) -> bool
        ensures { IsTrue result ↔ (self.now ≡ []) }
    {
        self.letters.is_empty()
    }

    /// Puts a message in its place by its key. Where memory is refused, the message comes back and the others stay as
    /// they were.
    #[inline(always)]
    pub fn insert(&mut self, message: Letter) -> Result<(), Letter>
        requires new_key { HasNoKey (key_of message) self.old }
        ensures ok { OnOk result (self.new ≡ insert_of message self.old) }
        ensures back { IfErr result (λ back. back ≡ message) }
        ensures err { OnErr result (self.new ≡ self.old) }
        ensures rising { IsRising self.new }
    {
        let place = self.place(message.key());
        match self.letters.insert(place, message) {
            Ok(()) => Ok(()),
            Err(refused) => Err(refused.value),
        }
    }

    /// The place for a message of this key: all those before it have lesser keys, and no other has.
    #[inline(always)]
    fn place(&self, key: Key) -> usize
        ensures bound { result ≤ length self.now }
        ensures before { AllWithin (λ message. is_before key message ≡ true) self.now 0 result }
        ensures after { AllWithin (λ message. is_before key message ≡ false) self.now result (length self.now) }
    {
        self.letters
            .partition_point(|message| message.key().cmp(&key).is_lt())
    }

    /// The least key. None exactly where there is no message.
    #[inline(always)]
    pub fn peek(&self) -> Option<Key>
        ensures value { result ≡ peek_of self.now }
        ensures rising { IsRising self.now }
    {
        self.letters.front().map(|message| message.key())
    }

    /// Takes the message of the least key out. None exactly where there is no message.
    #[inline(always)]
    pub fn pop(&mut self) -> Option<Letter>
        ensures value { MatchOption result ((self.old ≡ []) × (self.new ≡ [])) (λ message. self.old ≡ message ∷ self.new) }
        ensures rising { IsRising self.new }
    {
        self.letters.pop_front()
    }
}
