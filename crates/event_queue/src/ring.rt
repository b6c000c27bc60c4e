ghost use Rattle.std.specs.Prelude.{◌≡◌, ◌+◌, ◌<◌, ◌≤◌, ◌⊎◌, [], ◌∷◌, IfErr, OnOk, OnErr, MatchOption, IsTrue, ◌↔◌};
ghost use Rattle.wt_proto.specs.Messages.{key_of};
ghost use Rattle.event_queue.specs.Rising.{HasNoKey, IsRising, insert_of, peek_of};
ghost use Rattle.event_queue.specs.Cycles.{IsNear};

use crate::occupied::CYCLES;
use crate::slots::Slots;
use std::alloc::Global;
use std::marker::Model;
use wt_proto::{Key, Letter};

/// Messages of 256 cycles in a row. The first of these cycles is the base: it changes only where there are no messages.
#[derive(Debug, Drop)]
pub(crate) struct Ring {
    base: u64,
    /// The messages by their times, counted from the base.
    slots: Slots,
}

impl Model for Ring {
    ghost use Rattle.event_queue.specs.Cycles.{RingModel, IsRing, joined};

    ghost Value = { RingModel };

    ghost view = { λ ring. record { base = ring.base; messages = joined ring.slots } };

    ghost invariant = { λ ring. IsRing ring.base ring.slots };
}

impl Ring {
    /// No messages. It takes no memory.
    pub fn new(alloc: Global) -> Ring
        ensures { result.messages ≡ [] }
    {
        Ring {
            base: 0,
            slots: Slots::new(alloc),
        }
    }

    /// Whether a message of this time has its place here.
    #[inline(always)]
    pub fn is_near(&self, time: u64) -> bool
        ensures { IsTrue result ↔ IsNear self.now time }
    {
        match self.slots.first() {
            None => true,
            Some(_place) => self.base <= time && time - self.base < CYCLES as u64,
        }
    }

    /// Puts a message in its place by its key. Where memory is refused, the message comes back and the others stay as
    /// they were.
    #[inline(always)]
    pub fn insert(&mut self, message: Letter) -> Result<(), Letter>
        requires near { IsNear self.old message.time }
        requires new_key { HasNoKey (key_of message) self.old.messages }
        ensures ok { OnOk result (self.new.messages ≡ insert_of message self.old.messages) }
        ensures back { IfErr result (λ back. back ≡ message) }
        ensures err { OnErr result (self.new.messages ≡ self.old.messages) }
        ensures rising { IsRising self.new.messages }
    {
        let time = message.message().time;
        let base = self.base_for(time);
        let place = (time - base) as usize;
        self.base = base;
        self.slots.put(place, message)
    }

    /// The base with a message of this time: the time itself where there are no messages.
    #[inline(always)]
    fn base_for(&self, time: u64) -> u64
        requires { IsNear self.now time }
        ensures low { result ≤ time }
        ensures high { time < result + CYCLES }
        ensures kept { (self.now.messages ≡ []) ⊎ (result ≡ self.now.base) }
    {
        match self.slots.first() {
            None => time,
            Some(_place) => self.base,
        }
    }

    /// The least key. None exactly where there is no message.
    #[inline(always)]
    pub fn peek(&self) -> Option<Key>
        ensures value { result ≡ peek_of self.now.messages }
        ensures rising { IsRising self.now.messages }
    {
        match self.slots.first() {
            None => None,
            Some(place) => self.slots.peek(place),
        }
    }

    /// Takes the message of the least key out. None exactly where there is no message.
    #[inline(always)]
    pub fn pop(&mut self) -> Option<Letter>
        ensures value { MatchOption result ((self.old.messages ≡ []) × (self.new.messages ≡ [])) (λ message. self.old.messages ≡ message ∷ self.new.messages) }
        ensures rising { IsRising self.new.messages }
    {
        match self.slots.first() {
            None => None,
            Some(place) => self.slots.take(place),
        }
    }
}
