ghost use Rattle.std.specs.Prelude.{◌≡◌, [], ◌∷◌, ◌++◌, ◌↔◌, length, IsTrue, OnErr, OnOk, MatchOption, slice_get};
ghost use Rattle.std.specs.Option.{option_copied};

use crate::state::Send;
use std::alloc::Global;
use std::marker::Model;
use std::mem;
use wt_params::NoMemory;
use wt_proto::{Fifo, Sends};

/// The messages of the event that is handled, in order of sending. Contracts see the list of them.
#[derive(Drop)]
pub struct SendList {
    sends: Fifo<Send>,
    /// A list without messages, lent to what sends at one time, so that no event makes a list of its own.
    spare: Sends,
}

impl Model for SendList {
    ghost use Rattle.std.specs.Prelude.{◌≡◌, List, []};
    ghost use Rattle.node.specs.declared.state.Send.{Send};

    ghost Value = { List Send };

    ghost view = { λ list. list.sends };

    ghost invariant = { λ list. list.spare ≡ [] };
}

impl SendList {
    /// No messages. It takes no memory.
    pub fn new(alloc: Global) -> SendList
        ensures { result ≡ [] }
    {
        SendList {
            sends: Fifo::new(alloc),
            spare: Sends::new(alloc),
        }
    }

    /// How many messages there are.
    pub fn len(&self) -> u64
        ensures { result ≡ length self.now }
    {
        self.sends.len()
    }

    /// Whether there are none.
    #[inline(always)]
    pub fn is_empty(&self) -> bool
        ensures { IsTrue result ↔ (self.now ≡ []) }
    {
        self.sends.is_empty()
    }

    /// A message by its place, counted from 0. None exactly from the end on.
    pub fn get(&self, i: u64) -> Option<&Send>
        ensures { option_copied result ≡ slice_get self.now i }
    {
        self.sends.get(i)
    }

    /// Puts a message at the end. Where memory is refused, all stays as it was.
    #[inline(always)]
    pub fn push(&mut self, send: Send) -> Result<(), NoMemory>
        ensures ok { OnOk result (self.new ≡ self.old ++ send ∷ []) }
        ensures err { OnErr result (self.new ≡ self.old) }
    {
        self.sends.push(send)
    }

    /// Takes the first message out. None exactly where there is none.
    #[inline(always)]
    pub fn pop_first(&mut self) -> Option<Send>
        ensures { MatchOption result ((self.old ≡ []) × (self.new ≡ [])) (λ send. self.old ≡ send ∷ self.new) }
    {
        self.sends.pop_first()
    }

    /// Lends a list without messages.
    pub fn lend(&mut self, alloc: Global) -> Sends
        ensures empty { result ≡ [] }
        ensures same { self.new ≡ self.old }
    {
        mem::replace(&mut self.spare, Sends::new(alloc))
    }

    /// Takes a list that was lent back, once its messages are out of it.
    pub fn take_back(&mut self, list: Sends)
        requires { list ≡ [] }
        ensures { self.new ≡ self.old }
    {
        self.spare = list;
    }
}
