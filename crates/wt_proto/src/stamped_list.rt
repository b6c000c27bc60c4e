ghost use Rattle.std.specs.Prelude.{◌≡◌, ◌<◌, [], ◌∷◌, ◌++◌, ◌↔◌, length, IsTrue, IsSome, IfOk, IfSome, IfNone, OnSome, OnOk, OnErr, MatchOption, slice_get, slice_index_or};
ghost use Rattle.std.specs.List.{remove};
ghost use Rattle.std.specs.Option.{option_copied};

use crate::fifo::Fifo;
use crate::letter::Letter;
use crate::message::Stamped;
use std::alloc::Global;
use std::marker::Model;
use wt_params::NoMemory;

/// Messages with their stamps, in order, each in a place of its own. Contracts see the list of them. A new one holds no
/// memory, and the place of a message that is gone is kept for the next one, once it is given back.
#[derive(Debug, Drop)]
pub struct StampedList {
    alloc: Global,
    letters: Fifo<Letter>,
    /// The places of messages that are gone, to be used again.
    used: Vec<Letter>,
}

impl Model for StampedList {
    ghost use Rattle.std.specs.Prelude.{List};
    ghost use Rattle.wt_proto.specs.declared.message.Stamped.{Stamped};

    ghost Value = { List Stamped };

    ghost view = { λ list. list.letters };
}

impl StampedList {
    /// A list without messages. It takes no memory.
    pub fn new(alloc: Global) -> StampedList
        ensures { result ≡ [] }
    {
        StampedList {
            alloc,
            letters: Fifo::new(alloc),
            used: Vec::new(alloc),
        }
    }

    /// How many messages there are.
    #[inline(always)]
    pub fn len(&self) -> u64
        ensures { result ≡ length self.now }
    {
        self.letters.len()
    }

    /// Whether there are none.
    #[inline(always)]
    pub fn is_empty(&self) -> bool
        ensures { IsTrue result ↔ (self.now ≡ []) }
    {
        self.letters.is_empty()
    }

    /// A message by its place, counted from 0. None exactly from the end on.
    #[inline(always)]
    pub fn get(&self, i: u64) -> Option<&Stamped>
        ensures { option_copied result ≡ slice_get self.now i }
    {
        match self.letters.get(i) {
            None => None,
            Some(letter) => Some(letter.message()),
        }
    }

    /// Puts a message at the end. Where memory is refused, all stays as it was.
    #[inline(always)]
    pub fn push(&mut self, message: Stamped) -> Result<(), NoMemory>
        ensures ok { OnOk result (self.new ≡ self.old ++ message ∷ []) }
        ensures err { OnErr result (self.new ≡ self.old) }
    {
        let letter = self.write(message)?;
        self.letters.push(letter)
    }

    /// The same with a message that has its place.
    #[inline(always)]
    pub fn push_letter(&mut self, letter: Letter) -> Result<(), NoMemory>
        ensures ok { OnOk result (self.new ≡ self.old ++ letter ∷ []) }
        ensures err { OnErr result (self.new ≡ self.old) }
    {
        self.letters.push(letter)
    }

    /// Takes the first message out. None exactly where there is none.
    pub fn pop_first(&mut self) -> Option<Stamped>
        ensures { MatchOption result ((self.old ≡ []) × (self.new ≡ [])) (λ message. self.old ≡ message ∷ self.new) }
    {
        match self.letters.pop_first() {
            None => None,
            Some(letter) => Some(letter.into_message()),
        }
    }

    /// The same in the message's place.
    #[inline(always)]
    pub fn pop_letter(&mut self) -> Option<Letter>
        ensures { MatchOption result ((self.old ≡ []) × (self.new ≡ [])) (λ message. self.old ≡ message ∷ self.new) }
    {
        self.letters.pop_first()
    }

    /// Takes a message out in its place, by its place in the list, counted from 0. None exactly from the end on, where
    /// nothing changes.
    #[inline(always)]
    pub fn remove_letter(&mut self, i: u64) -> Option<Letter>
        ensures there { IsSome result ↔ (i < length self.old) }
        ensures value { IfSome result (λ message. message ≡ slice_index_or self.old i message) }
        ensures rest { OnSome result (self.new ≡ remove self.old i) }
        ensures none { IfNone result (self.new ≡ self.old) }
    {
        self.letters.remove(i)
    }

    /// Takes all messages out.
    pub fn clear(&mut self)
        ensures { self.new ≡ [] }
    {
        self.letters.clear();
    }

    /// Keeps the place of a message that is gone, to be used again.
    #[inline(always)]
    pub fn give_back(&mut self, letter: Letter)
        ensures { self.new ≡ self.old }
    {
        let _ = self.used.push(letter);
    }

    /// Writes a message into a place that was used, or into a new one.
    #[inline(always)]
    fn write(&mut self, message: Stamped) -> Result<Letter, NoMemory>
        ensures value { IfOk result (λ letter. letter ≡ message) }
        ensures same { self.new ≡ self.old }
    {
        match self.used.pop() {
            None => match Letter::new(self.alloc, message) {
                Ok(letter) => Ok(letter),
                Err(_back) => Err(NoMemory),
            },
            Some(used) => {
                let mut letter = used;
                letter.rewrite(message);
                Ok(letter)
            }
        }
    }
}
