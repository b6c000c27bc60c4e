ghost use Rattle.std.specs.Prelude.{◌≡◌, ◌<◌, [], ◌∷◌, length, IfErr, IfOk, OnOk, OnErr, MatchOption, slice_index_or, slice_set};
ghost use Rattle.wt_proto.specs.Messages.{key_of};
ghost use Rattle.event_queue.specs.Rising.{HasNoKey, insert_of, peek_of};
ghost use Rattle.event_queue.specs.Cycles.{IsFirstFilled, joined, padded};

use crate::occupied::{CYCLES, Occupied};
use crate::sorted::Sorted;
use std::alloc::{AllocError, Global};
use std::marker::Model;
use wt_proto::{Key, Letter};

/// A row of sorted messages for each of 256 places. Contracts see the list of the rows.
#[derive(Debug, Drop)]
pub(crate) struct Slots {
    /// None before the first message, all of them from then on.
    rows: Vec<Sorted>,
    /// The places that have messages.
    occupied: Occupied,
}

impl Model for Slots {
    ghost use Rattle.std.specs.Prelude.{List};
    ghost use Rattle.wt_proto.specs.declared.message.Stamped.{Stamped};
    ghost use Rattle.event_queue.specs.Cycles.{AreMarked, padded};

    ghost Value = { List (List Stamped) };

    ghost view = { λ slots. padded slots.rows.items };

    ghost invariant = { λ slots. AreMarked slots.rows.items slots.occupied };
}

impl Slots {
    /// No messages. It takes no memory.
    pub fn new(alloc: Global) -> Slots
        ensures { result ≡ padded [] }
    {
        Slots {
            rows: Vec::new(alloc),
            occupied: Occupied::new(),
        }
    }

    /// Puts a message into the row of a place. Where memory is refused, the message comes back and the rows stay as they
    /// were.
    #[inline(always)]
    pub fn put(&mut self, place: usize, message: Letter) -> Result<(), Letter>
        requires within { place < CYCLES }
        requires new_key { HasNoKey (key_of message) (slice_index_or self.old place []) }
        ensures ok { OnOk result (self.new ≡ slice_set self.old place (insert_of message (slice_index_or self.old place []))) }
        ensures back { IfErr result (λ back. back ≡ message) }
        ensures err { OnErr result (self.new ≡ self.old) }
    {
        match make(&mut self.rows) {
            Ok(()) => {}
            Err(AllocError) => return Err(message),
        }
        let row = &mut self.rows[place];
        match row.insert(message) {
            Ok(()) => {
                self.occupied.set(place);
                Ok(())
            }
            Err(back) => Err(back),
        }
    }

    /// The first place that has messages. None exactly where there are none.
    #[inline(always)]
    pub fn first(&self) -> Option<usize>
        ensures { MatchOption result (joined self.now ≡ []) (λ place. IsFirstFilled place self.now) }
    {
        self.occupied.first()
    }

    /// The least key of a place.
    #[inline(always)]
    pub fn peek(&self, place: usize) -> Option<Key>
        ensures { result ≡ peek_of (slice_index_or self.now place []) }
    {
        match self.rows.get(place) {
            None => None,
            Some(row) => row.peek(),
        }
    }

    /// Takes the first message of a place out.
    #[inline(always)]
    pub fn take(&mut self, place: usize) -> Option<Letter>
        requires { place < CYCLES }
        ensures rows { self.new ≡ slice_set self.old place (slice_index_or self.new place []) }
        ensures value { MatchOption result ((slice_index_or self.old place [] ≡ []) × (self.new ≡ self.old)) (λ message. slice_index_or self.old place [] ≡ message ∷ slice_index_or self.new place []) }
    {
        if self.rows.is_empty() {
            return None;
        }
        let row = &mut self.rows[place];
        let first = row.pop();
        if row.is_empty() {
            self.occupied.clear(place);
        }
        first
    }
}

/// Makes the rows where there are none. Where memory is refused, there are none as before.
fn make(rows: &mut Vec<Sorted>) -> Result<(), AllocError>
    ensures ok { OnOk result (rows.new.items ≡ padded rows.old.items) }
    ensures err { OnErr result (rows.new.items ≡ rows.old.items) }
{
    if rows.is_empty() {
        *rows = empty_rows(*rows.allocator())?;
    }
    Ok(())
}

#[cold]
#[inline(never)]
fn empty_rows(alloc: Global) -> Result<Vec<Sorted>, AllocError>
    ensures { IfOk result (λ rows. rows.items ≡ padded []) }
{
    let mut rows = Vec::with_capacity(alloc, CYCLES)?;
    for _place in 0..CYCLES {
        rows.push(Sorted::new(alloc))?;
    }
    Ok(rows)
}
