ghost use Rattle.std.specs.Prelude.{◌≡◌, ◌<◌, [], ◌∷◌, ◌++◌, ◌↔◌, length, IsTrue, IsSome, IfSome, IfNone, OnSome, OnOk, OnErr, MatchOption, slice_get, slice_index_or};
ghost use Rattle.std.specs.List.{remove};
ghost use Rattle.std.specs.Option.{option_copied};

use std::alloc::Global;
use std::collections::VecDeque;
use std::marker::Model;
use wt_params::NoMemory;

/// A list that grows at its end and is taken from at its front. Contracts see it as the list of its items. A new one
/// holds no memory, and what an item took is kept for the next one.
#[derive(Debug, Drop)]
pub struct Fifo<T> {
    items: VecDeque<T>,
}

impl<T> Model for Fifo<T> {
    ghost use Rattle.std.specs.Prelude.{List};

    ghost Value = { List T };

    ghost view = { λ list. list.items.items };
}

impl<T> Fifo<T> {
    /// A list without items. It takes no memory.
    pub fn new(alloc: Global) -> Fifo<T>
        ensures { result ≡ [] }
    {
        Fifo {
            items: VecDeque::new(alloc),
        }
    }

    /// How many items there are.
    pub fn len(&self) -> u64
        ensures { result ≡ length self.now }
    {
        self.items.len() as u64
    }

    /// Whether there are none.
    #[inline(always)]
    pub fn is_empty(&self) -> bool
        ensures { IsTrue result ↔ (self.now ≡ []) }
    {
        self.items.is_empty()
    }

    /// An item by its place, counted from 0. None exactly from the end on.
    pub fn get(&self, i: u64) -> Option<&T>
        ensures { option_copied result ≡ slice_get self.now i }
    {
        self.items.get(i as usize)
    }

    /// Puts an item at the end. Where memory is refused, all stays as it was.
    #[inline(always)]
    pub fn push(&mut self, item: T) -> Result<(), NoMemory>
    where
        T: Drop,
        ensures ok { OnOk result (self.new ≡ self.old ++ item ∷ []) }
        ensures err { OnErr result (self.new ≡ self.old) }
    {
        self.items.push_back(item)?;
        Ok(())
    }

    /// Takes an item out by its place, counted from 0. None exactly from the end on, where nothing changes.
    pub fn remove(&mut self, i: u64) -> Option<T>
        ensures there { IsSome result ↔ (i < length self.old) }
        ensures value { IfSome result (λ item. item ≡ slice_index_or self.old i item) }
        ensures rest { OnSome result (self.new ≡ remove self.old i) }
        ensures none { IfNone result (self.new ≡ self.old) }
    {
        self.items.remove(i as usize)
    }

    /// Takes the first item out. None exactly where there is none.
    #[inline(always)]
    pub fn pop_first(&mut self) -> Option<T>
        ensures { MatchOption result ((self.old ≡ []) × (self.new ≡ [])) (λ item. self.old ≡ item ∷ self.new) }
    {
        self.items.pop_front()
    }

    /// Takes all items out.
    pub fn clear(&mut self)
    where
        T: Drop,
        ensures { self.new ≡ [] }
    {
        self.items.clear();
    }
}
