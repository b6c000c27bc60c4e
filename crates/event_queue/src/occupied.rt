ghost use Rattle.std.specs.Prelude.{◌≡◌, ◌≢◌, ◌<◌, ℕ, MatchOption};
ghost use Rattle.std.specs.Int.{bit_at};
ghost use Rattle.event_queue.specs.Marks.{IsFirstMark, mark_at};

use std::marker::Model;

/// How many cycles the ring has. Each has a mark, 64 of them in a word.
pub(crate) const CYCLES: usize = 256;

const WORDS: usize = CYCLES / 64;

/// Which places are occupied. Contracts see the words that keep a mark for each.
#[derive(Debug, Drop)]
pub(crate) struct Occupied {
    words: [u64; WORDS],
}

impl Model for Occupied {
    ghost use Rattle.std.specs.Prelude.{◌≡◌, List, ℕ, length};
    ghost use Rattle.event_queue.specs.declared.occupied.TheConstants.{WORDS};

    ghost Value = { List ℕ };

    ghost view = { λ occupied. occupied.words };

    ghost invariant = { λ occupied. length occupied.words ≡ WORDS };
}

impl Occupied {
    /// No place.
    pub fn new() -> Occupied
        ensures { (place : ℕ) → mark_at place result ≡ 0 }
    {
        Occupied { words: [0; WORDS] }
    }

    /// Marks a place.
    #[inline(always)]
    pub fn set(&mut self, place: usize)
        requires { place < CYCLES }
        ensures this { mark_at place self.new ≡ 1 }
        ensures others { (other : ℕ) → other ≢ place → mark_at other self.new ≡ mark_at other self.old }
    {
        let word = with_bit(self.words[place / 64], place % 64);
        self.words[place / 64] = word;
    }

    /// Takes the mark of a place away.
    #[inline(always)]
    pub fn clear(&mut self, place: usize)
        requires { place < CYCLES }
        ensures this { mark_at place self.new ≡ 0 }
        ensures others { (other : ℕ) → other ≢ place → mark_at other self.new ≡ mark_at other self.old }
    {
        let word = without_bit(self.words[place / 64], place % 64);
        self.words[place / 64] = word;
    }

    /// The first place that is marked. None exactly where no place is.
    #[inline(always)]
    pub fn first(&self) -> Option<usize>
        ensures { MatchOption result ((place : ℕ) → place < CYCLES → mark_at place self.now ≡ 0) (λ first. IsFirstMark first self.now) }
    {
        for (i, word) in self.words.iter().enumerate() {
            if *word != 0 {
                return Some(64 * i + word.trailing_zeros() as usize);
            }
        }
        None
    }
}

/// A word with one more bit set.
fn with_bit(word: u64, bit: usize) -> u64
    requires { bit < 64 }
    ensures this { bit_at result bit ≡ 1 }
    ensures others { (other : ℕ) → other ≢ bit → bit_at result other ≡ bit_at word other }
{
    word | (1 << bit)
}

/// A word with one bit cleared.
fn without_bit(word: u64, bit: usize) -> u64
    requires { bit < 64 }
    ensures this { bit_at result bit ≡ 0 }
    ensures others { (other : ℕ) → other < 64 → other ≢ bit → bit_at result other ≡ bit_at word other }
{
    word & !(1 << bit)
}
