ghost use Rattle.std.specs.Prelude.{◌≡◌};

use std::marker::Model;

/// The bytes of a segment. Contracts see them as their list.
#[derive(Debug, Drop)]
pub struct Bytes {
    inner: Vec<u8>,
}

impl Model for Bytes {
    ghost use Rattle.std.specs.Prelude.{List, ℕ};

    ghost Value = { List ℕ };

    ghost view = { λ b. b.inner.items };
}

impl Bytes {
    /// These bytes.
    pub fn new(inner: Vec<u8>) -> Bytes
        ensures { result ≡ inner.items }
    {
        Bytes { inner }
    }

    /// The bytes in their order.
    pub fn get(&self) -> &[u8]
        ensures { result.now ≡ self.now }
    {
        self.inner.as_slice()
    }

    /// The bytes given back.
    pub fn into_inner(self) -> Vec<u8>
        ensures { result.items ≡ self }
    {
        self.inner
    }
}

/// A run of bytes of a program, and where it goes.
#[derive(Debug, Drop)]
pub struct Segment {
    /// The address of the first byte.
    pub at: u32,
    /// The first bytes. Those after them, up to the size, are zero.
    pub bytes: Bytes,
    /// How many bytes the segment has in memory.
    pub size: u32,
}

/// The segments of a program. Contracts see them as their list.
#[derive(Debug, Drop)]
pub struct Segments {
    inner: Vec<Segment>,
}

impl Model for Segments {
    ghost use Rattle.std.specs.Prelude.{List};
    ghost use Rattle.elf_image.specs.declared.image.Segment.{Segment};

    ghost Value = { List Segment };

    ghost view = { λ s. s.inner.items };
}

impl Segments {
    /// These segments.
    pub fn new(inner: Vec<Segment>) -> Segments
        ensures { result ≡ inner.items }
    {
        Segments { inner }
    }

    /// The segments in their order.
    pub fn get(&self) -> &[Segment]
        ensures { result.now ≡ self.now }
    {
        self.inner.as_slice()
    }

    /// The segments given back.
    pub fn into_inner(self) -> Vec<Segment>
        ensures { result.items ≡ self }
    {
        self.inner
    }
}

/// A program: its segments, and the address of its first instruction.
#[derive(Debug, Drop)]
pub struct Image {
    /// The address of the first instruction.
    pub entry: u32,
    /// What goes into memory, in this order.
    pub segments: Segments,
}
