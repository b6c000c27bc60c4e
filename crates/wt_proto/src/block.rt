ghost use Rattle.std.specs.Prelude.{◌≡◌, ◌+◌, ◌≤◌, length};
ghost use Rattle.std.specs.List.{splice};
ghost use Rattle.wt_params.specs.Machine.{IsBlockSize};

use std::marker::Model;

/// The bytes of the largest block.
const MOST_BYTES: usize = 128;

/// The bytes of one block of shared memory: 16, 32, 64 or 128 of them, kept in place. Contracts see it as their
/// list.
#[derive(Debug, Drop)]
pub struct Block {
    bytes: [u8; MOST_BYTES],
    len: usize,
}

impl Model for Block {
    ghost use Rattle.std.specs.Prelude.{List, ℕ, take};
    ghost use Rattle.wt_proto.specs.Blocks.{AreKept};

    ghost Value = { List ℕ };

    ghost view = { λ block. take block.len block.bytes };

    ghost invariant = { λ block. AreKept block.bytes block.len };
}

impl PartialEq for Block {
    ghost use Rattle.std.specs.Prelude.{nat_eq};
    ghost use Rattle.std.specs.Cmp.Lexicographic.{pointwise};
    ghost use Rattle.std.specs.Cmp.Rules.{comparing};
    ghost use Rattle.std.proofs.Common.{rules};

    ghost eq = { pointwise nat_eq };

    ghost laws = { Prim.search (comparing, rules) };

    fn eq(&self, other: &Block) -> bool {
        self.bytes() == other.bytes()
    }
}

impl Eq for Block {
    ghost use Rattle.std.specs.Cmp.Rules.{comparing};
    ghost use Rattle.std.proofs.Common.{rules};

    ghost laws = { Prim.search (comparing, rules) };
}

impl Block {
    /// A block of these bytes.
    pub fn new(bytes: &[u8]) -> Block
        requires { IsBlockSize (length bytes.now) }
        ensures { result ≡ bytes.now }
    {
        let mut all = [0; MOST_BYTES];
        all[..bytes.len()].copy_from_slice(bytes);
        Block {
            bytes: all,
            len: bytes.len(),
        }
    }

    /// The same bytes once more.
    pub fn copy(&self) -> Block
        ensures { result ≡ self.now }
    {
        Block {
            bytes: self.bytes,
            len: self.len,
        }
    }

    /// Its bytes.
    pub fn bytes(&self) -> &[u8]
        ensures value { result.now ≡ self.now }
        ensures size { IsBlockSize (length result.now) }
    {
        &self.bytes[..self.len]
    }

    /// Writes bytes into it from a place on.
    pub fn overwrite(&mut self, start: usize, bytes: &[u8])
        requires { start + length bytes.now ≤ length self.old }
        ensures value { self.new ≡ splice self.old start (start + length bytes.now) bytes.now }
        ensures size { length self.new ≡ length self.old }
    {
        write_part(&mut self.bytes, start, bytes);
    }
}

fn write_part(all: &mut [u8], start: usize, part: &[u8])
    requires { start + length part.now ≤ length all.old }
    ensures { all.new ≡ splice all.old start (start + length part.now) part.now }
{
    all[start..start + part.len()].copy_from_slice(part);
}
