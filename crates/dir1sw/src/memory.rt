ghost use Rattle.std.specs.Prelude.{◌≡◌, ◌+◌, ◌≤◌, length, replicate, IfOk, OnOk, IsOk};
ghost use Rattle.std.specs.List.{splice};
ghost use Rattle.wt_params.specs.Machine.{IsBlockSize};

use std::alloc::Global;
use std::marker::Model;
use wt_params::NoMemory;
use wt_proto::Block;

/// The memory of a block at its home: as many bytes as a block of the machine has. Contracts see it as their list.
#[derive(Debug, Drop)]
pub struct BlockMemory {
    bytes: Vec<u8>,
}

impl Model for BlockMemory {
    ghost use Rattle.std.specs.Prelude.{List, ℕ, length};
    ghost use Rattle.wt_params.specs.Machine.{IsBlockSize};

    ghost Value = { List ℕ };

    ghost view = { λ memory. memory.bytes.items };

    ghost invariant = { λ memory. IsBlockSize (length memory.bytes.items) };
}

impl BlockMemory {
    /// So many bytes, all zero. It takes all its memory here.
    pub(crate) fn new(alloc: Global, size: usize) -> Result<BlockMemory, NoMemory>
        requires { IsBlockSize size }
        ensures { IfOk result (λ memory. memory ≡ replicate size 0) }
    {
        let bytes = vec![in alloc; 0u8; size]?;
        Ok(BlockMemory { bytes })
    }

    /// Its bytes.
    pub(crate) fn bytes(&self) -> &[u8]
        ensures { result.now ≡ self.now }
    {
        self.bytes.as_slice()
    }

    /// Its bytes, as a block.
    pub(crate) fn block(&self) -> Block
        ensures { result ≡ self.now }
    {
        Block::new(&self.bytes)
    }

    /// Writes the bytes of a block over its own. It takes no memory, so it has no room for a block of another size.
    pub(crate) fn replace(&mut self, block: &Block) -> Result<(), NoMemory>
        ensures value { OnOk result (self.new ≡ block.now) }
        ensures fits { length block.now ≡ length self.old → IsOk result }
    {
        let bytes = block.bytes();
        if bytes.len() != self.bytes.len() {
            return Err(NoMemory);
        }
        self.bytes.copy_from_slice(bytes);
        Ok(())
    }

    /// Writes bytes into it from a place on.
    pub(crate) fn overwrite(&mut self, start: usize, bytes: &[u8])
        requires { start + length bytes.now ≤ length self.old }
        ensures { self.new ≡ splice self.old start (start + length bytes.now) bytes.now }
    {
        self.bytes[start..start + bytes.len()].copy_from_slice(bytes);
    }
}
