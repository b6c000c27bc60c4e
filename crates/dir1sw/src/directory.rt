ghost use Rattle.std.specs.Prelude.{◌≡◌, ◌+◌, ◌^◌, ◌<◌, ◌≤◌, ◌/◌, ◌++◌, true, length, replicate, IfOk, OnOk, OnErr, IsErr};
ghost use Rattle.std.specs.List.{splice};
ghost use Rattle.dir1sw.specs.Table.{copies_of, with_memory};
ghost use Rattle.dir1sw.specs.Fits.{RowsFit};
ghost use Rattle.dir1sw.specs.VersionOne.{AreRowsOfVersion1};
ghost use Rattle.dir1sw.specs.Homes.{IsHome, IsBrokenFrom, fresh_block, start_of, block_of, with_block, row_of};

use crate::home::{DirAct, HomeBlock, Place};
use crate::memory::BlockMemory;
use std::alloc::Global;
use std::marker::Model;
use wt_params::{Machine, NoMemory};
use wt_proto::{DirEntry, DirState, Msg, Sends, Waiting};

/// The directory of a node, with the memory of its blocks. After want of memory it is broken: it answers want of
/// memory from then on.
#[derive(Debug, Drop)]
pub struct Directory {
    machine: Machine,
    node: u32,
    /// Block b stands at place b / nodes.
    blocks: Vec<HomeBlock>,
    broken: bool,
}

impl Model for Directory {
    ghost use Rattle.dir1sw.specs.Homes.{Homes, AreHomes};

    ghost Value = { Homes };

    ghost view = { λ d. record { machine = d.machine; node = d.node; blocks = d.blocks.items; broken = d.broken } };

    ghost invariant = { λ d. AreHomes d.machine d.node d.blocks.items };
}

impl Directory {
    /// The directory of a node at the start: nobody holds or awaits a copy, and all memory is zero.
    pub fn new(alloc: Global, machine: &Machine, node: u32) -> Result<Directory, NoMemory>
        requires { node < machine.now.nodes }
        ensures { IfOk result (λ directory. directory ≡ start_of machine.now node) }
    {
        let count = (machine.blocks() + (machine.nodes() - 1 - node as u64)) / machine.nodes();
        let blocks = fresh_blocks(alloc, machine, count as usize)?;
        Ok(Directory {
            machine: *machine,
            node,
            blocks,
            broken: false,
        })
    }

    /// Lays bytes into the memory of a block from an offset on.
    pub fn fill(&mut self, block: u32, offset: u32, bytes: &[u8])
        requires here { IsHome self.old block }
        requires inside { offset + length bytes.now ≤ length (block_of self.old block).memory }
        ensures { self.new ≡ with_block block
            (with_memory (splice (block_of self.old block).memory offset (offset + length bytes.now) bytes.now)
            (block_of self.old block))
            self.old }
    {
        let place = self.place(block);
        let home = &mut self.blocks[place];
        home.memory.overwrite(offset as usize, bytes);
    }

    /// The memory of a block.
    pub fn memory(&self, block: u32) -> &[u8]
        requires { IsHome self.now block }
        ensures { result.now ≡ (block_of self.now block).memory }
    {
        let place = self.place(block);
        self.blocks[place].memory.bytes()
    }

    /// What the home knows of a block.
    pub fn entry(&self, block: u32) -> &DirEntry
        requires { IsHome self.now block }
        ensures { result.now ≡ (block_of self.now block).entry }
    {
        let place = self.place(block);
        &self.blocks[place].entry
    }

    /// Handles a message from a node, by the directory's tables. What is to be sent is added to `out`.
    pub fn arrive(&mut self, from: u32, msg: &Msg, out: &mut Sends) -> Result<DirAct, NoMemory>
        requires here { IsHome self.old msg.now.block }
        requires count { copies_of (block_of self.old msg.now.block).entry.state < 2 ^ 63 }
        ensures home { OnOk result (self.new ≡ with_block msg.now.block (row_of self.old from msg.now).home self.old) }
        ensures sends { OnOk result (out.new ≡ out.old ++ (row_of self.old from msg.now).sends) }
        ensures act { IfOk result (λ act. act ≡ (row_of self.old from msg.now).act) }
        ensures refused { OnErr result (IsBrokenFrom self.old self.new) }
        ensures broken { self.old.broken ≡ true → IsErr result }
    {
        if self.broken {
            return Err(NoMemory);
        }
        let place = Place {
            nodes: self.machine.nodes() as u32,
            pointers: self.machine.pointers() as u32,
            block: msg.block,
            from,
        };
        let i = self.place(msg.block);
        let home = &mut self.blocks[i];
        let result = home.arrive(place, &msg.body, out);
        if result.is_err() {
            self.broken = true;
        }
        result
    }

    /// Where a block stands in the list.
    fn place(&self, block: u32) -> usize
        requires { IsHome self.now block }
        ensures place { result ≡ block / self.now.machine.nodes }
        ensures there { result < length self.now.blocks }
    {
        (block as u64 / self.machine.nodes()) as usize
    }
}

/// So many blocks at the start.
fn fresh_blocks(alloc: Global, machine: &Machine, count: usize) -> Result<Vec<HomeBlock>, NoMemory>
    ensures { IfOk result (λ blocks. blocks.items ≡ replicate count (fresh_block machine.now)) }
{
    let mut blocks = Vec::with_capacity(alloc, count)?;
    for _i in 0..count {
        blocks.push(HomeBlock {
            entry: DirEntry {
                state: DirState::Idle,
                waiting: Waiting::new(alloc),
            },
            memory: BlockMemory::new(alloc, machine.block_bytes() as usize)?,
        })?;
    }
    Ok(blocks)
}

/// The law of the directory's tables: where what has come fits the machine, what a row leaves and sends fits it too, at
/// most a message to each node and one more is sent, and at most one copy more is known.
pub fn rows_fit()
    ensures { RowsFit }
{}

/// The law of machines without pointers: each row is that of the older machine, which lists no readers.
pub fn rows_of_version_1()
    ensures { AreRowsOfVersion1 }
{}
