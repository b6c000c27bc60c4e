ghost use Rattle.std.specs.Prelude.{◌≡◌, ◌<◌, ◌≤◌, [], length, replicate, IfOk};
ghost use Rattle.wt_params.specs.Machine.{IsBlockSize};
ghost use Rattle.block_tags.specs.declared.tag.Tag.TheVariants.{Invalid};
ghost use Rattle.target_cache.specs.Cached.{IsAccess, IsCached, empty_cache, set_of, line_of, tag_of, read_of, hit_of, write_of, drop_of, replaced_of, install_of};

use crate::answer::WriteHit;
use crate::line::Line;
use crate::line_set::LineSet;
use block_tags::{Tag, TagTable};
use std::alloc::Global;
use std::marker::Model;
use wt_params::{Machine, NoMemory};

/// A node's cache. Contracts see it as a list of lines for each set, the one installed first in front.
#[derive(Debug, Drop)]
pub struct Cache {
    machine: Machine,
    /// What the sets allow with each block, so that a look at a block is a look at one tag.
    tags: TagTable,
    sets: Vec<LineSet>,
}

impl Model for Cache {
    ghost use Rattle.target_cache.specs.Cached.{Cached, IsKept, cached};

    ghost Value = { Cached };

    ghost view = { λ cache. cached cache.machine cache.sets.items };

    ghost invariant = { λ cache. IsKept cache.machine cache.tags cache.sets.items };
}

impl Cache {
    /// A cache without a line. It takes all its memory here.
    pub fn new(alloc: Global, machine: &Machine) -> Result<Cache, NoMemory>
        ensures empty { IfOk result (λ cache. cache ≡ empty_cache machine.now) }
        ensures machine { IfOk result (λ cache. cache.machine ≡ machine.now) }
    {
        let tags = TagTable::new(alloc, machine.blocks() as u32)?;
        let ways = machine.ways() as usize;
        let size = machine.block_bytes() as usize;
        let sets = empty_sets(alloc, machine.sets() as usize, ways, size)?;
        Ok(Cache {
            machine: *machine,
            tags,
            sets,
        })
    }

    /// What the node may do with a block.
    pub fn tag(&self, block: u32) -> Tag
        requires { block < self.now.machine.blocks }
        ensures tag { result ≡ tag_of self.now block }
        ensures sound { IsCached self.now }
    {
        self.tags.get(block)
    }

    /// A copy of the line of a block. None exactly where there is none.
    pub fn line(&self, block: u32) -> Option<Line>
        requires { block < self.now.machine.blocks }
        ensures { result ≡ line_of self.now block }
    {
        let set = self.set(block);
        self.sets[set].line(block)
    }

    /// The number of `width` bytes of a block from an offset on, little-endian. None exactly where the node has
    /// no copy of it.
    pub fn read(&self, block: u32, offset: u32, width: u32) -> Option<u32>
        requires exists { block < self.now.machine.blocks }
        requires access { IsAccess self.now.machine offset width }
        ensures { result ≡ read_of self.now block offset width }
    {
        if self.tag(block) == Tag::Invalid {
            return None;
        }
        let set = self.set(block);
        self.sets[set].read(block, offset, width)
    }

    /// Writes the lowest `width` bytes of a number into a block from an offset on, little-endian, where its tag
    /// is writable. Otherwise nothing changes.
    pub fn write(&mut self, block: u32, offset: u32, width: u32, value: u32) -> WriteHit
        requires exists { block < self.old.machine.blocks }
        requires access { IsAccess self.old.machine offset width }
        ensures hit { result ≡ hit_of (tag_of self.old block) }
        ensures after { self.new ≡ write_of block offset width value self.old }
        ensures machine { self.new.machine ≡ self.old.machine }
    {
        match self.tag(block) {
            Tag::Invalid => WriteHit::Absent,
            Tag::ReadOnly => WriteHit::ReadOnly,
            Tag::Writable => {
                let i = self.set(block);
                let set = &mut self.sets[i];
                set.write(block, offset, width, value);
                WriteHit::Hit
            }
        }
    }

    /// Takes the line of a block out. None exactly where there is none.
    pub fn drop_block(&mut self, block: u32) -> Option<Line>
        requires { block < self.old.machine.blocks }
        ensures line { result ≡ line_of self.old block }
        ensures after { self.new ≡ drop_of block self.old }
        ensures machine { self.new.machine ≡ self.old.machine }
    {
        if self.tag(block) == Tag::Invalid {
            return None;
        }
        let i = self.set(block);
        let set = &mut self.sets[i];
        let line = set.take(block);
        self.tags.set(block, Tag::Invalid);
        line
    }

    /// Puts a line into its set, in place of the one installed first where every way is taken, and answers the
    /// replaced line. None exactly where a way was free.
    pub fn install(&mut self, line: Line) -> Option<Line>
        requires exists { line.block < self.old.machine.blocks }
        requires absent { tag_of self.old line.block ≡ Invalid }
        requires size { length line.bytes ≡ self.old.machine.block_bytes }
        ensures replaced { result ≡ replaced_of line self.old }
        ensures after { self.new ≡ install_of line self.old }
        ensures machine { self.new.machine ≡ self.old.machine }
    {
        let ways = self.machine.ways() as usize;
        let i = self.set(line.block);
        let block = line.block;
        let tag = if line.writable {
            Tag::Writable
        } else {
            Tag::ReadOnly
        };
        let set = &mut self.sets[i];
        let replaced = set.install(ways, line);
        if let Some(old) = &replaced {
            self.tags.set(old.block, Tag::Invalid);
        }
        self.tags.set(block, tag);
        replaced
    }

    /// The number of a block's set.
    fn set(&self, block: u32) -> usize
        ensures set { result ≡ set_of self.now.machine block }
        ensures there { result < length self.now.sets }
    {
        (block as u64 % self.machine.sets()) as usize
    }
}

/// So many sets without a line, with room for so many of a size.
fn empty_sets(
    alloc: Global,
    count: usize,
    ways: usize,
    size: usize,
) -> Result<Vec<LineSet>, NoMemory>
    requires size { IsBlockSize size }
    requires few { ways ≤ 8 }
    ensures { IfOk result (λ sets. sets.items ≡ replicate count (record { lines = []; room = ways; size = size })) }
{
    let mut sets = Vec::with_capacity(alloc, count)?;
    for _i in 0..count {
        sets.push(LineSet::new(alloc, ways, size)?)?;
    }
    Ok(sets)
}
