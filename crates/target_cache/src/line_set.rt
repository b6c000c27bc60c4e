ghost use Rattle.std.specs.Prelude.{◌≡◌, ◌+◌, ◌<◌, ◌≤◌, [], ◌∷◌, ◌++◌, length, All, IfOk, IfSome, find, position, option_map, slice_get, slice_set, Some};
ghost use Rattle.std.specs.List.{remove};
ghost use Rattle.wt_params.specs.Machine.{IsBlockSize};
ghost use Rattle.priv_mem.specs.Memory.{IsWidth};
ghost use Rattle.target_cache.specs.Flat.{is_of};
ghost use Rattle.target_cache.specs.Lines.{AreDistinct, holds, number_in, written_line, with_written, without, replaced_in, with_installed};

use crate::bytes::{block_at, close_gap, number_at, put_block, write_at};
use crate::line::{Head, Line};
use std::alloc::Global;
use std::marker::Model;
use wt_params::NoMemory;

/// The lines of a set, the one installed first in front. Contracts see it as the list of them, with the room
/// that it has taken for lines and the size of their blocks.
#[derive(Debug, Drop)]
pub struct LineSet {
    heads: Vec<Head>,
    /// The bytes of the lines, so many of each, in the order of the heads.
    bytes: Vec<u8>,
    size: usize,
}

impl Model for LineSet {
    ghost use Rattle.std.specs.Prelude.{vec_capacity};
    ghost use Rattle.target_cache.specs.Lines.{LinesInRoom};
    ghost use Rattle.target_cache.specs.Flat.{HasRoom, lines_in};

    ghost Value = { LinesInRoom };

    ghost view = { λ set. record { lines = lines_in set.size set.heads.items set.bytes.items; room = vec_capacity set.heads; size = set.size } };

    ghost invariant = { λ set. HasRoom set.size (vec_capacity set.heads) set.bytes.items };
}

impl LineSet {
    /// A set without a line, with room for so many of a size. It takes all its memory here.
    pub fn new(alloc: Global, ways: usize, size: usize) -> Result<LineSet, NoMemory>
        requires size { IsBlockSize size }
        requires few { ways ≤ 8 }
        ensures { IfOk result (λ set. set ≡ record { lines = []; room = ways; size = size }) }
    {
        let heads = Vec::with_capacity(alloc, ways)?;
        let bytes = vec![in alloc; 0u8; ways * size]?;
        Ok(LineSet { heads, bytes, size })
    }

    /// The line of a block. None exactly where there is none.
    pub fn line(&self, block: u32) -> Option<Line>
        ensures { result ≡ find (holds block) self.now.lines }
    {
        match self.place(block) {
            Some(place) => Some(self.line_at(place)),
            None => None,
        }
    }

    /// The number of `width` bytes of a block from an offset on, where there is a line of it.
    pub fn read(&self, block: u32, offset: u32, width: u32) -> Option<u32>
        requires width { IsWidth width }
        requires inside { All (λ (line : Line). offset + width ≤ length line.bytes) self.now.lines }
        ensures { result ≡ option_map (number_in offset width) (find (holds block) self.now.lines) }
    {
        match self.place(block) {
            Some(place) => Some(self.number_at(place, offset, width)),
            None => None,
        }
    }

    /// Writes the lowest `width` bytes of a number into the line of a block, if there is one.
    pub fn write(&mut self, block: u32, offset: u32, width: u32, value: u32)
        requires width { IsWidth width }
        requires inside { All (λ (line : Line). offset + width ≤ length line.bytes) self.old.lines }
        requires distinct { AreDistinct self.old.lines }
        ensures lines { self.new.lines ≡ with_written block offset width value self.old.lines }
        ensures room { self.new.room ≡ self.old.room }
        ensures size { self.new.size ≡ self.old.size }
    {
        if let Some(place) = self.place(block) {
            self.write_at(place, offset, width, value);
        }
    }

    /// Takes the line of a block out, if there is one.
    pub fn take(&mut self, block: u32) -> Option<Line>
        requires { AreDistinct self.old.lines }
        ensures line { result ≡ find (holds block) self.old.lines }
        ensures lines { self.new.lines ≡ without block self.old.lines }
        ensures room { self.new.room ≡ self.old.room }
        ensures size { self.new.size ≡ self.old.size }
    {
        match self.place(block) {
            Some(place) => Some(self.take_at(place)),
            None => None,
        }
    }

    /// Adds a line, in place of the one installed first where so many ways are taken, and answers the replaced
    /// line.
    pub fn install(&mut self, ways: usize, line: Line) -> Option<Line>
        requires some { 1 ≤ ways }
        requires few { length self.old.lines ≤ ways }
        requires room { ways ≤ self.old.room }
        requires size { length line.bytes ≡ self.old.size }
        ensures replaced { result ≡ replaced_in ways self.old.lines }
        ensures lines { self.new.lines ≡ with_installed ways line self.old.lines }
        ensures room { self.new.room ≡ self.old.room }
        ensures size { self.new.size ≡ self.old.size }
    {
        let replaced = if self.len() < ways {
            None
        } else {
            Some(self.take_at(0))
        };
        self.push(&line);
        replaced
    }

    /// How many lines there are.
    fn len(&self) -> usize
        ensures { result ≡ length self.now.lines }
    {
        self.heads.len()
    }

    /// Where the line of a block stands.
    fn place(&self, block: u32) -> Option<usize>
        ensures place { result ≡ position (holds block) self.now.lines }
        ensures there { IfSome result (λ place. place < length self.now.lines) }
    {
        place_of(self.heads.as_slice(), block)
    }

    /// The line at a place.
    fn line_at(&self, place: usize) -> Line
        requires { place < length self.now.lines }
        ensures { slice_get self.now.lines place ≡ Some result }
    {
        let head = self.heads[place];
        Line {
            block: head.block,
            writable: head.writable,
            bytes: block_at(self.bytes.as_slice(), self.size, place),
        }
    }

    /// The number of `width` bytes of the line at a place, from an offset on.
    fn number_at(&self, place: usize, offset: u32, width: u32) -> u32
        requires there { place < length self.now.lines }
        requires width { IsWidth width }
        requires inside { All (λ (line : Line). offset + width ≤ length line.bytes) self.now.lines }
        ensures { option_map (number_in offset width) (slice_get self.now.lines place) ≡ Some result }
    {
        number_at(self.bytes.as_slice(), self.size, place, offset, width)
    }

    /// Writes the lowest `width` bytes of a number into the line at a place, from an offset on.
    fn write_at(&mut self, place: usize, offset: u32, width: u32, value: u32)
        requires there { place < length self.old.lines }
        requires width { IsWidth width }
        requires inside { All (λ (line : Line). offset + width ≤ length line.bytes) self.old.lines }
        ensures lines { IfSome (slice_get self.old.lines place)
            (λ line. self.new.lines ≡ slice_set self.old.lines place (written_line offset width value line)) }
        ensures room { self.new.room ≡ self.old.room }
        ensures size { self.new.size ≡ self.old.size }
    {
        write_at(
            self.bytes.as_mut_slice(),
            self.size,
            place,
            offset,
            width,
            value,
        );
    }

    /// Takes the line at a place out.
    fn take_at(&mut self, place: usize) -> Line
        requires { place < length self.old.lines }
        ensures line { slice_get self.old.lines place ≡ Some result }
        ensures lines { self.new.lines ≡ remove self.old.lines place }
        ensures room { self.new.room ≡ self.old.room }
        ensures size { self.new.size ≡ self.old.size }
    {
        let bytes = block_at(self.bytes.as_slice(), self.size, place);
        let head = self.heads.remove(place);
        close_gap(self.bytes.as_mut_slice(), self.size, place);
        Line {
            block: head.block,
            writable: head.writable,
            bytes,
        }
    }

    /// Adds a line behind the others.
    fn push(&mut self, line: &Line)
        requires room { length self.old.lines < self.old.room }
        requires size { length line.now.bytes ≡ self.old.size }
        ensures lines { self.new.lines ≡ self.old.lines ++ line.now ∷ [] }
        ensures room { self.new.room ≡ self.old.room }
        ensures size { self.new.size ≡ self.old.size }
    {
        put_block(
            self.bytes.as_mut_slice(),
            self.size,
            self.heads.len(),
            &line.bytes,
        );
        self.heads.push_reserved(Head {
            block: line.block,
            writable: line.writable,
        });
    }
}

/// Where the head of the line of a block stands.
fn place_of(heads: &[Head], block: u32) -> Option<usize>
    ensures { result ≡ position (is_of block) heads.now }
{
    heads.iter().position(|head| head.block == block)
}
