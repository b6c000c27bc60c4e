ghost use Rattle.std.specs.Prelude.{◌≡◌, ◌<◌, IfOk, length, replicate, slice_index_or, slice_set};
ghost use Rattle.block_tags.specs.Packed.{code_of, tag_of, worth_of, code_in, with_code};

use crate::tag::Tag;
use std::alloc::Global;
use std::marker::Model;
use wt_params::NoMemory;

/// A tag for each block of a machine, four to a byte. Contracts see it as the list of the tags, from block 0 on.
#[derive(Debug, Drop)]
pub struct TagTable {
    blocks: u32,
    bytes: Vec<u8>,
}

impl Model for TagTable {
    ghost use Rattle.std.specs.Prelude.{List};
    ghost use Rattle.block_tags.specs.declared.tag.Tag.{Tag};
    ghost use Rattle.block_tags.specs.Packed.{tags_in, ArePacked};

    ghost Value = { List Tag };

    ghost view = { λ table. tags_in table.blocks table.bytes.items };

    ghost invariant = { λ table. ArePacked table.blocks table.bytes.items };
}

impl TagTable {
    /// A table of so many blocks, of which no copy is held. It takes all its memory here.
    pub fn new(alloc: Global, blocks: u32) -> Result<TagTable, NoMemory>
        ensures { IfOk result (λ table. table ≡ replicate blocks Tag.Invalid) }
    {
        let bytes = vec![in alloc; 0; (blocks as usize + 3) / 4]?;
        Ok(TagTable { blocks, bytes })
    }

    /// The tag of a block.
    pub fn get(&self, block: u32) -> Tag
        requires { block < length self.now }
        ensures { result ≡ slice_index_or self.now block Tag.Invalid }
    {
        let byte = self.bytes[block as usize / 4];
        tag(byte / worth(block % 4) % 4)
    }

    /// Gives a block a tag. The other blocks keep theirs.
    pub fn set(&mut self, block: u32, tag: Tag)
        requires { block < length self.old }
        ensures { self.new ≡ slice_set self.old block tag }
    {
        let byte = self.bytes[block as usize / 4];
        self.bytes[block as usize / 4] = with_tag(byte, block % 4, tag);
    }
}

/// A byte with another tag at a place.
fn with_tag(byte: u8, place: u32, tag: Tag) -> u8
    requires { place < 4 }
    ensures { result ≡ with_code place (code_of tag) byte }
{
    let worth = worth(place);
    byte - byte / worth % 4 * worth + code(tag) * worth
}

/// What the lowest bit of a place in a byte is worth.
fn worth(place: u32) -> u8
    ensures { result ≡ worth_of place }
{
    match place {
        0 => 1,
        1 => 4,
        2 => 16,
        _ => 64,
    }
}

/// The number that stands for a tag.
fn code(tag: Tag) -> u8
    ensures { result ≡ code_of tag }
{
    match tag {
        Tag::Invalid => 0,
        Tag::ReadOnly => 1,
        Tag::Writable => 2,
    }
}

/// The tag that a number stands for.
fn tag(code: u8) -> Tag
    ensures { result ≡ tag_of code }
{
    match code {
        0 => Tag::Invalid,
        1 => Tag::ReadOnly,
        _ => Tag::Writable,
    }
}
