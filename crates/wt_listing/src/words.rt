ghost use Rattle.std.specs.Prelude.{◌≡◌, ◌<◌, ◌/◌, flat_map, length, IfOk};
ghost use Rattle.wt_outside.specs.Writes.{Writes};
ghost use Rattle.wt_listing.specs.Listing.{word_line_of, word_of, segment_text, words_text};

use crate::write::write_line;
use byteorder::{ByteOrder, LittleEndian};
use elf_image::{Image, Segment};
use rv_decode::decode;
use std::alloc::Global;
use wt_outside::{Sink, WriteFault};
use wt_params::NoMemory;
use wt_text::Line;

/// How many bytes an instruction has.
const WORD_BYTES: usize = 4;

/// Writes the words of an image, segment by segment, a line for each: its address, the word and its text, as
/// `0x00000000 0x04100513 addi x10, x0, 65`. Only the bytes that a segment has of its own are shown, and of these no
/// rest of fewer than four. Addresses wrap.
pub fn write_words<K: Sink>(alloc: Global, image: &Image, out: &mut K) -> Result<(), WriteFault>
    ensures { Writes (words_text image.now) result K.view out.old out.new }
{
    write_segments(alloc, image.segments.get(), out)
}

fn write_segments<K: Sink>(
    alloc: Global,
    segments: &[Segment],
    out: &mut K,
) -> Result<(), WriteFault>
    ensures { Writes (flat_map segment_text segments.now) result K.view out.old out.new }
{
    for segment in segments {
        write_segment(alloc, segment, out)?;
    }
    Ok(())
}

/// Writes the whole words of a segment's own bytes.
fn write_segment<K: Sink>(alloc: Global, segment: &Segment, out: &mut K) -> Result<(), WriteFault>
    ensures { Writes (segment_text segment.now) result K.view out.old out.new }
{
    let bytes = segment.bytes.get();
    let mut address = segment.at;
    for number in 0..bytes.len() / WORD_BYTES {
        write_word(alloc, address, word(bytes, number), out)?;
        address = address.wrapping_add(4);
    }
    Ok(())
}

/// The word with this number, its lowest byte first.
fn word(bytes: &[u8], number: usize) -> u32
    requires { number < length bytes.now / 4 }
    ensures { result ≡ word_of bytes.now number }
{
    LittleEndian::read_u32(&bytes[WORD_BYTES * number..])
}

fn write_word<K: Sink>(
    alloc: Global,
    address: u32,
    word: u32,
    out: &mut K,
) -> Result<(), WriteFault>
    ensures { Writes (word_line_of address word) result K.view out.old out.new }
{
    let line = word_line(alloc, address, word)?;
    write_line(&line, out)
}

/// As `0x00000000 0x04100513 addi x10, x0, 65`.
fn word_line(alloc: Global, address: u32, word: u32) -> Result<Line, NoMemory>
    ensures { IfOk result (λ line. line ≡ word_line_of address word) }
{
    let text = decode(word).text(alloc)?;
    let mut line = Line::new(alloc, b"0x")?;
    line.digits(address)?;
    line.entry_hex(b" ", word)?;
    line.text(b" ")?;
    line.text(text.as_bytes())?;
    line.end()?;
    Ok(line)
}
