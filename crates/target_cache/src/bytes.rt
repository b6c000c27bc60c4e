//! The bytes of many lines in one list, so many of each, those of one line behind those of another.
ghost use Rattle.std.specs.Prelude.{◌≡◌, ◌+◌, ◌*◌, ◌^◌, ◌<◌, ◌≤◌, length, slice_range, take};
ghost use Rattle.std.specs.List.{copy_within};
ghost use Rattle.wt_params.specs.Machine.{IsBlockSize};
ghost use Rattle.priv_mem.specs.Memory.{IsWidth, little_endian, low_bytes, overwritten};
ghost use Rattle.target_cache.specs.Flat.{bytes_at};

use wt_proto::Block;

/// The bytes of the line at a place.
pub(crate) fn block_at(bytes: &[u8], size: usize, place: usize) -> Block
    requires size { IsBlockSize size }
    requires there { place * size + size ≤ length bytes.now }
    ensures { result ≡ bytes_at size place bytes.now }
{
    let start = place * size;
    Block::new(&bytes[start..start + size])
}

/// Puts a block where the bytes of the line at a place stand.
pub(crate) fn put_block(bytes: &mut [u8], size: usize, place: usize, block: &Block)
    requires size { length block.now ≡ size }
    requires there { place * size + size ≤ length bytes.old }
    ensures { bytes.new ≡ overwritten bytes.old (place * size) block.now }
{
    let start = place * size;
    bytes[start..start + size].copy_from_slice(block.bytes());
}

/// The number of `width` bytes of the line at a place, from an offset on, little-endian.
pub(crate) fn number_at(bytes: &[u8], size: usize, place: usize, offset: u32, width: u32) -> u32
    requires width { IsWidth width }
    requires inside { offset + width ≤ size }
    requires there { place * size + size ≤ length bytes.now }
    ensures { result ≡ little_endian (slice_range (bytes_at size place bytes.now) offset (offset + width)) }
{
    let start = place * size + offset as usize;
    number_of(&bytes[start..start + width as usize])
}

/// Writes the lowest `width` bytes of a number into the line at a place, from an offset on, little-endian.
pub(crate) fn write_at(
    bytes: &mut [u8],
    size: usize,
    place: usize,
    offset: u32,
    width: u32,
    value: u32,
)
    requires width { IsWidth width }
    requires inside { offset + width ≤ size }
    requires there { place * size + size ≤ length bytes.old }
    ensures { bytes.new ≡ overwritten bytes.old (place * size + offset) (low_bytes width value) }
{
    let start = place * size + offset as usize;
    let part = bytes_of(value);
    bytes[start..start + width as usize].copy_from_slice(&part[..width as usize]);
}

/// Moves the bytes behind the line at a place up to where its own stood.
pub(crate) fn close_gap(bytes: &mut [u8], size: usize, place: usize)
    requires { place * size + size ≤ length bytes.old }
    ensures { bytes.new ≡ copy_within bytes.old (place * size + size) (length bytes.old) (place * size) }
{
    let start = place * size;
    bytes.copy_within(start + size.., start);
}

/// The number that 1, 2 or 4 bytes stand for, the lowest first.
fn number_of(bytes: &[u8]) -> u32
    requires { IsWidth (length bytes.now) }
    ensures { result ≡ little_endian bytes.now }
{
    match bytes.len() {
        1 => bytes[0] as u32,
        2 => bytes[0] as u32 + 256 * bytes[1] as u32,
        _ => u32::from_le_bytes([bytes[0], bytes[1], bytes[2], bytes[3]]),
    }
}

/// The bytes of a number, the lowest first.
fn bytes_of(number: u32) -> [u8; 4]
    ensures all { result ≡ low_bytes 4 number }
    ensures two { take 2 result ≡ low_bytes 2 number }
    ensures one { take 1 result ≡ low_bytes 1 number }
{
    number.to_le_bytes()
}
