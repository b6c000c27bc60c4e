ghost use Rattle.std.specs.Prelude.{◌≡◌, ◌≤◌, ◌+◌, ◌⊎◌, length, filter, map, All, IfOk, IfErr, OnOk, Some, None};
ghost use Rattle.std.specs.List.{list_any};
ghost use Rattle.elf_image.specs.Elf.{elf_of, program_tests, first_fault, headers_of, is_loaded, is_dynamic_header, is_outside, is_less, IsInside, HasRoom, segment_of};
ghost use Rattle.elf_image.specs.Sizes.{FitsItsSize, HoldsItsBytes, bytes_in, most_bytes};

use crate::fault::ImageFault;
use crate::header::{E_ENTRY, check_header, read_program_headers};
use crate::image::{Bytes, Image, Segment, Segments};
use crate::program::{ProgramHeader, word};
use std::alloc::{AllocError, Global};

/// No more bytes than these are taken for the segments of an image together. No machine has memory for as many.
const MOST_BYTES: u64 = 67_108_864;

/// Reads an ELF32 executable: little-endian, for RISC-V, linked to fixed addresses. Every fault is tested over the
/// whole file before the next one, in the order of [`ImageFault`]. The segments are the program headers of type
/// PT_LOAD, in their order; sections, symbols and all other program headers are passed over.
pub fn read_elf(alloc: Global, bytes: &[u8]) -> Result<Image, ImageFault>
    ensures ok { IfOk result (λ image. elf_of bytes.now ≡ Ok image) }
    ensures fault { IfErr result (λ fault. (fault ≡ ImageFault.NoMemory) ⊎ (elf_of bytes.now ≡ Err fault)) }
    ensures sizes { IfOk result HoldsItsBytes }
    ensures most { IfOk result (λ image. bytes_in image.segments ≤ most_bytes) }
{
    check_header(bytes)?;
    let headers = read_program_headers(alloc, bytes)?;
    check_program_headers(&headers, bytes)?;
    Ok(Image {
        entry: word(bytes, E_ENTRY),
        segments: Segments::new(load_segments(alloc, &headers, bytes)?),
    })
}

/// Tests the program headers.
fn check_program_headers(headers: &[ProgramHeader], bytes: &[u8]) -> Result<(), ImageFault>
    requires { headers.now ≡ headers_of bytes.now }
    ensures ok { OnOk result (first_fault program_tests bytes.now ≡ None) }
    ensures fault { IfErr result (λ fault. first_fault program_tests bytes.now ≡ Some fault) }
    ensures inside { OnOk result (All (IsInside (length bytes.now)) headers.now) }
    ensures sizes { OnOk result (All HasRoom headers.now) }
{
    if is_dynamic(headers) {
        return Err(ImageFault::Dynamic);
    }
    if has_segment_outside(headers, bytes.len()) {
        return Err(ImageFault::SegmentOutside);
    }
    if has_less_size(headers) {
        return Err(ImageFault::SizeLess);
    }
    if !loads_something(headers) {
        return Err(ImageFault::NoLoad);
    }
    Ok(())
}

/// Whether a program header asks for a dynamic linker.
fn is_dynamic(headers: &[ProgramHeader]) -> bool
    ensures { result ≡ list_any is_dynamic_header headers.now }
{
    headers.iter().any(|header| header.is_dynamic())
}

/// Whether the bytes of a segment end past a file of this length.
fn has_segment_outside(headers: &[ProgramHeader], length: usize) -> bool
    ensures { result ≡ list_any (is_outside length) headers.now }
{
    headers.iter().any(|header| header.is_loaded() && header.file_end() > length as u64)
}

/// Whether a segment has fewer bytes in memory than in the file.
fn has_less_size(headers: &[ProgramHeader]) -> bool
    ensures { result ≡ list_any is_less headers.now }
{
    headers.iter().any(|header| header.is_loaded() && header.memory_bytes < header.file_bytes)
}

/// Whether there is a segment to be loaded.
fn loads_something(headers: &[ProgramHeader]) -> bool
    ensures { result ≡ list_any is_loaded headers.now }
{
    headers.iter().any(|header| header.is_loaded())
}

/// The segments to be loaded, in their order, each with a copy of its bytes of the file. Many headers may name the same
/// bytes, so what all copies take is limited, whatever the length of the file.
fn load_segments(
    alloc: Global,
    headers: &[ProgramHeader],
    bytes: &[u8],
) -> Result<Vec<Segment>, AllocError>
    requires inside { All (IsInside (length bytes.now)) headers.now }
    requires sizes { All HasRoom headers.now }
    ensures value { IfOk result (λ segments. segments.items ≡ map (segment_of bytes.now) (filter is_loaded headers.now)) }
    ensures sizes { IfOk result (λ segments. All FitsItsSize segments.items) }
    ensures most { IfOk result (λ segments. bytes_in segments.items ≤ most_bytes) }
{
    let mut segments = Vec::new(alloc);
    let mut room = MOST_BYTES;
    for header in headers {
        if header.is_loaded() {
            room = room
                .checked_sub(header.file_bytes as u64)
                .ok_or(AllocError)?;
            segments.push(load_segment(alloc, header, bytes)?)?;
        }
    }
    Ok(segments)
}

/// The segment of a program header, with a copy of its bytes of the file.
fn load_segment(alloc: Global, header: &ProgramHeader, bytes: &[u8]) -> Result<Segment, AllocError>
    requires inside { header.now.offset + header.now.file_bytes ≤ length bytes.now }
    requires size { header.now.file_bytes ≤ header.now.memory_bytes }
    ensures value { IfOk result (λ segment. segment ≡ segment_of bytes.now header.now) }
    ensures size { IfOk result FitsItsSize }
    ensures bytes { IfOk result (λ segment. length segment.bytes ≡ header.now.file_bytes) }
{
    let start = header.offset as usize;
    let end = start + header.file_bytes as usize;
    Ok(Segment {
        at: header.address,
        bytes: Bytes::new(bytes[start..end].to_vec(alloc)?),
        size: header.memory_bytes,
    })
}
