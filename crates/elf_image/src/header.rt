ghost use Rattle.std.specs.Prelude.{◌≡◌, ◌≤◌, ◌+◌, length, drop, Some, None, IfErr, OnOk, vec_len, IfOk};
ghost use Rattle.elf_image.specs.Elf.{header_tests, first_fault, headers_of, table_end};

use crate::fault::ImageFault;
use crate::program::{PROGRAM_HEADER_BYTES, ProgramHeader, half, word};
use std::alloc::{AllocError, Global};

/// How many bytes a file header has.
const HEADER_BYTES: usize = 52;

const MAGIC: &[u8; 4] = b"\x7fELF";

const CLASS: usize = 4;

const DATA: usize = 5;

const E_TYPE: usize = 16;

const E_MACHINE: usize = 18;

pub(crate) const E_ENTRY: usize = 24;

const E_PHOFF: usize = 28;

const E_PHENTSIZE: usize = 42;

const E_PHNUM: usize = 44;

const CLASS_32: u8 = 1;

const LITTLE_ENDIAN: u8 = 1;

const ET_EXEC: u16 = 2;

const EM_RISCV: u16 = 243;

/// Tests the file header, and that the program headers lie in the file.
pub(crate) fn check_header(bytes: &[u8]) -> Result<(), ImageFault>
    ensures ok { OnOk result (first_fault header_tests bytes.now ≡ None) }
    ensures fault { IfErr result (λ fault. first_fault header_tests bytes.now ≡ Some fault) }
    ensures length { OnOk result (52 ≤ length bytes.now) }
    ensures table { OnOk result (table_end bytes.now ≤ length bytes.now) }
{
    if bytes.len() < HEADER_BYTES {
        return Err(ImageFault::Short);
    }
    if !bytes.starts_with(MAGIC) {
        return Err(ImageFault::Magic);
    }
    if bytes[CLASS] != CLASS_32 {
        return Err(ImageFault::Class);
    }
    if bytes[DATA] != LITTLE_ENDIAN {
        return Err(ImageFault::Order);
    }
    if half(bytes, E_TYPE) != ET_EXEC {
        return Err(ImageFault::NotExec);
    }
    if half(bytes, E_MACHINE) != EM_RISCV {
        return Err(ImageFault::Machine);
    }
    if half(bytes, E_PHENTSIZE) as usize != PROGRAM_HEADER_BYTES {
        return Err(ImageFault::Entries);
    }
    let table = PROGRAM_HEADER_BYTES * half(bytes, E_PHNUM) as usize;
    if word(bytes, E_PHOFF) as usize + table > bytes.len() {
        return Err(ImageFault::TableOutside);
    }
    Ok(())
}

/// The program headers of a file whose header was tested, in their order.
pub(crate) fn read_program_headers(
    alloc: Global,
    bytes: &[u8],
) -> Result<Vec<ProgramHeader>, AllocError>
    requires length { 52 ≤ length bytes.now }
    requires table { table_end bytes.now ≤ length bytes.now }
    ensures { IfOk result (λ headers. headers.items ≡ headers_of bytes.now) }
{
    let first = word(bytes, E_PHOFF) as usize;
    let count = half(bytes, E_PHNUM) as usize;
    let mut headers = Vec::new(alloc);
    for k in 0..count {
        headers.push(ProgramHeader::read(&bytes[first + PROGRAM_HEADER_BYTES * k..]))?;
    }
    Ok(headers)
}
