ghost use Rattle.std.specs.Prelude.{◌≡◌, ◌≤◌, ◌+◌, length, drop};
ghost use Rattle.byteorder.specs.Endian.{little_number};
ghost use Rattle.elf_image.specs.Elf.{program_header, is_loaded, is_dynamic_header};

use byteorder::{ByteOrder, LittleEndian};

/// How many bytes a program header has.
pub(crate) const PROGRAM_HEADER_BYTES: usize = 32;

const PT_LOAD: u32 = 1;

const PT_DYNAMIC: u32 = 2;

const PT_INTERP: u32 = 3;

const P_TYPE: usize = 0;

const P_OFFSET: usize = 4;

const P_VADDR: usize = 8;

const P_FILESZ: usize = 16;

const P_MEMSZ: usize = 20;

/// A program header, as far as it is read.
#[derive(Clone, Copy, Debug)]
pub(crate) struct ProgramHeader {
    /// What it speaks of, as a number.
    pub kind: u32,
    /// Where in the file its bytes begin.
    pub offset: u32,
    /// Where in memory they go.
    pub address: u32,
    /// How many bytes it has in the file.
    pub file_bytes: u32,
    /// How many bytes it has in memory.
    pub memory_bytes: u32,
}

impl ProgramHeader {
    /// The program header that some bytes begin with.
    pub fn read(bytes: &[u8]) -> ProgramHeader
        requires { 32 ≤ length bytes.now }
        ensures { result ≡ program_header bytes.now }
    {
        ProgramHeader {
            kind: word(bytes, P_TYPE),
            offset: word(bytes, P_OFFSET),
            address: word(bytes, P_VADDR),
            file_bytes: word(bytes, P_FILESZ),
            memory_bytes: word(bytes, P_MEMSZ),
        }
    }

    /// Whether it is a segment to be loaded.
    pub fn is_loaded(&self) -> bool
        ensures { result ≡ is_loaded self.now }
    {
        self.kind == PT_LOAD
    }

    /// Whether it asks for a dynamic linker.
    pub fn is_dynamic(&self) -> bool
        ensures { result ≡ is_dynamic_header self.now }
    {
        self.kind == PT_DYNAMIC || self.kind == PT_INTERP
    }

    /// Where in the file the byte after its last one is.
    pub fn file_end(&self) -> u64
        ensures { result ≡ self.now.offset + self.now.file_bytes }
    {
        self.offset as u64 + self.file_bytes as u64
    }
}

/// The number of the two bytes at a place, the lowest first.
pub(crate) fn half(bytes: &[u8], place: usize) -> u16
    requires { place + 2 ≤ length bytes.now }
    ensures { result ≡ little_number 2 (drop place bytes.now) }
{
    LittleEndian::read_u16(&bytes[place..])
}

/// The number of the four bytes at a place, the lowest first.
pub(crate) fn word(bytes: &[u8], place: usize) -> u32
    requires { place + 4 ≤ length bytes.now }
    ensures { result ≡ little_number 4 (drop place bytes.now) }
{
    LittleEndian::read_u32(&bytes[place..])
}
