ghost use Rattle.std.specs.Prelude.{◌≡◌, ℕ, ◌+◌, ◌^◌, ◌<◌, ◌≤◌, List, length, replicate, IfOk, IfErr, OnErr};
ghost use Rattle.priv_mem.specs.Memory.{IsWidth, little_endian, low_bytes, access_of, load_of, store_of, fill_of};

use crate::fault::MemFault;
use std::alloc::Global;
use std::marker::Model;
use wt_params::NoMemory;

/// A node's private memory. Contracts see it as the list of its bytes, from address 0 on.
#[derive(Debug, Drop)]
pub struct PrivMem {
    cells: Vec<u8>,
}

impl Model for PrivMem {
    ghost Value = { List ℕ };

    ghost view = { λ m. m.cells.items };
}

impl PrivMem {
    /// A memory of `size` bytes, all zero. It takes all its memory here.
    pub fn new(alloc: Global, size: u32) -> Result<PrivMem, NoMemory>
        ensures { IfOk result (λ memory. memory ≡ replicate size 0) }
    {
        let cells = vec![in alloc; 0u8; size as usize]?;
        Ok(PrivMem { cells })
    }

    /// The bytes from address 0 on.
    pub fn bytes(&self) -> &[u8]
        ensures { result.now ≡ self.now }
    {
        self.cells.as_slice()
    }

    /// The number of `width` bytes at an address, little-endian.
    #[tactic(auto, unfolding(crate::specs::Memory::load_of))]
    pub fn load(&self, address: u32, width: u32) -> Result<u32, MemFault>
        requires { IsWidth width }
        ensures value { result ≡ load_of self.now address width }
        ensures range { IfOk result (λ number. number < 256 ^ width) }
    {
        let start = first_byte(self.cells.len(), address, width)?;
        Ok(number_of(&self.cells[start..start + width as usize]))
    }

    /// Writes the lowest `width` bytes of a number at an address, little-endian. A refusal changes nothing.
    #[tactic(auto, unfolding(crate::specs::Memory::store_of))]
    pub fn store(&mut self, address: u32, width: u32, value: u32) -> Result<(), MemFault>
        requires { IsWidth width }
        ensures done { IfOk result (λ _. store_of self.old address width value ≡ Ok self.new) }
        ensures fault { IfErr result (λ fault. store_of self.old address width value ≡ Err fault) }
        ensures kept { OnErr result (self.new ≡ self.old) }
        ensures size { length self.new ≡ length self.old }
    {
        let start = first_byte(self.cells.len(), address, width)?;
        let end = start + width as usize;
        write_number(&mut self.cells[start..end], value);
        Ok(())
    }

    /// Lays bytes into the memory from an address on, at any alignment. A refusal changes nothing.
    #[tactic(auto, unfolding(crate::specs::Memory::fill_of))]
    pub fn fill(&mut self, address: u32, bytes: &[u8]) -> Result<(), MemFault>
        ensures done { IfOk result (λ _. fill_of self.old address bytes.now ≡ Ok self.new) }
        ensures fault { IfErr result (λ fault. fill_of self.old address bytes.now ≡ Err fault) }
        ensures kept { OnErr result (self.new ≡ self.old) }
        ensures size { length self.new ≡ length self.old }
    {
        if bytes.is_empty() {
            return Ok(());
        }
        let start = address as usize;
        let end = start + bytes.len();
        if end > self.cells.len() {
            return Err(MemFault::Outside);
        }
        self.cells[start..end].copy_from_slice(bytes);
        Ok(())
    }
}

/// The place of the first byte of an access in a memory of `size` bytes, where all its bytes lie in the memory.
fn first_byte(size: usize, address: u32, width: u32) -> Result<usize, MemFault>
    requires { IsWidth width }
    ensures place { result ≡ access_of size address width }
    ensures inside { IfOk result (λ start. start + width ≤ size) }
{
    if address % width != 0 {
        return Err(MemFault::Misaligned);
    }
    let start = address as usize;
    if start + width as usize > size {
        return Err(MemFault::Outside);
    }
    Ok(start)
}

/// The number that 1, 2 or 4 bytes stand for, the lowest first.
fn number_of(bytes: &[u8]) -> u32
    requires { IsWidth (length bytes.now) }
    ensures value { result ≡ little_endian bytes.now }
    ensures range { result < 256 ^ length bytes.now }
{
    match bytes.len() {
        1 => bytes[0] as u32,
        2 => bytes[0] as u32 + 256 * bytes[1] as u32,
        _ => u32::from_le_bytes([bytes[0], bytes[1], bytes[2], bytes[3]]),
    }
}

/// Writes the lowest bytes of a number, as many as there is room for: 1, 2 or 4.
fn write_number(bytes: &mut [u8], number: u32)
    requires { IsWidth (length bytes.old) }
    ensures { bytes.new ≡ low_bytes (length bytes.old) number }
{
    let [first, second, third, fourth] = number.to_le_bytes();
    match bytes.len() {
        1 => bytes[0] = first,
        2 => {
            bytes[0] = first;
            bytes[1] = second;
        }
        _ => {
            bytes[0] = first;
            bytes[1] = second;
            bytes[2] = third;
            bytes[3] = fourth;
        }
    }
}
