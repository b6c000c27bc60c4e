/// Why images can't be loaded.
#[derive(Clone, Copy, Debug, PartialEq, Eq)]
pub enum LoadFault {
    /// A segment of this image has an address that lies in no memory, and this is the least such address of the
    /// first such segment.
    Outside { image: u32, address: u32 },
    /// The entry of this image isn't a multiple of 4 in private memory.
    BadEntry { image: u32, entry: u32 },
    /// Memory was wanted and refused.
    NoMemory,
}
