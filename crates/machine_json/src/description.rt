use crate::lists::{ByteList, FileName, ImageSpecs};
use wt_params::Machine;

/// Where an image comes from.
#[derive(Debug, Drop)]
pub enum ImageSpec {
    /// Flat bytes, which stand in the description.
    Bytes {
        /// Where they go, and where the program begins. A multiple of 4.
        at: u32,
        bytes: ByteList,
    },
    /// A file of the store.
    File {
        name: FileName,
        /// Whether it is an ELF executable; else its bytes are flat.
        elf: bool,
        /// Where flat bytes go, and where the program begins. A multiple of 4.
        at: u32,
    },
}

/// A machine and the images of its nodes: one that serves every node, or one for each.
#[derive(Debug, Drop)]
pub struct Description {
    pub machine: Machine,
    pub images: ImageSpecs,
    /// The version of the description, 1 or 2.
    pub version: u64,
}
