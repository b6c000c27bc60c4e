//! Images of programs: ELF32 executables as stock compilers write them, and flat bytes.
//!
//! [`read_elf`] and [`read_flat`] give an [`Image`], which says where each run of bytes goes and where the program
//! begins. Nothing is placed here, and nothing is allocated by a size that a file merely claims.
#![tactic(auto)]

mod elf;
mod fault;
mod flat;
mod header;
mod image;
mod program;

pub use elf::read_elf;
pub use fault::ImageFault;
pub use flat::read_flat;
pub use image::{Bytes, Image, Segment, Segments};
