ghost use Rattle.std.specs.Prelude.{◌≡◌, ◌≤◌, IfOk};
ghost use Rattle.machine_json.specs.Description.{HasImages};
ghost use Rattle.gen_load.specs.Generated.{machine_of, listing_of, generated};

use crate::assembly::assemble;
use crate::line::Line;
use crate::listings::{all_to_all, counter, stencil};
use machine_json::{ByteList, Description, ImageSpec, ImageSpecs, default_parts};
use std::alloc::{AllocError, Global};
use wt_params::{Machine, MachineParts, NoMemory};

/// The machine that a number stands for, with one image of flat bytes for all of its nodes.
#[tactic(auto, using(crate::proofs::Programs::program_encodable, crate::proofs::Programs::program_short), unfolding(crate::specs::Generated::generated))]
pub fn generate(alloc: Global, number: u64) -> Result<Description, NoMemory>
    requires { number ≤ 9999 }
    ensures value { IfOk result (λ description. description ≡ generated number) }
    ensures images { IfOk result HasImages }
{
    let listing = listing(alloc, number)?;
    let bytes = assemble(alloc, listing.as_slice())?;
    let mut images = Vec::new(alloc);
    images.push(ImageSpec::Bytes {
        at: 0,
        bytes: ByteList::new(bytes),
    })?;
    Ok(Description {
        machine: machine(number),
        images: ImageSpecs::new(images),
        version: 1,
    })
}

/// The machine's numbers, all in their ranges.
#[tactic(auto, unfolding(crate::specs::Generated::machine_of))]
fn machine(number: u64) -> Machine
    ensures { result ≡ machine_of number }
{
    let parts = MachineParts {
        private_bytes: 65536,
        block_bytes: 64,
        blocks: 1024,
        sets: 16,
        ways: 2,
        ..default_parts(2 + number / 3 % 31)
    };
    match Machine::new(parts) {
        Ok(machine) => machine,
        Err(_) => unreachable!(),
    }
}

/// The program, of the kind of the number.
#[tactic(auto, unfolding(crate::specs::Generated::listing_of))]
fn listing(alloc: Global, number: u64) -> Result<Vec<Line>, AllocError>
    ensures { IfOk result (λ lines. lines.items ≡ listing_of number) }
{
    let rounds = 4 + (number % 8) as u16;
    match number % 3 {
        0 => stencil(alloc, rounds, (number % 1000) as u16),
        1 => counter(alloc, rounds),
        _ => all_to_all(alloc, rounds),
    }
}
