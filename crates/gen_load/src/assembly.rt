ghost use Rattle.std.specs.Prelude.{◌≡◌, ◌≤◌, ◌+◌, ◌*◌, length, IfOk};
ghost use Rattle.std.specs.List.{All};
ghost use Rattle.rv_decode.specs.Fields.{IsEncodable};
ghost use Rattle.rv_decode.specs.Encoding.{encode_of};
ghost use Rattle.gen_load.specs.Assembly.{place_of, offset_of, with_line, instructions_of, assembled};

use crate::line::{Label, Line};
use rv_decode::{Instr, encode};
use std::alloc::{AllocError, Global};

/// The bytes of a listing: each instruction's word, the lowest byte first.
pub(crate) fn assemble(alloc: Global, listing: &[Line]) -> Result<Vec<u8>, AllocError>
    requires short { length listing.now ≤ 1000 }
    requires encodable { All IsEncodable (instructions_of listing.now) }
    ensures { IfOk result (λ bytes. bytes.items ≡ assembled listing.now) }
{
    let instrs = instructions(alloc, listing)?;
    let mut bytes = Vec::new(alloc);
    for instr in &instrs {
        bytes.extend_from_slice(&word(instr).to_le_bytes())?;
    }
    Ok(bytes)
}

/// The word of an instruction that has one.
fn word(instr: &Instr) -> u32
    requires { IsEncodable instr.now }
    ensures { result ≡ encode_of instr.now }
{
    match encode(instr) {
        Some(word) => word,
        None => unreachable!(),
    }
}

/// The instructions of a listing, with offsets in the places of labels.
fn instructions(alloc: Global, listing: &[Line]) -> Result<Vec<Instr>, AllocError>
    requires { length listing.now ≤ 1000 }
    ensures { IfOk result (λ instrs. instrs.items ≡ instructions_of listing.now) }
{
    let mut instrs = Vec::new(alloc);
    for line in listing {
        add_line(listing, &mut instrs, line)?;
    }
    Ok(instrs)
}

/// Adds the instruction of a line to those before it.
fn add_line(listing: &[Line], instrs: &mut Vec<Instr>, line: &Line) -> Result<(), AllocError>
    requires listing { length listing.now ≤ 1000 }
    requires before { length instrs.old.items ≤ 1000 }
    ensures added { IfOk result (λ _. instrs.new.items ≡ with_line listing.now instrs.old.items line.now) }
    ensures short { length instrs.new.items ≤ length instrs.old.items + 1 }
{
    let instr = match *line {
        Line::Here { label: _ } => return Ok(()),
        Line::Plain { instr } => instr,
        Line::Branch {
            op,
            rs1,
            rs2,
            label,
        } => Instr::Branch {
            op,
            rs1,
            rs2,
            imm: offset(listing, label, instrs.len()),
        },
        Line::Jump { rd, label } => Instr::Jal {
            rd,
            imm: offset(listing, label, instrs.len()),
        },
    };
    instrs.push(instr)?;
    Ok(())
}

/// How far a label is from an instruction that has so many before it.
fn offset(listing: &[Line], label: Label, before: usize) -> i32
    requires listing { length listing.now ≤ 1000 }
    requires before { before ≤ 1000 }
    ensures { result ≡ offset_of listing.now label before }
{
    place(listing, label) as i32 - 4 * before as i32
}

/// Where a label stands: after 4 bytes for each instruction before it.
fn place(listing: &[Line], label: Label) -> usize
    requires { length listing.now ≤ 1000 }
    ensures place { result ≡ place_of label listing.now }
    ensures bound { result ≤ 4 * length listing.now }
{
    let mut before = 0;
    for line in listing {
        match line {
            Line::Here { label: other } if *other == label => return before,
            Line::Here { label: _ } => {}
            _ => before += 4,
        }
    }
    before
}
