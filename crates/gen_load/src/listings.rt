ghost use Rattle.std.specs.Prelude.{◌≡◌, IfOk};
ghost use Rattle.gen_load.specs.Listings as listings;

use crate::line::{
    Label, Line, add, addi, addi_minus_1, beq, bne, check_in, check_out_x, ecall, here, jal, lui,
    lw, slli, sw,
};
use std::alloc::{AllocError, Global};

/// The upper bits of the address where shared memory begins.
const SHARED: u32 = 0x80000;

/// Waits for all nodes.
fn barrier() -> [Line; 2]
    ensures { result ≡ listings.barrier }
{
    [addi(17, 0, 5), ecall()]
}

/// Puts out the byte in a register, and exits with 0.
fn end_with(register: u8) -> [Line; 6]
    ensures { result ≡ listings.end_with register }
{
    [
        addi(10, register, 0),
        addi(17, 0, 1),
        ecall(),
        addi(10, 0, 0),
        addi(17, 0, 93),
        ecall(),
    ]
}

/// Every node adds its right neighbour's number to its own, so often.
pub(crate) fn stencil(alloc: Global, rounds: u16, seed: u16) -> Result<Vec<Line>, AllocError>
    ensures { IfOk result (λ lines. lines.items ≡ listings.stencil rounds seed) }
{
    let mut lines = Vec::new(alloc);
    lines.extend_from_slice(&[
        lui(8, SHARED),
        addi(18, 10, 0),
        addi(19, 11, 0),
        slli(5, 18, 6),
        add(9, 8, 5),
        addi(20, 18, 1),
        bne(20, 19, Label::Right),
        addi(20, 0, 0),
        here(Label::Right),
        slli(5, 20, 6),
        add(20, 8, 5),
        addi(5, 18, seed),
        sw(5, 0, 9),
        addi(21, 0, rounds),
        here(Label::Loop),
    ])?;
    lines.extend_from_slice(&barrier())?;
    lines.extend_from_slice(&[lw(5, 0, 9), lw(6, 0, 20), add(22, 5, 6)])?;
    lines.extend_from_slice(&barrier())?;
    lines.extend_from_slice(&[sw(22, 0, 9), addi_minus_1(21, 21), bne(21, 0, Label::Loop)])?;
    lines.extend_from_slice(&end_with(22))?;
    Ok(lines)
}

/// A counter in shared memory is raised by one node after the other, so often by each.
pub(crate) fn counter(alloc: Global, rounds: u16) -> Result<Vec<Line>, AllocError>
    ensures { IfOk result (λ lines. lines.items ≡ listings.counter rounds) }
{
    let mut lines = Vec::new(alloc);
    lines.extend_from_slice(&[
        lui(8, SHARED),
        addi(18, 10, 0),
        addi(20, 18, 1),
        bne(20, 11, Label::Turn),
        addi(20, 0, 0),
        here(Label::Turn),
        addi(21, 0, rounds),
        here(Label::Loop),
        lw(5, 0, 8),
        bne(5, 18, Label::Loop),
        check_out_x(64, 8),
        lw(6, 64, 8),
        addi(6, 6, 1),
        sw(6, 64, 8),
        check_in(64, 8),
        sw(20, 0, 8),
        addi_minus_1(21, 21),
        bne(21, 0, Label::Loop),
    ])?;
    lines.extend_from_slice(&end_with(6))?;
    Ok(lines)
}

/// Every node writes a number for each, and adds up those for itself, so often.
pub(crate) fn all_to_all(alloc: Global, rounds: u16) -> Result<Vec<Line>, AllocError>
    ensures { IfOk result (λ lines. lines.items ≡ listings.all_to_all rounds) }
{
    let mut lines = Vec::new(alloc);
    lines.extend_from_slice(&[
        lui(8, SHARED),
        addi(18, 10, 0),
        addi(19, 11, 0),
        addi(21, 0, rounds),
        addi(23, 0, 0),
        slli(24, 19, 6),
        here(Label::Outer),
        slli(5, 18, 6),
        add(9, 8, 5),
        addi(20, 0, 0),
        here(Label::Send),
        add(6, 18, 20),
        sw(6, 0, 9),
        add(9, 9, 24),
        addi(20, 20, 1),
        bne(20, 19, Label::Send),
    ])?;
    lines.extend_from_slice(&barrier())?;
    lines.extend_from_slice(&[
        addi(9, 8, 0),
        addi(20, 0, 0),
        here(Label::Seek),
        beq(20, 18, Label::Found),
        add(9, 9, 24),
        addi(20, 20, 1),
        jal(0, Label::Seek),
        here(Label::Found),
        addi(20, 0, 0),
        here(Label::Take),
        lw(6, 0, 9),
        add(23, 23, 6),
        addi(9, 9, 64),
        addi(20, 20, 1),
        bne(20, 19, Label::Take),
    ])?;
    lines.extend_from_slice(&barrier())?;
    lines.extend_from_slice(&[addi_minus_1(21, 21), bne(21, 0, Label::Outer)])?;
    lines.extend_from_slice(&end_with(23))?;
    Ok(lines)
}
