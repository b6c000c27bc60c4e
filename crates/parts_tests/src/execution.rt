use rv_decode::{LoadOp, StoreOp, decode};
use rv_exec::{Regs, execute, load_width, store_width, widen};
use std::test::Fail;
use wt_params::CostParts;

const COSTS: CostParts = CostParts {
    op: 1,
    taken: 2,
    mem: 3,
    hit: 4,
    cico: 5,
    call: 6,
    fill: 7,
    trap: 8,
    trap_each: 9,
};

/// Words as GNU as 2.40 assembles them for rv32i (the annotation by its directive .insn), and by the manual what x5 is
/// after each, and the effect: at address 8, where x5 is 0x101, x6 is 0x80000010 and x7 is 4.
const ROWS: &str = "407352b3 f8000001 Next { pc: 12, cost: 1 } sra x5, x6, x7
40435293 f8000001 Next { pc: 12, cost: 1 } srai x5, x6, 4
fff33293 1 Next { pc: 12, cost: 1 } sltiu x5, x6, -1
00128013 101 Next { pc: 12, cost: 1 } addi x0, x5, 1
800002b7 80000000 Next { pc: 12, cost: 1 } lui x5, 0x80000
fffff297 fffff008 Next { pc: 12, cost: 1 } auipc x5, 0xfffff
ffdff2ef c Next { pc: 4, cost: 2 } jal x5, -4
006002ef 101 BadTarget { target: 14 } jal x5, 6
004282e7 c Next { pc: 260, cost: 2 } jalr x5, 4(x5)
005282e7 101 BadTarget { target: 262 } jalr x5, 5(x5)
fe528ce3 101 Next { pc: 0, cost: 2 } beq x5, x5, -8
00528363 101 BadTarget { target: 14 } beq x5, x5, 6
00628363 101 Next { pc: 12, cost: 1 } beq x5, x6, 6
80032283 101 Load { op: Lw, rd: 5, address: 2147481616 } lw x5, -2048(x6)
00638423 101 Store { op: Sb, address: 12, value: 2147483664 } sb x6, 8(x7)
0403200b 101 Cico { op: CheckIn, address: 2147483728 } check_in 64(x6)
0ff0000f 101 Next { pc: 12, cost: 1 } fence
00000073 101 Call ecall
00100073 101 Break ebreak
00000000 101 Illegal illegal";

#[test]
fn each_instruction_by_the_manual(rt: HostRuntime) -> Result<(), Fail> {
    let alloc = rt.alloc();
    for row in ROWS.split('\n') {
        let (word, wanted) = row.split_once(' ').ok_or("no answer in a row")?;
        let instr = decode(u32::from_str_radix(word, 16)?);
        let mut regs = Regs::new();
        regs.set(5, 0x101);
        regs.set(6, 0x8000_0010);
        regs.set(7, 4);
        let effect = execute(&mut regs, 8, &instr, &COSTS);
        let x5 = regs.get(5);
        let text = instr.text(alloc)?;
        let told = format!(in alloc; "{x5:x} {effect:?} {text}")?;
        assert!(rt; regs.get(0) == 0 && told.as_str() == wanted, "{row}");
    }
    assert!(rt; load_width(LoadOp::Lhu) == 2 && store_width(StoreOp::Sb) == 1);
    assert!(rt; widen(LoadOp::Lh, 0x0012_8000) == 0xffff_8000);
    assert!(rt; widen(LoadOp::Lbu, 0x1280) == 0x80);
    Ok(())
}
