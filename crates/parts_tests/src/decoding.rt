use rv_decode::{Instr, StoreOp, decode, encode};
use std::test::Fail;

/// Words as GNU as 2.40 assembles them for rv32i (the annotations by its directive .insn), each with its text; then
/// words one bit away from one of these, or outside the table altogether.
const ROWS: &str = "800002b7 lui x5, 0x80000
00000fb7 lui x31, 0x0
fffff897 auipc x17, 0xfffff
008000ef jal x1, 8
8000006f jal x0, -1048576
7fffffef jal x31, 1048574
003280e7 jalr x1, 3(x5)
800f8067 jalr x0, -2048(x31)
fe208ee3 beq x1, x2, -4
7e419fe3 bne x3, x4, 4094
8062c063 blt x5, x6, -4096
0083d0e3 bge x7, x8, 2048
00a4e863 bltu x9, x10, 16
ffefffe3 bgeu x31, x30, -2
fff10083 lb x1, -1(x2)
00221183 lh x3, 2(x4)
0002a503 lw x10, 0(x5)
7ff3c303 lbu x6, 2047(x7)
8004d403 lhu x8, -2048(x9)
fe110fa3 sb x1, -1(x2)
7e321fa3 sh x3, 2047(x4)
00a2a023 sw x10, 0(x5)
80bfa023 sw x11, -2048(x31)
04100513 addi x10, x0, 65
80012093 slti x1, x2, -2048
fff33293 sltiu x5, x6, -1
7ff44393 xori x7, x8, 2047
00156493 ori x9, x10, 1
ff067593 andi x11, x12, -16
01f71693 slli x13, x14, 31
00185793 srli x15, x16, 1
40455293 srai x5, x10, 4
005404b3 add x9, x8, x5
403100b3 sub x1, x2, x3
00629233 sll x4, x5, x6
009423b3 slt x7, x8, x9
00c5b533 sltu x10, x11, x12
00f746b3 xor x13, x14, x15
0128d833 srl x16, x17, x18
415a59b3 sra x19, x20, x21
018beb33 or x22, x23, x24
01bd7cb3 and x25, x26, x27
0ff0000f fence
00000073 ecall
00100073 ebreak
0002800b check_out_s 0(x5)
8003100b check_out_x -2048(x6)
0404200b check_in 64(x8)
00000000 illegal
ffffffff illegal
800002b6 illegal
800002b5 illegal
fffff89f illegal
008000eb illegal
003290e7 illegal
0032c0e7 illegal
fe20aee3 illegal
fe20bee3 illegal
0002b503 illegal
0002e503 illegal
0002f503 illegal
00a2b023 illegal
00a2e023 illegal
03f71693 illegal
41f71693 illegal
80185793 illegal
42455293 illegal
025404b3 illegal
805404b3 illegal
407140b3 illegal
40629233 illegal
41bd7cb3 illegal
0ff0100f illegal
0ff0400f illegal
000000f3 illegal
00200073 illegal
00300073 illegal
0000208b illegal
0000300b illegal
0000600b illegal";

#[test]
fn each_word_has_its_text(rt: HostRuntime) -> Result<(), Fail> {
    for row in ROWS.split('\n') {
        let (word, text) = row.split_once(' ').ok_or("no text in a row")?;
        let word = u32::from_str_radix(word, 16)?;
        let instr = decode(word);
        let again = if instr == Instr::Illegal {
            None
        } else {
            Some(word)
        };
        assert!(rt; instr.text(rt.alloc())?.as_str() == text, "{row}");
        assert!(rt; encode(&instr) == again, "{row}");
    }
    let store = Instr::Store {
        op: StoreOp::Sb,
        rs1: 2,
        rs2: 1,
        imm: -1,
    };
    assert!(rt; decode(0xfe110fa3) == store);
    assert!(rt;
        decode(0x8330000f) == Instr::Fence,
        "its fields don't count"
    );
    Ok(())
}
