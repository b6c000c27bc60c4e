use rv_word::{
    AluOp, BranchOp, alu, bits, branch_taken, imm_b, imm_i, imm_j, imm_s, imm_u, sign_extend,
};

/// Each operation and each condition on some operands, by the manual.
#[test]
fn operations_and_branches_are_those_of_the_manual(rt: HostRuntime) {
    for (op, first, second) in [
        (AluOp::Add, 0x8000_0034, 4),
        (AluOp::Sub, 0x7fff_ffec, 6),
        (AluOp::Sll, 0x100, 0x8000_0000),
        (AluOp::Slt, 1, 0),
        (AluOp::Sltu, 0, 1),
        (AluOp::Xor, 0x8000_0034, 0xffff_fffa),
        (AluOp::Srl, 0x0800_0001, 0),
        (AluOp::Sra, 0xf800_0001, 0),
        (AluOp::Or, 0x8000_0034, 0xffff_ffff),
        (AluOp::And, 0, 5),
    ] {
        let found = (alu(op, 0x8000_0010, 36), alu(op, 5, 0xffff_ffff));
        assert!(rt; found == (first, second), "{op:?}");
    }
    for (op, same, signed, unsigned) in [
        (BranchOp::Beq, true, false, false),
        (BranchOp::Bne, false, true, true),
        (BranchOp::Blt, false, true, false),
        (BranchOp::Bge, true, false, true),
        (BranchOp::Bltu, false, false, true),
        (BranchOp::Bgeu, true, true, false),
    ] {
        let found = (
            branch_taken(op, 5, 5),
            branch_taken(op, 0x8000_0000, 0x7fff_ffff),
            branch_taken(op, 0, 0xffff_ffff),
        );
        assert!(rt; found == (same, signed, unsigned), "{op:?}");
    }
}

/// The words are those of GNU as 2.40: `slti x1, x2, -2048`, `sh x3, 2047(x4)`, `blt x5, x6, -4096`,
/// `bge x7, x8, 2048`, `lui x5, 0x80000`, `jal x0, -1048576` and `jal x31, 1048574`.
#[test]
fn immediates_are_those_of_an_assembler(rt: HostRuntime) {
    let found = [
        imm_i(0x8001_2093).cast_signed(),
        imm_s(0x7e32_1fa3).cast_signed(),
        imm_b(0x8062_c063).cast_signed(),
        imm_b(0x0083_d0e3).cast_signed(),
        imm_u(0x8000_02b7).cast_signed(),
        imm_j(0x8000_006f).cast_signed(),
        imm_j(0x7fff_ffef).cast_signed(),
    ];
    let wanted = [
        -2048,
        2047,
        -4096,
        2048,
        -2_147_483_648,
        -1_048_576,
        1_048_574,
    ];
    assert!(rt; found == wanted);
    assert!(rt; bits(0xfe20_8ee3, 31, 25) == 0x7f);
    assert!(rt; sign_extend(0xffff_f7ff, 12) == 0x7ff);
}
