ghost use Rattle.std.specs.Prelude.{ℕ, ◌≡◌, ◌<◌, ◌+◌, ◌*◌, ◌^◌};
ghost use Rattle.rv_word.specs.Words.{bits_of, signed};
ghost use Rattle.rv_word.specs.Immediates.{i_immediate, s_immediate, b_immediate, j_immediate};
ghost use Rattle.rv_decode.specs.Codes.{opcode_of, funct3_of, funct7_of};
ghost use Rattle.rv_decode.specs.Encoding.{joined_of, r_word_of, i_word_of, s_word_of, b_word_of, u_word_of, j_word_of};
ghost use Rattle.rv_decode.specs.Fields.{IsRegister, IsShort, IsBranchOffset, IsJumpOffset};
ghost use Rattle.rv_decode.specs.Table.{rd_of, rs1_of, rs2_of};

use rv_word::bits;

/// The word of these fields, from the highest: bits 31 to 20, rs1, funct3, bits 11 to 7, opcode.
fn joined(high: u32, rs1: u8, funct3: u32, low: u32, opcode: u32) -> u32
    requires high { high < 2 ^ 12 }
    requires rs1 { IsRegister rs1 }
    requires funct3 { funct3 < 8 }
    requires low { low < 32 }
    requires opcode { opcode < 128 }
    ensures { result ≡ joined_of high rs1 funct3 low opcode }
{
    (high << 20) + (u32::from(rs1) << 15) + (funct3 << 12) + (low << 7) + opcode
}

/// A word of the format R.
pub(crate) fn r_word(opcode: u32, funct3: u32, funct7: u32, rd: u8, rs1: u8, rs2: u8) -> u32
    requires opcode { opcode < 128 }
    requires funct3 { funct3 < 8 }
    requires funct7 { funct7 < 128 }
    requires rd { IsRegister rd }
    requires rs1 { IsRegister rs1 }
    requires rs2 { IsRegister rs2 }
    ensures opcode { opcode_of result ≡ opcode }
    ensures funct3 { funct3_of result ≡ funct3 }
    ensures funct7 { funct7_of result ≡ funct7 }
    ensures rd { rd_of result ≡ rd }
    ensures rs1 { rs1_of result ≡ rs1 }
    ensures rs2 { rs2_of result ≡ rs2 }
    ensures word { result ≡ r_word_of opcode funct3 funct7 rd rs1 rs2 }
{
    joined(
        (funct7 << 5) + u32::from(rs2),
        rs1,
        funct3,
        u32::from(rd),
        opcode,
    )
}

/// A word of the format I.
pub(crate) fn i_word(opcode: u32, funct3: u32, rd: u8, rs1: u8, imm: i32) -> u32
    requires opcode { opcode < 128 }
    requires funct3 { funct3 < 8 }
    requires rd { IsRegister rd }
    requires rs1 { IsRegister rs1 }
    requires imm { IsShort imm }
    ensures opcode { opcode_of result ≡ opcode }
    ensures funct3 { funct3_of result ≡ funct3 }
    ensures rd { rd_of result ≡ rd }
    ensures rs1 { rs1_of result ≡ rs1 }
    ensures imm { signed (i_immediate result) ≡ imm }
    ensures word { result ≡ i_word_of opcode funct3 rd rs1 imm }
{
    joined(
        bits(imm.cast_unsigned(), 11, 0),
        rs1,
        funct3,
        u32::from(rd),
        opcode,
    )
}

/// A word of the format S.
pub(crate) fn s_word(opcode: u32, funct3: u32, rs1: u8, rs2: u8, imm: i32) -> u32
    requires opcode { opcode < 128 }
    requires funct3 { funct3 < 8 }
    requires rs1 { IsRegister rs1 }
    requires rs2 { IsRegister rs2 }
    requires imm { IsShort imm }
    ensures opcode { opcode_of result ≡ opcode }
    ensures funct3 { funct3_of result ≡ funct3 }
    ensures rs1 { rs1_of result ≡ rs1 }
    ensures rs2 { rs2_of result ≡ rs2 }
    ensures imm { signed (s_immediate result) ≡ imm }
    ensures word { result ≡ s_word_of opcode funct3 rs1 rs2 imm }
{
    let value = imm.cast_unsigned();
    let high = (bits(value, 11, 5) << 5) + u32::from(rs2);
    joined(high, rs1, funct3, bits(value, 4, 0), opcode)
}

/// A word of the format B.
pub(crate) fn b_word(opcode: u32, funct3: u32, rs1: u8, rs2: u8, imm: i32) -> u32
    requires opcode { opcode < 128 }
    requires funct3 { funct3 < 8 }
    requires rs1 { IsRegister rs1 }
    requires rs2 { IsRegister rs2 }
    requires imm { IsBranchOffset imm }
    ensures opcode { opcode_of result ≡ opcode }
    ensures funct3 { funct3_of result ≡ funct3 }
    ensures rs1 { rs1_of result ≡ rs1 }
    ensures rs2 { rs2_of result ≡ rs2 }
    ensures imm { signed (b_immediate result) ≡ imm }
    ensures word { result ≡ b_word_of opcode funct3 rs1 rs2 imm }
{
    let value = imm.cast_unsigned();
    let high = (bits(value, 12, 12) << 11) + (bits(value, 10, 5) << 5) + u32::from(rs2);
    let low = (bits(value, 4, 1) << 1) + bits(value, 11, 11);
    joined(high, rs1, funct3, low, opcode)
}

/// A word of the format U.
pub(crate) fn u_word(opcode: u32, rd: u8, imm: u32) -> u32
    requires opcode { opcode < 128 }
    requires rd { IsRegister rd }
    requires imm { imm < 2 ^ 20 }
    ensures opcode { opcode_of result ≡ opcode }
    ensures rd { rd_of result ≡ rd }
    ensures imm { bits_of result 31 12 ≡ imm }
    ensures word { result ≡ u_word_of opcode rd imm }
{
    (imm << 12) + (u32::from(rd) << 7) + opcode
}

/// A word of the format J.
pub(crate) fn j_word(opcode: u32, rd: u8, imm: i32) -> u32
    requires opcode { opcode < 128 }
    requires rd { IsRegister rd }
    requires imm { IsJumpOffset imm }
    ensures opcode { opcode_of result ≡ opcode }
    ensures rd { rd_of result ≡ rd }
    ensures imm { signed (j_immediate result) ≡ imm }
    ensures word { result ≡ j_word_of opcode rd imm }
{
    let value = imm.cast_unsigned();
    let high = (bits(value, 20, 20) << 19) + (bits(value, 10, 1) << 9);
    u_word(
        opcode,
        rd,
        high + (bits(value, 11, 11) << 8) + bits(value, 19, 12),
    )
}
