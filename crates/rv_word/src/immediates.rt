ghost use Rattle.std.specs.Prelude.{◌≡◌};
ghost use Rattle.rv_word.specs.Immediates.{i_immediate, s_immediate, b_immediate, u_immediate, j_immediate};

use crate::words::{bits, sign_extend};

/// The immediate of the format I, sign-extended: bits 31 to 20.
pub fn imm_i(word: u32) -> u32
    ensures { result ≡ i_immediate word }
{
    sign_extend(bits(word, 31, 20), 12)
}

/// The immediate of the format S, sign-extended: bits 31 to 25, then 11 to 7.
pub fn imm_s(word: u32) -> u32
    ensures { result ≡ s_immediate word }
{
    sign_extend(bits(word, 31, 25) * 32 + bits(word, 11, 7), 12)
}

/// The immediate of the format B, sign-extended: bit 31, bit 7, bits 30 to 25, bits 11 to 8, then a 0.
pub fn imm_b(word: u32) -> u32
    ensures { result ≡ b_immediate word }
{
    let high = bits(word, 31, 31) * 4096 + bits(word, 7, 7) * 2048;
    let low = bits(word, 30, 25) * 32 + bits(word, 11, 8) * 2;
    sign_extend(high + low, 13)
}

/// The immediate of the format U: bits 31 to 12, times 4096.
pub fn imm_u(word: u32) -> u32
    ensures { result ≡ u_immediate word }
{
    bits(word, 31, 12) * 4096
}

/// The immediate of the format J, sign-extended: bit 31, bits 19 to 12, bit 20, bits 30 to 21, then a 0.
pub fn imm_j(word: u32) -> u32
    ensures { result ≡ j_immediate word }
{
    let high = bits(word, 31, 31) * 1_048_576 + bits(word, 19, 12) * 4096;
    let low = bits(word, 20, 20) * 2048 + bits(word, 30, 21) * 2;
    sign_extend(high + low, 21)
}
