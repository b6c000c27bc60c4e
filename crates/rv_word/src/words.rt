ghost use Rattle.std.specs.Prelude.{ℕ, ◌≡◌, ◌<◌, ◌≤◌, ◌+◌, ◌-◌, ◌^◌};
ghost use Rattle.rv_word.specs.Words.{bits_of, sign_extended};

/// The bits `high` to `low` of a word, both among them, as a number. Bit 0 is the lowest.
pub fn bits(word: u32, high: u32, low: u32) -> u32
    requires ordered { low ≤ high }
    requires within { high ≤ 31 }
    ensures value { result ≡ bits_of word high low }
    ensures range { result < 2 ^ (high - low + 1) }
{
    (word >> low) & (u32::MAX >> (31 - (high - low)))
}

/// The word whose low `width` bits are those of `value` and whose other bits copy the bit `width - 1`. The
/// other bits of `value` don't count.
pub fn sign_extend(value: u32, width: u32) -> u32
    requires some { 1 ≤ width }
    requires within { width ≤ 32 }
    ensures { result ≡ sign_extended value width }
{
    let mask = u32::MAX >> (32 - width);
    let kept = value & mask;
    if kept < 1 << (width - 1) {
        kept
    } else {
        kept + (u32::MAX - mask)
    }
}
