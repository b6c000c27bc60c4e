ghost use Rattle.std.specs.Prelude.{◌≡◌, ◌⊎◌};
ghost use Rattle.rv_exec.specs.Widths.{load_width_of, store_width_of, widened};

use rv_decode::{LoadOp, StoreOp};
use rv_word::sign_extend;

/// How many bytes a load reads: 1, 2 or 4.
pub fn load_width(op: LoadOp) -> u32
    ensures value { result ≡ load_width_of op }
    ensures range { (result ≡ 1) ⊎ ((result ≡ 2) ⊎ (result ≡ 4)) }
{
    match op {
        LoadOp::Lb | LoadOp::Lbu => 1,
        LoadOp::Lh | LoadOp::Lhu => 2,
        LoadOp::Lw => 4,
    }
}

/// How many bytes a store writes: 1, 2 or 4.
pub fn store_width(op: StoreOp) -> u32
    ensures value { result ≡ store_width_of op }
    ensures range { (result ≡ 1) ⊎ ((result ≡ 2) ⊎ (result ≡ 4)) }
{
    match op {
        StoreOp::Sb => 1,
        StoreOp::Sh => 2,
        StoreOp::Sw => 4,
    }
}

/// What a load puts into its register: the low bytes of `raw` that it reads, sign-extended by `Lb` and `Lh`,
/// else zero-extended. The other bytes of `raw` don't count.
pub fn widen(op: LoadOp, raw: u32) -> u32
    ensures { result ≡ widened op raw }
{
    match op {
        LoadOp::Lb => sign_extend(raw, 8),
        LoadOp::Lh => sign_extend(raw, 16),
        LoadOp::Lw => raw,
        LoadOp::Lbu => raw % 256,
        LoadOp::Lhu => raw % 65536,
    }
}
