ghost use Rattle.std.specs.Prelude.{◌≡◌, ◌<◌, replicate, slice_index};
ghost use Rattle.rv_exec.specs.Registers.{AreRegisters, register_set};

use std::marker::Model;

/// The integer registers x0 to x31, of which x0 is always 0. Contracts see them as a list of 32 words.
#[derive(Clone, Copy, Debug, PartialEq, Eq)]
pub struct Regs {
    words: [u32; 32],
}

impl Model for Regs {
    ghost use Rattle.std.specs.Prelude.{ℕ, List};
    ghost use Rattle.rv_exec.specs.Registers.{AreRegisters};

    ghost Value = { List ℕ };

    ghost view = { λ r. r.words };

    ghost invariant = { λ r. AreRegisters r.words };

    ghost inverse = { λ words. record { words = words } };
}

impl Regs {
    /// All registers 0.
    pub fn new() -> Regs
        ensures value { result ≡ replicate 32 0 }
        ensures registers { AreRegisters result }
    {
        Regs { words: [0; 32] }
    }

    /// The value of a register.
    pub fn get(&self, r: u8) -> u32
        requires { r < 32 }
        ensures value { result ≡ slice_index self.now r }
        ensures registers { AreRegisters self.now }
    {
        self.words[r as usize]
    }

    /// Writes a register. A write to x0 is dropped.
    pub fn set(&mut self, r: u8, value: u32)
        requires { r < 32 }
        ensures value { self.new ≡ register_set self.old r value }
        ensures registers { AreRegisters self.new }
    {
        if r != 0 {
            self.words[r as usize] = value;
        }
    }
}
