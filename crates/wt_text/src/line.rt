ghost use Rattle.std.specs.Prelude.{◌≡◌, ◌<◌, [], ◌∷◌, ◌++◌, length, codes, decimal, IfOk, OnOk};
ghost use Rattle.wt_text.specs.Text.{eight_digits, hex_of, counter_of, hex_pairs_of, line_end};

use itoa::Buffer;
use std::alloc::Global;
use std::marker::Model;
use wt_params::NoMemory;

/// A line of text that is being put together. Contracts see it as its bytes.
#[derive(Drop)]
pub struct Line {
    bytes: Vec<u8>,
}

impl Model for Line {
    ghost use Rattle.std.specs.Prelude.{List, ℕ, ◌<◌, length};

    ghost Value = { List ℕ };

    ghost view = { λ line. line.bytes.items };

    ghost invariant = { λ line. 0 < length line.bytes.items };
}

impl Line {
    /// A line that begins with this text.
    pub fn new(alloc: Global, text: &[u8]) -> Result<Line, NoMemory>
        requires { 0 < length text.now }
        ensures { IfOk result (λ line. line ≡ text.now) }
    {
        let bytes = Vec::from_slice(alloc, text)?;
        Ok(Line { bytes })
    }

    /// All the bytes so far, at least one.
    pub fn as_bytes(&self) -> &[u8]
        ensures value { result.now ≡ self.now }
        ensures nonempty { 0 < length result.now }
    {
        &self.bytes
    }

    /// Adds a text.
    pub fn text(&mut self, text: &[u8]) -> Result<(), NoMemory>
        ensures { OnOk result (self.new ≡ self.old ++ text.now) }
    {
        self.bytes.extend_from_slice(text)?;
        Ok(())
    }

    /// Adds a number in decimal.
    pub fn number(&mut self, number: u128) -> Result<(), NoMemory>
        ensures { OnOk result (self.new ≡ self.old ++ decimal number) }
    {
        let mut buffer = Buffer::new();
        self.text(buffer.format(number).as_bytes())
    }

    /// Adds a text and a number in decimal.
    pub fn entry(&mut self, text: &[u8], number: u128) -> Result<(), NoMemory>
        ensures { OnOk result (self.new ≡ self.old ++ (text.now ++ decimal number)) }
    {
        self.text(text)?;
        self.number(number)
    }

    /// Adds a counter, as its name and its number.
    #[tactic(auto, unfolding(crate::specs::Text::counter_of))]
    pub fn counter(&mut self, name: &[u8], number: u128) -> Result<(), NoMemory>
        ensures { OnOk result (self.new ≡ self.old ++ counter_of name.now number) }
    {
        self.text(b" ")?;
        self.text(name)?;
        self.entry(b" ", number)
    }

    /// Adds a word as eight hexadecimal digits.
    pub fn digits(&mut self, word: u32) -> Result<(), NoMemory>
        ensures { OnOk result (self.new ≡ self.old ++ eight_digits word) }
    {
        let mut digits = [0u8; 8];
        hex::encode_to_slice(word.to_be_bytes(), &mut digits).unwrap();
        self.text(&digits)
    }

    /// Adds a text and a word in hexadecimal.
    pub fn entry_hex(&mut self, text: &[u8], word: u32) -> Result<(), NoMemory>
        ensures { OnOk result (self.new ≡ self.old ++ (text.now ++ hex_of word)) }
    {
        self.text(text)?;
        self.text(b"0x")?;
        self.digits(word)
    }

    /// Adds bytes as pairs of hexadecimal digits.
    #[tactic(auto, using(crate::proofs::Pairs::pairs_more))]
    pub fn hex_pairs(&mut self, bytes: &[u8]) -> Result<(), NoMemory>
        ensures { OnOk result (self.new ≡ self.old ++ hex_pairs_of bytes.now) }
    {
        for byte in bytes {
            self.hex_pair(*byte)?;
        }
        Ok(())
    }

    /// Adds a byte as two hexadecimal digits.
    fn hex_pair(&mut self, byte: u8) -> Result<(), NoMemory>
        ensures { OnOk result (self.new ≡ self.old ++ hex_pairs_of (byte ∷ [])) }
    {
        let mut pair = [0u8; 2];
        hex::encode_to_slice([byte], &mut pair).unwrap();
        self.text(&pair)
    }

    /// Ends the line.
    pub fn end(&mut self) -> Result<(), NoMemory>
        ensures { OnOk result (self.new ≡ self.old ++ line_end) }
    {
        self.text(b"\n")
    }
}
