//! The two sections of an assembled program.

use std::marker::Model;

/// The address of the first text word.
pub const TEXT_START: u32 = 0x0001_0000;
/// The address of the first data byte.
pub const DATA_START: u32 = 0x0002_0000;
/// How many bytes the text section may have at most. A word has four.
pub const TEXT_LIMIT: usize = 65_536;
/// How many bytes the data section may have at most.
pub const DATA_LIMIT: usize = 61_440;

/// An assembled program: its text words from `TEXT_START` on and its data bytes from `DATA_START` on. Text
/// has at most `TEXT_LIMIT` bytes, and data at most `DATA_LIMIT`.
#[derive(Debug, Drop)]
pub struct Program {
    text: Vec<u32>,
    data_bytes: Vec<u8>,
}

impl Model for Program {
    ghost use Rattle.rv_program.specs.Sections.{IsSized, Sections};

    ghost Value = { Sections };

    ghost view = { λ p. record { text = p.text.items; data_bytes = p.data_bytes.items } };

    ghost invariant = { λ p. IsSized (record { text = p.text.items; data_bytes = p.data_bytes.items }) };
}

impl Program {
    ghost use Rattle.std.specs.Prelude.{◌≡◌};
    ghost use Rattle.rv_program.specs.Sections.{IsSized, sections_of};

    /// The program of these text words and data bytes. None if the text has more than `TEXT_LIMIT`
    /// bytes or the data more than `DATA_LIMIT`.
    pub fn new(text: Vec<u32>, data_bytes: Vec<u8>) -> Option<Program>
        ensures { result ≡ sections_of text.items data_bytes.items }
    {
        if TEXT_LIMIT / 4 < text.len() || DATA_LIMIT < data_bytes.len() {
            return None;
        }
        Some(Program { text, data_bytes })
    }

    /// The text words, in the order of their addresses: at most `TEXT_LIMIT` bytes, four for each word.
    pub fn text(&self) -> &[u32]
        ensures value { result.now ≡ self.now.text }
        ensures sized { IsSized self.now }
    {
        self.text.as_slice()
    }

    /// The data bytes, in the order of their addresses: at most `DATA_LIMIT`.
    pub fn data(&self) -> &[u8]
        ensures value { result.now ≡ self.now.data_bytes }
        ensures sized { IsSized self.now }
    {
        self.data_bytes.as_slice()
    }
}
