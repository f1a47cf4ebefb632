//! The words of a program's text.

ghost use Rattle.std.specs.Prelude.{◌≡◌, ◌+◌, ◌*◌, ◌/◌, ◌-◌, ◌<◌, ◌++◌, length, IfOk, OnOk, AllPairs, List, ℕ};
ghost use Rattle.elf32.specs.Image.{image_of};
ghost use Rattle.elf32.specs.Layout.{IsPlaced, Layout};
ghost use Rattle.elf32.specs.Words.{StandInSegments, lead, word_count, word_of_segment, words_of, words_of_segment};

use crate::header::word_at;
use crate::image::Image;
use crate::segment::Segment;
use std::alloc::{AllocError, Global};

/// A word that may be executed, and its address.
#[derive(Clone, Copy, Debug, PartialEq, Eq)]
pub struct PlacedWord {
    /// A multiple of 4.
    pub address: u32,
    /// The little-endian number in the four bytes there.
    pub word: u32,
}

impl Segment {
    /// The number of bytes from the segment's address to the first multiple of 4, 0 to 3.
    fn lead(&self) -> u32
        ensures value { result ≡ lead self.now }
        ensures small { result < 4 }
    {
        (4 - self.address % 4) % 4
    }

    /// The number of whole words in the file bytes from there on.
    fn word_count(&self) -> usize
        ensures { result ≡ word_count self.now }
    {
        self.content
            .bytes()
            .len()
            .saturating_sub(self.lead() as usize)
            / 4
    }

    /// The k-th of these words, counted from 0, with its address.
    fn word(&self, k: usize) -> PlacedWord
        requires placed { IsPlaced self.now }
        requires below { k < word_count self.now }
        ensures { result ≡ word_of_segment self.now k }
    {
        let at = self.lead() as usize + 4 * k;
        PlacedWord {
            address: self.address + at as u32,
            word: word_at(self.content.bytes(), at),
        }
    }

    /// Adds the segment's words if it may be executed, otherwise nothing; refused if memory ran out.
    #[tactic(auto, unfolding(crate::specs::Words::words_of_segment))]
    fn put_words(&self, words: &mut Vec<PlacedWord>) -> Result<(), AllocError>
        requires { IsPlaced self.now }
        ensures { OnOk result (words.new.items ≡ words.old.items ++ words_of_segment self.now) }
    {
        if !self.rights.executable {
            return Ok(());
        }
        for k in 0..self.word_count() {
            words.push(self.word(k))?;
        }
        Ok(())
    }
}

impl Image {
    /// The words at multiples of 4 whose four bytes are file bytes of a segment with PF_X, each with its address, in the order
    /// of the segments. Refused if memory ran out. The law `words_stand_in_segments` says which words these are. The law
    /// `words_ascend` says that their addresses ascend if the program was loaded from a file.
    pub fn words(&self, alloc: Global) -> Result<Vec<PlacedWord>, AllocError>
        ensures { IfOk result (λ v. v.items ≡ words_of self.now) }
    {
        let mut words = Vec::new(alloc);
        for segment in self.segments() {
            segment.put_words(&mut words)?;
        }
        Ok(words)
    }
}

/// A law, and no code: the words of a file that loads have ascending addresses.
pub fn words_ascend()
    ensures { (bytes : List ℕ) (layout : Layout)
        → image_of bytes ≡ Ok layout
        → AllPairs (λ v w. v.address < w.address) (words_of layout) }
{}

/// A law, and no code: when a word with its address is among a program's words. It is exactly if the address is a multiple of 4
/// and a segment that may be executed has the word there in four of its file bytes.
pub fn words_stand_in_segments()
    ensures { (layout : Layout) → StandInSegments layout }
{}
