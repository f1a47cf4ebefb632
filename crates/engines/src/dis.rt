//! The engine of `rvstm dis`, over any reader and writer.

ghost use Rattle.std.specs.Prelude.{◌≡◌, ◌++◌, [], ◌∷◌, flat_map, Ok, IfErr, IfOk, IfSome, IsOkAnd, OnOk};
ghost use Rattle.std.specs.Io.KnownBytes.{Appends};
ghost use Rattle.std.specs.Option.{option_map};
ghost use Rattle.std.specs.String.{string_bytes};
ghost use Rattle.engines.specs.Engine.{IsFileFault};
ghost use Rattle.engines.specs.Dis.{IsListingFault, listing_line, listing_of, listing_of_file};
ghost use Rattle.programs.specs.Programs.{program_of_file};
ghost use Rattle.receipts.specs.Text.{word_text};

use crate::fault::Refusal;
use crate::reading::read_program;
use byte_streams::{Destination, Source, write_whole};
use elf32::{Image, PlacedWord};
use programs::{ProgramFault, load_file};
use receipts::word_text;
use rv_text::disassemble;
use std::alloc::{AllocError, Global};

/// Reads an ELF file of at most 131,072 bytes to its end, loads it and writes a line for each of its words: the address, the
/// word and its text. The first refusal ends it. If the output is refused, a beginning of the lines was written; before any
/// other refusal nothing was written.
pub fn dis_to<R: Source, W: Destination>(
    alloc: Global,
    file: &mut R,
    out: &mut W,
) -> Result<(), Refusal>
    ensures written { OnOk result (IfSome (R.remaining file.old) (λ bytes.
        IsOkAnd (listing_of_file bytes) (Appends (W.contents out.old) (W.contents out.new)))) }
    ensures refused { IfErr result (IsListingFault (R.may_fail file.old) (W.may_refuse out.old) (R.remaining file.old) (W.contents out.old) (W.contents out.new)) }
{
    // Not by `?`: the proof answers this arm.
    let listing = match listing(alloc, file) {
        Ok(listing) => listing,
        Err(fault) => return Err(Refusal::from(fault)),
    };
    match write_whole(listing.as_bytes(), out) {
        Ok(()) => Ok(()),
        Err(fault) => Err(Refusal::Output(fault)),
    }
}

/// The lines of an ELF file.
fn listing<R: Source>(alloc: Global, file: &mut R) -> Result<String, ProgramFault>
    ensures ok { IfOk result (λ t. IfSome (R.remaining file.old) (λ bytes. listing_of_file bytes ≡ Ok (string_bytes t))) }
    ensures err { IfErr result (λ fault. IsFileFault (R.may_fail file.old) (option_map program_of_file (R.remaining file.old)) fault) }
{
    let bytes = read_program(alloc, file)?;
    let image = load_file(alloc, bytes.as_slice())?;
    Ok(listing_text(alloc, &image)?)
}

/// The lines of an image. Refused if memory ran out.
fn listing_text(alloc: Global, image: &Image) -> Result<String, AllocError>
    ensures { IfOk result (λ t. string_bytes t ≡ listing_of image.now) }
{
    let words = image.words(alloc)?;
    let mut text = String::new(alloc);
    push_lines(alloc, words.as_slice(), &mut text)?;
    Ok(text)
}

/// Appends the lines of some words. Refused if memory ran out.
fn push_lines(alloc: Global, words: &[PlacedWord], text: &mut String) -> Result<(), AllocError>
    ensures { OnOk result (string_bytes text.new ≡ string_bytes text.old ++ flat_map listing_line words.now) }
{
    for word in words {
        push_line(alloc, word, text)?;
    }
    Ok(())
}

/// Appends the line of a word. Refused if memory ran out.
fn push_line(alloc: Global, placed: &PlacedWord, text: &mut String) -> Result<(), AllocError>
    ensures { OnOk result (string_bytes text.new ≡ string_bytes text.old ++ listing_line placed.now) }
{
    push_word(alloc, placed.address, text)?;
    push_word(alloc, placed.word, text)?;
    disassemble(alloc, placed.word, text)?;
    text.push('\n')
}

/// Appends the eight hex digits of a word and a space. Refused if memory ran out.
fn push_word(alloc: Global, word: u32, text: &mut String) -> Result<(), AllocError>
    ensures { OnOk result (string_bytes text.new ≡ string_bytes text.old ++ (word_text word ++ 32 ∷ [])) }
{
    text.push_str(word_text(alloc, word)?.as_str())?;
    text.push(' ')
}
