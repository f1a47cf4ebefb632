//! The words and lines of the text.

ghost use Rattle.std.specs.Prelude.{◌≡◌, IfOk, OnOk, ◌++◌, map};
ghost use Rattle.std.specs.String.{string_bytes};
ghost use Rattle.hex.specs.Hex.{encode_lower};
ghost use Rattle.receipts.specs.Text.{trap_name, end_name, bytes_text, word_text, more_fields, regs_line};

use rv_isa::Regs;
use rv_ledger::{End, Trap};
use std::alloc::{AllocError, Global};

/// The name of a trap.
fn trap_name(trap: Trap) -> &'static str
    ensures { result.now ≡ trap_name trap }
{
    match trap {
        Trap::Illegal => "illegal",
        Trap::Misaligned => "misaligned",
        Trap::MemoryFault => "memory-fault",
        Trap::FetchFault => "fetch-fault",
        Trap::Breakpoint => "breakpoint",
        Trap::UnknownCall => "unknown-call",
        Trap::BadLength => "bad-length",
        Trap::TooManyWrites => "too-many-writes",
    }
}

/// The name of a call's end, as in `out-of-gas`.
pub fn end_name(end: End) -> &'static str
    ensures { result.now ≡ end_name end }
{
    match end {
        End::Returned => "returned",
        End::Reverted => "reverted",
        End::OutOfGas => "out-of-gas",
        End::Trapped(trap) => trap_name(trap),
    }
}

/// Bytes in lower-case hex, or a dash if there are none; refused if memory ran out.
pub fn bytes_text(alloc: Global, bytes: &[u8]) -> Result<String, AllocError>
    ensures { IfOk result (λ t. string_bytes t ≡ bytes_text bytes.now) }
{
    if bytes.is_empty() {
        return String::from_str(alloc, "-");
    }
    hex::encode(alloc, bytes)
}

/// A word in eight lower-case hex digits; refused if memory ran out.
pub fn word_text(alloc: Global, word: u32) -> Result<String, AllocError>
    ensures { IfOk result (λ t. string_bytes t ≡ word_text word) }
{
    hex::encode(alloc, word.to_be_bytes().as_slice())
}

/// The line of the 32 registers, x0 first, with its end; refused if memory ran out.
pub fn regs_line(alloc: Global, regs: &Regs) -> Result<String, AllocError>
    ensures { IfOk result (λ t. string_bytes t ≡ regs_line regs.now) }
{
    let mut line = String::from_str(alloc, "regs")?;
    push_words(&mut line, alloc, regs.values())?;
    Ok(line)
}

/// Appends words, each after a space, and ends the line; refused if memory ran out.
fn push_words(line: &mut String, alloc: Global, words: &[u32; 32]) -> Result<(), AllocError>
    ensures { OnOk result (string_bytes line.new
        ≡ string_bytes line.old ++ more_fields (map word_text words.now)) }
{
    for word in words {
        line.push_str(" ")?;
        line.push_str(word_text(alloc, *word)?.as_str())?;
    }
    line.push_str("\n")
}
