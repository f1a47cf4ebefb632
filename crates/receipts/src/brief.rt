//! The text of receipts, with or without the registers.

ghost use Rattle.std.specs.Prelude.{◌≡◌, IfOk};
ghost use Rattle.std.specs.List.{enumerate_from, flat_map};
ghost use Rattle.receipts.specs.Brief.{lines_of_call, receipts_text};
ghost use Rattle.receipts.specs.Buffer.{Appended};

use crate::buffer::TextBuffer;
use crate::text::{push_call_line, push_regs, push_writes};
use byte_streams::{Destination, WriteFault};
use rv_ledger::Receipt;
use std::alloc::{AllocError, Global};

/// The text of receipts: what each call did, in block order, and the line `end`. If it is brief, the lines of the
/// registers are left out. Refused if memory ran out.
pub fn receipts_text(
    alloc: Global,
    is_brief: bool,
    receipts: &[Receipt],
) -> Result<Vec<u8>, AllocError>
    ensures { IfOk result (λ t. t.items ≡ receipts_text is_brief receipts.now) }
{
    let mut waiting = TextBuffer::new(alloc)?;
    let mut text = Vec::new(alloc);
    push_receipts(&mut waiting, is_brief, receipts, &mut text);
    match waiting.finish(&mut text) {
        Ok(()) => Ok(text),
        Err(WriteFault::Io | WriteFault::WroteNothing | WriteFault::Memory) => Err(AllocError),
    }
}

/// Appends the text of receipts.
fn push_receipts<W: Destination>(
    text: &mut TextBuffer,
    is_brief: bool,
    receipts: &[Receipt],
    out: &mut W,
)
    ensures { Appended W.Destination text.old out.old text.new out.new (receipts_text is_brief receipts.now) }
{
    push_calls(text, is_brief, receipts, out);
    text.push(b"end\n", out);
}

/// Appends the lines of all calls.
fn push_calls<W: Destination>(
    text: &mut TextBuffer,
    is_brief: bool,
    receipts: &[Receipt],
    out: &mut W,
)
    ensures { Appended W.Destination text.old out.old text.new out.new (flat_map (lines_of_call is_brief) (enumerate_from 0 receipts.now)) }
{
    for (index, receipt) in receipts.iter().enumerate() {
        push_call(text, is_brief, index, receipt, out);
    }
}

/// Appends the lines of the call at an index.
fn push_call<W: Destination>(
    text: &mut TextBuffer,
    is_brief: bool,
    index: usize,
    receipt: &Receipt,
    out: &mut W,
)
    ensures { Appended W.Destination text.old out.old text.new out.new (lines_of_call is_brief (index, receipt.now)) }
{
    push_call_line(text, index, receipt, out);
    if !is_brief {
        push_regs(text, &receipt.regs, out);
    }
    push_writes(text, index, &receipt.writes, out);
}
