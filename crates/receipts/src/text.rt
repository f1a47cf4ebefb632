//! The whole text.

ghost use Rattle.std.specs.Prelude.{◌≡◌, IfOk, ◌++◌, ◌∷◌, map, codes, take};
ghost use Rattle.std.specs.Fmt.{decimal};
ghost use Rattle.std.specs.FinMap.{entries};
ghost use Rattle.std.specs.List.{enumerate_from, flat_map};
ghost use Rattle.hex.specs.Hex.{encode_lower};
ghost use Rattle.receipts.specs.Buffer.{Appended};
ghost use Rattle.receipts.specs.Text.{end_name, word_text, call_line, regs_line, write_line, store_line, call_lines, result_text};

use crate::buffer::TextBuffer;
use crate::digits::{push_bytes, push_decimal, push_key, push_word_field, put_words};
use crate::lines::end_name;
use byte_streams::{Destination, WriteFault};
use rv_isa::Regs;
use rv_ledger::{Change, End, Key, Receipt, Store, StoredValue, Writes};
use std::alloc::{AllocError, Global};

/// The text of a result: what each call did, in block order, and the storage after the last one. Refused if memory
/// ran out.
pub fn result_text(
    alloc: Global,
    receipts: &[Receipt],
    store: &Store,
) -> Result<Vec<u8>, AllocError>
    ensures { IfOk result (λ t. t.items ≡ result_text receipts.now store.now) }
{
    let mut waiting = TextBuffer::new(alloc)?;
    let mut text = Vec::new(alloc);
    push_result(&mut waiting, receipts, store, &mut text);
    match waiting.finish(&mut text) {
        Ok(()) => Ok(text),
        Err(WriteFault::Io | WriteFault::WroteNothing | WriteFault::Memory) => Err(AllocError),
    }
}

/// Appends the text of a result: what each call did, in block order, and the storage after the last one.
pub(crate) fn push_result<W: Destination>(
    text: &mut TextBuffer,
    receipts: &[Receipt],
    store: &Store,
    out: &mut W,
)
    ensures { Appended W.Destination text.old out.old text.new out.new (result_text receipts.now store.now) }
{
    push_calls(text, receipts, out);
    push_store(text, store, out);
    text.push(b"end\n", out);
}

/// Appends the lines of all calls.
fn push_calls<W: Destination>(text: &mut TextBuffer, receipts: &[Receipt], out: &mut W)
    ensures { Appended W.Destination text.old out.old text.new out.new (flat_map call_lines (enumerate_from 0 receipts.now)) }
{
    for (index, receipt) in receipts.iter().enumerate() {
        push_call(text, index, receipt, out);
    }
}

/// Appends the lines of the call at an index.
fn push_call<W: Destination>(text: &mut TextBuffer, index: usize, receipt: &Receipt, out: &mut W)
    ensures { Appended W.Destination text.old out.old text.new out.new (call_lines (index, receipt.now)) }
{
    push_call_line(text, index, receipt, out);
    push_regs(text, &receipt.regs, out);
    push_writes(text, index, &receipt.writes, out);
}

/// Appends the line that says how the call at an index ended.
pub(crate) fn push_call_line<W: Destination>(
    text: &mut TextBuffer,
    index: usize,
    receipt: &Receipt,
    out: &mut W,
)
    ensures { Appended W.Destination text.old out.old text.new out.new (call_line index receipt.now) }
{
    push_end(text, index, receipt.end, out);
    push_gas_and_pc(text, receipt.gas, receipt.pc, out);
    text.push(b" out ", out);
    push_bytes(text, receipt.out.bytes(), out);
    text.push(b"\n", out);
}

/// Appends the index of a call, and the name of its end.
fn push_end<W: Destination>(text: &mut TextBuffer, index: usize, end: End, out: &mut W)
    ensures { Appended W.Destination text.old out.old text.new out.new (codes "call " ++ (decimal index ++ (32 ∷ end_name end))) }
{
    text.push(b"call ", out);
    push_decimal(text, index as u64, out);
    text.push(b" ", out);
    text.push(end_name(end).as_bytes(), out);
}

/// Appends the gas of a call, and the pc where it ended.
fn push_gas_and_pc<W: Destination>(text: &mut TextBuffer, gas: u32, pc: u32, out: &mut W)
    ensures { Appended W.Destination text.old out.old text.new out.new (codes " gas " ++ (decimal gas ++ (codes " pc " ++ word_text pc))) }
{
    text.push(b" gas ", out);
    push_decimal(text, u64::from(gas), out);
    text.push(b" pc", out);
    push_word_field(text, pc, out);
}

/// Appends the line of the 32 registers, x0 first.
pub(crate) fn push_regs<W: Destination>(text: &mut TextBuffer, regs: &Regs, out: &mut W)
    ensures { Appended W.Destination text.old out.old text.new out.new (regs_line regs.now) }
{
    text.push(&regs_bytes(regs)[..293], out);
}

/// The line of the 32 registers, x0 first; what follows its 293 bytes has no meaning.
#[inline(always)]
fn regs_bytes(regs: &Regs) -> [u8; 304]
    ensures { take 293 result ≡ regs_line regs.now }
{
    let mut line = [0; 304];
    line[..4].copy_from_slice(b"regs");
    put_words(&mut line, regs.values());
    line[292] = b'\n';
    line
}

/// Appends the lines of the writes of the call at an index.
pub(crate) fn push_writes<W: Destination>(
    text: &mut TextBuffer,
    index: usize,
    writes: &Writes,
    out: &mut W,
)
    ensures { Appended W.Destination text.old out.old text.new out.new (flat_map (write_line index) (entries writes.now)) }
{
    for (key, change) in writes.as_slice() {
        push_write(text, index, key, change, out);
    }
}

/// Appends the line of one write of the call at an index.
fn push_write<W: Destination>(
    text: &mut TextBuffer,
    index: usize,
    key: &Key,
    change: &Change<StoredValue>,
    out: &mut W,
)
    ensures { Appended W.Destination text.old out.old text.new out.new (write_line index (key.now, change.now)) }
{
    push_write_key(text, index, key, out);
    match change {
        Change::Value(value) => push_bytes(text, value.bytes(), out),
        Change::Gone => text.push(b"gone", out),
        Change::Sum(amount) => push_sum(text, *amount, out),
    }
    text.push(b"\n", out);
}

/// Appends the index of a call and a key that it wrote, up to the space after them.
fn push_write_key<W: Destination>(text: &mut TextBuffer, index: usize, key: &Key, out: &mut W)
    ensures { Appended W.Destination text.old out.old text.new out.new (codes "write " ++ (decimal index ++ (32 ∷ (encode_lower key.now ++ codes " ")))) }
{
    text.push(b"write ", out);
    push_decimal(text, index as u64, out);
    text.push(b" ", out);
    push_key(text, key.bytes(), out);
    text.push(b" ", out);
}

/// Appends the word `add` and an amount.
fn push_sum<W: Destination>(text: &mut TextBuffer, amount: u64, out: &mut W)
    ensures { Appended W.Destination text.old out.old text.new out.new (codes "add " ++ decimal amount) }
{
    text.push(b"add ", out);
    push_decimal(text, amount, out);
}

/// Appends the lines of the storage.
fn push_store<W: Destination>(text: &mut TextBuffer, store: &Store, out: &mut W)
    ensures { Appended W.Destination text.old out.old text.new out.new (flat_map store_line (entries store.now)) }
{
    for (key, value) in store.iter() {
        push_entry(text, key, value, out);
    }
}

/// Appends the line of one key of the storage.
pub fn push_entry<W: Destination>(
    text: &mut TextBuffer,
    key: &Key,
    value: &StoredValue,
    out: &mut W,
)
    ensures { Appended W.Destination text.old out.old text.new out.new (store_line (key.now, value.now)) }
{
    text.push(b"store ", out);
    push_key(text, key.bytes(), out);
    text.push(b" ", out);
    push_bytes(text, value.bytes(), out);
    text.push(b"\n", out);
}
