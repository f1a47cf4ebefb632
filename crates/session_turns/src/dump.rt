//! The text of a storage.

ghost use Rattle.std.specs.Prelude.{◌≡◌, ◌≢◌, ◌<◌, ◌≤◌, ◌^◌, IfErr, [], None, length};
ghost use Rattle.std.specs.FinMap.{entries};
ghost use Rattle.std.specs.List.{flat_map};
ghost use Rattle.byte_streams.specs.Written.{WritesText};
ghost use Rattle.receipts.specs.Buffer.{Appended};
ghost use Rattle.receipts.specs.Text.{bytes_text, store_line};
ghost use Rattle.session_turns.specs.Telling.{dump_head, dump_text};

use byte_streams::{Destination, WriteFault};
use receipts::{TextBuffer, push_decimal, push_entry};
use rv_ledger::{Key, Rules, Store, StoredValue};
use std::alloc::{AllocError, Global};

/// A buffer in which nothing waits, for the text of a storage on its way to a writer.
#[derive(Drop)]
pub struct EmptyBuffer {
    buffer: TextBuffer,
    ghost is_whole: { buffer.refused ≡ None },
    ghost is_empty: { buffer.waiting.items ≡ [] },
}

impl EmptyBuffer {
    /// A buffer in which nothing waits. Refused if memory ran out.
    pub(crate) fn new(alloc: Global) -> Result<EmptyBuffer, AllocError> {
        let buffer = TextBuffer::new(alloc)?;
        Ok(EmptyBuffer { buffer })
    }
}

/// The length of the text of a storage, in bytes.
pub fn dump_length(rules: Rules, store: &Store) -> u128
    ensures { result ≡ length (dump_text rules store.now) }
{
    keys_fit(store);
    let mut length = head_length(rules);
    for (key, value) in store.iter() {
        length += line_length(key, value) as u128;
    }
    length
}

/// A storage has fewer than 2^64 keys.
fn keys_fit(store: &Store)
    ensures { length (entries store.now) < 2 ^ 64 }
{
    let _count = store.iter().len();
}

/// The length of the lines before the first entry's.
#[tactic(auto, using(crate::proofs::Dumps::head_is))]
fn head_length(_rules: Rules) -> u128
    ensures { result ≡ length (dump_head _rules) }
{
    16
}

/// The length of an entry's line, at most 584 bytes: `store`, two spaces and the line's end, and the key and the value in digits.
#[tactic(auto, using(crate::proofs::Dumps::line_is))]
fn line_length(key: &Key, value: &StoredValue) -> usize
    ensures value { result ≡ length (store_line (key.now, value.now)) }
    ensures short { result ≤ 584 }
{
    8 + 2 * key.bytes().len() + digit_count(value.bytes())
}

/// The length of a value in digits, or of the dash that stands for no value.
#[tactic(auto, using(crate::proofs::Dumps::digits_are))]
fn digit_count(bytes: &[u8]) -> usize
    requires { length bytes.now ≤ 256 }
    ensures value { result ≡ length (bytes_text bytes.now) }
    ensures short { result ≤ 512 }
{
    if bytes.is_empty() { 1 } else { 2 * bytes.len() }
}

/// Writes the text of a storage: a block file of the session's rules. Takes no memory. If a write is refused, the first refusal
/// is returned, and only a beginning of the text was written.
pub fn write_dump<W: Destination>(
    buffer: EmptyBuffer,
    rules: Rules,
    store: &Store,
    out: &mut W,
) -> Result<(), WriteFault>
    ensures writes { WritesText W.Destination result out.old out.new (dump_text rules store.now) }
    ensures fault { IfErr result (λ fault. fault ≢ WriteFault.Memory) }
{
    let EmptyBuffer { buffer } = buffer;
    let mut text = buffer;
    push_dump(&mut text, rules, store, out);
    text.finish(out)
}

/// Appends the text of a storage: a block file of the session's rules.
fn push_dump<W: Destination>(text: &mut TextBuffer, rules: Rules, store: &Store, out: &mut W)
    ensures { Appended W.Destination text.old out.old text.new out.new (dump_text rules store.now) }
{
    push_head(text, rules, out);
    push_store(text, store, out);
}

/// Appends the lines before the first entry's.
fn push_head<W: Destination>(text: &mut TextBuffer, rules: Rules, out: &mut W)
    ensures { Appended W.Destination text.old out.old text.new out.new (dump_head rules) }
{
    text.push(b"rvblock 2\ngas ", out);
    push_decimal(text, u64::from(rules.number()), out);
    text.push(b"\n", out);
}

/// Appends the lines of the entries.
fn push_store<W: Destination>(text: &mut TextBuffer, store: &Store, out: &mut W)
    ensures { Appended W.Destination text.old out.old text.new out.new (flat_map store_line (entries store.now)) }
{
    for (key, value) in store.iter() {
        push_entry(text, key, value, out);
    }
}
