//! What a session reports of its state.

ghost use Rattle.std.specs.Prelude.{◌≡◌, IfOk, Some};
ghost use Rattle.std.specs.FinMap.{get};
ghost use Rattle.std.specs.Option.{option_copied};
ghost use Rattle.receipts.specs.Buffer.{Appended};
ghost use Rattle.session_turns.specs.Telling.{value_line, listed, state_text};

use crate::settings::Settings;
use crate::state::State;
use crate::state_lines::push_state;
use crate::texts::finished;
use byte_streams::Destination;
use receipts::{TextBuffer, push_bytes, push_entry};
use rv_ledger::{Key, Store, StoredValue};
use std::alloc::{AllocError, Global};

/// The value at a key, in a line. Refused if memory ran out.
pub(crate) fn content(alloc: Global, store: &Store, key: &Key) -> Result<Vec<u8>, AllocError>
    ensures { IfOk result (λ text. text.items ≡ value_line (get store.now key.now)) }
{
    let mut waiting = TextBuffer::new(alloc)?;
    let mut text = Vec::new(alloc);
    push_content(&mut waiting, store.get(key), &mut text);
    finished(waiting, text)
}

/// Appends a value in a line, or that there is none.
fn push_content<W: Destination>(text: &mut TextBuffer, value: Option<&StoredValue>, out: &mut W)
    ensures { Appended W.Destination text.old out.old text.new out.new (value_line (option_copied value.entry)) }
{
    match value {
        Some(value) => push_value(text, value, out),
        None => text.push(b"absent\n", out),
    }
}

/// Appends a value in a line.
fn push_value<W: Destination>(text: &mut TextBuffer, value: &StoredValue, out: &mut W)
    ensures { Appended W.Destination text.old out.old text.new out.new (value_line (Some value.now)) }
{
    text.push(b"value ", out);
    push_bytes(text, value.bytes(), out);
    text.push(b"\n", out);
}

/// The lines of the first entries from a key on. Refused if memory ran out.
pub(crate) fn listed(
    alloc: Global,
    store: &Store,
    from: &Key,
    count: u64,
) -> Result<Vec<u8>, AllocError>
    ensures { IfOk result (λ text. text.items ≡ listed store.now from.now count) }
{
    let mut waiting = TextBuffer::new(alloc)?;
    let mut text = Vec::new(alloc);
    push_listed(&mut waiting, store, from, count, &mut text);
    finished(waiting, text)
}

/// Appends the lines of the first entries from a key on.
fn push_listed<W: Destination>(
    text: &mut TextBuffer,
    store: &Store,
    from: &Key,
    count: u64,
    out: &mut W,
)
    ensures { Appended W.Destination text.old out.old text.new out.new (listed store.now from.now count) }
{
    let mut left = count;
    for (key, value) in store.iter_from(from) {
        if left == 0 {
            return;
        }
        push_entry(text, key, value, out);
        left -= 1;
    }
}

/// The counts and settings of a session, a line each. Refused if memory ran out.
pub(crate) fn state_text(
    alloc: Global,
    settings: Settings,
    state: &State,
) -> Result<Vec<u8>, AllocError>
    ensures { IfOk result (λ text. text.items ≡ state_text settings state.now) }
{
    let mut waiting = TextBuffer::new(alloc)?;
    let mut text = Vec::new(alloc);
    push_state(&mut waiting, settings, state, &mut text);
    finished(waiting, text)
}
