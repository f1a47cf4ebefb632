//! The lines of a block's conflicts.

ghost use Rattle.std.specs.Prelude.{◌≡◌, ◌++◌, ◌∷◌, ◌≤◌, codes, length, map};
ghost use Rattle.std.specs.Fmt.{decimal};
ghost use Rattle.std.specs.List.{enumerate_from, flat_map, zip};
ghost use Rattle.hex.specs.Hex.{encode_lower};
ghost use Rattle.receipts.specs.Buffer.{Appended};
ghost use Rattle.receipts.specs.Text.{more_fields};
ghost use Rattle.conflicts.specs.Text.{conflict_lines, conflicts_text, key_line, path_line, sum_line, wait_line, writers_line};

use crate::block::Conflicts;
use crate::hot_key::HotKey;
use crate::in_order::CallWaits;
use crate::key_waits::KeyWaits;
use crate::sums::{gas_of_all, greatest_path};
use byte_streams::Destination;
use receipts::{TextBuffer, push_decimal, push_key};

/// Appends all lines: the writers of the keys at which some call waits, the lines of each call, in block order, those of
/// these keys, and the sums.
pub(crate) fn push_conflicts<W: Destination>(
    text: &mut TextBuffer,
    conflicts: &Conflicts,
    out: &mut W,
)
    ensures { Appended W.Destination text.old out.old text.new out.new (conflicts_text conflicts.now.calls.items conflicts.now.paths.items conflicts.now.keys.items) }
{
    let calls = conflicts.calls.as_slice();
    let paths = conflicts.paths.as_slice();
    let keys = conflicts.keys.as_slice();
    push_all_writers(text, keys, out);
    push_calls(text, calls, paths, out);
    push_hot_keys(text, keys, out);
    push_sums(
        text,
        calls.len(),
        gas_of_all(calls),
        greatest_path(paths),
        out,
    );
}

/// Appends the lines of the writers of some keys.
fn push_all_writers<W: Destination>(text: &mut TextBuffer, keys: &[HotKey], out: &mut W)
    ensures { Appended W.Destination text.old out.old text.new out.new (flat_map writers_line keys.now) }
{
    for key in keys {
        push_writers(text, key, out);
    }
}

/// Appends the line of the writers of a key.
fn push_writers<W: Destination>(text: &mut TextBuffer, key: &HotKey, out: &mut W)
    ensures { Appended W.Destination text.old out.old text.new out.new (writers_line key.now) }
{
    text.push(b"writers ", out);
    push_key(text, key.key().bytes(), out);
    push_more_calls(text, key.writers(), out);
}

/// Appends some calls, each after a space, and ends the line.
fn push_more_calls<W: Destination>(text: &mut TextBuffer, calls: &[u16], out: &mut W)
    ensures { Appended W.Destination text.old out.old text.new out.new (more_fields (map decimal calls.now)) }
{
    for call in calls {
        push_numbered(text, b" ", u64::from(*call), out);
    }
    text.push(b"\n", out);
}

/// Appends the lines of all calls, each with its path.
fn push_calls<W: Destination>(
    text: &mut TextBuffer,
    calls: &[CallWaits],
    paths: &[u64],
    out: &mut W,
)
    requires { length paths.now ≡ length calls.now }
    ensures { Appended W.Destination text.old out.old text.new out.new (flat_map conflict_lines (enumerate_from 0 (zip calls.now paths.now))) }
{
    for (index, call) in calls.iter().enumerate() {
        let path = paths[index];
        push_call(text, index, call, path, out);
    }
}

/// Appends the lines of the call at an index.
fn push_call<W: Destination>(
    text: &mut TextBuffer,
    index: usize,
    call: &CallWaits,
    path: u64,
    out: &mut W,
)
    ensures { Appended W.Destination text.old out.old text.new out.new (conflict_lines (index, (call.now, path))) }
{
    push_waits(text, index, call.waits(), out);
    push_call_line(text, index, call.gas(), path, out);
}

/// Appends the lines of the waits of the call at an index.
fn push_waits<W: Destination>(text: &mut TextBuffer, index: usize, waits: &[KeyWaits], out: &mut W)
    ensures { Appended W.Destination text.old out.old text.new out.new (flat_map (wait_line index) waits.now) }
{
    for wait in waits {
        push_wait(text, index, wait, out);
    }
}

/// Appends the line of the waits of the call at an index at one key.
fn push_wait<W: Destination>(text: &mut TextBuffer, index: usize, wait: &KeyWaits, out: &mut W)
    ensures { Appended W.Destination text.old out.old text.new out.new (wait_line index wait.now) }
{
    push_numbered(text, b"wait ", index as u64, out);
    push_numbered(text, b" ", u64::from(wait.from), out);
    text.push(b" ", out);
    push_key(text, wait.key.bytes(), out);
    text.push(b"\n", out);
}

/// Appends the line of the gas and the path of the call at an index.
fn push_call_line<W: Destination>(
    text: &mut TextBuffer,
    index: usize,
    gas: u32,
    path: u64,
    out: &mut W,
)
    ensures { Appended W.Destination text.old out.old text.new out.new (path_line index gas path) }
{
    push_numbered(text, b"call ", index as u64, out);
    push_gas_and_path(text, u64::from(gas), path, out);
}

/// Appends a word and a number in decimal.
fn push_numbered<W: Destination>(text: &mut TextBuffer, word: &[u8], number: u64, out: &mut W)
    requires { length word.now ≤ 65536 }
    ensures { Appended W.Destination text.old out.old text.new out.new (word.now ++ decimal number) }
{
    text.push(word, out);
    push_decimal(text, number, out);
}

/// Appends the words and numbers of some gas and a path, and ends the line.
fn push_gas_and_path<W: Destination>(text: &mut TextBuffer, gas: u64, path: u64, out: &mut W)
    ensures { Appended W.Destination text.old out.old text.new out.new (codes " gas " ++ (decimal gas ++ (codes " path " ++ (decimal path ++ codes "\n")))) }
{
    push_numbered(text, b" gas ", gas, out);
    push_numbered(text, b" path ", path, out);
    text.push(b"\n", out);
}

/// Appends the lines of the keys at which some call waits.
fn push_hot_keys<W: Destination>(text: &mut TextBuffer, keys: &[HotKey], out: &mut W)
    ensures { Appended W.Destination text.old out.old text.new out.new (flat_map key_line keys.now) }
{
    for key in keys {
        push_hot_key(text, key, out);
    }
}

/// Appends the line of a key at which some call waits.
fn push_hot_key<W: Destination>(text: &mut TextBuffer, key: &HotKey, out: &mut W)
    ensures { Appended W.Destination text.old out.old text.new out.new (key_line key.now) }
{
    text.push(b"key ", out);
    push_key(text, key.key().bytes(), out);
    push_key_counts(text, key.writers().len(), key.waits(), out);
}

/// Appends the numbers of writers and of waits at a key, and ends the line.
fn push_key_counts<W: Destination>(text: &mut TextBuffer, writers: usize, waits: u64, out: &mut W)
    ensures { Appended W.Destination text.old out.old text.new out.new (codes " writers " ++ (decimal writers ++ (codes " waits " ++ (decimal waits ++ codes "\n")))) }
{
    push_numbered(text, b" writers ", writers as u64, out);
    push_numbered(text, b" waits ", waits, out);
    text.push(b"\n", out);
}

/// Appends the line of the sums over all calls.
fn push_sums<W: Destination>(text: &mut TextBuffer, calls: usize, gas: u64, path: u64, out: &mut W)
    ensures { Appended W.Destination text.old out.old text.new out.new (sum_line calls gas path) }
{
    push_numbered(text, b"all calls ", calls as u64, out);
    push_gas_and_path(text, gas, path, out);
}
