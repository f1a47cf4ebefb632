//! The counts and settings of a session, a line each.

ghost use Rattle.std.specs.Prelude.{◌≡◌, ◌≤◌, ◌++◌, ◌∷◌, [], Some, codes, length, if◌then◌else◌};
ghost use Rattle.std.specs.FinMap.{len};
ghost use Rattle.receipts.specs.Buffer.{Appended};
ghost use Rattle.receipts.specs.Text.{printed_line};
ghost use Rattle.rv_ledger.specs.Rules.{rules_number};
ghost use Rattle.session_turns.specs.Telling.{digest_line, number_line, number_text_or_none, state_text};

use crate::settings::Settings;
use crate::state::State;
use byte_streams::Destination;
use receipts::{TextBuffer, push_decimal, push_key};
use rv_ledger::Store;

/// Appends the counts and settings of a session.
pub(crate) fn push_state<W: Destination>(
    text: &mut TextBuffer,
    settings: Settings,
    state: &State,
    out: &mut W,
)
    ensures { Appended W.Destination text.old out.old text.new out.new (state_text settings state.now) }
{
    push_counts(text, state, out);
    push_settings(text, settings, out);
    push_digest(text, state.digest, out);
}

/// Appends the counts.
fn push_counts<W: Destination>(text: &mut TextBuffer, state: &State, out: &mut W)
    ensures { Appended W.Destination text.old out.old text.new out.new (
        number_line (codes "rules") (rules_number state.now.rules)
        ++ number_line (codes "height") state.now.height
        ++ number_line (codes "keys") (len state.now.store)
        ++ number_line (codes "programs") (len state.now.programs)) }
{
    push_number(text, b"rules", u64::from(state.rules.number()), out);
    push_number(text, b"height", state.height, out);
    push_number(text, b"keys", key_count(&state.store), out);
    push_number(text, b"programs", state.programs.len() as u64, out);
}

/// The number of keys of a storage.
fn key_count(store: &Store) -> u64
    ensures { result ≡ len store.now }
{
    store.iter().len() as u64
}

/// Appends the settings, except whether a digest is kept.
fn push_settings<W: Destination>(text: &mut TextBuffer, settings: Settings, out: &mut W)
    ensures { Appended W.Destination text.old out.old text.new out.new (
        number_line (codes "frame-limit") settings.frame_limit
        ++ printed_line (codes "frame-gas") (number_text_or_none settings.frame_gas ∷ [])
        ++ number_line (codes "brief") (if settings.is_brief then 1 else 0)) }
{
    push_number(text, b"frame-limit", settings.frame_limit, out);
    push_gas(text, settings.frame_gas, out);
    push_number(text, b"brief", one_if(settings.is_brief), out);
}

/// 1 if something holds, otherwise 0.
fn one_if(holds: bool) -> u64
    ensures { result ≡ (if holds then 1 else 0) }
{
    if holds { 1 } else { 0 }
}

/// Appends a line of a word and a number.
fn push_number<W: Destination>(text: &mut TextBuffer, word: &[u8], number: u64, out: &mut W)
    requires { length word.now ≤ 65536 }
    ensures { Appended W.Destination text.old out.old text.new out.new (number_line word.now number) }
{
    text.push(word, out);
    text.push(b" ", out);
    push_decimal(text, number, out);
    text.push(b"\n", out);
}

/// Appends the line of the bound on gas.
fn push_gas<W: Destination>(text: &mut TextBuffer, most: Option<u64>, out: &mut W)
    ensures { Appended W.Destination text.old out.old text.new out.new (printed_line (codes "frame-gas") (number_text_or_none most ∷ [])) }
{
    match most {
        Some(most) => push_number(text, b"frame-gas", most, out),
        None => text.push(b"frame-gas none\n", out),
    }
}

/// Appends the line of the digest, if one is kept.
#[tactic(auto, using(receipts::proofs::Buffers::nothing_appended))]
fn push_digest<W: Destination>(text: &mut TextBuffer, digest: Option<[u8; 32]>, out: &mut W)
    ensures { Appended W.Destination text.old out.old text.new out.new (digest_line digest) }
{
    match digest {
        Some(digest) => push_digest_line(text, &digest, out),
        None => {}
    }
}

/// Appends the line of a digest.
fn push_digest_line<W: Destination>(text: &mut TextBuffer, digest: &[u8; 32], out: &mut W)
    ensures { Appended W.Destination text.old out.old text.new out.new (digest_line (Some digest.now)) }
{
    text.push(b"digest ", out);
    push_key(text, digest, out);
    text.push(b"\n", out);
}
