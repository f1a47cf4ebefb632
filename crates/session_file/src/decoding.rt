//! What the rows of the trees stand for.

ghost use Rattle.std.specs.Prelude.{◌≡◌, ◌≢◌, ◌<◌, ◌^◌, ℕ, Bool, List, Option, pos, false, length, IfOk, IfSome, IsTrue, None};
ghost use Rattle.std.specs.Option.{ForSome};
ghost use Rattle.rv_ledger.specs.Rules.{rules_number};
ghost use Rattle.sqlite_value.specs.Order.{bytes, column};
ghost use Rattle.sqlite_value.specs.Value.{owned};
ghost use Rattle.sqlite_value.specs.declared.value.Value.TheVariants.{Blob, Int};
ghost use Rattle.rv_ledger.specs.declared.rules.Rules.{Rules as RulesValue};
ghost use Rattle.session_tree.specs.Entries.{entry_row};
ghost use Rattle.session_file.specs.Kept.{IsSessionInLimits, answer_row, flag_number, number_or_null, session_row};
ghost use Rattle.session_file.specs.Opening.{IsOtherVersion, answer_parts};
ghost use Rattle.session_file.specs.declared.rows.SessionRow.{SessionRow as SessionValue};

use crate::rows::{AnswerRow, SessionRow};
use crate::writing::{FORMAT_VERSION, is_storable, make_session_row};
use rv_ledger::{Key, Rules};
use sqlite_value::row::Row;
use sqlite_value::value::ValueRef;
use std::alloc::{AllocError, Global};

/// The key of 32 bytes, or None.
fn key_of(bytes: &[u8]) -> Option<Key>
    ensures some { IfSome result (λ key. key ≡ bytes.now) }
    ensures count { IfSome result (λ key. length key ≡ 32) }
    ensures none { result ≡ None → length bytes.now ≢ 32 }
{
    if bytes.len() != 32 {
        return None;
    }
    let mut key = [0; 32];
    key.copy_from_slice(bytes);
    Some(Key::new(key))
}

/// The key of an entry's row, or None if the row is not one of an entry.
pub(crate) fn key_in(row: &Row) -> Option<Key>
    ensures some { IfSome result (λ key. row.now ≡ entry_row (key, bytes (column row.now 1))) }
    ensures count { IfSome result (λ key. length key ≡ 32) }
    ensures none { result ≡ None → (k v : List ℕ) → length k ≡ 32 → row.now ≢ entry_row (k, v) }
{
    if row.len() != 2 {
        return None;
    }
    let ValueRef::Blob(key) = row.get(0) else {
        return None;
    };
    let ValueRef::Blob(_) = row.get(1) else {
        return None;
    };
    key_of(key)
}

/// The bytes of a blob.
pub(crate) fn bytes_of<'a>(value: ValueRef<'a>) -> &'a [u8]
    ensures { result.now ≡ bytes (owned value.entry) }
{
    match value {
        ValueRef::Blob(bytes) => bytes,
        ValueRef::Text(bytes) => bytes,
        _ => &[],
    }
}

/// Whether a session's row has another version of the format.
pub(crate) fn is_of_other_version(row: &Row) -> bool
    ensures other { IsTrue result → IsOtherVersion (column row.now 2) }
    ensures this { result ≡ false → ¬ IsOtherVersion (column row.now 2) }
{
    match row.get(2) {
        ValueRef::Int(version) => version != FORMAT_VERSION,
        _ => false,
    }
}

/// The number of a value; 0 if it has none.
fn number_in(value: ValueRef<'_>) -> u64
    ensures value { (n : ℕ) → owned value.entry ≡ Int (pos n) → result ≡ n }
    ensures small { result < 2 ^ 63 }
{
    match value {
        ValueRef::Int(number) if number >= 0 => number as u64,
        _ => 0,
    }
}

/// The number of a value, if it has one.
fn number_if_any(value: ValueRef<'_>) -> Option<u64>
    ensures value { (o : Option ℕ) → owned value.entry ≡ number_or_null o → result ≡ o }
    ensures small { ForSome result (λ n. n < 2 ^ 63) }
{
    match value {
        ValueRef::Int(number) if number >= 0 => Some(number as u64),
        _ => None,
    }
}

/// The rules of a number.
fn rules_in(value: ValueRef<'_>) -> Rules
    ensures { (rules : RulesValue) → owned value.entry ≡ Int (pos (rules_number rules)) → result ≡ rules }
{
    match value {
        ValueRef::Int(2) => Rules::Two,
        ValueRef::Int(3) => Rules::Three,
        _ => Rules::One,
    }
}

/// Whether a value is the number 1.
fn flag_in(value: ValueRef<'_>) -> bool
    ensures { (b : Bool) → owned value.entry ≡ Int (pos (flag_number b)) → result ≡ b }
{
    matches!(value, ValueRef::Int(1))
}

/// The digest of a value; zeros if it has none.
fn digest_in(value: ValueRef<'_>) -> [u8; 32]
    ensures value { (b : List ℕ) → length b ≡ 32 → owned value.entry ≡ Blob b → result ≡ b }
    ensures count { length result ≡ 32 }
{
    let mut digest = [0; 32];
    let bytes = bytes_of(value);
    if bytes.len() == 32 {
        digest.copy_from_slice(bytes);
    }
    digest
}

/// The session that a row would be of, were it one of a session.
fn session_by(row: &Row) -> SessionRow
    ensures value { (s : SessionValue) → length s.digest ≡ 32 → row.now ≡ session_row s → result ≡ s }
    ensures limit { result.frame_limit < 2 ^ 63 }
    ensures gas { ForSome result.frame_gas (λ n. n < 2 ^ 63) }
    ensures digest { length result.digest ≡ 32 }
{
    SessionRow {
        frame_limit: number_in(row.get(3)),
        frame_gas: number_if_any(row.get(4)),
        is_brief: flag_in(row.get(5)),
        rules: rules_in(row.get(6)),
        height: number_in(row.get(7)),
        digest: digest_in(row.get(8)),
    }
}

/// The session of a row, or None if it is not one of a session.
pub(crate) fn session_in(alloc: Global, row: &Row) -> Result<Option<SessionRow>, AllocError>
    ensures some { IfOk result (λ found. IfSome found (λ s. (row.now ≡ session_row s) × IsSessionInLimits s)) }
    ensures none { IfOk result (λ found. found ≡ None → (s : SessionValue) → IsSessionInLimits s → row.now ≢ session_row s) }
{
    let session = session_by(row);
    if !is_storable(&session) {
        return Ok(None);
    }
    let mut again = Row::new(alloc);
    make_session_row(&mut again, session)?;
    if !row.is_same(&again) {
        return Ok(None);
    }
    Ok(Some(session))
}

/// The answer of a row, or None if it is not one of an answer.
pub(crate) fn answer_in(alloc: Global, row: &Row) -> Result<Option<AnswerRow>, AllocError>
    ensures some { IfOk result (λ found. IfSome found (λ a. row.now ≡ answer_row (answer_parts a))) }
    ensures none { IfOk result (λ found. found ≡ None → (a : List ℕ × List ℕ) → row.now ≢ answer_row a) }
{
    if row.len() != 4 {
        return Ok(None);
    }
    let ValueRef::Int(1) = row.get(0) else {
        return Ok(None);
    };
    let ValueRef::Null = row.get(1) else {
        return Ok(None);
    };
    let ValueRef::Blob(line) = row.get(2) else {
        return Ok(None);
    };
    let ValueRef::Blob(bytes) = row.get(3) else {
        return Ok(None);
    };
    Ok(Some(AnswerRow {
        line: Vec::from_slice(alloc, line)?,
        bytes: Vec::from_slice(alloc, bytes)?,
    }))
}
