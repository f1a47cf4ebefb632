//! Writing the parts of a session into the open transaction. Each call leaves the transaction as far as it came.

ghost use Rattle.std.specs.Prelude.{◌≡◌, ◌<◌, ◌≤◌, ◌^◌, [], ◌∷◌, ◌++◌, false, length, pos, IfSome, IsTrue, OnErr, OnOk};
ghost use Rattle.std.specs.Option.{ForSome, option_copied};
ghost use Rattle.sqlite_trees.specs.View.{IsClean, IsQuiet, IsRolledBack, OnlyWrites, SetsTree};
ghost use Rattle.sqlite_trees.specs.Tree.{put_row, without_rowid};
ghost use Rattle.sqlite_value.specs.Keys.{plain};
ghost use Rattle.session_tree.specs.Entries.{EditsTree, rows_of};
ghost use Rattle.session_tree.specs.Tries.{Tries};
ghost use Rattle.overlay.specs.Overlay.{with_changes};
ghost use Rattle.session_file.specs.Limits.{HasSmallNumbers, IsLongAnswer};
ghost use Rattle.session_file.specs.Kept.{AreEntries, IsSessionInLimits, answer_row, answer_tree, flag_number, number_or_null, session_row, session_tree, storage_tree};

use crate::rows::SessionRow;
use overlay::Overlay;
use rv_ledger::{GREATEST_HEIGHT, StoredValue};
use session_tree::change_entry;
use sqlite_trees::error::StoreError;
use sqlite_trees::store::{Shape, Store};
use sqlite_value::row::Row;
use sqlite_value::value::ValueRef;
use std::alloc::AllocError;

/// The tree of the storage.
pub(crate) const STORAGE_TREE: u32 = 0;

/// The tree of the programs.
pub(crate) const PROGRAM_TREE: u32 = 1;

/// The tree of the session.
pub(crate) const SESSION_TREE: u32 = 2;

/// The tree of the answer.
pub(crate) const ANSWER_TREE: u32 = 3;

/// The version of the format.
pub(crate) const FORMAT_VERSION: i64 = 1;

/// The rowid of the one row of a table.
const ONLY_ROW: i64 = 1;

/// The least number that a row can't have.
const NUMBER_BOUND: u64 = 1 << 63;

/// Makes all changes of a storage in its tree.
pub(crate) fn change_entries<S: Store>(
    store: &mut S,
    row: &mut Row,
    base: &rv_ledger::Store,
    changes: &Overlay,
) -> Result<(), StoreError>
    requires { IsClean (S.Store.view store.old) → (S.Store.view store.old).shape storage_tree ≡ Shape.Index plain }
    ensures ok { OnOk result (IsClean (S.Store.view store.new) → (S.Store.view store.old).trees storage_tree ≡ rows_of base.now
        → EditsTree (S.Store.view store.old) (S.Store.view store.new) storage_tree (λ _. rows_of (with_changes base.now changes.now))) }
    ensures frame { OnOk result (IsClean (S.Store.view store.new) → OnlyWrites (S.Store.view store.old) (S.Store.view store.new)) }
    ensures limits { OnOk result (IsClean (S.Store.view store.new) → (S.Store.view store.old).trees storage_tree ≡ rows_of base.now → AreEntries base.now → AreEntries (with_changes base.now changes.now)) }
    ensures tries { Tries S.Store ⊥ store.old store.new result }
{
    for (key, content) in changes.iter() {
        let old = value_bytes(base.get(key));
        let new = value_bytes(content.as_ref());
        change_entry(store, STORAGE_TREE, row, key.bytes(), old, new)?;
    }
    Ok(())
}

/// The bytes of a value, at most 256, or None for None.
fn value_bytes(stored: Option<&StoredValue>) -> Option<&[u8]>
    ensures value { option_copied result ≡ option_copied stored.entry }
    ensures short { IfSome result (λ bytes. length bytes.now ≤ 256) }
{
    stored.map(|value| value.bytes())
}

/// Removes all entries of a storage from its tree.
fn remove_entries<S: Store>(
    store: &mut S,
    row: &mut Row,
    base: &rv_ledger::Store,
) -> Result<(), StoreError>
    requires { IsClean (S.Store.view store.old) → (S.Store.view store.old).shape storage_tree ≡ Shape.Index plain }
    ensures ok { OnOk result (IsClean (S.Store.view store.new) → (S.Store.view store.old).trees storage_tree ≡ rows_of base.now
        → EditsTree (S.Store.view store.old) (S.Store.view store.new) storage_tree (λ _. [])) }
    ensures frame { OnOk result (IsClean (S.Store.view store.new) → OnlyWrites (S.Store.view store.old) (S.Store.view store.new)) }
    ensures tries { Tries S.Store ⊥ store.old store.new result }
{
    for (key, value) in base.iter() {
        change_entry(
            store,
            STORAGE_TREE,
            row,
            key.bytes(),
            Some(value.bytes()),
            None,
        )?;
    }
    Ok(())
}

/// Inserts all entries of a storage into its tree, which is empty.
fn insert_entries<S: Store>(
    store: &mut S,
    row: &mut Row,
    storage: &rv_ledger::Store,
) -> Result<(), StoreError>
    requires { IsClean (S.Store.view store.old) → (S.Store.view store.old).shape storage_tree ≡ Shape.Index plain }
    ensures ok { OnOk result (IsClean (S.Store.view store.new) → (S.Store.view store.old).trees storage_tree ≡ []
        → EditsTree (S.Store.view store.old) (S.Store.view store.new) storage_tree (λ _. rows_of storage.now)) }
    ensures frame { OnOk result (IsClean (S.Store.view store.new) → OnlyWrites (S.Store.view store.old) (S.Store.view store.new)) }
    ensures limits { OnOk result (AreEntries storage.now) }
    ensures tries { Tries S.Store ⊥ store.old store.new result }
{
    for (key, value) in storage.iter() {
        change_entry(
            store,
            STORAGE_TREE,
            row,
            key.bytes(),
            None,
            Some(value.bytes()),
        )?;
    }
    Ok(())
}

/// Puts all entries of a storage into its tree in the place of those of another one.
pub(crate) fn replace_entries<S: Store>(
    store: &mut S,
    row: &mut Row,
    base: &rv_ledger::Store,
    storage: &rv_ledger::Store,
) -> Result<(), StoreError>
    requires { IsClean (S.Store.view store.old) → (S.Store.view store.old).shape storage_tree ≡ Shape.Index plain }
    ensures ok { OnOk result (IsClean (S.Store.view store.new) → (S.Store.view store.old).trees storage_tree ≡ rows_of base.now
        → EditsTree (S.Store.view store.old) (S.Store.view store.new) storage_tree (λ _. rows_of storage.now)) }
    ensures frame { OnOk result (IsClean (S.Store.view store.new) → OnlyWrites (S.Store.view store.old) (S.Store.view store.new)) }
    ensures limits { OnOk result (AreEntries storage.now) }
    ensures tries { Tries S.Store ⊥ store.old store.new result }
{
    remove_entries(store, row, base)?;
    insert_entries(store, row, storage)
}

/// Puts a number, or that there is none, after the values of a row.
fn push_number(row: &mut Row, number: Option<u64>) -> Result<(), AllocError>
    requires { ForSome number (λ n. n < 2 ^ 63) }
    ensures { OnOk result (row.new ≡ row.old ++ number_or_null number ∷ []) }
{
    match number {
        Some(number) => row.push(ValueRef::Int(number as i64)),
        None => row.push(ValueRef::Null),
    }
}

/// Whether the numbers of a session can be kept.
pub(crate) fn is_storable(session: &SessionRow) -> bool
    ensures small { IsTrue result → HasSmallNumbers session.now }
    ensures other { result ≡ false → ¬ HasSmallNumbers session.now }
{
    session.frame_limit < NUMBER_BOUND
        && session.frame_gas.unwrap_or(0) < NUMBER_BOUND
        && session.height <= GREATEST_HEIGHT
}

/// The digest of a session.
fn digest_of(session: &SessionRow) -> &[u8; 32]
    ensures value { result.now ≡ session.now.digest }
    ensures count { length session.now.digest ≡ 32 }
{
    &session.digest
}

/// Makes the row of a session.
pub(crate) fn make_session_row(row: &mut Row, session: SessionRow) -> Result<(), AllocError>
    requires { HasSmallNumbers session }
    ensures row { OnOk result (row.new ≡ session_row session) }
    ensures digest { OnOk result (length session.digest ≡ 32) }
{
    row.clear();
    row.push(ValueRef::Int(ONLY_ROW))?;
    row.push(ValueRef::Null)?;
    row.push(ValueRef::Int(FORMAT_VERSION))?;
    push_number(row, Some(session.frame_limit))?;
    push_number(row, session.frame_gas)?;
    row.push(ValueRef::Int(i64::from(session.is_brief)))?;
    row.push(ValueRef::Int(i64::from(session.rules.number())))?;
    push_number(row, Some(session.height))?;
    row.push(ValueRef::Blob(digest_of(&session).as_slice()))
}

/// Puts the row of a session in its tree.
pub(crate) fn put_session<S: Store>(
    store: &mut S,
    row: &mut Row,
    session: SessionRow,
) -> Result<(), StoreError>
    requires shape { IsClean (S.Store.view store.old) → (S.Store.view store.old).shape session_tree ≡ Shape.Table }
    requires reals { IsClean (S.Store.view store.old) → (S.Store.view store.old).reals session_tree ≡ 0 }
    ensures ok { OnOk result (IsClean (S.Store.view store.new) → SetsTree (S.Store.view store.old) (S.Store.view store.new) session_tree (put_row (session_row session))) }
    ensures limits { OnOk result (IsSessionInLimits session) }
    ensures tries { Tries S.Store (¬ HasSmallNumbers session) store.old store.new result }
{
    if !is_storable(&session) {
        return Err(StoreError::Unstorable);
    }
    make_session_row(row, session)?;
    store.put(SESSION_TREE, row)
}

/// Makes the row of an answer.
fn make_answer_row(row: &mut Row, line: &[u8], bytes: &[u8]) -> Result<(), AllocError>
    ensures { OnOk result (row.new ≡ answer_row (line.now, bytes.now)) }
{
    row.clear();
    row.push(ValueRef::Int(ONLY_ROW))?;
    row.push(ValueRef::Null)?;
    row.push(ValueRef::Blob(line))?;
    row.push(ValueRef::Blob(bytes))
}

/// Puts the row of an answer in its tree.
pub(crate) fn put_answer<S: Store>(
    store: &mut S,
    row: &mut Row,
    line: &[u8],
    bytes: &[u8],
) -> Result<(), StoreError>
    requires shape { IsClean (S.Store.view store.old) → (S.Store.view store.old).shape answer_tree ≡ Shape.Table }
    requires reals { IsClean (S.Store.view store.old) → (S.Store.view store.old).reals answer_tree ≡ 0 }
    ensures ok { OnOk result (IsClean (S.Store.view store.new) → SetsTree (S.Store.view store.old) (S.Store.view store.new) answer_tree (put_row (answer_row (line.now, bytes.now)))) }
    ensures tries { Tries S.Store (IsLongAnswer (line.now, bytes.now)) store.old store.new result }
{
    make_answer_row(row, line, bytes)?;
    store.put(ANSWER_TREE, row)
}

/// Removes the row of an answer from its tree.
pub(crate) fn clear_answer<S: Store>(store: &mut S) -> Result<(), StoreError>
    requires { IsClean (S.Store.view store.old) → (S.Store.view store.old).shape answer_tree ≡ Shape.Table }
    ensures ok { OnOk result (IsClean (S.Store.view store.new) → SetsTree (S.Store.view store.old) (S.Store.view store.new) answer_tree (without_rowid (pos 1))) }
    ensures tries { Tries S.Store ⊥ store.old store.new result }
{
    store.delete(ANSWER_TREE, ONLY_ROW)
}

/// The result of a write. If the write was refused, this rolls back.
pub(crate) fn settled<S: Store>(
    store: &mut S,
    given: Result<(), StoreError>,
) -> Result<(), StoreError>
    ensures given { result ≡ given }
    ensures ok { OnOk given (store.new ≡ store.old) }
    ensures err { OnErr given (IsRolledBack (S.Store.view store.old) (S.Store.view store.new)) }
    ensures told { S.Store.blamed store.new ≡ S.Store.blamed store.old }
    ensures quiet { IsQuiet S.Store.view S.Store.faults S.Store.recovers S.Store.is_shielded store.old store.new }
{
    if given.is_err() {
        store.rollback();
    }
    given
}
