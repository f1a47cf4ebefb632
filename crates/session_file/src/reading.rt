//! Reading the parts of a session from the trees of a store.

ghost use Rattle.std.specs.Prelude.{◌≡◌, false, IfOk, IfSome, IsTrue, OnOk};
ghost use Rattle.std.specs.FinMap.{empty};
ghost use Rattle.std.specs.Option.{option_map};
ghost use Rattle.sqlite_trees.specs.View.{IsClean, KeepsSchema};
ghost use Rattle.sqlite_value.specs.Keys.{plain};
ghost use Rattle.session_file.specs.Kept.{IsSessionInLimits, answer_row, answer_tree, rows_if_any, session_row, session_tree};
ghost use Rattle.session_file.specs.Opening.{ReadsIn, answer_parts};
ghost use Rattle.session_file.specs.Rows.{AreTaken, HasNoAnswer, HasNoEntries, HasNoSession, IsAbove, IsReadFault};

use crate::decoding::{answer_in, bytes_of, is_of_other_version, key_in, session_in};
use crate::entries::Entries;
use crate::fault::OpenFault;
use crate::rows::{AnswerRow, SessionRow};
use crate::writing::{ANSWER_TREE, SESSION_TREE};
use rv_ledger::Key;
use sqlite_trees::error::StoreError;
use sqlite_trees::store::{Direction, Shape, Store};
use sqlite_value::row::Row;
use std::alloc::Global;

/// Whether a key is above the last one, if there is one.
fn is_above(key: &Key, last: &Option<Key>) -> bool
    ensures above { IsTrue result → IsAbove key.now last.now }
    ensures other { result ≡ false → ¬ IsAbove key.now last.now }
{
    match last {
        Some(last) => *last < *key,
        None => true,
    }
}

/// Reads the entries of a tree, up to a row that is not the next of entries with ascending keys of 32 bytes and values that fit.
pub(crate) fn read_entries<S: Store, E: Entries>(
    store: &mut S,
    tree: u32,
    row: &mut Row,
    list: &mut E,
) -> Result<(), OpenFault>
    requires shape { IsClean (S.Store.view store.old) → (S.Store.view store.old).shape tree ≡ Shape.Index plain }
    requires empty { E.Entries.is_made_of list.old empty }
    ensures ok { OnOk result (AreTaken (E.Entries.is_made_of list.new) E.Entries.fits (IsClean (S.Store.view store.new)) ((S.Store.view store.old).trees tree)) }
    ensures reads { ReadsIn S.Store (IsReadFault (HasNoEntries E.Entries.fits tree)) store.old store.new result }
    ensures schema { KeepsSchema (S.Store.view store.old) (S.Store.view store.new) }
{
    row.clear();
    store.seek(0, tree, row, Direction::Forward)?;
    let mut last = None;
    'rows: for _ in 0..u64::MAX {
        if !store.next(0, row)? {
            return Ok(());
        }
        let Some(key) = key_in(row) else {
            return Err(OpenFault::Damaged);
        };
        if !is_above(&key, &last) {
            return Err(OpenFault::Damaged);
        }
        if !list.take(key, bytes_of(row.get(1)))? {
            return Err(OpenFault::Damaged);
        }
        last = Some(key);
    }
    // No store has this many rows.
    Err(OpenFault::Store(StoreError::OutOfMemory))
}

/// Reads the row of the session, if there is one.
pub(crate) fn read_session<S: Store>(
    alloc: Global,
    store: &mut S,
    row: &mut Row,
) -> Result<Option<SessionRow>, OpenFault>
    requires { IsClean (S.Store.view store.old) → (S.Store.view store.old).shape session_tree ≡ Shape.Table }
    ensures ok { IfOk result (λ found. IsClean (S.Store.view store.new) → (S.Store.view store.old).trees session_tree ≡ rows_if_any session_row found) }
    ensures limits { IfOk result (λ found. IfSome found IsSessionInLimits) }
    ensures reads { ReadsIn S.Store (IsReadFault HasNoSession) store.old store.new result }
    ensures schema { KeepsSchema (S.Store.view store.old) (S.Store.view store.new) }
{
    row.clear();
    store.seek(0, SESSION_TREE, row, Direction::Forward)?;
    if !store.next(0, row)? {
        return Ok(None);
    }
    if is_of_other_version(row) {
        return Err(OpenFault::OtherVersion);
    }
    let Some(session) = session_in(alloc, row)? else {
        return Err(OpenFault::Damaged);
    };
    if store.next(0, row)? {
        return Err(OpenFault::Damaged);
    }
    Ok(Some(session))
}

/// Reads the row of the answer, if there is one.
pub(crate) fn read_answer<S: Store>(
    alloc: Global,
    store: &mut S,
    row: &mut Row,
) -> Result<Option<AnswerRow>, OpenFault>
    requires { IsClean (S.Store.view store.old) → (S.Store.view store.old).shape answer_tree ≡ Shape.Table }
    ensures ok { IfOk result (λ found. IsClean (S.Store.view store.new) → (S.Store.view store.old).trees answer_tree ≡ rows_if_any answer_row (option_map answer_parts found)) }
    ensures reads { ReadsIn S.Store (IsReadFault HasNoAnswer) store.old store.new result }
    ensures schema { KeepsSchema (S.Store.view store.old) (S.Store.view store.new) }
{
    row.clear();
    store.seek(0, ANSWER_TREE, row, Direction::Forward)?;
    if !store.next(0, row)? {
        return Ok(None);
    }
    let Some(answer) = answer_in(alloc, row)? else {
        return Err(OpenFault::Damaged);
    };
    if store.next(0, row)? {
        return Err(OpenFault::Damaged);
    }
    Ok(Some(answer))
}
