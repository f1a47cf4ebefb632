//! Giving a key another content if the old one is not known, in the open transaction.

ghost use Rattle.std.specs.Prelude.{◌≡◌, ◌↔◌, ◌∷◌, [], Some, IsTrue, OnOk};
ghost use Rattle.std.specs.FinMap as fin;
ghost use Rattle.sqlite_trees.specs.View.{IsClean, OnlyWrites};
ghost use Rattle.sqlite_value.specs.Keys.{plain};
ghost use Rattle.sqlite_value.specs.Order.{column};
ghost use Rattle.sqlite_value.specs.declared.value.Value.TheVariants.{Blob};
ghost use Rattle.session_tree.specs.Entries.{ByteMap, EditsTree, IsTooLong, rows_of};
ghost use Rattle.session_tree.specs.Tries.{Tries};

use crate::changing::change_entry;
use sqlite_trees::error::StoreError;
use sqlite_trees::store::{Direction, Shape, Store};
use sqlite_value::row::Row;
use sqlite_value::value::ValueRef;
use std::alloc::AllocError;

/// Makes a row of a key alone.
fn make_key(row: &mut Row, key: &[u8]) -> Result<(), AllocError>
    ensures { OnOk result (row.new ≡ Blob key.now ∷ []) }
{
    row.clear();
    row.push(ValueRef::Blob(key))
}

/// Whether a row begins with a key.
fn is_of_key(row: &Row, key: &[u8]) -> bool
    ensures { IsTrue result ↔ (column row.now 0 ≡ Blob key.now) }
{
    match row.get(0) {
        ValueRef::Blob(bytes) => bytes == key,
        _ => false,
    }
}

/// Removes a key of a map, in the open transaction. Nothing is written if the map does not have it. After an error the last
/// commit is as it was, and the caller must roll back.
pub fn remove_key<S: Store>(
    store: &mut S,
    tree: u32,
    row: &mut Row,
    key: &[u8],
) -> Result<(), StoreError>
    requires { IsClean (S.Store.view store.old) → (S.Store.view store.old).shape tree ≡ Shape.Index plain }
    ensures ok { OnOk result (IsClean (S.Store.view store.new) → (m : ByteMap) → (S.Store.view store.old).trees tree ≡ rows_of m
        → EditsTree (S.Store.view store.old) (S.Store.view store.new) tree (λ _. rows_of (fin.remove m key.now))) }
    ensures frame { OnOk result (IsClean (S.Store.view store.new) → OnlyWrites (S.Store.view store.old) (S.Store.view store.new)) }
    ensures tries { Tries S.Store ⊥ store.old store.new result }
{
    make_key(row, key)?;
    store.seek(0, tree, row, Direction::Forward)?;
    if !store.next(0, row)? {
        return Ok(());
    }
    if !is_of_key(row, key) {
        return Ok(());
    }
    store.remove(tree, row)
}

/// Gives a key of a map a value, in the open transaction, whatever it had before. After an error the last commit is as it was,
/// and the caller must roll back. Refused as Unstorable if the entry is too long for the format of databases.
pub fn set_key<S: Store>(
    store: &mut S,
    tree: u32,
    row: &mut Row,
    key: &[u8],
    value: &[u8],
) -> Result<(), StoreError>
    requires { IsClean (S.Store.view store.old) → (S.Store.view store.old).shape tree ≡ Shape.Index plain }
    ensures ok { OnOk result (IsClean (S.Store.view store.new) → (m : ByteMap) → (S.Store.view store.old).trees tree ≡ rows_of m
        → EditsTree (S.Store.view store.old) (S.Store.view store.new) tree (λ _. rows_of (fin.insert m key.now value.now))) }
    ensures frame { OnOk result (IsClean (S.Store.view store.new) → OnlyWrites (S.Store.view store.old) (S.Store.view store.new)) }
    ensures tries { Tries S.Store (IsTooLong key.now (Some value.now)) store.old store.new result }
{
    remove_key(store, tree, row, key)?;
    change_entry(store, tree, row, key, None, Some(value))
}
