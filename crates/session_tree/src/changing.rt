//! Giving a key another content, in the open transaction.

ghost use Rattle.std.specs.Prelude.{◌≡◌, OnOk};
ghost use Rattle.std.specs.FinMap.{get};
ghost use Rattle.std.specs.Option.{option_copied};
ghost use Rattle.sqlite_trees.specs.View.{IsClean};
ghost use Rattle.sqlite_value.specs.Keys.{plain};
ghost use Rattle.session_tree.specs.Entries.{EditsTree, IsTooLong, changed_rows, entry_row, with_new, without_old};
ghost use Rattle.session_tree.specs.Tries.{Tries};

use sqlite_trees::error::StoreError;
use sqlite_trees::store::{Shape, Store};
use sqlite_value::row::Row;
use sqlite_value::value::ValueRef;
use std::alloc::AllocError;

/// Makes a row of a key and its value.
fn make_row(row: &mut Row, key: &[u8], value: &[u8]) -> Result<(), AllocError>
    ensures { OnOk result (row.new ≡ entry_row (key.now, value.now)) }
{
    row.clear();
    row.push(ValueRef::Blob(key))?;
    row.push(ValueRef::Blob(value))
}

/// Removes the old entry of a key, if it had one.
fn remove_old<S: Store>(
    store: &mut S,
    tree: u32,
    row: &mut Row,
    key: &[u8],
    old: Option<&[u8]>,
) -> Result<(), StoreError>
    requires { IsClean (S.Store.view store.old) → (S.Store.view store.old).shape tree ≡ Shape.Index plain }
    ensures ok { OnOk result (IsClean (S.Store.view store.new) → EditsTree (S.Store.view store.old) (S.Store.view store.new) tree (without_old key.now (option_copied old.entry))) }
    ensures tries { Tries S.Store ⊥ store.old store.new result }
{
    if let Some(value) = old {
        make_row(row, key, value)?;
        store.remove(tree, row)?;
    }
    Ok(())
}

/// Inserts the new entry of a key, if it gets one.
fn insert_new<S: Store>(
    store: &mut S,
    tree: u32,
    row: &mut Row,
    key: &[u8],
    new: Option<&[u8]>,
) -> Result<(), StoreError>
    requires { IsClean (S.Store.view store.old) → (S.Store.view store.old).shape tree ≡ Shape.Index plain }
    ensures ok { OnOk result (IsClean (S.Store.view store.new) → EditsTree (S.Store.view store.old) (S.Store.view store.new) tree (with_new key.now (option_copied new.entry))) }
    ensures tries { Tries S.Store (IsTooLong key.now (option_copied new.entry)) store.old store.new result }
{
    let Some(value) = new else {
        return Ok(());
    };
    make_row(row, key, value)?;
    store.insert(tree, row)
}

/// Gives a key another content, in the open transaction. After an error the last commit is as it was, and the caller must
/// roll back. Refused as Unstorable if the new entry is too long for the format of databases.
pub fn change_entry<S: Store>(
    store: &mut S,
    tree: u32,
    row: &mut Row,
    key: &[u8],
    old: Option<&[u8]>,
    new: Option<&[u8]>,
) -> Result<(), StoreError>
    requires { IsClean (S.Store.view store.old) → (S.Store.view store.old).shape tree ≡ Shape.Index plain }
    ensures ok { OnOk result (IsClean (S.Store.view store.new) → EditsTree (S.Store.view store.old) (S.Store.view store.new) tree (changed_rows key.now (option_copied old.entry) (option_copied new.entry))) }
    ensures tries { Tries S.Store (IsTooLong key.now (option_copied new.entry)) store.old store.new result }
{
    remove_old(store, tree, row, key, old)?;
    insert_new(store, tree, row, key, new)
}
