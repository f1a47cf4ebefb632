//! Opening the store of a session.

ghost use Rattle.std.specs.Prelude.{◌≡◌, ℕ, List, false, IfErr, IfOk, IsTrue, Ok, OnOk};
ghost use Rattle.std.specs.FinMap.{empty};
ghost use Rattle.sqlite_trees.specs.View.{IsClean};
ghost use Rattle.sqlite_value.specs.Keys.{plain};
ghost use Rattle.session_tree.specs.Entries.{ByteMap, rows_of};
ghost use Rattle.session_file.specs.Kept.{AreEntries, HoldsIn, storage_tree};
ghost use Rattle.session_file.specs.Opening.{IsFresh, IsOpenRefused, ReadsIn, RefusesIn, kept_of};
ghost use Rattle.session_file.specs.Rows.{HasNoStorage, IsReadFault};
ghost use Rattle.session_file.specs.Staging.{HasTrees, IsKeeping};

use crate::entries::Entries;
use crate::fault::OpenFault;
use crate::file::SessionFile;
use crate::reading::{read_answer, read_entries, read_session};
use crate::rows::Found;
use crate::writing::{ANSWER_TREE, PROGRAM_TREE, SESSION_TREE, STORAGE_TREE};
use rv_ledger::StoreBuilder;
use sqlite_trees::store::{Shape, Store};
use sqlite_value::keys::Order;
use sqlite_value::row::Row;
use std::alloc::Global;

/// Whether a store has the trees of a session.
fn has_trees<S: Store>(store: &S) -> bool
    ensures trees { IsTrue result → HasTrees (S.Store.view store.now) }
    ensures other { result ≡ false → ¬ HasTrees (S.Store.view store.now) }
{
    store.shape(STORAGE_TREE) == Shape::Index(Order::PLAIN)
        && store.shape(PROGRAM_TREE) == Shape::Index(Order::PLAIN)
        && store.shape(SESSION_TREE) == Shape::Table
        && store.shape(ANSWER_TREE) == Shape::Table
        && store.reals(SESSION_TREE) == 0
        && store.reals(ANSWER_TREE) == 0
}

/// Reads what a store that was just opened keeps.
fn load<S: Store, P: Entries + Drop>(
    alloc: Global,
    store: &mut S,
    programs: P,
) -> Result<Found<P>, OpenFault>
    requires fresh { IsClean (S.Store.view store.old) → IsFresh (S.Store.view store.old) }
    requires empty { P.Entries.is_made_of programs empty }
    requires takes { (file : List ℕ) → P.Entries.fits file }
    ensures ok { IfOk result (λ found. (files : ByteMap) × P.Entries.is_made_of found.programs files
        × (IsClean (S.Store.view store.new) → HoldsIn (S.Store.view store.new).trees (kept_of files found))) }
    ensures trees { OnOk result (HasTrees (S.Store.view store.old)) }
    ensures reads { ReadsIn S.Store IsOpenRefused store.old store.new result }
{
    if !has_trees(store) {
        return Err(OpenFault::NotASession);
    }
    let mut row = Row::new(alloc);
    let session = read_session(alloc, store, &mut row)?;
    let answer = read_answer(alloc, store, &mut row)?;
    let mut programs = programs;
    read_entries(store, PROGRAM_TREE, &mut row, &mut programs)?;
    let storage = load_storage(alloc, store, &mut row)?;
    Ok(Found {
        storage,
        programs,
        session,
        answer,
    })
}

/// Reads the storage that a store keeps.
fn load_storage<S: Store>(
    alloc: Global,
    store: &mut S,
    row: &mut Row,
) -> Result<rv_ledger::Store, OpenFault>
    requires { IsClean (S.Store.view store.old) → (S.Store.view store.old).shape storage_tree ≡ Shape.Index plain }
    ensures ok { IfOk result (λ storage. IsClean (S.Store.view store.new) → (S.Store.view store.old).trees storage_tree ≡ rows_of storage) }
    ensures limits { IfOk result AreEntries }
    ensures reads { ReadsIn S.Store (IsReadFault HasNoStorage) store.old store.new result }
{
    let mut entries = StoreBuilder::new(alloc);
    read_entries(store, STORAGE_TREE, row, &mut entries)?;
    Ok(entries.finish()?)
}

/// Opens a store that was just opened, or made with no rows, as that of a session, and reads what it keeps. `programs` has taken
/// nothing, and takes each program's name and file; the bytes of a file are there no longer than it takes them. If this is refused,
/// it returns the store. Nothing is written.
pub fn open_session<S: Store, P: Entries + Drop>(
    alloc: Global,
    store: S,
    programs: P,
) -> Result<(SessionFile<S>, Found<P>), (OpenFault, S)>
    requires fresh { IsClean (S.Store.view store) → IsFresh (S.Store.view store) }
    requires empty { P.Entries.is_made_of programs empty }
    requires takes { (file : List ℕ) → P.Entries.fits file }
    ensures ok { IfOk result (λ r. (files : ByteMap) × P.Entries.is_made_of r.1.programs files × IsKeeping (S.Store.view r.0) (kept_of files r.1)) }
    ensures read { IfOk result (λ r. ReadsIn S.Store IsOpenRefused store r.0 (Ok r.1)) }
    ensures refused { IfErr result (λ e. RefusesIn P S.Store IsOpenRefused store e.1 e.0) }
{
    let mut store = store;
    match load(alloc, &mut store, programs) {
        Ok(found) => Ok((SessionFile::over(alloc, store), found)),
        Err(fault) => Err((fault, store)),
    }
}
