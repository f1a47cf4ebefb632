//! Stores of one path, of which it is known what they hold.

ghost use Rattle.std.specs.Prelude.{◌≡◌, None, if◌then◌else◌, IfOk, option_map};
ghost use Rattle.std.specs.Str.{bytes_eq};
ghost use Rattle.session_file.specs.Opening.{IsFresh};
ghost use Rattle.sqlite_trees.specs.Memory.{memory_view};

use crate::asserts::assert_right;
use crate::known_disk::{OneFile, answer_over};
use crate::session_files::{DONE, PUT_ONE};
use engines::SessionStores;
use session_disk::OpenFault;
use sqlite_trees::error::StoreError;
use sqlite_trees::memory::MemStore;
use sqlite_trees::schema::Object;
use sqlite_trees::store::{Shape, Store};
use sqlite_value::keys::Order;
use std::alloc::Global;
use std::process::Abort;
use std::sync::Wait;
use std::test::Fail;
use std::thread::Threads;

/// The stores of one path. What is closed stays in memory.
#[derive(Drop)]
pub struct KnownStores<'a> {
    /// What gives memory.
    pub alloc: Global,
    /// The path.
    pub path: &'a str,
    /// The store that was closed last, if there is one and it is not open.
    pub store: Option<MemStore>,
}

/// A table of a session, by its shape and its name.
fn table(shape: Shape, name: &str) -> Object<'_> {
    Object {
        shape,
        kind: "table",
        name,
        table: name,
        reals: 0,
        sql: None,
    }
}

/// A store of the four tables of a session, with no rows.
fn new_store(alloc: Global) -> Result<MemStore, OpenFault>
    ensures fresh { IfOk result (λ store. IsFresh (memory_view store)) }
{
    let tables = [
        table(Shape::Index(Order::PLAIN), "storage"),
        table(Shape::Index(Order::PLAIN), "program"),
        table(Shape::Table, "session"),
        table(Shape::Table, "answer"),
    ];
    match MemStore::new(alloc, &tables) {
        Ok(store) => Ok(store),
        Err(_) => Err(OpenFault::Memory),
    }
}

/// A store without what is not committed.
fn rolled_back(store: MemStore) -> MemStore
    ensures fresh { IsFresh (memory_view result) }
    ensures same { (memory_view result).trees ≡ (memory_view store).committed }
{
    let mut store = store;
    store.rollback();
    store
}

impl<'a> SessionStores for KnownStores<'a> {
    type Kept = MemStore;

    type Files = ();

    type Log = ();

    ghost asked = { λ _. None };

    ghost trees_at = { λ s path. if bytes_eq path s.path.now then option_map (λ store. (memory_view store).committed) s.store else None };

    ghost are_folded = { λ _ _. Unit {0} };

    /// Any other path is refused as Unreadable.
    fn open_store(&mut self, path: &str) -> Result<(MemStore, ()), OpenFault> {
        if path != self.path {
            return Err(OpenFault::Unreadable);
        }
        match self.store.take() {
            Some(store) => Ok((rolled_back(store), ())),
            None => match new_store(self.alloc) {
                Ok(store) => Ok((store, ())),
                Err(fault) => Err(fault),
            },
        }
    }

    /// Any other path is refused as out of memory: any close may be refused so.
    fn close_store(&mut self, path: &str, store: MemStore) -> Result<(), (StoreError, MemStore)> {
        if path != self.path {
            return Err((StoreError::OutOfMemory, store));
        }
        self.store = Some(store);
        Ok(())
    }

    fn abandon_store(&mut self, store: MemStore, _log: ()) -> Result<(), (StoreError, MemStore)> {
        self.store = Some(store);
        Ok(())
    }
}

/// The requests of the next session: the last answer, and the storage.
const NEXT: &str = "\
    last\n\
    list 0000000000000000000000000000000000000000000000000000000000000000 9\n";

/// What it answers after a frame of one entry.
const KEPT: &str = "\
    ok 4\n\
    end\n\
    ok 74\n\
    store 0000000000000000000000000000000000000000000000000000000000000009 0a\n";

/// Whether a session over the path `f` answers an input with a text, and ends with 0.
fn keeps<T: Threads + Wait + Sync>(
    threads: &T,
    alloc: Global,
    stores: &mut KnownStores<'_>,
    input: &str,
    text: &str,
) -> Result<bool, Fail> {
    let disk = OneFile {
        path: "",
        bytes: b"",
    };
    let line = "rvstm chain --store f";
    Ok(answer_over(threads, alloc, line, disk, stores, input.as_bytes())?.is(0, text, ""))
}

#[test]
fn a_known_store_is_kept(rt: HostRuntime) -> Result<(), Fail> {
    let mut stores = KnownStores {
        alloc: rt.alloc(),
        path: "f",
        store: None,
    };
    let is_right = keeps(&rt, rt.alloc(), &mut stores, PUT_ONE, DONE)?;
    assert_right(&rt, is_right, "a first session");
    let is_right = keeps(&rt, rt.alloc(), &mut stores, NEXT, KEPT)?;
    assert_right(&rt, is_right, "the next one");
    Ok(())
}
