//! Stores of sessions in memory. Their two files stay between sessions.

ghost use Rattle.std.specs.Prelude.{IfOk, None};
ghost use Rattle.session_disk.specs.Closing.{AreLeftFolded};
ghost use Rattle.session_file.specs.Opening.{IsFresh};
ghost use Rattle.sqlite_store.specs.FileStore.{view};
ghost use Rattle.sqlite_trees.specs.View.{IsClean};

use engines::{SessionStores, durable_chain_to};
use session_disk::{OpenFault, close_files, open_files};
use session_durability::open_durably;
use session_turns::{InOrder, Settings};
use sqlite_disk::{Crash, Disk, Files, Memory};
use sqlite_store::FileStore;
use sqlite_trees::error::StoreError;
use std::alloc::{AllocError, Global};
use std::io;

/// A file of these bytes, all of them synced.
fn file_of(alloc: Global, bytes: &[u8]) -> io::Result<Memory> {
    let mut file = Memory::new(alloc);
    file.write_at(0, bytes)?;
    file.sync()?;
    Ok(file)
}

/// The stores of one file, by any path.
#[derive(Drop)]
pub struct FakeStores {
    /// What gives memory.
    pub alloc: Global,
    /// What it was asked, a line each.
    pub asked: String,
    /// The bytes of the log.
    pub log: Vec<u8>,
    /// The bytes of the database file.
    pub db: Vec<u8>,
    /// Why the file is not opened, if so.
    pub fault: Option<OpenFault>,
}

impl FakeStores {
    /// The stores of a file that is not there yet.
    pub fn new(alloc: Global) -> FakeStores {
        FakeStores {
            alloc,
            asked: String::new(alloc),
            log: Vec::new(alloc),
            db: Vec::new(alloc),
            fault: None,
        }
    }

    /// The same two files.
    pub fn copy(&self) -> Result<FakeStores, AllocError> {
        let mut stores = FakeStores::new(self.alloc);
        stores.log = self.log.as_slice().to_vec(self.alloc)?;
        stores.db = self.db.as_slice().to_vec(self.alloc)?;
        Ok(stores)
    }

    /// Keeps a record of a request.
    fn note(&mut self, kind: &str, path: &str) -> Result<(), AllocError> {
        self.asked.push_str(kind)?;
        self.asked.push_str(path)?;
        self.asked.push_str("\n")
    }

    /// The two files.
    fn files(&self) -> io::Result<Files<Memory>> {
        Ok(Files {
            log: file_of(self.alloc, self.log.as_slice())?,
            db: file_of(self.alloc, self.db.as_slice())?,
        })
    }

    /// Keeps what the two files have. If memory runs out, the next open is refused as Memory.
    fn keep(&mut self, files: &Files<Memory>) {
        let log = files.log.bytes().to_vec(self.alloc);
        let db = files.db.bytes().to_vec(self.alloc);
        match (log, db) {
            (Ok(log), Ok(db)) => {
                self.log = log;
                self.db = db;
            }
            _ => self.fault = Some(OpenFault::Memory),
        }
    }

    /// Opens the store of the two files.
    fn open(&mut self) -> Result<FileStore<Memory>, OpenFault>
        ensures fresh { IfOk result (λ store. IsClean (view store) → IsFresh (view store)) }
    {
        if let Some(fault) = self.fault {
            return Err(fault);
        }
        let Ok(files) = self.files() else {
            return Err(OpenFault::Memory);
        };
        if !files.may_be_used() {
            return Err(OpenFault::Unreadable);
        }
        match open_files(self.alloc, files, SEED) {
            Ok(store) => Ok(store),
            Err((fault, rest)) => {
                self.keep(&rest.into_files());
                Err(fault)
            }
        }
    }

    /// Answers an input in a session that ends by a power cut, which leaves what was synced of the two files. False if the
    /// session is refused.
    pub fn answer_cut_off(&mut self, input: &[u8], out: &mut Vec<u8>) -> bool {
        let mut settings = Settings::new();
        settings.keeps_digest = true;
        let Ok(store) = self.open() else {
            return false;
        };
        let Ok(mut session) = open_durably(self.alloc, settings, store) else {
            return false;
        };
        let mut requests = input;
        let ended = durable_chain_to(
            self.alloc,
            &mut requests,
            &mut InOrder,
            settings,
            &mut session,
            out,
        );
        let mut files = session.file.into_store().close();
        files.log.crash();
        files.db.crash();
        self.keep(&files);
        ended.is_ok()
    }
}

/// What the log is salted with.
const SEED: u64 = 7;

impl SessionStores for FakeStores {
    type Kept = FileStore<Memory>;

    type Files = Files<Memory>;

    type Log = ();

    ghost asked = { λ _. None };

    ghost trees_at = { λ _ _. None };

    ghost are_folded = { AreLeftFolded ⟦<Memory as Disk>⟧ };

    fn open_store(&mut self, path: &str) -> Result<(FileStore<Memory>, ()), OpenFault> {
        if self.note("open ", path).is_err() {
            return Err(OpenFault::Memory);
        }
        match self.open() {
            Ok(store) => Ok((store, ())),
            Err(fault) => Err(fault),
        }
    }

    /// If the close fails, the bytes of before the session stay.
    fn close_store(
        &mut self,
        _path: &str,
        store: FileStore<Memory>,
    ) -> Result<Files<Memory>, (StoreError, FileStore<Memory>)> {
        if self.note("close", "").is_err() {
            return Err((StoreError::OutOfMemory, store));
        }
        let closed = close_files(store);
        if let Ok(files) = &closed {
            self.keep(files);
        }
        closed
    }

    fn abandon_store(
        &mut self,
        store: FileStore<Memory>,
        _log: (),
    ) -> Result<Files<Memory>, (StoreError, FileStore<Memory>)> {
        if self.note("abandon", "").is_err() {
            return Err((StoreError::OutOfMemory, store));
        }
        let closed = close_files(store);
        if let Ok(files) = &closed {
            self.keep(files);
        }
        closed
    }
}
