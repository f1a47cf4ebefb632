//! The stores of sessions, by their paths.

ghost use Rattle.std.specs.Prelude.{◌≡◌, List, [], ◌∷◌, IfErr, IfOk, IfSome, None, OnErr, OnOk, Option};
ghost use Rattle.sqlite_disk.specs.Disk.{MoreFaults};
ghost use Rattle.sqlite_trees.specs.Tree.{Trees};
ghost use Rattle.sqlite_trees.specs.View.{IsClean, Tells, View};
ghost use Rattle.session_file.specs.Opening.{IsFresh};
ghost use Rattle.engines.specs.Chain.{opening_fault};
ghost use Rattle.engines.specs.Opened.{OrdersFollow};
ghost use Rattle.engines.specs.Stores.{Abandon, Close, HoldsCommitted, KeepsOthers, Open, StoreOrder, TreesAt};
ghost use Rattle.session_disk.specs.Closing.{AreLeftFolded, MayFailToClose};

use session_disk::{NamedDisk, NewLog, OpenFault, SystemFolder, abandon, close_files, open_path};
use session_states::StoreFault;
use sqlite_disk::{Disk as StoreDisk, Files, Wary};
use sqlite_std_file::FileFrom;
use sqlite_store::FileStore;
use sqlite_trees::error::StoreError;
use sqlite_trees::store::Store;

/// Opens and closes the stores of sessions by their paths.
pub trait SessionStores {
    /// A store.
    type Kept: Store + Drop;

    /// The files of a store.
    type Files: Drop;

    /// The log beside a store's file, if the open of it makes one.
    type Log: Drop;

    /// What was asked so far, the last order last, if that is known.
    ghost asked: { Self → Option (List StoreOrder) };

    /// What the files at a path hold, if that is known. It is not if a wrong answer of the disk may be taken as true.
    ghost trees_at: { Self → TreesAt };

    /// Whatever a crash leaves, the files of a store that showed this have what was committed, and so has the database file
    /// alone.
    ghost are_folded: { Self.Files → View → Type 0 };

    /// Opens the store of a session at a path. If nothing is there, one is made, with no rows.
    fn open_store(&mut self, path: &str) -> Result<(Self::Kept, Self::Log), OpenFault>
        ensures fresh { IfOk result (λ opened. IsClean (Self.Kept.view opened.0) → IsFresh (Self.Kept.view opened.0)) }
        ensures found { IfOk result (λ opened. IfSome (trees_at self.old path.now) (λ db. (Self.Kept.view opened.0).trees ≡ db)) }
        ensures others { KeepsOthers (trees_at self.old) (trees_at self.new) path.now }
        ensures asks { OnOk result (OrdersFollow (asked self.old) (asked self.new) (Open path.now ∷ [])) }
        ensures asks_nothing { OnErr result (asked self.new ≡ asked self.old) };

    /// Closes the store that was opened at a path, and returns its files. If this is done, the database file alone has what was
    /// committed. If it fails, the store is returned, and a crash leaves nothing new.
    fn close_store(
        &mut self,
        path: &str,
        store: Self::Kept,
    ) -> Result<Self::Files, (StoreError, Self::Kept)>
        ensures folded { IfOk result (λ files. are_folded files (Self.Kept.view store)) }
        ensures kept { OnOk result (IfSome (trees_at self.new path.now) (HoldsCommitted (Self.Kept.view store))) }
        ensures others { KeepsOthers (trees_at self.old) (trees_at self.new) path.now }
        ensures err { IfErr result (λ e. (db : Trees) → Self.Kept.recovers e.1 db → Self.Kept.recovers store db) }
        ensures cause { IfErr result (λ e. IsClean (Self.Kept.view e.1) → MayFailToClose (MoreFaults (Self.Kept.faults store) (Self.Kept.faults e.1)) (Self.Kept.view e.1) e.0) }
        ensures told { IfErr result (λ e. Tells (Self.Kept.blamed e.1) e.0) }
        ensures asks { OrdersFollow (asked self.old) (asked self.new) (Close ∷ []) };

    /// Closes a store that will not be used, as `close_store` does, and gives up the log that its open made.
    fn abandon_store(
        &mut self,
        store: Self::Kept,
        log: Self::Log,
    ) -> Result<Self::Files, (StoreError, Self::Kept)>
        ensures folded { IfOk result (λ files. are_folded files (Self.Kept.view store)) }
        ensures err { IfErr result (λ e. (db : Trees) → Self.Kept.recovers e.1 db → Self.Kept.recovers store db) }
        ensures asks { OrdersFollow (asked self.old) (asked self.new) (Abandon ∷ []) };
}

/// A file of the system, which looks at the names of a session's files at each sync.
type StoreFile = NamedDisk<FileFrom<Wary>, SystemFolder>;

/// The stores of the system's files. Each commit is synced twice.
#[derive(Drop)]
pub struct SystemStores {
    /// The runtime.
    pub rt: HostRuntime,
}

impl SessionStores for SystemStores {
    type Kept = FileStore<StoreFile>;

    type Files = Files<StoreFile>;

    type Log = NewLog;

    ghost asked = { λ _. None };

    ghost trees_at = { λ _ _. None };

    ghost are_folded = { AreLeftFolded ⟦<StoreFile as StoreDisk>⟧ };

    fn open_store(&mut self, path: &str) -> Result<(FileStore<StoreFile>, NewLog), OpenFault> {
        let mut folder = SystemFolder { rt: self.rt };
        open_path(&self.rt, &mut folder, path, Wary)
    }

    fn close_store(
        &mut self,
        _path: &str,
        store: FileStore<StoreFile>,
    ) -> Result<Files<StoreFile>, (StoreError, FileStore<StoreFile>)> {
        close_files(store)
    }

    fn abandon_store(
        &mut self,
        store: FileStore<StoreFile>,
        log: NewLog,
    ) -> Result<Files<StoreFile>, (StoreError, FileStore<StoreFile>)> {
        let mut folder = SystemFolder { rt: self.rt };
        abandon(&mut folder, store, log)
    }
}

/// The fault that is reported for a file that is not opened.
pub(crate) fn fault_of(fault: OpenFault) -> StoreFault
    ensures { result ≡ opening_fault fault }
{
    match fault {
        OpenFault::Busy => StoreFault::Busy,
        OpenFault::HotJournal => StoreFault::HotJournal,
        OpenFault::Unreadable => StoreFault::Unreadable,
        OpenFault::NotASession => StoreFault::NotASession,
        OpenFault::Full => StoreFault::Full,
        OpenFault::Memory => StoreFault::Memory,
    }
}
