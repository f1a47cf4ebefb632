//! The end of a session's store.

ghost use Rattle.std.specs.Prelude.{[], IfErr, IfOk, IsTrue, OnErr, OnOk};
ghost use Rattle.sqlite_disk.specs.Disk.{MoreFaults};
ghost use Rattle.sqlite_trees.specs.Tree.{Trees};
ghost use Rattle.sqlite_trees.specs.View.{IsClean, Tells};
ghost use Rattle.sqlite_store.specs.FileStore.{blamed, faults, recovers, view};
ghost use Rattle.session_disk.specs.Closing.{AreLeftFolded, MayFailToClose};
ghost use Rattle.session_disk.specs.Logs.{Removes, paths_of};

use crate::log_folder::LogFolder;
use crate::new_log::NewLog;
use sqlite_disk::{Disk, Files};
use sqlite_store::FileStore;
use sqlite_trees::error::StoreError;
use sqlite_trees::store::Store;

/// Drops what is not committed, copies the log into the database file, and returns the two files. The database file alone has the
/// last commit then. If that fails, the store is returned, and a crash leaves nothing new.
pub fn close_files<D: Disk>(store: FileStore<D>) -> Result<Files<D>, (StoreError, FileStore<D>)>
    ensures folded { IfOk result (λ files. AreLeftFolded D.Disk files (view store)) }
    ensures err { IfErr result (λ e. (db : Trees) → recovers e.1 db → recovers store db) }
    ensures cause { IfErr result (λ e. IsClean (view e.1) → MayFailToClose (MoreFaults (faults store) (faults e.1)) (view e.1) e.0) }
    ensures told { IfErr result (λ e. Tells (blamed e.1) e.0) }
{
    let mut store = store;
    store.rollback();
    match store.checkpoint() {
        Ok(()) => Ok(store.close()),
        Err(error) => Err((error, store)),
    }
}

/// Closes a store that nobody used, as `close_files` does. If that is done, a log that the open made is removed while the files
/// are still locked. Otherwise both files stay.
pub fn abandon<D: Disk, F: LogFolder>(
    folder: &mut F,
    store: FileStore<D>,
    log: NewLog,
) -> Result<Files<D>, (StoreError, FileStore<D>)>
    ensures folded { IfOk result (λ files. AreLeftFolded D.Disk files (view store)) }
    ensures err { IfErr result (λ e. (db : Trees) → recovers e.1 db → recovers store db) }
    ensures cause { IfErr result (λ e. IsClean (view e.1) → MayFailToClose (MoreFaults (faults store) (faults e.1)) (view e.1) e.0) }
    ensures told { IfErr result (λ e. Tells (blamed e.1) e.0) }
    ensures removed { OnOk result (Removes (F.view folder.old) (F.view folder.new) (paths_of log.path)) }
    ensures kept { OnErr result (Removes (F.view folder.old) (F.view folder.new) []) }
{
    // Not by `?`: the proof answers this arm.
    match close_files(store) {
        Ok(files) => {
            log.remove(folder);
            Ok(files)
        }
        Err(refused) => Err(refused),
    }
}
