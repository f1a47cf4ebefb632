//! Opening a session's file by its path.

ghost use Rattle.std.specs.Prelude.{◌≡◌, ℕ, [], IfErr, IfOk, IsTrue, OnErr, OnOk};
ghost use Rattle.std_io.specs.IoError.{error_kind};
ghost use Rattle.sqlite_wal.specs.Files.{image_at};
ghost use Rattle.sqlite_disk.specs.Tally.{both_counts};
ghost use Rattle.sqlite_wal.specs.Recovery.{Image};
ghost use Rattle.sqlite_trees.specs.View.{IsClean};
ghost use Rattle.sqlite_store.specs.FileStore.{is_shielded, state, view};
ghost use Rattle.session_disk.specs.Faults.{path_fault, system_fault, reported_fault};
ghost use Rattle.session_file.specs.Opening.{IsFresh};
ghost use Rattle.session_disk.specs.Named.{IsNamedBy};
ghost use Rattle.session_disk.specs.Logs.{idle_bound, IsLogBeside, IsFoundIdle, IsGivenUp, Removes, RemovesOwn};
ghost use Rattle.session_disk.specs.Opening.{files_left, files_image, FailsToOpen, IsCleanLeft, AreFilesOpened};
ghost use Rattle.session_disk.specs.declared.leftover.Leftover.{Leftover};
ghost use Rattle.session_disk.specs.Sessions.{IsSessionFile};

use crate::fault::OpenFault;
use crate::log_folder::LogFolder;
use crate::named_disk::NamedDisk;
use crate::new_log::NewLog;
use crate::opening::open_files;
use sqlite_disk::{Disk, Files, Start, Tally};
use sqlite_std_file::{FileFrom, OpenError as PathError};
use sqlite_store::FileStore;
use std::alloc::Global;
use std::hash::{BuildHasher, RandomState};
use std::io;

/// A log that is shorter than its header and the header of a frame holds nothing that was committed.
const FRAME_END: usize = 32 + 24;

/// The fault of opening the two files at a path.
fn path_fault(error: PathError) -> OpenFault
    ensures { result ≡ path_fault error }
{
    match error {
        PathError::Busy => OpenFault::Busy,
        PathError::HotJournal => OpenFault::HotJournal,
        PathError::OutOfMemory => OpenFault::Memory,
        PathError::Io(error) => io_fault(error),
    }
}

/// The fault of a call of the system.
fn io_fault(error: io::Error) -> OpenFault
    ensures { result ≡ system_fault (error_kind error) }
{
    match error.kind() {
        io::ErrorKind::OutOfMemory => OpenFault::Memory,
        _ => OpenFault::Unreadable,
    }
}

/// Opens the database file at a path, or makes it, as the store of a session, and has it for this process alone until the store
/// is dropped. A log that this open made is removed again if it refuses the file; if the file is opened and not wanted,
/// `abandon` removes it. From then on each sync looks at the names of both files.
pub fn open_path<S: Start, F: LogFolder + Copy>(
    rt: &HostRuntime,
    folder: &mut F,
    path: &str,
    start: S,
) -> Result<(FileStore<NamedDisk<FileFrom<S>, F>>, NewLog), OpenFault>
    ensures ok { IfOk result (λ opened. IsTrue (view opened.0).is_clean → AreFilesOpened (image_at S.Start) opened.0) }
    ensures fresh { IfOk result (λ opened. IsClean (view opened.0) → IsFresh (view opened.0)) }
    ensures left { IfOk result (λ opened. IsTrue (view opened.0).is_clean → (now : Image) → (state opened.0).may_leave now → ∥ IsSessionFile now ∥₁) }
    ensures guarded { IfOk result (λ opened. IsTrue (view opened.0).is_clean → is_shielded opened.0) }
    ensures log { IfOk result (λ opened. IsLogBeside (F.view folder.old) path.now opened.1) }
    ensures keeps { OnOk result (Removes (F.view folder.old) (F.view folder.new) []) }
    ensures own { OnErr result (RemovesOwn (F.view folder.old) (F.view folder.new) path.now) }
{
    let seed = match RandomState::new(rt) {
        Ok(state) => state.hash_one(&0u8),
        Err(error) => return Err(io_fault(error)),
    };
    let log = match NewLog::beside(rt.alloc(), folder, path) {
        Ok(log) => log,
        Err(error) => return Err(io_fault(error)),
    };
    let files = match sqlite_std_file::open(rt, path, start) {
        Ok(files) => files,
        Err(error) => return Err(path_fault(error)),
    };
    let named = match named_files(rt.alloc(), *folder, path, files) {
        Ok(named) => named,
        Err((error, files)) => {
            let mut files = files;
            return Err(give_up(folder, &mut files, log, io_fault(error)));
        }
    };
    match open_beside(rt.alloc(), folder, named, log, seed) {
        Ok(opened) => Ok(opened),
        Err((fault, _)) => Err(fault),
    }
}

/// The two files at a path, which look at their names at each sync. They are returned if a name can't be looked at.
fn named_files<S: Start, F: LogFolder + Copy>(
    alloc: Global,
    folder: F,
    path: &str,
    files: Files<FileFrom<S>>,
) -> Result<Files<NamedDisk<FileFrom<S>, F>>, (io::Error, Files<FileFrom<S>>)>
    ensures log { IfOk result (λ named. IsNamedBy F.LogFolder.view folder path.now ⟦<FileFrom<S> as Disk>⟧ files.log named.log) }
    ensures db { IfOk result (λ named. IsNamedBy F.LogFolder.view folder path.now ⟦<FileFrom<S> as Disk>⟧ files.db named.db) }
    ensures back { IfErr result (λ e. (e.1.log ≡ files.log) × (e.1.db ≡ files.db)) }
{
    let Files { log, db } = files;
    let log = match NamedDisk::at(alloc, folder, path, log) {
        Ok(log) => log,
        Err((error, log)) => return Err((error, Files { log, db })),
    };
    match NamedDisk::at(alloc, folder, path, db) {
        Ok(db) => Ok(Files { log, db }),
        Err((error, db)) => Err((
            error,
            Files {
                log: log.into_inner(),
                db,
            },
        )),
    }
}

/// Opens the two files, with the log that the open of them made. If they are refused, they are returned, and a log that holds
/// nothing is removed.
fn open_beside<D: Disk, F: LogFolder>(
    alloc: Global,
    folder: &mut F,
    files: Files<D>,
    log: NewLog,
    seed: u64,
) -> Result<(FileStore<D>, NewLog), (OpenFault, Files<D>)>
    requires log { IsTrue (D.Disk.is_usable files.log) }
    requires db { IsTrue (D.Disk.is_usable files.db) }
    ensures ok { IfOk result (λ opened. IsTrue (view opened.0).is_clean → AreFilesOpened (files_image D.Disk files) opened.0) }
    ensures fresh { IfOk result (λ opened. IsClean (view opened.0) → IsFresh (view opened.0)) }
    ensures left { IfOk result (λ opened. IsTrue (view opened.0).is_clean → (now : Image) → (state opened.0).may_leave now → ∥ IsSessionFile now ∥₁) }
    ensures guarded { IfOk result (λ opened. IsTrue (view opened.0).is_clean → is_shielded opened.0) }
    ensures log { IfOk result (λ opened. opened.1 ≡ log) }
    ensures keeps { OnOk result (Removes (F.view folder.old) (F.view folder.new) []) }
    ensures given_up { IfErr result (λ e. (rest : Leftover D D.Disk) × (fault : OpenFault) × (IsCleanLeft rest → FailsToOpen files rest fault) × (e.0 ≡ reported_fault (both_counts (D.Disk.tally_of (files_left rest).0) (D.Disk.tally_of (files_left rest).1)).refused fault)
        × IsGivenUp D.Disk fault (files_left rest).0 e.1.log log (F.view folder.old) (F.view folder.new)) }
{
    match open_files(alloc, files, seed) {
        Ok(store) => Ok((store, log)),
        Err((fault, rest)) => {
            let mut files = rest.into_files();
            let reported = give_up(folder, &mut files, log, fault);
            Err((reported, files))
        }
    }
}

/// Removes a log that the open made and that holds nothing, and returns the fault that a refused open reports. The files are
/// still locked.
fn give_up<D: Disk, F: LogFolder>(
    folder: &mut F,
    files: &mut Files<D>,
    log: NewLog,
    fault: OpenFault,
) -> OpenFault
    ensures reported { result ≡ reported_fault (both_counts (D.Disk.tally_of files.old.log) (D.Disk.tally_of files.old.db)).refused fault }
    ensures removes { IsGivenUp D.Disk fault files.old.log files.new.log log (F.view folder.old) (F.view folder.new) }
{
    if is_idle(&mut files.log, fault) {
        log.remove(folder);
    }
    reported_fault(fault, files.tally())
}

/// The fault that an open reports: Full for a failed call, if a write found no room.
fn reported_fault(fault: OpenFault, tally: Tally) -> OpenFault
    ensures { result ≡ reported_fault tally.refused fault }
{
    match fault {
        OpenFault::Unreadable if tally.refused != 0 => OpenFault::Full,
        other => other,
    }
}

/// A log with fewer bytes holds nothing, if its files are refused for a fault.
fn idle_bound(fault: OpenFault) -> usize
    ensures { result ≡ idle_bound fault }
{
    match fault {
        OpenFault::NotASession => FRAME_END,
        _ => 1,
    }
}

/// Whether the log that a refused open found holds nothing: neither a commit of another process, nor the mark of a database
/// that is only half made.
fn is_idle<D: Disk>(log: &mut D, fault: OpenFault) -> bool
    ensures idle { IsFoundIdle D.Disk fault log.old log.new result }
    ensures tally { D.Disk.tally_of log.new ≡ D.Disk.tally_of log.old }
{
    if !log.may_be_used() {
        return false;
    }
    match log.len() {
        Ok(len) => len < idle_bound(fault),
        Err(_) => false,
    }
}
