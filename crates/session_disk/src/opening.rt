//! Opening the files of a session, or making them.

ghost use Rattle.std.specs.Prelude.{◌≡◌, ◌≤◌, ◌↔◌, false, length, IfErr, IfOk, IsTrue, OnOk};
ghost use Rattle.sqlite_disk.specs.Disk.{CountsFault};
ghost use Rattle.sqlite_wal.specs.Recovery.{Image};
ghost use Rattle.sqlite_wal.specs.Reads.{AreClean, IsClean as IsCleanFile, OnlyReads};
ghost use Rattle.sqlite_wal.specs.Files.{IsHuge};
ghost use Rattle.sqlite_wal.specs.PageSize.{bytes_of};
ghost use Rattle.sqlite_pool.specs.Opening.{IsBlankFile};
ghost use Rattle.sqlite_trees.specs.View.{IsClean};
ghost use Rattle.sqlite_store.specs.FileStore.{is_shielded, state, view};
ghost use Rattle.sqlite_store.specs.Unopened.{Creates, IsUnstarted, StopsCreating, files_of, image, state_of};
ghost use Rattle.session_disk.specs.Sessions.{database_page_size, BeginsWell, IsBereft, IsSession, IsSessionFile};
ghost use Rattle.session_file.specs.Opening.{IsFresh};
ghost use Rattle.session_disk.specs.Opening.{FailsToOpen, IsCleanLeft, IsFullNow, AreFilesOpened, AreFilesUnopened, LeavesAs, LeavesFiles, MayOpenFail, faults_of, files_image};

use crate::fault::OpenFault;
use crate::leftover::Leftover;
use crate::tables::tables;
use sqlite_disk::{Disk, Files};
use sqlite_pager::{Options, Pager};
use sqlite_pool::probe_blank;
use sqlite_store::{FileStore, Unopened};
use sqlite_wal::{PageSize, probe_first_page, probe_frames};
use std::alloc::{AllocFailed, Global};
use std::io;

/// The number of bytes in a page.
const PAGE_SIZE: usize = 4096;

/// How many pages that were read stay in memory. Room for all of them is made at each open. A session reads its rows once, and
/// what it writes stays elsewhere, so they only serve the way down to the keys of one commit.
const CACHE_PAGES: usize = 250;

/// The size of a page.
fn session_page_size() -> PageSize
    ensures { bytes_of result ≡ database_page_size }
{
    PageSize::new(PAGE_SIZE).unwrap()
}

/// Whether the files hold no database yet: before a first open, or after one that was cut early.
fn is_blank<D: Disk>(alloc: Global, files: &mut Files<D>) -> Result<bool, OpenFault>
    requires log { IsTrue (D.Disk.is_usable files.old.log) }
    requires db { IsTrue (D.Disk.is_usable files.old.db) }
    ensures ok { IfOk result (λ b. AreClean D.Disk files.new.log files.new.db → (IsTrue b ↔ IsBlankFile database_page_size (files_image D.Disk files.old))) }
    ensures cause { IfErr result (λ e. AreClean D.Disk files.new.log files.new.db → MayOpenFail (faults_of D.Disk files.old) (faults_of D.Disk files.new) (IsHuge database_page_size (files_image D.Disk files.old)) (IsSession (files_image D.Disk files.old)) e) }
    ensures counts { faults_of D.Disk files.old ≤ faults_of D.Disk files.new }
    ensures log { OnlyReads D.Disk files.old.log files.new.log }
    ensures db { OnlyReads D.Disk files.old.db files.new.db }
{
    match probe_blank(alloc, files, session_page_size(), false) {
        Ok(is_blank) => Ok(is_blank),
        Err(error) => Err(OpenFault::from(error)),
    }
}

/// Refuses files whose first page does not begin as that of a database.
fn check_first_byte<D: Disk>(alloc: Global, files: &mut Files<D>) -> Result<(), OpenFault>
    requires log { IsTrue (D.Disk.is_usable files.old.log) }
    requires db { IsTrue (D.Disk.is_usable files.old.db) }
    requires some { AreClean D.Disk files.old.log files.old.db → ¬ IsBlankFile database_page_size (files_image D.Disk files.old) }
    ensures begins { OnOk result (AreClean D.Disk files.new.log files.new.db → BeginsWell (files_image D.Disk files.old)) }
    ensures cause { IfErr result (λ e. AreClean D.Disk files.new.log files.new.db → MayOpenFail (faults_of D.Disk files.old) (faults_of D.Disk files.new) (IsHuge database_page_size (files_image D.Disk files.old)) (IsSession (files_image D.Disk files.old)) e) }
    ensures counts { faults_of D.Disk files.old ≤ faults_of D.Disk files.new }
    ensures log { OnlyReads D.Disk files.old.log files.new.log }
    ensures db { OnlyReads D.Disk files.old.db files.new.db }
{
    let head = match probe_first_page(alloc, files, session_page_size()) {
        Ok(head) => head,
        Err(error) => return Err(OpenFault::from(error)),
    };
    if head.0 != b'S' {
        return Err(OpenFault::NotASession);
    }
    Ok(())
}

/// Refuses an empty database file beside a log that has a commit: the log was written for another file, which was taken away.
fn check_log<D: Disk>(alloc: Global, files: &mut Files<D>) -> Result<(), OpenFault>
    requires log { IsTrue (D.Disk.is_usable files.old.log) }
    requires db { IsTrue (D.Disk.is_usable files.old.db) }
    ensures whole { OnOk result (AreClean D.Disk files.new.log files.new.db → ¬ IsBereft (files_image D.Disk files.old)) }
    ensures cause { IfErr result (λ e. AreClean D.Disk files.new.log files.new.db → MayOpenFail (faults_of D.Disk files.old) (faults_of D.Disk files.new) (IsHuge database_page_size (files_image D.Disk files.old)) (IsSession (files_image D.Disk files.old)) e) }
    ensures counts { faults_of D.Disk files.old ≤ faults_of D.Disk files.new }
    ensures log { OnlyReads D.Disk files.old.log files.new.log }
    ensures db { OnlyReads D.Disk files.old.db files.new.db }
{
    match is_empty(&mut files.db) {
        Ok(true) => {}
        Ok(false) => return Ok(()),
        Err(io::Error { .. }) => return Err(OpenFault::Unreadable),
    }
    match probe_frames(alloc, &mut files.log, session_page_size()) {
        Ok(frames) if frames.as_slice().is_empty() => Ok(()),
        Ok(_) => Err(OpenFault::NotASession),
        Err(sqlite_wal::Error::Corrupt) => Ok(()),
        Err(error) => Err(OpenFault::from(error)),
    }
}

/// Whether a file has no byte.
fn is_empty<D: Disk>(file: &mut D) -> io::Result<bool>
    requires { IsTrue (D.Disk.is_usable file.old) }
    ensures ok { IfOk result (λ b. IsCleanFile D.Disk file.new → (IsTrue b ↔ (length (D.Disk.seen file.old) ≡ 0))) }
    ensures faults { CountsFault result (D.Disk.faults file.old) (D.Disk.faults file.new) }
    ensures same { OnlyReads D.Disk file.old file.new }
{
    Ok(file.len()? == 0)
}

/// The files with the tables that they will have, or as they were if memory ran out.
fn unopened<D: Disk>(alloc: Global, files: Files<D>, seed: u64) -> Result<Unopened<D>, Files<D>>
    requires log { IsTrue (D.Disk.is_usable files.log) }
    requires db { IsTrue (D.Disk.is_usable files.db) }
    ensures back { IfErr result (λ rest. (rest.log ≡ files.log) × (rest.db ≡ files.db)) }
    ensures files { IfOk result (λ it. files_of it ≡ (files.log, files.db)) }
    ensures unopened { IfOk result AreFilesUnopened }
{
    let options = Options {
        cache_pages: CACHE_PAGES,
        ..Options::new(seed)
    };
    let pager = match Pager::new(alloc, files, session_page_size(), options) {
        Ok(pager) => pager,
        Err(AllocFailed { value }) => return Err(value),
    };
    match Unopened::new(alloc, pager, &tables()) {
        Ok(unopened) => Ok(unopened),
        Err(AllocFailed { value }) => Err(value.close()),
    }
}

/// Makes the tables of files without a database, or with one that has no table.
fn make<D: Disk>(files: Unopened<D>) -> Result<FileStore<D>, (OpenFault, Unopened<D>)>
    requires unopened { AreFilesUnopened files }
    requires whole { IsTrue (state_of files).is_clean → ¬ IsBereft (image files) }
    ensures ok { IfOk result (λ store. IsTrue (view store).is_clean → AreFilesOpened (image files) store) }
    ensures honest { IfOk result (λ store. IsTrue (view store).is_clean → IsTrue (state_of files).is_clean) }
    ensures guarded { IfOk result (λ store. IsTrue (view store).is_clean → is_shielded store) }
    ensures cause { IfErr result (λ e. IsTrue (state_of e.1).is_clean → MayOpenFail (state_of files).faults (state_of e.1).faults (StopsCreating e.1) (IsUnstarted files) e.0) }
    ensures unharmed { IfErr result (λ e. IsTrue (state_of e.1).is_clean → Creates files (state_of e.1)) }
    ensures falls { IfErr result (λ e. IsTrue (state_of e.1).is_clean → IsTrue (state_of files).is_clean) }
{
    match files.create() {
        Ok(store) => Ok(store),
        Err((error, rest)) => Err((OpenFault::from(error), rest)),
    }
}

/// Opens a database. If it has no table yet, such as after a first open that was cut, the tables are made.
fn adopt<D: Disk>(mut files: Unopened<D>) -> Result<FileStore<D>, (OpenFault, Unopened<D>)>
    requires unopened { AreFilesUnopened files }
    requires some { IsTrue (state_of files).is_clean → ¬ IsBlankFile database_page_size (image files) }
    requires begins { IsTrue (state_of files).is_clean → BeginsWell (image files) }
    ensures ok { IfOk result (λ store. IsTrue (view store).is_clean → AreFilesOpened (image files) store) }
    ensures honest { IfOk result (λ store. IsTrue (view store).is_clean → IsTrue (state_of files).is_clean) }
    ensures guarded { IfOk result (λ store. IsTrue (view store).is_clean → is_shielded store) }
    ensures cause { IfErr result (λ e. IsTrue (state_of e.1).is_clean → MayOpenFail (state_of files).faults (state_of e.1).faults (IsFullNow e.1) (IsSession (image files)) e.0) }
    ensures unharmed { IfErr result (λ e. IsTrue (state_of e.1).is_clean → LeavesAs (image files) (state_of files).may_leave (state_of e.1).may_leave) }
    ensures falls { IfErr result (λ e. IsTrue (state_of e.1).is_clean → IsTrue (state_of files).is_clean) }
{
    match files.read_catalog() {
        Ok(rows) if rows.as_slice().is_empty() => make(files),
        Ok(_) => match files.open_numbered() {
            Ok(store) => Ok(store),
            Err((error, rest)) => Err((OpenFault::from(error), rest)),
        },
        Err(error) => Err((OpenFault::from(error), files)),
    }
}

/// Makes the database of files that hold none. An empty database file beside a log with a commit is refused.
fn make_files<D: Disk>(
    alloc: Global,
    mut files: Files<D>,
    seed: u64,
) -> Result<FileStore<D>, (OpenFault, Leftover<D>)>
    requires log { IsTrue (D.Disk.is_usable files.log) }
    requires db { IsTrue (D.Disk.is_usable files.db) }
    requires blank { AreClean D.Disk files.log files.db → IsBlankFile database_page_size (files_image D.Disk files) }
    ensures ok { IfOk result (λ store. IsTrue (view store).is_clean → AreFilesOpened (files_image D.Disk files) store) }
    ensures honest { IfOk result (λ store. IsTrue (view store).is_clean → AreClean D.Disk files.log files.db) }
    ensures guarded { IfOk result (λ store. IsTrue (view store).is_clean → is_shielded store) }
    ensures cause { IfErr result (λ e. IsCleanLeft e.1 → FailsToOpen files e.1 e.0) }
    ensures unharmed { IfErr result (λ e. IsCleanLeft e.1 → LeavesFiles files e.1) }
{
    if let Err(fault) = check_log(alloc, &mut files) {
        return Err((fault, Leftover::Files(files)));
    }
    let fresh = match unopened(alloc, files, seed) {
        Ok(fresh) => fresh,
        Err(rest) => return Err((OpenFault::Memory, Leftover::Files(rest))),
    };
    match make(fresh) {
        Ok(store) => Ok(store),
        Err((fault, rest)) => Err((fault, Leftover::Unopened(rest))),
    }
}

/// Opens files that are not blank.
fn adopt_files<D: Disk>(
    alloc: Global,
    mut files: Files<D>,
    seed: u64,
) -> Result<FileStore<D>, (OpenFault, Leftover<D>)>
    requires log { IsTrue (D.Disk.is_usable files.log) }
    requires db { IsTrue (D.Disk.is_usable files.db) }
    requires some { AreClean D.Disk files.log files.db → ¬ IsBlankFile database_page_size (files_image D.Disk files) }
    ensures ok { IfOk result (λ store. IsTrue (view store).is_clean → AreFilesOpened (files_image D.Disk files) store) }
    ensures honest { IfOk result (λ store. IsTrue (view store).is_clean → AreClean D.Disk files.log files.db) }
    ensures guarded { IfOk result (λ store. IsTrue (view store).is_clean → is_shielded store) }
    ensures cause { IfErr result (λ e. IsCleanLeft e.1 → FailsToOpen files e.1 e.0) }
    ensures unharmed { IfErr result (λ e. IsCleanLeft e.1 → LeavesFiles files e.1) }
{
    if let Err(fault) = check_first_byte(alloc, &mut files) {
        return Err((fault, Leftover::Files(files)));
    }
    let fresh = match unopened(alloc, files, seed) {
        Ok(fresh) => fresh,
        Err(rest) => return Err((OpenFault::Memory, Leftover::Files(rest))),
    };
    match adopt(fresh) {
        Ok(store) => Ok(store),
        Err((fault, rest)) => Err((fault, Leftover::Unopened(rest))),
    }
}

/// Opens the log and the database file as the store of a session. If they hold no database, or one with no table, the tables are
/// made; they have no rows then. Files that a session left are refused only for memory, a fault of the disk or a limit of the
/// format. An empty database file beside a log with a commit is refused: it is no session's. Refused files are returned. A crash
/// then leaves those of a session as files of a session, and the content of others is what it was.
pub fn open_files<D: Disk>(
    alloc: Global,
    files: Files<D>,
    seed: u64,
) -> Result<FileStore<D>, (OpenFault, Leftover<D>)>
    requires log { IsTrue (D.Disk.is_usable files.log) }
    requires db { IsTrue (D.Disk.is_usable files.db) }
    ensures ok { IfOk result (λ store. IsTrue (view store).is_clean → AreFilesOpened (files_image D.Disk files) store) }
    ensures fresh { IfOk result (λ store. IsClean (view store) → IsFresh (view store)) }
    ensures left { IfOk result (λ store. IsTrue (view store).is_clean → (now : Image) → (state store).may_leave now → ∥ IsSessionFile now ∥₁) }
    ensures honest { IfOk result (λ store. IsTrue (view store).is_clean → AreClean D.Disk files.log files.db) }
    ensures guarded { IfOk result (λ store. IsTrue (view store).is_clean → is_shielded store) }
    ensures cause { IfErr result (λ e. IsCleanLeft e.1 → FailsToOpen files e.1 e.0) }
    ensures unharmed { IfErr result (λ e. IsCleanLeft e.1 → LeavesFiles files e.1) }
{
    let mut files = files;
    let is_new = match is_blank(alloc, &mut files) {
        Ok(is_new) => is_new,
        Err(fault) => return Err((fault, Leftover::Files(files))),
    };
    if is_new {
        make_files(alloc, files, seed)
    } else {
        adopt_files(alloc, files, seed)
    }
}
