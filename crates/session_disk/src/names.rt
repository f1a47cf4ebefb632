//! The names of a session's two files.

ghost use Rattle.std.specs.Prelude.{◌≡◌, List, [], ◌∷◌, Some, IfOk, IfSome, IsTrue, false};
ghost use Rattle.sqlite_disk.specs.Disk.{Only};
ghost use Rattle.session_disk.specs.Logs.{FolderView};
ghost use Rattle.session_disk.specs.Looks.{Misses, Sees, look};
ghost use Rattle.session_disk.specs.Names.{AreNamesOf, all_there, first_looks, view_of};

use crate::log_folder::{FileNumber, Links, LogFolder};
use crate::new_log::log_path;
use sqlite_disk::Disk;
use std::alloc::Global;
use std::io;

/// The names of a session's two files, and which files they led to right after the open.
#[derive(Drop)]
pub(crate) struct Names {
    /// The path of the database file, as it was given.
    given: String,
    /// The path that it led to.
    real: String,
    /// The path of the log.
    log: String,
    /// The database file.
    db_file: FileNumber,
    /// The log.
    log_file: FileNumber,
}

impl Names {
    /// Looks at the names of the two files at a path, one of which is this one. Refused if a name can't be followed, leads to
    /// nothing or can't be looked at, or if memory ran out.
    pub(crate) fn look_at<D: Disk, F: LogFolder>(
        alloc: Global,
        folder: &mut F,
        path: &str,
        file: &D,
    ) -> io::Result<Names>
        ensures named { IfOk result (λ names. IfSome (F.LogFolder.view folder.old) (λ known. AreNamesOf known path.now (view_of names))) }
        ensures looked { IfOk result (λ names. Only (D.Disk.seen file.now) (D.Disk.may_leave file.now) → Sees (F.LogFolder.view folder.old) (F.LogFolder.view folder.new) (first_looks (view_of names))) }
    {
        let real = folder.real_path(alloc, path)?;
        let log = log_path(alloc, real.as_str())?;
        let given = String::from_str(alloc, path)?;
        let db_file = folder.file_at(real.as_str(), Links::Kept, file)?;
        let log_file = folder.file_at(log.as_str(), Links::Kept, file)?;
        Ok(Names {
            given,
            real,
            log,
            db_file,
            log_file,
        })
    }

    /// Whether the names lead to these files now, after all that was written to one of them was on the disk.
    pub(crate) fn lead_there<D: Disk, F: LogFolder>(&self, folder: &mut F, file: &D) -> bool
        requires { Only (D.Disk.seen file.now) (D.Disk.may_leave file.now) }
        ensures yes { IsTrue result → Sees (F.LogFolder.view folder.old) (F.LogFolder.view folder.new) (all_there (view_of self.now)) }
        ensures no { result ≡ false → Misses (F.LogFolder.view folder.old) (F.LogFolder.view folder.new) (all_there (view_of self.now)) }
    {
        if !finds(
            folder,
            self.given.as_str(),
            Links::Followed,
            self.db_file,
            file,
        ) {
            return false;
        }
        if !finds(folder, self.real.as_str(), Links::Kept, self.db_file, file) {
            return false;
        }
        finds(folder, self.log.as_str(), Links::Kept, self.log_file, file)
    }
}

/// Whether a look finds this file at a path.
fn finds<D: Disk, F: LogFolder>(
    folder: &mut F,
    path: &str,
    links: Links,
    wanted: FileNumber,
    file: &D,
) -> bool
    requires { Only (D.Disk.seen file.now) (D.Disk.may_leave file.now) }
    ensures yes { IsTrue result → Sees (F.LogFolder.view folder.old) (F.LogFolder.view folder.new) (look path.now links (Some wanted) ∷ []) }
    ensures no { result ≡ false → Misses (F.LogFolder.view folder.old) (F.LogFolder.view folder.new) (look path.now links (Some wanted) ∷ []) }
{
    match folder.file_at(path, links, file) {
        Ok(found) => found == wanted,
        Err(_) => false,
    }
}
