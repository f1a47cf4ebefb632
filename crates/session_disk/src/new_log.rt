//! The log that an open makes beside a database file.

ghost use Rattle.std.specs.Prelude.{◌≡◌, ◌++◌, codes, IfOk};
ghost use Rattle.std.specs.String.{string_bytes};
ghost use Rattle.session_disk.specs.Logs.{IsLogBeside, Removes, paths_of};

use crate::log_folder::LogFolder;
use std::alloc::{AllocError, Global};
use std::io;

/// The log beside a database file, if the open of that file makes it.
#[derive(Drop)]
pub struct NewLog {
    path: Option<String>,
}

impl NewLog {
    /// The log beside the file that a path leads to, before that is opened. If nothing is there, the open makes it. Refused if
    /// the path can't be followed, or memory ran out.
    pub(crate) fn beside<F: LogFolder>(alloc: Global, folder: &F, path: &str) -> io::Result<NewLog>
        ensures { IfOk result (λ log. IsLogBeside (F.view folder.now) path.now log) }
    {
        let real = folder.real_path(alloc, path)?;
        let log = log_path(alloc, real.as_str())?;
        if folder.is_free(log.as_str()) {
            Ok(NewLog { path: Some(log) })
        } else {
            Ok(NewLog { path: None })
        }
    }

    /// Removes the log, if the open made it. It must hold nothing that was committed, and the files must still be locked.
    pub(crate) fn remove<F: LogFolder>(self, folder: &mut F)
        ensures { Removes (F.view folder.old) (F.view folder.new) (paths_of self.path) }
    {
        if let Some(path) = &self.path {
            folder.remove(path.as_str());
        }
    }
}

/// The path of the log, beside the database file.
pub(crate) fn log_path(alloc: Global, path: &str) -> Result<String, AllocError>
    ensures { IfOk result (λ log. string_bytes log ≡ path.now ++ codes "-wal") }
{
    format!(in alloc; "{path}-wal")
}
