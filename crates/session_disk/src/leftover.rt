//! What is left of files that were not opened.

ghost use Rattle.std.specs.Prelude.{◌≡◌};
ghost use Rattle.session_disk.specs.Opening.{files_left};

use sqlite_disk::{Disk, Files};
use sqlite_store::Unopened;

/// What is left of the log and the database file after an open that was refused.
pub enum Leftover<D: Disk> {
    /// Nothing was written.
    Files(Files<D>),
    /// They may have been written.
    Unopened(Unopened<D>),
}

impl<D: Disk> Leftover<D> {
    /// Returns the log and the database file.
    pub fn into_files(self) -> Files<D>
        ensures { (result.log, result.db) ≡ files_left self }
    {
        match self {
            Leftover::Files(files) => files,
            Leftover::Unopened(files) => files.close(),
        }
    }
}
