//! Why a file is not opened.

ghost use Rattle.std.specs.Prelude.{◌≡◌};
ghost use Rattle.session_disk.specs.Faults.{probe_fault, store_fault};

use sqlite_store::OpenError;

/// Why a file is not opened as the store of a session.
#[derive(Clone, Copy, Debug, PartialEq, Eq)]
pub enum OpenFault {
    /// Another process has it open.
    Busy,
    /// SQLite left a rollback journal beside it, which only sqlite3 can play back.
    HotJournal,
    /// A call of the system failed.
    Unreadable,
    /// It is no database, one that is damaged, or one that has not the tables of a session or has others.
    NotASession,
    /// The disk has no room, or a limit of the format of databases is met.
    Full,
    /// Memory ran out.
    Memory,
}

/// Of a call that only reads.
impl From<sqlite_wal::Error> for OpenFault {
    ghost from_gives = { λ error fault. fault ≡ probe_fault error };

    fn from(error: sqlite_wal::Error) -> OpenFault {
        match error {
            sqlite_wal::Error::OutOfMemory => OpenFault::Memory,
            sqlite_wal::Error::Io(_) => OpenFault::Unreadable,
            sqlite_wal::Error::Full => OpenFault::Full,
            _ => OpenFault::NotASession,
        }
    }
}

/// Of a call that opens.
impl From<OpenError> for OpenFault {
    ghost from_gives = { λ error fault. fault ≡ store_fault error };

    fn from(error: OpenError) -> OpenFault {
        match error {
            OpenError::OutOfMemory => OpenFault::Memory,
            OpenError::Io => OpenFault::Unreadable,
            OpenError::Full => OpenFault::Full,
            OpenError::Refused => OpenFault::NotASession,
        }
    }
}
