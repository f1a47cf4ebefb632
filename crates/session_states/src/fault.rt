//! Why a session's file is not opened, or did not take a change.

ghost use Rattle.std.specs.Prelude.{◌≡◌};
ghost use Rattle.byte_streams.specs.Refusals.{parts_in};
ghost use Rattle.session_states.specs.Faults.{fault_of_store, store_fault_parts};

use byte_streams::LineParts;
use sqlite_trees::error::StoreError;

/// Why a session's file is not opened, or did not take a change. Its number is that of its place here, from 1 on. FILE is the
/// file, and FILE-wal and FILE-journal are the files beside it.
#[derive(Clone, Copy, Debug, PartialEq, Eq)]
pub enum StoreFault {
    /// Another process has FILE or FILE-wal.
    Busy,
    /// FILE-journal is there and not empty, which only SQLite can play back, or something that is no file has this name.
    HotJournal,
    /// A call of the system failed. At the start: FILE is a folder or a device, has a second name (a hard link), may
    /// not be read and written, or is in no folder or on a file system without locks; a page can't be read or is not
    /// what was written; or a new FILE has no room. In a commit, after each of its two syncs: FILE or FILE-wal no longer
    /// leads to the session's file. After the first sync the request is not kept.
    Unreadable,
    /// FILE is not a session's database: it is no database, has a page that is not well formed, lacks one of the four
    /// tables, or has another table or index. Or FILE is missing or empty, and FILE-wal has a commit. Or FILE has one
    /// byte, and FILE-wal has a commit, but not every page.
    NotASession,
    /// The first row of `session` has a whole number other than 1 as its `version`.
    OtherVersion,
    /// The row of `session` has another `frame_limit`, `frame_gas` or `brief` than the command line.
    OtherSettings,
    /// At the start: a row is not as a session writes it, the name of a program is not the SHA-256 of its file, a
    /// program has a fault of a program file, or there are rows and none of `session`. Later: a page is not what was
    /// written.
    Damaged,
    /// The disk has no room for a change, or FILE or FILE-wal meets a limit: of its format, or of a file's size.
    Full,
    /// Memory ran out for the start, or for pages of FILE.
    Memory,
}

impl StoreFault {
    /// The parts of what it prints.
    pub fn parts(self) -> LineParts
        ensures { parts_in result ≡ store_fault_parts self }
    {
        match self {
            StoreFault::Busy => LineParts::without_line("store", "Busy", 1),
            StoreFault::HotJournal => LineParts::without_line("store", "HotJournal", 2),
            StoreFault::Unreadable => LineParts::without_line("store", "Unreadable", 3),
            StoreFault::NotASession => LineParts::without_line("store", "NotASession", 4),
            StoreFault::OtherVersion => LineParts::without_line("store", "OtherVersion", 5),
            StoreFault::OtherSettings => LineParts::without_line("store", "OtherSettings", 6),
            StoreFault::Damaged => LineParts::without_line("store", "Damaged", 7),
            StoreFault::Full => LineParts::without_line("store", "Full", 8),
            StoreFault::Memory => LineParts::without_line("store", "Memory", 9),
        }
    }
}

impl From<StoreError> for StoreFault {
    ghost from_gives = { λ error fault. fault ≡ fault_of_store error };

    fn from(error: StoreError) -> StoreFault {
        match error {
            StoreError::OutOfMemory => StoreFault::Memory,
            StoreError::Io => StoreFault::Unreadable,
            StoreError::Corrupt | StoreError::Broken => StoreFault::Damaged,
            StoreError::Full | StoreError::Unstorable => StoreFault::Full,
        }
    }
}
