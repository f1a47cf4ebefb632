//! The folders of a database file and its log.

ghost use Rattle.std.specs.Prelude.{◌≡◌, [], ◌∷◌, IfOk, IfSome, None, Option};
ghost use Rattle.std.specs.String.{string_bytes};
ghost use Rattle.sqlite_disk.specs.Disk.{Only};
ghost use Rattle.session_disk.specs.Logs.{FolderView, Removes};
ghost use Rattle.session_disk.specs.Looks.{Sees, file_found, look};

use sqlite_disk::Disk;
use std::alloc::Global;
use std::os::unix::fs::MetadataExt;
use std::{fs, io};

/// A file of the system: as long as it is open, no other one has this number.
#[derive(Clone, Copy, Debug, PartialEq, Eq)]
pub struct FileNumber {
    /// The number of its device.
    pub device: u64,
    /// The number of its inode.
    pub inode: u64,
}

/// How a link at the end of a path is treated.
#[derive(Clone, Copy, Debug, PartialEq, Eq)]
pub enum Links {
    /// It is followed.
    Followed,
    /// It is taken as what is there.
    Kept,
}

/// The folder of a database file, and of its log beside it.
pub trait LogFolder {
    /// What is at which path, what was removed so far, and what looks found, if that is known.
    ghost view: { Self → Option FolderView };

    /// The path that a path leads to, with links followed; the path itself if nothing is there. Refused if the system can't say
    /// that.
    fn real_path(&self, alloc: Global, path: &str) -> io::Result<String>
        ensures { IfOk result (λ real. IfSome (view self.now) (λ known. string_bytes real ≡ known.leads path.now)) };

    /// Whether nothing is at a path.
    fn is_free(&self, path: &str) -> bool
        ensures { IfSome (view self.now) (λ known. result ≡ known.is_free path.now) };

    /// Removes the file at a path. If the system refuses that, the file stays.
    fn remove(&mut self, path: &str)
        ensures { Removes (view self.old) (view self.new) (path.now ∷ []) };

    /// Looks at what is at a path now. Refused if nothing is there, or if the system refuses. Clauses know of a look only what it
    /// found after all that was written to a file was on the disk.
    fn file_at<D: Disk>(&mut self, path: &str, links: Links, file: &D) -> io::Result<FileNumber>
        ensures { Only (D.Disk.seen file.now) (D.Disk.may_leave file.now) → Sees (view self.old) (view self.new) (look path.now links (file_found result) ∷ []) };
}

/// The folders of the system.
#[derive(Clone, Copy)]
pub struct SystemFolder {
    /// The runtime.
    pub rt: HostRuntime,
}

impl LogFolder for SystemFolder {
    ghost view = { λ _. None };

    fn real_path(&self, alloc: Global, path: &str) -> io::Result<String> {
        match fs::canonicalize(&self.rt, path) {
            Ok(real) => Ok(real.into_string()),
            Err(error) if error.kind() == io::ErrorKind::NotFound => {
                Ok(String::from_str(alloc, path)?)
            }
            Err(error) => Err(error),
        }
    }

    fn is_free(&self, path: &str) -> bool {
        match fs::symlink_metadata(&self.rt, path) {
            Ok(_) => false,
            Err(error) => error.kind() == io::ErrorKind::NotFound,
        }
    }

    fn remove(&mut self, path: &str) {
        let _ = fs::remove_file(&self.rt, path);
    }

    fn file_at<D: Disk>(&mut self, path: &str, links: Links, _file: &D) -> io::Result<FileNumber> {
        let found = match links {
            Links::Followed => fs::metadata(&self.rt, path)?,
            Links::Kept => fs::symlink_metadata(&self.rt, path)?,
        };
        Ok(FileNumber {
            device: found.dev(),
            inode: found.ino(),
        })
    }
}
