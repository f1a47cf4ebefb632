//! The files of the system.

ghost use Rattle.std.specs.Prelude.{None};

use crate::output_disk::OutputDisk;
use std::alloc::Global;
use std::fs::{File, Metadata, OpenFile, OpenOptions, TryLockError};
use std::io::Write;
use std::os::unix::fs::MetadataExt;
use std::rt::Files;
use std::{fs, io};

/// The files that a runtime opens, by their paths. A relative path starts at the working directory.
#[derive(Drop)]
pub struct SystemDisk<'a, R: Files<File = File>> {
    /// The runtime.
    pub rt: &'a R,
}

impl<'a, R: Files<File = File>> OutputDisk for SystemDisk<'a, R> {
    type NewFile = File;

    ghost entries = { λ _. None };

    ghost asked = { λ _. None };

    ghost leads = { λ _ path. path };

    fn create_new(&mut self, path: &str) -> io::Result<File> {
        let file = File::create_new(self.rt, path)?;
        if is_locked_elsewhere(&file) || !is_at(self.rt, &file, path) {
            return Err(io::Error::from(io::ErrorKind::AlreadyExists));
        }
        Ok(file)
    }

    fn remove_left_over(&mut self, path: &str) -> io::Result<()> {
        if !fs::symlink_metadata(self.rt, path)?.is_file() {
            return Err(io::Error::from(io::ErrorKind::AlreadyExists));
        }
        let file = File::open(self.rt, path)?;
        file.try_lock()?;
        if !is_at(self.rt, &file, path) {
            return Err(io::Error::from(io::ErrorKind::AlreadyExists));
        }
        fs::remove_file(self.rt, path)
    }

    fn is_one_file(&self, left: &str, right: &str) -> io::Result<bool> {
        match (found_at(self.rt, left)?, found_at(self.rt, right)?) {
            (Some(left), Some(right)) => Ok(left.is_file() && is_same_file(&left, &right)),
            _ => Ok(false),
        }
    }

    fn write_into(&mut self, path: &str, bytes: &[u8]) -> io::Result<()> {
        let mut file = fs::create(self.rt, path)?;
        file.write_all(bytes)
    }

    fn file_path(&self, alloc: Global, path: &str) -> io::Result<Option<String>> {
        match self.rt.canonicalize(alloc, path) {
            Ok(real) => writable_path(self.rt, real.into_string()),
            Err(error) if error.kind() == io::ErrorKind::NotFound => {
                free_path(self.rt, String::from_str(alloc, path)?)
            }
            Err(error) => Err(error),
        }
    }

    fn sync(&mut self, file: &File) -> io::Result<()> {
        file.sync_all()
    }

    fn rename(&mut self, file: &File, from: &str, to: &str) -> io::Result<()> {
        if !is_at(self.rt, file, from) {
            return Err(io::Error::from(io::ErrorKind::NotFound));
        }
        fs::rename(self.rt, from, to)
    }

    fn remove(&mut self, file: &File, path: &str) -> io::Result<()> {
        if !is_at(self.rt, file, path) {
            return Err(io::Error::from(io::ErrorKind::NotFound));
        }
        fs::remove_file(self.rt, path)
    }
}

/// Takes the lock of a file, and returns whether somebody else has it. If the system has no locks, nobody has it.
fn is_locked_elsewhere(file: &File) -> bool {
    matches!(file.try_lock(), Err(TryLockError::WouldBlock))
}

/// Whether a path still names an open file.
fn is_at<R: Files>(rt: &R, file: &File, path: &str) -> bool {
    match (file.metadata(), fs::symlink_metadata(rt, path)) {
        (Ok(file), Ok(found)) => is_same_file(&file, &found),
        _ => false,
    }
}

/// Whether two files are one.
fn is_same_file(left: &Metadata, right: &Metadata) -> bool {
    left.dev() == right.dev() && left.ino() == right.ino()
}

/// What is at a path, with links followed; `None` if nothing is there.
fn found_at<R: Files>(rt: &R, path: &str) -> io::Result<Option<Metadata>> {
    match fs::metadata(rt, path) {
        Ok(found) => Ok(Some(found)),
        Err(error) => match error.kind() {
            io::ErrorKind::NotFound | io::ErrorKind::NotADirectory => Ok(None),
            _ => Err(error),
        },
    }
}

/// The path if an ordinary file is there, and `None` if something other than an ordinary file is there. Refused if
/// the file may not be written.
fn writable_path<R: Files>(rt: &R, path: String) -> io::Result<Option<String>> {
    if !fs::metadata(rt, path.as_str())?.is_file() {
        return Ok(None);
    }
    let _ = OpenOptions::new().write(true).open(rt, path.as_str())?;
    Ok(Some(path))
}

/// The same for a path that leads to no file: the path if nothing is there, and `None` if a link to nothing is there.
/// A file may have come since.
fn free_path<R: Files>(rt: &R, path: String) -> io::Result<Option<String>> {
    match fs::symlink_metadata(rt, path.as_str()) {
        Ok(found) if found.is_symlink() => Ok(None),
        Ok(_) => writable_path(rt, path),
        Err(error) if error.kind() == io::ErrorKind::NotFound => Ok(Some(path)),
        Err(error) => Err(error),
    }
}
