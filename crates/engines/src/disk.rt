//! Files by their paths.

ghost use Rattle.std.specs.Prelude.{◌≡◌, ℕ, List, Option, None, Some, IfOk, IfSome, OnErr, OnOk};
ghost use Rattle.engines.specs.Named.{bytes_left, may_fail_of};

use crate::program_source::Programs;
use byte_streams::{FallibleReader, Source};
use std::fs::File;
use std::io::Read;
use std::rt::Files;
use std::{fs, io};
use system_files::{OutputDisk, SystemDisk};

/// Files by their paths, which are read, made and replaced.
pub trait Disk: OutputDisk {
    /// A file that is open to be read.
    type File: Source + Drop;

    /// The bytes of the file at a path, if they are known and nothing keeps them from being read.
    ghost content: { Self → List ℕ → Option (List ℕ) };

    /// Opens a file to read it.
    fn open(&self, path: &str) -> io::Result<Self::File>
        ensures opened { IfOk result (λ f. IfSome (content self.now path.now) (λ bytes. Self.File.remaining f ≡ Some bytes)) }
        ensures readable { IfOk result (λ f. Self.File.may_fail f → content self.now path.now ≡ None) }
        ensures refused { OnErr result (content self.now path.now ≡ None) };
}

impl<'a, R: Files<File = File>> Disk for SystemDisk<'a, R> {
    type File = FallibleReader<File>;

    ghost content = { λ _ _. None };

    fn open(&self, path: &str) -> io::Result<FallibleReader<File>> {
        match fs::open(self.rt, path) {
            Ok(reader) => Ok(FallibleReader { reader }),
            Err(error) => Err(error),
        }
    }
}

/// The programs in the files that their paths name.
#[derive(Drop)]
pub(crate) struct ProgramFiles<'a, D: Disk> {
    /// The disk that has the files.
    pub disk: &'a D,
}

impl<'a, D: Disk> Programs for ProgramFiles<'a, D> {
    type File = D::File;

    ghost content = { λ p path. D.content p.disk.now path };

    ghost asked = { λ _. None };

    fn open(&mut self, path: &str) -> io::Result<D::File> {
        self.disk.open(path)
    }

    fn close(&mut self, _file: D::File) {}
}

/// A file that is opened when it is first read.
#[derive(Drop)]
pub(crate) struct NamedFile<'a, D: Disk> {
    /// The disk that has the file.
    pub disk: &'a D,
    /// Its path.
    pub path: &'a str,
    /// The file, once it is open.
    pub file: Option<D::File>,
}

impl<'a, D: Disk> NamedFile<'a, D> {
    /// The file at a path of a disk, not open yet.
    pub(crate) fn new(disk: &'a D, path: &'a str) -> NamedFile<'a, D>
        ensures { result ≡ record { disk = disk.entry; path = path.entry; file = None } }
    {
        NamedFile {
            disk,
            path,
            file: None,
        }
    }

    /// Takes the file out, and opens it if it was not open yet.
    fn take_open(&mut self) -> io::Result<D::File>
        ensures bytes { IfOk result (λ file. IfSome (bytes_left D.File.remaining (D.content self.old.disk.now self.old.path.now) self.old.file) (λ bytes. D.File.remaining file ≡ Some bytes)) }
        ensures readable { IfOk result (λ file. D.File.may_fail file → may_fail_of D.File.may_fail (D.content self.old.disk.now self.old.path.now) self.old.file) }
        ensures refused { OnErr result (may_fail_of D.File.may_fail (D.content self.old.disk.now self.old.path.now) self.old.file) }
        ensures kept { OnErr result (self.new ≡ self.old) }
    {
        match self.file.take() {
            Some(file) => Ok(file),
            None => self.disk.open(self.path),
        }
    }

    /// Opens the file if it was not open yet, and reads nothing of it: it shows the same bytes as before.
    pub(crate) fn open_file(&mut self) -> io::Result<()>
        ensures bytes { OnOk result (IfSome (bytes_left D.File.remaining (D.content self.old.disk.now self.old.path.now) self.old.file) (λ bytes. bytes_left D.File.remaining (D.content self.new.disk.now self.new.path.now) self.new.file ≡ Some bytes)) }
        ensures readable { OnOk result (may_fail_of D.File.may_fail (D.content self.new.disk.now self.new.path.now) self.new.file → may_fail_of D.File.may_fail (D.content self.old.disk.now self.old.path.now) self.old.file) }
        ensures refused { OnErr result (may_fail_of D.File.may_fail (D.content self.old.disk.now self.old.path.now) self.old.file) }
        ensures kept { OnErr result (self.new ≡ self.old) }
    {
        let file = self.take_open()?;
        self.file = Some(file);
        Ok(())
    }
}

impl<'a, D: Disk> Read for NamedFile<'a, D> {
    ghost remaining = { λ f. bytes_left D.File.remaining (D.content f.disk.now f.path.now) f.file };

    fn read(&mut self, buf: &mut [u8]) -> io::Result<usize> {
        let mut file = self.take_open()?;
        let count = file.read(buf);
        self.file = Some(file);
        count
    }
}

impl<'a, D: Disk> Source for NamedFile<'a, D> {
    ghost may_fail = { λ f. may_fail_of D.File.may_fail (D.content f.disk.now f.path.now) f.file };

    fn read_part(&mut self, part: &mut [u8]) -> io::Result<usize> {
        let mut file = self.take_open()?;
        let count = file.read_part(part);
        self.file = Some(file);
        count
    }
}
