//! A disk of one file, whose bytes are known.

ghost use Rattle.std.specs.Prelude.{None, Some, if◌then◌else◌};
ghost use Rattle.std.specs.Str.{bytes_eq};

use crate::asserts::assert_right;
use crate::echo::{ECHO_FILE, ECHO_LISTING};
use crate::fake_stores::FakeStores;
use engines::{Disk, SessionStores, answer_words};
use std::alloc::{AllocError, Global};
use std::io;
use std::io::Sink;
use std::process::Abort;
use std::sync::Wait;
use std::test::Fail;
use std::thread::Threads;
use system_files::OutputDisk;

/// A disk of one file that is read; nothing is made on it.
#[derive(Drop)]
pub struct OneFile<'a> {
    /// The path of the file.
    pub path: &'a str,
    /// Its bytes.
    pub bytes: &'a [u8],
}

/// What no disk of one file does.
fn unsupported() -> io::Error {
    io::Error::from(io::ErrorKind::Unsupported)
}

impl<'a> OutputDisk for OneFile<'a> {
    type NewFile = Sink;

    ghost entries = { λ _. None };

    ghost asked = { λ _. None };

    ghost leads = { λ _ path. path };

    fn create_new(&mut self, _path: &str) -> io::Result<Sink> {
        Err(unsupported())
    }

    fn remove_left_over(&mut self, _path: &str) -> io::Result<()> {
        Err(unsupported())
    }

    fn is_one_file(&self, _left: &str, _right: &str) -> io::Result<bool> {
        Err(unsupported())
    }

    fn write_into(&mut self, _path: &str, _bytes: &[u8]) -> io::Result<()> {
        Err(unsupported())
    }

    fn file_path(&self, _alloc: Global, _path: &str) -> io::Result<Option<String>> {
        Err(unsupported())
    }

    fn sync(&mut self, _file: &Sink) -> io::Result<()> {
        Err(unsupported())
    }

    fn rename(&mut self, _file: &Sink, _from: &str, _to: &str) -> io::Result<()> {
        Err(unsupported())
    }

    fn remove(&mut self, _file: &Sink, _path: &str) -> io::Result<()> {
        Err(unsupported())
    }
}

impl<'a> Disk for OneFile<'a> {
    type File = &'a [u8];

    ghost content = { λ d path. if bytes_eq path d.path.now then Some d.bytes.now else None };

    fn open(&self, path: &str) -> io::Result<&'a [u8]> {
        if path == self.path {
            return Ok(self.bytes);
        }
        Err(io::Error::from(io::ErrorKind::NotFound))
    }
}

/// A block without programs, and what it prints.
const BLOCK: &str =
    "rvblock 1\nstore 0000000000000000000000000000000000000000000000000000000000000001 07\n";

const RESULT: &str =
    "store 0000000000000000000000000000000000000000000000000000000000000001 07\nend\n";

/// What the program answers.
#[derive(Drop)]
pub struct Answer {
    /// The exit status.
    pub status: u8,
    /// What is on standard output.
    pub out: Vec<u8>,
    /// What is on standard error.
    pub errors: Vec<u8>,
}

impl Answer {
    /// Whether the answer to a command line is this.
    pub fn is(&self, status: u8, out: &str, errors: &str) -> bool {
        self.status == status
            && self.out.as_slice() == out.as_bytes()
            && self.errors.as_slice() == errors.as_bytes()
    }
}

/// What the program answers to a command line over a disk of one file and stores, with these bytes on its input.
pub fn answer_over<T: Threads + Wait + Sync, K: SessionStores>(
    threads: &T,
    alloc: Global,
    line: &str,
    mut disk: OneFile<'_>,
    stores: &mut K,
    mut input: &[u8],
) -> Result<Answer, AllocError> {
    let mut words = Vec::new(alloc);
    for word in line.split(' ') {
        words.push(String::from_str(alloc, word)?)?;
    }
    let (mut out, mut errors) = (Vec::new(alloc), Vec::new(alloc));
    let status = answer_words(
        threads,
        alloc,
        words.as_slice(),
        &mut disk,
        stores,
        &mut input,
        &mut out,
        &mut errors,
    );
    Ok(Answer {
        status,
        out,
        errors,
    })
}

/// Whether a command line over a disk of one file prints a text and nothing else, and ends with 0.
fn prints<T: Threads + Wait + Sync>(
    threads: &T,
    alloc: Global,
    line: &str,
    path: &str,
    bytes: &[u8],
    text: &str,
) -> Result<bool, Fail> {
    let disk = OneFile { path, bytes };
    let mut stores = FakeStores::new(alloc);
    Ok(answer_over(threads, alloc, line, disk, &mut stores, b"")?.is(0, text, ""))
}

#[test]
fn a_known_file_is_printed(rt: HostRuntime) -> Result<(), Fail> {
    let listed = "rvstm dis echo.elf";
    let is_right = prints(&rt, rt.alloc(), listed, "echo.elf", ECHO_FILE, ECHO_LISTING)?;
    assert_right(&rt, is_right, listed);
    for line in ["rvstm seq one.block", "rvstm run one.block --workers 3"] {
        let is_right = prints(&rt, rt.alloc(), line, "one.block", BLOCK.as_bytes(), RESULT)?;
        assert_right(&rt, is_right, line);
    }
    Ok(())
}
