//! Numbers of workers that no run may have.

ghost use Rattle.std.specs.Prelude.{None};

use crate::asserts::{assert_right, is_reported};
use crate::echo::ECHO_FILE;
use engines::{Programs, Refusal, drive_to};
use std::alloc::Global;
use std::io;
use std::process::Abort;

/// The echo at the path `0`, and nothing at other paths.
#[derive(Drop)]
struct InMemory<'a> {
    /// Its file.
    file: &'a [u8],
}

impl<'a> Programs for InMemory<'a> {
    type File = &'a [u8];

    ghost content = { λ _ _. None };

    ghost asked = { λ _. None };

    fn open(&mut self, path: &str) -> io::Result<&'a [u8]> {
        if path == "0" {
            return Ok(self.file);
        }
        Err(io::Error::from(io::ErrorKind::NotFound))
    }

    fn close(&mut self, _file: &'a [u8]) {}
}

/// A block of three echoes.
const THREE_ECHOES: &str =
    "rvblock 1\nprogram 0 0\ncall 0 1000 -\ncall 0 1000 01\ncall 0 1000 0102\n";

/// Runs the block by this many workers along a schedule.
fn drive(alloc: Global, workers: usize, schedule: &str, out: &mut Vec<u8>) -> Result<(), Refusal> {
    let mut programs = InMemory { file: ECHO_FILE };
    let (mut text, mut schedule) = (THREE_ECHOES.as_bytes(), schedule.as_bytes());
    drive_to(alloc, &mut text, &mut programs, &mut schedule, workers, out)?;
    Ok(())
}

/// Numbers of workers that no run may have, each with a schedule.
const BAD_COUNTS: &[(usize, &str)] = &[(0, ""), (33, "0\n")];

/// Whether a number of workers is refused.
fn is_bad_count(alloc: Global, workers: usize, schedule: &str) -> bool {
    let mut out = Vec::new(alloc);
    match drive(alloc, workers, schedule, &mut out) {
        Ok(()) => false,
        Err(refusal) => is_reported(alloc, &refusal, "rvstm: drive BadWorker 2\n"),
    }
}

#[test]
fn bad_counts_of_workers_are_reported(rt: HostRuntime) {
    for (workers, schedule) in BAD_COUNTS {
        assert_right(&rt, is_bad_count(rt.alloc(), *workers, schedule), schedule);
    }
}
