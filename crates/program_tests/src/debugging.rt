//! A debugger whose reader types a line once the lines before it are answered, and whose screen fails.

ghost use Rattle.std.specs.Prelude.{⊤};

use crate::calls::{in_order, job_of};
use crate::rows::ECHO;
use byte_streams::{FallibleWriter, Source, WriteFault};
use debugger::{DebugFault, Replay, debug_to};
use rv_ledger::Outcome;
use std::alloc::Global;
use std::io;
use std::io::{Read, Write};
use std::process::Abort;
use std::sync::atomic::{AtomicU64, Ordering};
use std::test::Fail;

/// The outcome of running a call of ECHO.
fn outcome_of_echo(alloc: Global) -> Result<Outcome, Fail> {
    let job = job_of(alloc, &[ECHO], "call 0 1000 0102\n")?;
    Ok(in_order(alloc, &job)?)
}

/// The replay of that call.
fn replay_of_echo(alloc: Global) -> Result<Replay, Fail> {
    Ok(Replay::open(alloc, &outcome_of_echo(alloc)?, 0)?)
}

/// How many bytes are printed when no line, one, two and all three of those below are answered.
const PRINTED: [u64; 4] = [0, 17, 22, 47];

/// Lines that are typed one after another. Nothing may be read after the last.
const TYPED_LINES: [&str; 4] = ["s\n", "x\n", "b\n", "q\n"];

/// Someone who types a line once everything that is printed for the lines before it is shown. A read that comes earlier, or after
/// the last line, fails.
#[derive(Drop)]
struct Typist<'a> {
    /// How many lines were typed.
    typed: usize,
    /// How many bytes are shown.
    shown: &'a AtomicU64,
}

impl Read for Typist<'_> {
    fn read(&mut self, buf: &mut [u8]) -> io::Result<usize> {
        let shown = self.shown.load(Ordering::SeqCst);
        match (TYPED_LINES.get(self.typed), PRINTED.get(self.typed)) {
            (Some(line), Some(printed)) if *printed == shown => {
                self.typed += 1;
                line.as_bytes().read(buf)
            }
            _ => Err(io::Error::from(io::ErrorKind::Other)),
        }
    }
}

impl Source for Typist<'_> {
    ghost may_fail = { λ _. ⊤ };

    fn read_part(&mut self, part: &mut [u8]) -> io::Result<usize> {
        self.read(part)
    }
}

/// A writer whose bytes are shown when they are flushed.
#[derive(Drop)]
struct Screen<'a> {
    /// How many bytes were written.
    written: u64,
    /// How many bytes are shown.
    shown: &'a AtomicU64,
    /// How many times it can be flushed before that fails.
    flushes: usize,
}

impl Write for Screen<'_> {
    fn write(&mut self, buf: &[u8]) -> io::Result<usize> {
        self.written = self.written.wrapping_add(buf.len() as u64);
        Ok(buf.len())
    }

    fn flush(&mut self) -> io::Result<()> {
        if self.flushes == 0 {
            return Err(io::Error::from(io::ErrorKind::Other));
        }
        self.flushes -= 1;
        self.shown.store(self.written, Ordering::SeqCst);
        Ok(())
    }
}

/// How often a screen can be flushed, the wanted answer, and how many lines are answered then.
type Typing = (usize, Result<(), DebugFault>, usize);

/// Whether typing at a screen that can be flushed this often gets the wanted answer, after this many lines were answered; and
/// whether the replay is at the moment that these lines lead to.
fn is_typed(alloc: Global, replay: &mut Replay, (flushes, wanted, answered): Typing) -> bool {
    let shown = AtomicU64::new(0);
    let mut typist = Typist {
        typed: 0,
        shown: &shown,
    };
    let writer = Screen {
        written: 0,
        shown: &shown,
        flushes,
    };
    let mut screen = FallibleWriter { writer };
    let answer = debug_to(alloc, replay, &mut typist, &mut screen);
    let moment = if answered == 1 || answered == 2 { 1 } else { 0 };
    answer == wanted
        && PRINTED.get(answered).copied() == Some(screen.writer.written)
        && replay.moment() == moment
}

/// The same over a replay of its own.
fn is_echo_typed(alloc: Global, typing: Typing) -> Result<bool, Fail> {
    Ok(is_typed(alloc, &mut replay_of_echo(alloc)?, typing))
}

#[test]
fn a_line_is_answered_before_the_next_is_read(rt: HostRuntime) -> Result<(), Fail> {
    let fault = Err(DebugFault::Output(WriteFault::Io));
    assert!(rt; is_echo_typed(rt.alloc(), (4, Ok(()), 3))?);
    assert!(rt; is_echo_typed(rt.alloc(), (0, fault, 1))?);
    assert!(rt; is_echo_typed(rt.alloc(), (1, fault, 2))?);
    assert!(rt; is_echo_typed(rt.alloc(), (2, fault, 3))?);
    assert!(rt; is_echo_typed(rt.alloc(), (3, fault, 3))?);
    Ok(())
}
