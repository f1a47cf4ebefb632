//! Bytes that are written whole, and writers that stop.

use crate::asserts::assert_right;
use byte_streams::{FallibleWriter, WriteFault, write_whole};
use std::alloc::{AllocError, Global};
use std::io;
use std::io::{ErrorKind, Write};
use std::process::Abort;

/// A writer that takes one byte per call while it has room, and then fails or takes nothing.
#[derive(Drop)]
struct Slow {
    /// What it holds.
    held: Vec<u8>,
    /// How many bytes it holds at most.
    room: usize,
    /// Whether it fails once it is full, or takes nothing.
    fails: bool,
}

impl Write for Slow {
    fn write(&mut self, buf: &[u8]) -> io::Result<usize> {
        if self.held.len() == self.room {
            if self.fails {
                return Err(io::Error::from(ErrorKind::BrokenPipe));
            }
            return Ok(0);
        }
        let Some(first) = buf.first() else {
            return Ok(0);
        };
        if self.held.push(*first).is_err() {
            return Err(io::Error::from(ErrorKind::OutOfMemory));
        }
        Ok(1)
    }

    fn flush(&mut self) -> io::Result<()> {
        Ok(())
    }
}

/// Whether bytes are written whole, also if there are none.
fn is_written_twice(alloc: Global) -> bool {
    let mut out = Vec::new(alloc);
    write_whole(b"", &mut out) == Ok(())
        && write_whole(b"two", &mut out) == Ok(())
        && out.as_slice() == b"two".as_slice()
}

/// Whether writing three bytes to a writer that takes two is refused with this fault, and the writer holds two then.
fn stops_at_two(alloc: Global, fails: bool, fault: WriteFault) -> bool {
    let writer = Slow {
        held: Vec::new(alloc),
        room: 2,
        fails,
    };
    let mut out = FallibleWriter { writer };
    let result = write_whole(b"two", &mut out);
    result == Err(fault) && out.writer.held.as_slice() == b"tw".as_slice()
}

/// Whether a writer that drops what it takes takes bytes.
fn is_dropped() -> bool {
    write_whole(b"two", &mut io::sink()) == Ok(())
}

#[test]
fn writes_whole(rt: HostRuntime) {
    let alloc = rt.alloc();
    assert_right(&rt, is_written_twice(alloc), "a vector");
    let fails = stops_at_two(alloc, true, WriteFault::Io);
    assert_right(&rt, fails, "a writer that fails");
    let takes_nothing = stops_at_two(alloc, false, WriteFault::WroteNothing);
    assert_right(&rt, takes_nothing, "a writer that takes nothing");
    assert_right(&rt, is_dropped(), "a sink");
}

/// The faults.
const FAULTS: [WriteFault; 3] = [WriteFault::Io, WriteFault::WroteNothing, WriteFault::Memory];

#[test]
fn numbers_faults(rt: HostRuntime) -> Result<(), AllocError> {
    let [io, nothing, memory] = FAULTS;
    let text = format!(in rt.alloc(); "{io}, {nothing}, {memory}")?;
    assert!(rt; text.as_str() == "Io 1, WroteNothing 2, Memory 3");
    assert!(rt; [io as u8, nothing as u8, memory as u8] == [1, 2, 3]);
    Ok(())
}
