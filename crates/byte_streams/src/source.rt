//! The source of a file's bytes.

ghost use Rattle.std.specs.Prelude.{⊤, OnErr};
ghost use Rattle.std.specs.Io.{ReadsAtMost};
ghost use Rattle.std.specs.Io.KnownBytes.{ReadConsumes};

use std::io;
use std::io::Read;

/// What gives the bytes of a file, and says whether a read may fail.
pub trait Source: Read {
    /// Whether a read may fail.
    ghost may_fail: { Self → Type 0 };

    /// Reads as `read` does. Fails only if a read may fail.
    fn read_part(&mut self, part: &mut [u8]) -> io::Result<usize>
        ensures bound { ReadsAtMost result part.new }
        ensures bytes { ReadConsumes (Self.remaining self.old) (Self.remaining self.new) result part.new }
        ensures fails { OnErr result (may_fail self.old) }
        ensures same { may_fail self.new → may_fail self.old };
}

/// Bytes in memory. No read of them fails.
impl Source for &[u8] {
    ghost may_fail = { λ _. ⊥ };

    fn read_part(&mut self, part: &mut [u8]) -> io::Result<usize> {
        self.read(part)
    }
}

/// A reader of which a read may fail, such as a file of the system.
#[derive(Drop)]
pub struct FallibleReader<R: Read> {
    /// The reader.
    pub reader: R,
}

impl<R: Read> Read for FallibleReader<R> {
    ghost remaining = { λ r. R.remaining r.reader };

    fn read(&mut self, buf: &mut [u8]) -> io::Result<usize> {
        self.reader.read(buf)
    }
}

impl<R: Read> Source for FallibleReader<R> {
    ghost may_fail = { λ _. ⊤ };

    fn read_part(&mut self, part: &mut [u8]) -> io::Result<usize> {
        self.read(part)
    }
}
