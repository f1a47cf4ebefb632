//! The destination that bytes are written to.

ghost use Rattle.std.specs.Prelude.{⊤, ◌≡◌, ◌≢◌, ◌<◌, length, IfOk, OnErr, OnOk, refl};
ghost use Rattle.std.specs.Io.{WritesAtMost};
ghost use Rattle.std.specs.Io.KnownBytes.{Keeps, WriteAppends};
ghost use Rattle.std.proofs.Common.{rules};
ghost use Rattle.byte_streams.specs.Written.{AtMostAs};
ghost use Rattle.byte_streams.specs.declared.fault.WriteFault.{WriteFault};
ghost use Rattle.byte_streams.specs.declared.fault.WriteFault.TheVariants.{Io, WroteNothing, Memory};

use std::io;
use std::io::{Sink, Write};

/// What takes bytes, and says how a write of it may be refused.
pub trait Destination: Write {
    /// How a write or a flush may be refused: as Io if one may fail, as WroteNothing if a write of some bytes may
    /// take none of them.
    ghost may_refuse: { Self → WriteFault → Type 0 };

    /// Whether nothing that was written still waits, as is so after a flush. For a writer that does not define it,
    /// this always holds.
    ghost is_flushed: { Self → Type 0 } = { λ _. Unit {0} };

    /// Writes as `write` does. Fails only if a write may fail, and takes none of some bytes only if that may happen.
    fn write_part(&mut self, bytes: &[u8]) -> io::Result<usize>
        ensures bound { WritesAtMost result bytes.now }
        ensures bytes { WriteAppends (Self.contents self.old) (Self.contents self.new) result bytes.now }
        ensures fails { OnErr result (may_refuse self.old Io) }
        ensures nothing { IfOk result (λ n. n ≡ 0 → 0 < length bytes.now → may_refuse self.old WroteNothing) }
        ensures same { AtMostAs (may_refuse self.new) (may_refuse self.old) };

    /// Flushes as `flush` does. Fails only if a flush may fail.
    fn flush_written(&mut self) -> io::Result<()>
        ensures bytes { Keeps (Self.contents self.old) (Self.contents self.new) }
        ensures fails { OnErr result (may_refuse self.old Io) }
        ensures flushed { OnOk result (is_flushed self.new) }
        ensures same { AtMostAs (may_refuse self.new) (may_refuse self.old) };

    /// Memory for a text may run out, whatever writer it is for.
    ghost memory: { (writer : Self) → may_refuse writer Memory };
}

/// Bytes in memory. A write fails only if memory ran out, and otherwise takes all the bytes.
impl Destination for Vec<u8> {
    ghost may_refuse = { λ _ fault. fault ≢ WroteNothing };

    ghost memory = { λ _. Prim.search rules };

    fn write_part(&mut self, bytes: &[u8]) -> io::Result<usize> {
        self.write(bytes)
    }

    fn flush_written(&mut self) -> io::Result<()> {
        self.flush()
    }
}

/// A writer that takes all bytes and keeps none.
impl Destination for Sink {
    ghost may_refuse = { λ _ fault. fault ≡ Memory };

    ghost memory = { λ _. refl };

    fn write_part(&mut self, bytes: &[u8]) -> io::Result<usize> {
        self.write(bytes)
    }

    fn flush_written(&mut self) -> io::Result<()> {
        self.flush()
    }
}

/// A writer of which a write may fail or take nothing, such as a stream or a file of the system.
#[derive(Drop)]
pub struct FallibleWriter<W: Write> {
    /// The writer.
    pub writer: W,
}

impl<W: Write> Write for FallibleWriter<W> {
    ghost contents = { λ w. W.contents w.writer };

    fn write(&mut self, buf: &[u8]) -> io::Result<usize> {
        self.writer.write(buf)
    }

    fn flush(&mut self) -> io::Result<()> {
        self.writer.flush()
    }
}

impl<W: Write> Destination for FallibleWriter<W> {
    ghost may_refuse = { λ _ _. ⊤ };

    ghost memory = { λ _. tt };

    fn write_part(&mut self, bytes: &[u8]) -> io::Result<usize> {
        self.write(bytes)
    }

    fn flush_written(&mut self) -> io::Result<()> {
        self.flush()
    }
}
