//! The source of a stream's bytes, which gives them by its buffer.

ghost use Rattle.std.specs.Prelude.{◌≡◌, ⊤, true, length, [], IfOk, IfSome, OnErr};
ghost use Rattle.std.specs.Borrow.{sem};
ghost use Rattle.std.specs.Io.{StartsWith};
ghost use Rattle.std.specs.Io.KnownBytes.{Keeps};
ghost use Rattle.std.specs.Io.BufRead.{DropsConsumable, FillKeeps, Rests};

use std::io;
use std::io::{BufRead, ErrorKind, Read};

/// What gives bytes by its buffer, and says whether a read may fail.
pub trait BufferedSource: BufRead {
    /// Whether a read may fail.
    ghost may_fail: { Self → Type 0 };

    /// Shows the next bytes as `fill_buf` does, none only at the end. Fails only if a read may fail.
    fn fill_part(&mut self) -> io::Result<&[u8]>
        ensures front { IfSome (Self.remaining self.old) (λ xs. IfOk result (λ s. StartsWith xs s.now)) }
        ensures end { IfSome (Self.remaining self.old) (λ xs. IfOk result (λ s. length s.now ≡ 0 → xs ≡ [])) }
        ensures fails { OnErr result (may_fail self.old) }
        ensures* after_borrow { sem 𝓛 (Rests Self.row self.entry (λ new.
            FillKeeps (Self.remaining self.old) (Self.remaining new) (Self.consumable_len new) result × (may_fail new → may_fail self.old))) };

    /// Takes bytes as `consume` does.
    fn consume_part(&mut self, amount: usize)
        ensures bytes { DropsConsumable (Self.remaining self.old) (Self.remaining self.new) (Self.consumable_len self.old) amount }
        ensures same { may_fail self.new → may_fail self.old };
}

/// Bytes in memory. No read of them fails.
impl BufferedSource for &[u8] {
    ghost may_fail = { λ _. ⊥ };

    fn fill_part(&mut self) -> io::Result<&[u8]> {
        self.fill_buf()
    }

    fn consume_part(&mut self, amount: usize) {
        self.consume(amount);
    }
}

/// A buffered reader of which a read may fail, such as the standard input.
#[derive(Drop)]
pub struct FallibleBuffer<R: BufRead> {
    /// The reader.
    pub reader: R,
}

impl<R: BufRead> Read for FallibleBuffer<R> {
    ghost remaining = { λ r. R.remaining r.reader };

    fn read(&mut self, buf: &mut [u8]) -> io::Result<usize> {
        self.reader.read(buf)
    }
}

impl<R: BufRead> BufRead for FallibleBuffer<R> {
    ghost consumable_len = { λ r. R.consumable_len r.reader };

    fn fill_buf(&mut self) -> io::Result<&[u8]> {
        self.reader.fill_buf()
    }

    fn consume(&mut self, amount: usize) {
        self.reader.consume(amount);
    }
}

impl<R: BufRead> FallibleBuffer<R> {
    /// Fills the buffer, and returns whether no byte is left. An interrupted read is tried again, 2^64 - 1 times at most.
    fn is_at_end(&mut self) -> io::Result<bool>
        ensures end { IfSome (R.remaining self.old.reader) (λ xs. IfOk result (λ ended. ended ≡ true → xs ≡ [])) }
        ensures kept { Keeps (R.remaining self.old.reader) (R.remaining self.new.reader) }
    {
        for _ in 0..u64::MAX {
            match self.reader.fill_buf() {
                Ok(shown) => return Ok(shown.is_empty()),
                Err(error) => {
                    if error.kind() != ErrorKind::Interrupted {
                        return Err(error);
                    }
                }
            }
        }
        Err(io::Error::from(ErrorKind::Interrupted))
    }
}

impl<R: BufRead> BufferedSource for FallibleBuffer<R> {
    ghost may_fail = { λ _. ⊤ };

    /// As `fill_buf`, but an interrupted read is tried again.
    fn fill_part(&mut self) -> io::Result<&[u8]> {
        if self.is_at_end()? {
            return Ok(&[]);
        }
        self.reader.fill_buf()
    }

    fn consume_part(&mut self, amount: usize) {
        self.reader.consume(amount);
    }
}
