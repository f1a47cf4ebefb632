//! Text on its way to a writer.

ghost use Rattle.std.specs.Prelude.{◌≡◌, ◌≢◌, ◌≤◌, IfSome, MatchOption, None, Some};
ghost use Rattle.std.specs.Io.KnownBytes.{Appends};
ghost use Rattle.std.specs.Option.{ForSome};
ghost use Rattle.std.specs.Vec.{vec_capacity, vec_len};
ghost use Rattle.byte_streams.specs.Written.{AppendsPart, AtMostAs};
ghost use Rattle.byte_streams.specs.declared.fault.WriteFault.TheVariants.{Memory};

use byte_streams::{Destination, WriteFault, write_whole};
use std::alloc::{AllocError, Global};

/// The most bytes of text that wait, and so the most that are written at once.
const PIECE: usize = 65_536;

/// Text on its way to a writer. What is appended waits until there is no room for more, and is then written. So no
/// more than 65,536 bytes of a text are in memory at once. After a write that was refused, nothing more is written.
#[derive(Drop)]
pub struct TextBuffer {
    waiting: Vec<u8>,
    refused: Option<WriteFault>,
    ghost room: { 65536 ≤ vec_capacity waiting },
    ghost waiting_fits: { vec_len waiting ≤ 65536 },
    ghost fault: { ForSome refused (λ fault. fault ≢ Memory) },
}

impl TextBuffer {
    ghost use Rattle.std.specs.Prelude.{◌≡◌, ◌≢◌, ◌≤◌, ◌+◌, [], None, IfErr, IfOk, length};
    ghost use Rattle.receipts.specs.Buffer.{Appended, FinishesText};

    /// No text; refused if memory ran out. Nothing that is appended takes memory.
    pub fn new(alloc: Global) -> Result<TextBuffer, AllocError>
        ensures { IfOk result (λ text. (text.refused ≡ None) × (text.waiting.items ≡ [])) }
    {
        let waiting = Vec::with_capacity(alloc, PIECE)?;
        Ok(TextBuffer {
            waiting,
            refused: None,
        })
    }

    /// Appends at most 65,536 bytes. What waits is written first if there is no room for them.
    #[inline(always)]
    pub fn push<W: Destination>(&mut self, bytes: &[u8], out: &mut W)
        requires { length bytes.now ≤ PIECE }
        ensures { Appended W.Destination self.old out.old self.new out.new bytes.now }
    {
        self.make_room(bytes.len(), out);
        match self.waiting.extend_from_slice(bytes) {
            Ok(()) => {}
            Err(_) => unreachable!(),
        }
    }

    /// Writes what waits if there is no room for this many more bytes.
    #[inline(always)]
    fn make_room<W: Destination>(&mut self, count: usize, out: &mut W)
        requires { count ≤ PIECE }
        ensures appended { Appended W.Destination self.old out.old self.new out.new [] }
        ensures room { vec_len self.new.waiting + count ≤ PIECE }
    {
        if count > PIECE - self.waiting.len() {
            self.write_waiting(out);
        }
    }

    /// Writes what waits, unless a write was refused before.
    #[cold]
    #[inline(never)]
    fn write_waiting<W: Destination>(&mut self, out: &mut W)
        ensures appended { Appended W.Destination self.old out.old self.new out.new [] }
        ensures empty { self.new.waiting.items ≡ [] }
    {
        self.refused = first_refusal(self.refused, self.waiting.as_slice(), out);
        self.waiting.clear();
    }

    /// Writes what waits. Refused as the first write that was refused.
    pub fn finish<W: Destination>(self, out: &mut W) -> Result<(), WriteFault>
        ensures writes { FinishesText W.Destination result self out.old out.new }
        ensures fault { IfErr result (λ e. e ≢ WriteFault.Memory) }
    {
        let mut text = self;
        text.write_waiting(out);
        match text.refused {
            None => Ok(()),
            Some(fault) => Err(fault),
        }
    }
}

/// Writes bytes, unless a write was refused before. Returns the first refusal.
fn first_refusal<W: Destination>(
    refused: Option<WriteFault>,
    bytes: &[u8],
    out: &mut W,
) -> Option<WriteFault>
    ensures none { refused ≡ None → MatchOption result (Appends (W.contents out.old) (W.contents out.new) bytes.now)
        (λ fault. AppendsPart (W.contents out.old) (W.contents out.new) bytes.now × W.may_refuse out.old fault) }
    ensures before { IfSome refused (λ fault. (result ≡ Some fault) × (out.new ≡ out.old)) }
    ensures same { AtMostAs (W.may_refuse out.new) (W.may_refuse out.old) }
    ensures fault { IfSome result (λ fault. refused ≡ None → fault ≢ Memory) }
{
    match refused {
        None => write_whole(bytes, out).err(),
        Some(fault) => Some(fault),
    }
}
