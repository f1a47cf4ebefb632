//! A session of `debug`, over any reader of lines and any writer.

ghost use Rattle.std.specs.Prelude.{◌≡◌, ◌≢◌, ◌++◌, All, false, true, not, IfErr, IfOk, IfSome, OnErr, OnOk};
ghost use Rattle.std.specs.Io.{ReadsAtMost};
ghost use Rattle.std.specs.Io.KnownBytes.{Appends, ReadConsumes};
ghost use Rattle.byte_streams.specs.Written.{AtMostAs};
ghost use Rattle.debugger.specs.Command.{heard_of};
ghost use Rattle.debugger.specs.Session.{AppendsBeginning, EndsAs, IsCutShort, MayBeCutOff, IsPossibleFault, after_line, is_quit, line_text, lines_of, session};
ghost use Rattle.debugger.specs.Hearing.{Hears, IsCutAnswer, IsCutIn, IsInLine};

use crate::answer::line_text;
use crate::command::{Command, heard_of};
use crate::fault::DebugFault;
use crate::replay::Replay;
use byte_streams::{Destination, Source, WriteFault, write_whole};
use std::alloc::{AllocFailed, Global};
use std::io;

/// The byte that ends a line.
const LINE_END: u8 = b'\n';

/// The greatest number of bytes that are read at once.
const READ_SIZE: usize = 256;

/// Reads lines up to a line `q` or the end of the input. The lines of `--more` are not commands. `debug_lines_to` says what is
/// done and what is refused.
pub fn debug_to<R: Source, W: Destination>(
    alloc: Global,
    replay: &mut Replay,
    lines: &mut R,
    out: &mut W,
) -> Result<(), DebugFault>
    ensures ok { OnOk result (IfSome (R.remaining lines.old) (λ input.
        EndsAs (session false replay.old (lines_of input)) replay.new (W.contents out.old) (W.contents out.new))) }
    ensures err { IfErr result (λ fault. IfSome (R.remaining lines.old) (λ input.
        IsCutShort false fault replay.old (lines_of input) replay.new (W.contents out.old) (W.contents out.new))) }
    ensures cause { IfErr result (IsPossibleFault (W.may_refuse out.old)) }
    ensures unreadable { IfErr result (λ fault. fault ≡ DebugFault.Unreadable → MayBeCutOff (R.may_fail lines.old) (R.remaining lines.old)) }
{
    debug_lines_to(alloc, false, replay, lines, out)
}

/// Reads lines up to a line `q` or the end of the input. If `has_more` is true, the lines of `--more` are commands too. Does
/// the command of each line as soon as the line is read, and writes what it prints. The last line needs no LF. The first
/// refusal ends the session. The lines before it are answered: their moves were made, and their answers were written in full.
/// Unreadable if a read failed, or if the input is longer than 2^64 - 2 bytes: nothing else was done.
/// Output if a write failed: the move of the line whose answer was being written was made, and a beginning of that answer was
/// written.
/// Memory if memory ran out: nothing of the next line's answer was written, and its move was made or not. A run, or a move to a
/// moment, may also have gone part of its way.
pub fn debug_lines_to<R: Source, W: Destination>(
    alloc: Global,
    has_more: bool,
    replay: &mut Replay,
    lines: &mut R,
    out: &mut W,
) -> Result<(), DebugFault>
    ensures ok { OnOk result (IfSome (R.remaining lines.old) (λ input.
        EndsAs (session has_more replay.old (lines_of input)) replay.new (W.contents out.old) (W.contents out.new))) }
    ensures err { IfErr result (λ fault. IfSome (R.remaining lines.old) (λ input.
        IsCutShort has_more fault replay.old (lines_of input) replay.new (W.contents out.old) (W.contents out.new))) }
    ensures cause { IfErr result (IsPossibleFault (W.may_refuse out.old)) }
    ensures unreadable { IfErr result (λ fault. fault ≡ DebugFault.Unreadable → MayBeCutOff (R.may_fail lines.old) (R.remaining lines.old)) }
{
    let mut line = Vec::new(alloc);
    let mut part = [0u8; READ_SIZE];
    let mut has_answered = false;
    for _turn in 0..u64::MAX {
        let Ok(count) = read_behind(lines, &mut part, has_answered, out) else {
            return Err(DebugFault::Unreadable);
        };
        if count == 0 {
            match hear_end(alloc, has_more, replay, line.as_slice(), out) {
                Ok(()) => return Ok(()),
                Err(fault) => return Err(fault),
            }
        }
        match hear(
            alloc,
            has_more,
            replay,
            &mut line,
            &part[..count],
            out,
            &mut has_answered,
        ) {
            Ok(true) => {}
            Ok(false) => return Ok(()),
            Err(fault) => return Err(fault),
        }
    }
    Err(DebugFault::Unreadable)
}

/// Reads the next part of the input, as `read_part` does, after the answers so far. If `has_answered` is true, the last answer
/// must be flushed.
fn read_behind<R: Source, W: Destination>(
    lines: &mut R,
    part: &mut [u8],
    has_answered: bool,
    _out: &W,
) -> io::Result<usize>
    requires flushed { has_answered ≡ true → W.is_flushed _out.now }
    ensures bound { ReadsAtMost result part.new }
    ensures bytes { ReadConsumes (R.remaining lines.old) (R.remaining lines.new) result part.new }
    ensures fails { OnErr result (R.may_fail lines.old) }
    ensures same { R.may_fail lines.new → R.may_fail lines.old }
{
    lines.read_part(part)
}

/// Takes the end of the input. `line` is what came after the last LF.
fn hear_end<W: Destination>(
    alloc: Global,
    has_more: bool,
    replay: &mut Replay,
    line: &[u8],
    out: &mut W,
) -> Result<(), DebugFault>
    requires { All IsInLine line.now }
    ensures ok { OnOk result (EndsAs (session has_more replay.old (lines_of line.now)) replay.new (W.contents out.old) (W.contents out.new)) }
    ensures err { IfErr result (λ fault.
        IsCutShort has_more fault replay.old (lines_of line.now) replay.new (W.contents out.old) (W.contents out.new)) }
    ensures fault { IfErr result (λ fault. fault ≢ DebugFault.Unreadable) }
    ensures cause { IfErr result (IsPossibleFault (W.may_refuse out.old)) }
{
    if line.is_empty() {
        return Ok(());
    }
    match answer_line(alloc, has_more, replay, line, out) {
        Ok(_) => Ok(()),
        Err(fault) => Err(fault),
    }
}

/// Takes a part of the input. `line` is the beginning of a line that came before it. Returns whether the session continues. If
/// it does, `line` is then the beginning of the next line, and `has_answered` says whether a line was answered, here or before.
/// The last answer is flushed.
fn hear<W: Destination>(
    alloc: Global,
    has_more: bool,
    replay: &mut Replay,
    line: &mut Vec<u8>,
    part: &[u8],
    out: &mut W,
    has_answered: &mut bool,
) -> Result<bool, DebugFault>
    requires begun { All IsInLine line.old.items }
    requires flushed { has_answered.old ≡ true → W.is_flushed out.old }
    ensures flushed { OnOk result (has_answered.new ≡ true → W.is_flushed out.new) }
    ensures quiet { OnOk result (has_answered.new ≡ false → out.new ≡ out.old) }
    ensures ok { IfOk result (λ goes_on.
        Hears has_more goes_on replay.old line.old.items part.now replay.new line.new.items (W.contents out.old) (W.contents out.new)) }
    ensures err { IfErr result (λ fault.
        IsCutIn has_more fault replay.old (line.old.items ++ part.now) replay.new (W.contents out.old) (W.contents out.new)) }
    ensures fault { IfErr result (λ fault. fault ≢ DebugFault.Unreadable) }
    ensures cause { IfErr result (IsPossibleFault (W.may_refuse out.old)) }
    ensures same { AtMostAs (W.may_refuse out.new) (W.may_refuse out.old) }
{
    for byte in part {
        if *byte != LINE_END {
            match line.push(*byte) {
                Ok(()) => continue,
                Err(AllocFailed { .. }) => return Err(DebugFault::Memory),
            }
        }
        *has_answered = true;
        match answer_line(alloc, has_more, replay, line.as_slice(), out) {
            Ok(true) => line.clear(),
            Ok(false) => return Ok(false),
            Err(fault) => return Err(fault),
        }
    }
    Ok(true)
}

/// Does the command of a line, and writes what it prints. Returns whether the session continues.
fn answer_line<W: Destination>(
    alloc: Global,
    has_more: bool,
    replay: &mut Replay,
    line: &[u8],
    out: &mut W,
) -> Result<bool, DebugFault>
    ensures goes_on { IfOk result (λ goes_on. goes_on ≡ not (is_quit (heard_of has_more line.now))) }
    ensures replay { OnOk result (replay.new ≡ after_line replay.old (heard_of has_more line.now)) }
    ensures flushed { OnOk result (W.is_flushed out.new) }
    ensures text { OnOk result (Appends (W.contents out.old) (W.contents out.new) (line_text replay.old (heard_of has_more line.now))) }
    ensures err { IfErr result (λ fault.
        IsCutAnswer has_more fault replay.old line.now replay.new (W.contents out.old) (W.contents out.new)) }
    ensures fault { IfErr result (λ fault. fault ≢ DebugFault.Unreadable) }
    ensures cause { IfErr result (IsPossibleFault (W.may_refuse out.old)) }
    ensures same { AtMostAs (W.may_refuse out.new) (W.may_refuse out.old) }
{
    let Ok(command) = heard_of(alloc, has_more, line) else {
        return Err(DebugFault::Memory);
    };
    let goes_on = !is_quit(&command);
    let Ok(text) = line_text(alloc, replay, command) else {
        return Err(DebugFault::Memory);
    };
    match print(text.as_bytes(), out) {
        Ok(()) => Ok(goes_on),
        Err(fault) => Err(DebugFault::Output(fault)),
    }
}

/// Whether a command ends the session.
fn is_quit(command: &Option<Command>) -> bool
    ensures { result ≡ is_quit command.now }
{
    matches!(command, Some(Command::Quit))
}

/// Writes a text and flushes it, so that it is seen before the next line is read.
fn print<W: Destination>(text: &[u8], out: &mut W) -> Result<(), WriteFault>
    ensures ok { OnOk result (Appends (W.contents out.old) (W.contents out.new) text.now) }
    ensures flushed { OnOk result (W.is_flushed out.new) }
    ensures err { OnErr result (AppendsBeginning (W.contents out.old) (W.contents out.new) text.now) }
    ensures cause { IfErr result (λ fault. IsPossibleFault (W.may_refuse out.old) (DebugFault.Output fault)) }
    ensures same { AtMostAs (W.may_refuse out.new) (W.may_refuse out.old) }
{
    match write_whole(text, out) {
        Ok(()) => {}
        Err(fault) => return Err(fault),
    }
    match out.flush_written() {
        Ok(()) => Ok(()),
        Err(io::Error { .. }) => Err(WriteFault::Io),
    }
}
