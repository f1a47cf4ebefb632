//! Reading one request after another.

ghost use Rattle.std.specs.Prelude.{◌≡◌, ◌≤◌, ◌<◌, ◌++◌, [], ℕ, List, length, IfOk, OnErr, OnSome};
ghost use Rattle.std.specs.Io.KnownBytes.{Consumes, IsAtEnd};
ghost use Rattle.session_requests.specs.Requests.{Is, with_body};
ghost use Rattle.session_requests.specs.Reading.{GivesByte, GivesBody, GivesLine, KeepingGoesOn, AreBytesKept, IsLineWithin, LosesSome, ReadsRequest, TellsBehind, WhereKnown, ask_of};

use crate::line::line_of;
use crate::request::{Asked, Request, RequestFault, RequestLine};
use byte_streams::BufferedSource;
use std::alloc::{AllocError, Global};
use std::io;

/// A line with its LF has at most this many bytes.
const LINE_LIMIT: usize = 128;

/// How a line ends.
enum LineEnd {
    /// With an LF, after this many bytes.
    Whole(usize),
    /// No byte is left.
    Nothing,
    /// No LF is among the first 128 bytes.
    Broken,
}

/// The bytes after a line.
#[derive(Drop)]
enum Body {
    /// They are kept.
    Whole(Vec<u8>),
    /// They were passed over, since they must not be kept.
    Passed,
    /// They were passed over, since memory for them ran out.
    Unkept,
    /// The input ends before.
    Cut,
}

/// What becomes of the bytes after a line.
#[derive(Drop)]
enum Keeping {
    /// These came so far, and are kept.
    Kept(Vec<u8>),
    /// They are passed over.
    Passed,
    /// Memory for them ran out, and they are passed over.
    OutOfMemory,
}

/// Reads the next request. `frame_limit` is the greatest length of a frame's body, in bytes; that of a program's file
/// is 131,072. A body takes memory only as its bytes come. If it is too long, or memory for it runs out, it is passed
/// over, and its last byte is the last one that is read. Broken as BadLine if the next line has none of the forms or
/// no LF is among its first 128 bytes, and as Cut if the input ends before the body does, whatever its length.
/// Refused only if a read may fail.
pub fn next_request<R: BufferedSource>(
    alloc: Global,
    input: &mut R,
    frame_limit: u64,
) -> io::Result<Asked>
    ensures says { IfOk result (λ asked. WhereKnown (R.remaining input.old) (R.remaining input.new) (ReadsRequest frame_limit asked)) }
    ensures fails { OnErr result (R.may_fail input.old) }
    ensures same { R.may_fail input.new → R.may_fail input.old }
{
    let mut room = [0; LINE_LIMIT];
    match read_line(input, &mut room) {
        Ok(LineEnd::Whole(count)) => match line_of(&room[..count]) {
            Some(line) => read_behind(alloc, input, line, frame_limit),
            None => Ok(Asked::Broken(RequestFault::BadLine)),
        },
        Ok(LineEnd::Nothing) => Ok(Asked::End),
        Ok(LineEnd::Broken) => Ok(Asked::Broken(RequestFault::BadLine)),
        Err(error) => Err(error),
    }
}

/// Reads the body after a line.
fn read_behind<R: BufferedSource>(
    alloc: Global,
    input: &mut R,
    line: RequestLine,
    frame_limit: u64,
) -> io::Result<Asked>
    ensures says { IfOk result (λ asked. WhereKnown (R.remaining input.old) (R.remaining input.new) (TellsBehind frame_limit asked line)) }
    ensures fails { OnErr result (R.may_fail input.old) }
    ensures same { R.may_fail input.new → R.may_fail input.old }
{
    let size = line.body_length();
    if line.is_too_long(frame_limit) {
        return match read_body(input, size, Keeping::Passed) {
            Ok(Body::Cut) => Ok(Asked::Broken(RequestFault::Cut)),
            Ok(Body::Whole(_) | Body::Passed | Body::Unkept) => Ok(Asked::TooLong(line)),
            Err(error) => Err(error),
        };
    }
    match read_body(input, size, Keeping::Kept(Vec::new(alloc))) {
        Ok(Body::Whole(body)) => Ok(Asked::Whole(with_body(line, body))),
        Ok(Body::Passed) => unreachable!(),
        Ok(Body::Unkept) => Ok(Asked::Unkept(line)),
        Ok(Body::Cut) => Ok(Asked::Broken(RequestFault::Cut)),
        Err(error) => Err(error),
    }
}

/// The request of a line and the bytes after it.
fn with_body(line: RequestLine, body: Vec<u8>) -> Request
    ensures { ask_of result ≡ with_body line body.items }
{
    match line {
        RequestLine::Program(_) => Request::Program(body),
        RequestLine::Forget(name) => Request::Forget(name),
        RequestLine::Programs => Request::Programs,
        RequestLine::Frame(_) => Request::Frame(body),
        RequestLine::Try(_) => Request::Try(body),
        RequestLine::Last => Request::Last,
        RequestLine::Get(key) => Request::Get(key),
        RequestLine::List(key, count) => Request::List(key, count),
        RequestLine::Dump => Request::Dump,
        RequestLine::Begin(height, digest, _) => Request::Begin(height, digest, body),
        RequestLine::State => Request::State,
        RequestLine::Quit => Request::Quit,
    }
}

/// Reads a line with its LF, and puts what comes before the LF at the start of the room.
fn read_line<R: BufferedSource>(input: &mut R, room: &mut [u8; LINE_LIMIT]) -> io::Result<LineEnd>
    ensures within { IfOk result IsLineWithin }
    ensures line { IfOk result (λ end. WhereKnown (R.remaining input.old) (R.remaining input.new) (GivesLine room.new end)) }
    ensures fails { OnErr result (R.may_fail input.old) }
    ensures same { R.may_fail input.new → R.may_fail input.old }
{
    for count in 0..LINE_LIMIT {
        match next_byte(input) {
            Ok(None) => {
                if count == 0 {
                    return Ok(LineEnd::Nothing);
                }
                return Ok(LineEnd::Broken);
            }
            Ok(Some(byte)) => {
                if byte == b'\n' {
                    return Ok(LineEnd::Whole(count));
                }
                room[count] = byte;
            }
            Err(error) => return Err(error),
        }
    }
    Ok(LineEnd::Broken)
}

/// Reads the next byte; None at the end.
fn next_byte<R: BufferedSource>(input: &mut R) -> io::Result<Option<u8>>
    ensures byte { IfOk result (GivesByte (R.remaining input.old) (R.remaining input.new)) }
    ensures fails { OnErr result (R.may_fail input.old) }
    ensures same { R.may_fail input.new → R.may_fail input.old }
{
    let shown = match input.fill_part() {
        Ok(shown) => shown,
        Err(error) => return Err(error),
    };
    if shown.is_empty() {
        return Ok(None);
    }
    let byte = shown[0];
    input.consume_part(1);
    Ok(Some(byte))
}

/// Reads `size` bytes, and keeps them if they must be kept and memory does not run out. Cut if the input ends before.
fn read_body<R: BufferedSource>(input: &mut R, size: u64, kept: Keeping) -> io::Result<Body>
    requires { AreBytesKept kept [] }
    ensures bytes { IfOk result (λ body. WhereKnown (R.remaining input.old) (R.remaining input.new) (GivesBody size body)) }
    ensures lost { IfOk result (LosesSome kept size) }
    ensures fails { OnErr result (R.may_fail input.old) }
    ensures same { R.may_fail input.new → R.may_fail input.old }
{
    let mut left = size;
    let mut kept = kept;
    while left > 0 {
        match read_piece(input, left, kept) {
            Ok((0, _)) => return Ok(Body::Cut),
            Ok((count, longer)) => {
                left -= count;
                kept = longer;
            }
            Err(error) => return Err(error),
        }
    }
    match kept {
        Keeping::Kept(bytes) => Ok(Body::Whole(bytes)),
        Keeping::Passed => Ok(Body::Passed),
        Keeping::OutOfMemory => Ok(Body::Unkept),
    }
}

/// Reads at most this many bytes, none only at the end. Puts them after those of `kept`, if memory does not run out.
fn read_piece<R: BufferedSource>(
    input: &mut R,
    most: u64,
    kept: Keeping,
) -> io::Result<(u64, Keeping)>
    requires { 0 < most }
    ensures bytes { IfOk result (λ piece. (bytes : List ℕ) × Consumes (R.remaining input.old) (R.remaining input.new) bytes
        × (length bytes ≡ piece.0) × (piece.0 ≤ most) × (piece.0 ≡ 0 → OnSome (R.remaining input.old) (IsAtEnd (R.remaining input.new)))
        × ((whole : List ℕ) → AreBytesKept kept whole → AreBytesKept piece.1 (whole ++ bytes))) }
    ensures goes_on { IfOk result (λ piece. KeepingGoesOn kept piece.1) }
    ensures fails { OnErr result (R.may_fail input.old) }
    ensures same { R.may_fail input.new → R.may_fail input.old }
{
    let shown = match input.fill_part() {
        Ok(shown) => shown,
        Err(error) => return Err(error),
    };
    let count = at_most(shown.len(), most);
    let longer = with_part(kept, &shown[..count]);
    input.consume_part(count);
    Ok((count as u64, longer))
}

/// The lesser of two numbers.
fn at_most(count: usize, most: u64) -> usize
    ensures shown { result ≤ count }
    ensures most { result ≤ most }
    ensures some { 0 < count → 0 < most → 0 < result }
{
    if most < count as u64 {
        most as usize
    } else {
        count
    }
}

/// The bytes so far with more after them, if they are kept and memory does not run out.
fn with_part(kept: Keeping, part: &[u8]) -> Keeping
    ensures longer { (whole : List ℕ) → AreBytesKept kept whole → AreBytesKept result (whole ++ part.now) }
    ensures goes_on { KeepingGoesOn kept result }
{
    let mut longer = match kept {
        Keeping::Kept(bytes) => bytes,
        Keeping::Passed => return Keeping::Passed,
        Keeping::OutOfMemory => return Keeping::OutOfMemory,
    };
    match longer.extend_from_slice(part) {
        Ok(()) => Keeping::Kept(longer),
        Err(AllocError) => Keeping::OutOfMemory,
    }
}
