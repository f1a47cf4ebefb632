//! What a line says.

ghost use Rattle.std.specs.Prelude.{◌≡◌};
ghost use Rattle.session_requests.specs.Requests.{begin_of, body_length, list_count, digest_of, request_line_of, list_of};
ghost use Rattle.session_requests.specs.Reading.{is_too_long};

use crate::fields::{first_part, name};
use crate::request::RequestLine;
use block_file::fields::decimal;
use programs::FILE_LIMIT;

/// What a line without its LF says. None if it has none of the forms.
pub(crate) fn line_of(text: &[u8]) -> Option<RequestLine>
    ensures { result ≡ request_line_of text.now }
{
    if text == b"programs".as_slice() {
        return Some(RequestLine::Programs);
    }
    if text == b"last".as_slice() {
        return Some(RequestLine::Last);
    }
    if text == b"dump".as_slice() {
        return Some(RequestLine::Dump);
    }
    if text == b"state".as_slice() {
        return Some(RequestLine::State);
    }
    if text == b"q".as_slice() {
        return Some(RequestLine::Quit);
    }
    if text.starts_with(b"program ") {
        return Some(RequestLine::Program(decimal(text.split_at(8).1)?));
    }
    if text.starts_with(b"frame ") {
        return Some(RequestLine::Frame(decimal(text.split_at(6).1)?));
    }
    if text.starts_with(b"try ") {
        return Some(RequestLine::Try(decimal(text.split_at(4).1)?));
    }
    if text.starts_with(b"forget ") {
        return Some(RequestLine::Forget(name(text.split_at(7).1)?));
    }
    if text.starts_with(b"get ") {
        return Some(RequestLine::Get(name(text.split_at(4).1)?));
    }
    if text.starts_with(b"list ") {
        return list_of(text.split_at(5).1);
    }
    if text.starts_with(b"begin ") {
        return begin_of(text.split_at(6).1);
    }
    None
}

/// A count of 1 to 1,024. None for any other text.
fn count_of(text: &[u8]) -> Option<u64>
    ensures { result ≡ list_count text.now }
{
    let count = decimal(text)?;
    if 1 <= count && count <= 1024 {
        return Some(count);
    }
    None
}

/// A key and a count. None for any other text.
fn list_of(text: &[u8]) -> Option<RequestLine>
    ensures { result ≡ list_of text.now }
{
    let (digits, rest) = first_part(text)?;
    let first = name(digits)?;
    let count = count_of(rest)?;
    Some(RequestLine::List(first, count))
}

/// A digest, or `-` if there is none. None for any other text.
fn digest_of(text: &[u8]) -> Option<Option<[u8; 32]>>
    ensures { result ≡ digest_of text.now }
{
    if text == b"-".as_slice() {
        return Some(None);
    }
    match name(text) {
        Some(digest) => Some(Some(digest)),
        None => None,
    }
}

/// A height, a digest and a length. None for any other text.
fn begin_of(text: &[u8]) -> Option<RequestLine>
    ensures { result ≡ begin_of text.now }
{
    let (height, rest) = first_part(text)?;
    let height = decimal(height)?;
    let (digest, rest) = first_part(rest)?;
    let digest = digest_of(digest)?;
    let length = decimal(rest)?;
    Some(RequestLine::Begin(height, digest, length))
}

impl RequestLine {
    /// How many bytes follow the line.
    pub(crate) fn body_length(self) -> u64
        ensures { result ≡ body_length self }
    {
        match self {
            RequestLine::Program(length)
            | RequestLine::Frame(length)
            | RequestLine::Try(length)
            | RequestLine::Begin(_, _, length) => length,
            _ => 0,
        }
    }

    /// Whether more bytes follow the line than are allowed: 131,072 of a program, `frame_limit` of a frame that is
    /// run or tried.
    pub(crate) fn is_too_long(self, frame_limit: u64) -> bool
        ensures { result ≡ is_too_long frame_limit self }
    {
        match self {
            RequestLine::Program(length) => length > FILE_LIMIT as u64,
            RequestLine::Frame(length) | RequestLine::Try(length) => length > frame_limit,
            _ => false,
        }
    }
}
