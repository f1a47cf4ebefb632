//! The bytes of sessions, and what they print.

use engines::chain_to;
use session_turns::{CallRunner, Settings};
use sha2::{Digest, Sha256};
use std::alloc::{AllocError, Global};
use std::test::Fail;

/// Appends a request with bytes after its line.
fn push_request(
    alloc: Global,
    input: &mut Vec<u8>,
    word: &str,
    body: &[u8],
) -> Result<(), AllocError> {
    let line = format!(in alloc; "{word} {}\n", body.len())?;
    input.extend_from_slice(line.as_bytes())?;
    input.extend_from_slice(body)
}

/// The name of a program: the SHA-256 of its file, in digits.
fn name_of(alloc: Global, file: &[u8]) -> Result<String, AllocError> {
    hex::encode(alloc, Sha256::digest(file))
}

/// The bytes of a session that is handed a program, and then frames of these lines over it, of rules one.
pub fn session_over(alloc: Global, file: &[u8], frames: &[&str]) -> Result<Vec<u8>, AllocError> {
    let name = name_of(alloc, file)?;
    let mut input = Vec::new(alloc);
    push_request(alloc, &mut input, "program", file)?;
    for lines in frames {
        let frame = format!(in alloc; "rvblock 1\nprogram 0 {name}\n{lines}")?;
        push_request(alloc, &mut input, "frame", frame.as_bytes())?;
    }
    Ok(input)
}

/// What a session prints, whose calls are run by `runner`.
pub fn printed_by<C: CallRunner>(
    alloc: Global,
    runner: &mut C,
    settings: Settings,
    input: &[u8],
) -> Result<Vec<u8>, Fail>
    requires { C.ready }
{
    let mut requests = input;
    let mut text = Vec::new(alloc);
    chain_to(alloc, &mut requests, runner, settings, &mut text)?;
    Ok(text)
}
