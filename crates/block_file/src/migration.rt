//! From format 1 to format 2.

ghost use Rattle.std.specs.Prelude.{◌≡◌, ◌++◌, codes, IfOk};
ghost use Rattle.block_file.specs.Answer.{ReadsFile};
ghost use Rattle.block_file.specs.Migrate.{is_first_format, migrated};

use crate::block::parse;
use crate::fault::{BlockFault, Cause};
use std::alloc::{AllocError, Global};

/// The first line of format 1.
const FIRST_HEADER: &[u8] = b"rvblock 1";

/// The first two lines of format 2 under rules one.
const SECOND_HEADER: &[u8] = b"rvblock 2\ngas 1\n";

/// The same block in format 2: the first line becomes `rvblock 2` and `gas 1`, and the other lines stay. A file whose
/// first line is not that of format 1 is refused as BadHeader, and any other fault is the one that `parse` reports.
/// Refused as Memory if memory runs out; then no earlier line has a fault.
pub fn migrate(alloc: Global, bytes: &[u8]) -> Result<Vec<u8>, BlockFault>
    ensures { ReadsFile (λ text. text.items) result (migrated bytes.now) }
{
    if !is_first_format(bytes) {
        return Err(BlockFault {
            line: 1,
            cause: Cause::BadHeader,
        });
    }
    match parse(alloc, bytes) {
        Ok(_) => {}
        Err(fault) => return Err(fault),
    }
    match in_second_format(alloc, &bytes[FIRST_HEADER.len() + 1..]) {
        Ok(text) => Ok(text),
        Err(AllocError) => Err(BlockFault {
            line: 1,
            cause: Cause::Memory,
        }),
    }
}

/// Whether the first line is that of format 1.
fn is_first_format(bytes: &[u8]) -> bool
    ensures { result ≡ is_first_format bytes.now }
{
    match bytes.iter().position(|byte| *byte == b'\n') {
        Some(end) => &bytes[..end] == FIRST_HEADER,
        None => bytes == FIRST_HEADER,
    }
}

/// The first two lines of format 2, and these bytes after them.
fn in_second_format(alloc: Global, body: &[u8]) -> Result<Vec<u8>, AllocError>
    ensures { IfOk result (λ text. text.items ≡ codes "rvblock 2\ngas 1\n" ++ body.now) }
{
    let mut text = Vec::with_capacity(alloc, SECOND_HEADER.len() + body.len())?;
    text.extend_from_slice(SECOND_HEADER)?;
    text.extend_from_slice(body)?;
    Ok(text)
}
