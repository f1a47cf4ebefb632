//! Schedule files.

ghost use Rattle.std.specs.Prelude.{◌≡◌, [], map};
ghost use Rattle.block_file.specs.Answer.{GivesValue, ReadsFile};
ghost use Rattle.block_file.specs.Line.{read_parts};
ghost use Rattle.block_file.specs.Schedule.{schedule_entry, with_entry, parsed_schedule};

use crate::fault::{BlockFault, Cause};
use crate::fields;
use std::alloc::{AllocError, Global};

/// The entries of a schedule file in order. Each is the number of a worker: one decimal of at most 65,535 per line,
/// and a line feed at the end of each line. Refused as BadNumber at the first line that is not such a decimal or has
/// no line feed, and as Memory if memory runs out.
pub fn parse_schedule(alloc: Global, bytes: &[u8]) -> Result<Vec<u16>, BlockFault>
    ensures { ReadsFile (λ entries. entries.items) result (parsed_schedule bytes.now) }
{
    match fields::parts(alloc, bytes, b'\n') {
        Ok(parts) => entries_of(alloc, parts.as_slice()),
        Err(AllocError) => Err(BlockFault {
            line: 1,
            cause: Cause::Memory,
        }),
    }
}

/// The entries of the parts between the line feeds.
fn entries_of(alloc: Global, parts: &[&[u8]]) -> Result<Vec<u16>, BlockFault>
    ensures { ReadsFile (λ entries. entries.items) result (read_parts with_entry Cause.BadNumber 1 [] (map (λ part. part.now) parts.now)) }
{
    let mut entries = Vec::new(alloc);
    for (index, part) in parts.iter().enumerate() {
        let line = index + 1;
        if line == parts.len() {
            if !part.is_empty() {
                return Err(BlockFault {
                    line,
                    cause: Cause::BadNumber,
                });
            }
        } else if let Err(cause) = take(&mut entries, part) {
            return Err(BlockFault { line, cause });
        }
    }
    Ok(entries)
}

/// Takes the entry of the next line. Refused as BadNumber or Memory.
fn take(entries: &mut Vec<u16>, line: &[u8]) -> Result<(), Cause>
    ensures { GivesValue (λ _. entries.new.items) result (with_entry entries.old.items line.now) }
{
    let entry = entry(line)?;
    entries.push(entry)?;
    Ok(())
}

/// The entry of a line, BadNumber if it is no such decimal.
fn entry(line: &[u8]) -> Result<u16, Cause>
    ensures { result ≡ schedule_entry line.now }
{
    match fields::decimal(line) {
        Some(number) if number <= u64::from(u16::MAX) => Ok(number as u16),
        _ => Err(Cause::BadNumber),
    }
}
