//! The engine of `rvstm migrate`, over any reader.

ghost use Rattle.std.specs.Prelude.{◌≡◌, Ok, IfErr, IfOk, IfSome};
ghost use Rattle.block_file.specs.Migrate.{migrated};
ghost use Rattle.engines.specs.Engine.{IsBlockFault};

use crate::fault::Refusal;
use crate::loading::BLOCK_MEMORY;
use crate::reading::read_text;
use block_file::migrate;
use byte_streams::Source;
use std::alloc::Global;

/// Reads a block file of format 1 to its end and returns the file of format 2 that says the same. Refused with the file's first
/// fault, which is BadHeader for a file of another format, as Unreadable if a read failed, and as Memory if memory ran out.
pub(crate) fn migrated_file<R: Source>(alloc: Global, block: &mut R) -> Result<Vec<u8>, Refusal>
    ensures ok { IfOk result (λ file. IfSome (R.remaining block.old) (λ bytes. migrated bytes ≡ Ok file.items)) }
    ensures err { IfErr result (λ e. IfSome (R.remaining block.old) (λ bytes. IsBlockFault (R.may_fail block.old) (migrated bytes) e)) }
{
    // Not by `?`: the proof answers this arm.
    let bytes = match read_text(alloc, block, Refusal::Block(BLOCK_MEMORY)) {
        Ok(bytes) => bytes,
        Err(refusal) => return Err(refusal),
    };
    match migrate(alloc, bytes.as_slice()) {
        Ok(file) => Ok(file),
        Err(fault) => Err(Refusal::Block(fault)),
    }
}
