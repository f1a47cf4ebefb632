//! How the conflicts of a block are written.

ghost use Rattle.std.specs.Prelude.{◌≡◌, IfErr};
ghost use Rattle.byte_streams.specs.Written.{WritesText};
ghost use Rattle.conflicts.specs.Text.{conflicts_text};

use crate::block::Conflicts;
use crate::text::push_conflicts;
use byte_streams::{Destination, WriteFault};
use receipts::TextBuffer;
use std::alloc::Global;

/// Writes the text of a block's conflicts, in pieces of 64 KiB. Refused as Memory before anything is written, or as
/// `write_whole` is; then a beginning of the text was written, and not all of it.
pub fn write_conflicts<W: Destination>(
    alloc: Global,
    conflicts: &Conflicts,
    out: &mut W,
) -> Result<(), WriteFault>
    ensures writes { WritesText W.Destination result out.old out.new
        (conflicts_text conflicts.now.calls.items conflicts.now.paths.items conflicts.now.keys.items) }
    ensures memory { IfErr result (λ e. e ≡ WriteFault.Memory → out.new ≡ out.old) }
{
    let Ok(mut text) = TextBuffer::new(alloc) else {
        return Err(WriteFault::Memory);
    };
    push_conflicts(&mut text, conflicts, out);
    text.finish(out)
}
