//! How the text is written.

ghost use Rattle.std.specs.Prelude.{◌≡◌, IfErr};
ghost use Rattle.byte_streams.specs.Written.{WritesText};
ghost use Rattle.receipts.specs.Text.{result_text};

use crate::buffer::TextBuffer;
use crate::text::push_result;
use byte_streams::{Destination, WriteFault};
use rv_ledger::{Outcome, Receipt, Store};
use std::alloc::Global;

/// Writes the text of receipts and a storage, in pieces of 64 KiB. Refused as Memory before anything is
/// written, or as `write_whole` is; then a beginning of the text was written, and not all of it.
pub fn write_result<W: Destination>(
    alloc: Global,
    receipts: &[Receipt],
    store: &Store,
    out: &mut W,
) -> Result<(), WriteFault>
    ensures writes { WritesText W.Destination result out.old out.new (result_text receipts.now store.now) }
    ensures memory { IfErr result (λ e. e ≡ WriteFault.Memory → out.new ≡ out.old) }
{
    let Ok(mut text) = TextBuffer::new(alloc) else {
        return Err(WriteFault::Memory);
    };
    push_result(&mut text, receipts, store, out);
    text.finish(out)
}

/// Writes the text of an outcome's receipts and storage, as `write_result` does, and is refused as it is.
pub fn write_outcome<W: Destination>(
    alloc: Global,
    outcome: &Outcome,
    out: &mut W,
) -> Result<(), WriteFault>
    ensures writes { WritesText W.Destination result out.old out.new (result_text outcome.now.receipts.items outcome.now.store) }
    ensures memory { IfErr result (λ e. e ≡ WriteFault.Memory → out.new ≡ out.old) }
{
    write_result(alloc, outcome.receipts.as_slice(), &outcome.store, out)
}
