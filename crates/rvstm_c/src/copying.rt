//! Copying an answer for C.

ghost use Rattle.rvstm_c.specs.Embedding.{IsCopied};

use crate::status::{DONE, SHORT_BUFFER};

/// Copies a text to the beginning of a buffer. DONE, or SHORT_BUFFER, and then the buffer is as it was.
pub(crate) fn copy_text(text: &[u8], buffer: &mut [u8]) -> u32
    ensures { IsCopied text.now buffer.old result buffer.new }
{
    if buffer.len() < text.len() {
        return SHORT_BUFFER;
    }
    buffer[..text.len()].copy_from_slice(text);
    DONE
}
