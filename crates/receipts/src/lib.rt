//! The text of a block's result, and how it is written.
#![tactic(auto)]

mod brief;
mod buffer;
mod digits;
mod laws;
mod lines;
mod ranges;
mod text;
mod write;

pub use brief::receipts_text;
pub use buffer::TextBuffer;
pub use digits::{push_bytes, push_decimal, push_key};
pub use laws::{one_text, one_text_of};
pub use lines::{bytes_text, end_name, regs_line, word_text};
pub use text::{push_entry, result_text};
pub use write::{write_outcome, write_result};
