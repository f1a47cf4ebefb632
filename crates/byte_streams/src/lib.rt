//! The sources and the destinations of bytes, why a write is refused, and the line that a refusal prints.
#![tactic(auto)]

mod buffered_source;
mod destination;
mod fault;
mod line_parts;
mod refusal;
mod source;
mod write;

pub use buffered_source::{BufferedSource, FallibleBuffer};
pub use destination::{Destination, FallibleWriter};
pub use fault::WriteFault;
pub use line_parts::LineParts;
pub use refusal::{LINE_ROOM, refusal_line};
pub use source::{FallibleReader, Source};
pub use write::write_whole;
