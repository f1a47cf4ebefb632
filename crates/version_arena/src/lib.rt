//! The arena of one block: a list of the versions that the runs of its calls have written. Room is
//! reserved in advance, so that writing a version takes no memory.
#![tactic(auto)]

mod arena;
mod chunk;
mod fault;
mod pool;
mod raw;
mod record;
mod stored_record;

pub use arena::{Arena, RECORD_LIMIT};
pub use fault::ReserveFault;
pub use record::{Record, VersionId};
