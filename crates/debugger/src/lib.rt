//! A debugger: it replays one call of a block step by step, forward and back, and shows its state.
#![tactic(auto)]

mod answer;
mod command;
mod content;
mod ending;
mod fault;
mod laws;
mod place;
mod replay;
mod running;
mod session;
mod storage;

pub use fault::{DebugFault, ReplayFault};
pub use laws::{last_moment_is_the_receipts, opens_over_its_storage, replay_ends_as_its_receipt};
pub use replay::Replay;
pub use session::{debug_lines_to, debug_to};
