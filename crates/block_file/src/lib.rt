//! Block files and schedule files: what their texts say, or the first fault.
#![tactic(auto)]

mod block;
mod block_text;
mod fault;
pub mod fields;
mod hex_text;
mod laws;
mod migration;
mod reader;
mod scan;
mod schedule;

pub use block::parse;
pub use block_text::{BlockText, CallLine};
pub use fault::{BlockFault, Cause};
pub use laws::{migrated_says_the_same, one_reading};
pub use migration::migrate;
pub use schedule::parse_schedule;
