//! What an assembled program consists of.
#![tactic(auto)]

mod program;

pub use program::{DATA_LIMIT, DATA_START, Program, TEXT_LIMIT, TEXT_START};
