//! The law that no schedule is a dead end: from each state that lists of worker numbers walk through, some list leads to the end
//! of the job.
#![tactic(auto)]

mod laws;

pub use laws::{keyed_lists_go_astray, never_stuck, spent_calls_never_end};
