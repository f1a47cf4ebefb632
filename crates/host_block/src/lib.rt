//! A block over a storage that a host keeps: its calls in order, which ask the host for each key at most once, and what they change.
#![tactic(auto)]

mod hints;
mod known;
mod laws;
mod listing;
mod ordered_run;
mod parts;
mod run_call;
mod slot;
mod slot_iter;
mod slot_table;
mod touched_keys;

pub use laws::host_gets_calls_in_order;
pub use ordered_run::{BaseFault, BlockResult, OrderedRun};
