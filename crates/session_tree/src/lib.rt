//! A finite map of byte strings in an index tree of a store: each entry is a row of two blobs, its key and its value.
#![tactic(auto)]

mod changing;
mod keyed;

pub use changing::change_entry;
pub use keyed::{remove_key, set_key};
