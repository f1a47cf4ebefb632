//! The multi-version map of one block: it keeps, for each key, what each call's run wrote to it. So a
//! call sees what the calls before it wrote.
#![tactic(auto)]

mod answer;
mod hints;
mod key_table;
mod laws;
mod map;
mod seek;
mod slot;
mod slots;
mod snapshot;
mod walk;
mod writers;

pub use answer::{Answer, LentAnswer};
pub use laws::{
    blocks_on_lower_writers, changes_no_standing_read, depends_on_lower_writers, names_what_stands,
    sums_add_up,
};
pub use map::MvMap;
pub use read_set::{Origin, Version};
