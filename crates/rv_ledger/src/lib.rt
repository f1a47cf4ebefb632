//! What a block is made of, and what running it leaves: keys, values, calls, jobs, receipts and outcomes. Each type
//! except `Receipt` and `Outcome` keeps its own limits, so a value of it is always within them.
#![tactic(auto)]

mod applying;
mod call;
mod change;
mod contents;
mod end;
mod entry_table;
mod hash;
mod height;
mod hints;
mod inline_bytes;
mod job;
mod key;
mod lent_block;
mod lent_value;
mod outcome;
mod receipt;
mod rules;
mod same;
mod store;
mod store_builder;
mod store_iter;
mod stored_bytes;
mod writes;

pub use applying::apply_writes;
pub use call::{Call, CallFault, GAS_LIMIT, INPUT_LIMIT};
pub use change::{Change, add, lend_change, wrapping_sum};
pub use contents::Contents;
pub use end::{End, Trap};
pub use hash::key_hash;
pub use height::GREATEST_HEIGHT;
pub use inline_bytes::{InlineBytes, OUTPUT_LIMIT, Output, VALUE_LIMIT, Value};
pub use job::{Block, CALL_LIMIT, Job, JobFault};
pub use key::Key;
pub use lent_block::LentBlock;
pub use lent_value::LentValue;
pub use outcome::{Counts, Outcome};
pub use receipt::Receipt;
pub use rules::Rules;
pub use same::{same_call, same_job};
pub use store::Store;
pub use store_builder::StoreBuilder;
pub use store_iter::{StoreIter, StoreRange};
pub use stored_bytes::{IN_PLACE_LIMIT, StoredBytes, StoredOutput, StoredValue};
pub use writes::{Write, Writes};
