//! The state of a speculative run of a block and the steps that workers make on it (Block-STM). A theorem says that the result,
//! once workers are done, is that of running the calls in order.
#![tactic(auto)]

mod laws;
mod state;

pub use laws::{
    done_has_versions_alone, done_is_in_order, done_is_serial, done_stays, dones_grow_at_done,
    due_step_has_result, last_entry_is_done, one_worker_counts, one_worker_counts_where_reached,
    reached_by_list, refused_list_meets_limit, the_parts_hold,
};
pub use state::{Answers, CallState, Keys, Recorded, Status, Task};
