//! A block that its caller drives: the caller has the threads, the lock and the storage.
#![tactic(auto)]

mod fault;
mod hold;
mod host_job;
mod moving;
mod progress;
mod running;
mod shared_block;
mod stepping;
mod worker;

pub use fault::StepFault;
pub use hold::{Owed, make_steps};
pub use host_job::{HostJob, HostState};
pub use moving::blocks_may_move;
pub use progress::{AskingRun, Leftover, Progress, ReadyRun};
pub use shared_block::SharedBlock;
pub use stepping::step;
pub use worker::{Need, Worker};
