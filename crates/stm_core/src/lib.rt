//! The state of a job's speculative run (Block-STM), the steps that workers make on it, and a job's run
//! along a list of worker numbers.
#![tactic(auto)]

mod driving;
mod fault;
mod job_source;
mod next_step;
mod outcome;
mod owed_step;
mod owned_job;
mod passed_lists;
mod read_room;
mod read_steps;
mod reads;
mod ready_record;
mod recording;
mod same;
mod state;
mod value_lists;
mod versions;

pub use driving::{DriveFault, WORKER_LIMIT, drive};
pub use fault::{IncarnationLimit, RecordFault, Refused};
pub use job_source::{JobSource, LentJob, StoredJob};
pub use next_step::{AskResult, NextStep, ReadResult, StepKind};
pub use outcome::Finished;
pub use ready_record::{ReadyRecord, reads_made};
pub use recording::SpentRun;
pub use state::Core;
