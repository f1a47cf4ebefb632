//! The run of one call: an in-order RV32IM machine with storage calls. It stops when it needs an answer from the storage.
#![tactic(auto)]

mod accesses;
mod answer;
mod dispatch;
mod ended_run;
mod faults;
mod fields;
mod known_words;
mod laws;
mod machine;
mod outcome;
mod over;
mod page_loop;
mod page_walk;
mod run;
mod spare_machine;
mod spare_run;
mod stage;
mod storage_calls;

pub use answer::StorageAnswer;
pub use ended_run::EndedRun;
pub use laws::{call_ends, charged_steps_within_gas, each_step_takes_gas, one_receipt};
pub use machine::Machine;
pub use over::receipt_over;
pub use run::{Pause, Run};
pub use spare_machine::SpareMachine;
pub use spare_run::SpareRun;
pub use stage::Stage;
