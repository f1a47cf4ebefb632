//! The scheduler of a block's run (Block-STM): how far each call is, the execution index, the validation
//! index, and each worker's task. Once it is made, it takes memory only to make room for keys.
#![tactic(auto)]

mod asking;
mod calls;
mod counting;
mod moving;
mod scheduler;
mod validating;
mod worker;

pub use calls::INCARNATION_LIMIT;
pub use counting::COUNT_LIMIT;
pub use scheduler::Scheduler;
pub use worker::TaskKind;
