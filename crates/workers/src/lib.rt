//! Runs blocks on threads. The threads run the calls outside one lock, and make their steps on the core under it.
#![tactic(auto)]

mod answer;
mod book;
mod chain;
mod done_cell;
mod executor;
mod fault;
mod gate;
mod on_storage;
mod patience;
mod shared;
mod worker;

pub use answer::settle;
pub use book::{AllDone, Asked, Book, JobName, Share, WrittenFault};
pub use chain::{Chain, ChainFault};
pub use done_cell::{DoneCell, DonePass, LOOK_LIMIT};
pub use executor::Executor;
pub use fault::RunFault;
pub use gate::{Gate, Open, Spin};
pub use shared::Shared;
pub use worker::{work, work_spinning};
