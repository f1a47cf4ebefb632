//! The state of a session as a file keeps it, and the state that a file's rows are.
#![tactic(auto)]

mod fault;
mod laws;
mod loader;
mod loading;
mod rows;

pub use fault::StoreFault;
pub use laws::kept_state_is_one;
pub use loader::ProgramLoader;
pub use loading::{LoadFault, Loaded, load_state};
pub use rows::row_of;
