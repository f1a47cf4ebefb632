//! What a session keeps of itself in four trees of a store, so that it outlives its process: its storage, its programs, its
//! settings with its height and digest, and what its last frame was answered.
#![tactic(auto)]

mod decoding;
mod entries;
mod fault;
mod file;
mod laws;
mod opening;
mod reading;
mod rows;
mod writing;

pub use entries::Entries;
pub use fault::OpenFault;
pub use file::SessionFile;
pub use laws::held_session_is_one;
pub use opening::open_session;
pub use rows::{AnswerRow, Found, SessionRow};
