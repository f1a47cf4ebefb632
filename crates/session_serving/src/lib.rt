//! Sessions: the requests of an input, answered one after another.
#![tactic(auto)]

mod laws;
mod memory;
mod request_parts;
mod serving;
mod session;
mod writing;

pub use laws::{failed_request_may_be_given_again, session_is_a_fold};
pub use serving::{ServeFault, serve};
pub use session::Session;
pub use writing::{write_answer, write_both};
