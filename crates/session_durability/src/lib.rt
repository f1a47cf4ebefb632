//! Sessions whose storage, programs and last answer are in a file: what a request changed is on the disk before a byte of its
//! answer is written.
#![tactic(auto)]

mod asking;
mod keeping;
mod laws;
mod opening;
mod reply;
mod session;
mod staging;

pub use laws::stopped_session_goes_on;
pub use opening::{SessionFault, open_durably};
pub use reply::FileReply;
pub use session::FileSession;
