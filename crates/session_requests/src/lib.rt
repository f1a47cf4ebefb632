//! The requests of a session: a line each, of at most 128 bytes with its LF, and as many bytes after it as the line
//! says.
//!
//! The lines are these, with one blank before each field:
//!
//!     program LENGTH                  LENGTH bytes follow: the file of a program, 131,072 bytes at most
//!     forget DIGEST
//!     programs
//!     frame LENGTH                    LENGTH bytes follow: a frame's body
//!     try LENGTH                      LENGTH bytes follow: a frame's body
//!     last
//!     get KEY
//!     list KEY COUNT                  COUNT is 1 to 1,024
//!     dump
//!     begin HEIGHT DIGEST LENGTH      LENGTH bytes follow: the text of a storage; DIGEST may be `-`
//!     state
//!     q
//!
//! Numbers are decimals of 1 to 10 digits without a leading zero. A KEY or a DIGEST has 64 lower-case hex digits. No line of a
//! form has more than 93 bytes with its LF.
#![tactic(auto)]

mod fields;
mod laws;
mod line;
mod reading;
mod request;

pub use laws::{next_of_input, read_is_written, written_is_read};
pub use reading::next_request;
pub use request::{Asked, Request, RequestFault, RequestLine};
