//! The store of a session in a SQLite database file, which is opened by its path, or made.
#![tactic(auto)]

mod closing;
mod fault;
mod leftover;
mod log_folder;
mod named_disk;
mod names;
mod new_log;
mod opening;
mod path;
mod tables;

pub use closing::{abandon, close_files};
pub use fault::OpenFault;
pub use leftover::Leftover;
pub use log_folder::{FileNumber, Links, LogFolder, SystemFolder};
pub use named_disk::NamedDisk;
pub use new_log::NewLog;
pub use opening::open_files;
pub use path::open_path;
