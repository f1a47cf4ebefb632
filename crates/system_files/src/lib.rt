//! The files of the system, and how a file is put in the place of another.
#![tactic(auto)]

mod fault;
mod output_disk;
mod replacing;
mod system_disk;

pub use fault::ReplaceFault;
pub use output_disk::OutputDisk;
pub use replacing::replace;
pub use system_disk::SystemDisk;
