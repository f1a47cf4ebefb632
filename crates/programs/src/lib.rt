//! The programs of blocks: of the bytes of files, by paths, and under the calls of a block.
#![tactic(auto)]

mod calls;
mod fault;
mod files;
mod loader;
mod paths;

pub use calls::calls_over;
pub use fault::ProgramFault;
pub use files::{FILE_LIMIT, load_file, load_image};
pub use loader::Loader;
pub use paths::programs_at;
