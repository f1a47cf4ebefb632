//! The engines of the program `rvstm`, over any files, readers and writers.
#![tactic(auto)]

mod asm;
mod batches;
mod by_threads;
mod chain;
mod command_lines;
mod commands;
mod conflicts_command;
mod counts;
mod debug;
mod dis;
mod disk;
mod drive;
mod fault;
mod file_loader;
mod laws;
mod loading;
mod migrate;
mod program_source;
mod reading;
mod refusal_parts;
mod reporting;
mod results;
mod run;
mod seq;
mod sessions;
mod stores;
mod thread_costs;

pub use asm::file_of_source;
pub use by_threads::ByThreads;
pub use chain::{chain_to, durable_chain_to};
pub use command_lines::{answer_words, exit_code, status};
pub use counts::{RunCounts, write_counts};
pub use debug::debug_block_to;
pub use dis::dis_to;
pub use disk::Disk;
pub use drive::drive_to;
pub use fault::{FileFault, InputFault, Refusal, SeqFault};
pub use laws::{
    listing_is_assembled_again, migrated_runs_alike, run_prints_what_seq_prints,
    same_files_print_the_same,
};
pub use program_source::Programs;
pub use reporting::report;
pub use run::run_to;
pub use seq::seq_to;
pub use stores::{SessionStores, SystemStores};
