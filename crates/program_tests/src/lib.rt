//! Tests of the engines by their functions: workers and their threads, chains of blocks, the debugger, and calls for which memory, or
//! a thread, is refused. And tests of the program over files, streams and stores in memory, of which requests fail. What a real file
//! system shows is in `tests`. They are here, and not in `engines` and the crates below it, since a crate with tests is proved twice.
#![tactic(auto)]

#[cfg(test)]
mod areas;
#[cfg(test)]
mod asserts;
#[cfg(test)]
mod blocks;
#[cfg(test)]
mod calls;
#[cfg(test)]
mod chains;
#[cfg(test)]
mod cores;
#[cfg(test)]
mod counts;
#[cfg(test)]
mod debugging;
#[cfg(test)]
mod echo;
#[cfg(test)]
mod fake_stores;
#[cfg(test)]
mod full_arena;
#[cfg(test)]
mod idling;
#[cfg(test)]
mod known_disk;
#[cfg(test)]
mod known_stores;
#[cfg(test)]
mod refused;
#[cfg(test)]
mod rows;
#[cfg(test)]
mod session_files;
#[cfg(test)]
mod session_inputs;
#[cfg(test)]
mod session_opens;
#[cfg(test)]
mod session_threads;
#[cfg(test)]
mod sums;
#[cfg(test)]
mod threads;
#[cfg(test)]
mod worker_counts;
