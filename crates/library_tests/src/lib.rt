//! Tests of the public calls of the libraries, each library's in a file of its own. They are here, and not in
//! those crates, since a crate with tests is proved twice. They are in one crate, since each crate of tests
//! reads all that its calls' clauses cite.
#![tactic(auto)]

#[cfg(test)]
mod asserts;
#[cfg(test)]
mod block_file_calls;
#[cfg(test)]
mod byte_streams_calls;
#[cfg(test)]
mod cmdline_calls;
#[cfg(test)]
mod ecalls_calls;
#[cfg(test)]
mod elf32_calls;
#[cfg(test)]
mod fault_numbers;
#[cfg(test)]
mod gas_calls;
#[cfg(test)]
mod mvmap_calls;
#[cfg(test)]
mod program_file;
#[cfg(test)]
mod receipts_calls;
#[cfg(test)]
mod requests_calls;
#[cfg(test)]
mod rv_alu_calls;
#[cfg(test)]
mod rv_isa_calls;
#[cfg(test)]
mod rv_ledger_calls;
#[cfg(test)]
mod rv_mem_calls;
#[cfg(test)]
mod rv_names_calls;
#[cfg(test)]
mod rv_program_calls;
#[cfg(test)]
mod rv_text_calls;
#[cfg(test)]
mod source_lines;
#[cfg(test)]
mod validate_calls;
#[cfg(test)]
mod version_arena_calls;
#[cfg(test)]
mod weak_validation;
