//! The assembler and disassembler.
#![tactic(auto)]

mod again;
mod assembler;
mod disassembler;
mod fault;
mod item;
mod laws;
mod layout;
mod words;

pub use again::{assembled_again, program_assembled_again, words_assembled_again};
pub use assembler::assemble;
pub use disassembler::disassemble;
pub use fault::{AsmCause, AsmError};
pub use rv_program::Program;
