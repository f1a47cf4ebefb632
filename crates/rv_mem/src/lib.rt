//! The memory of one contract call: one mebibyte, in pages that are shared until they are written. Each
//! page has rights of its own.
#![tactic(auto)]

mod access;
mod code;
mod fault;
mod memory;
mod pages;
mod rights;

pub use access::Access;
pub use code::{code_page, word_in};
pub use fault::Fault;
pub use memory::Memory;
