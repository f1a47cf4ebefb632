//! What the instructions of RV32IM do to the registers and the pc. For loads and stores only two parts are
//! here: the address, and the number that a load writes to rd.
#![tactic(auto)]

mod accesses;
mod branches;
mod division;
mod execution;
mod immediates;
mod operations;
mod products;

pub use accesses::{address, extended};
pub use execution::execute;
