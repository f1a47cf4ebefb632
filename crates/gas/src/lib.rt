//! Gas: what an instruction costs, and what a call has left.
#![tactic(auto)]

mod costs;
mod meter;

pub use costs::cost;
pub use meter::Meter;
