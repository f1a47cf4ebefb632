//! Changes of a storage that are not made yet: what a storage has with them, and making all of them or none.
#![tactic(auto)]

mod committing;
mod layers;
mod overlay;

pub use committing::{commit, give_back, make, make_room};
pub use layers::{Layers, apply_receipts, apply_writes, copy_with_receipts};
pub use overlay::Overlay;
