//! The storage calls of a contract: what an ECALL asks for, what it costs and when it traps.
#![tactic(auto)]

mod copies;
mod request_kind;
mod requests;
mod storage_call;

pub use copies::{bytes_at, key_at};
pub use request_kind::StorageRequest;
pub use requests::request;
pub use rv_ledger::{Rules, Trap, Writes};
pub use storage_call::{
    READ_CHARGE, StorageCall, added_amount, ecall_charge, late_charge, requested_call,
};
