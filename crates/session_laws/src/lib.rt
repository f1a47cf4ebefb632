//! What one crate writes, read by another: the storage after a block is the storage before the next one, and a session that
//! begins with what another one dumps continues as that one.
#![tactic(auto)]

mod begin;
mod dump;
mod short;
mod storage;

pub use begin::{
    begin_after_dump, begun_answers_alike, begun_session_answers_alike, held_session_answers_alike,
};
pub use dump::{dump_is_read_back, dump_is_read_back_of};
pub use short::values_stay_short;
pub use storage::{storage_is_read_back, storage_is_read_back_of};
