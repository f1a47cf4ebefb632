//! The state of a session.

use crate::kept::KeptAnswer;
use crate::program_table::ProgramTable;
use rv_ledger::{Rules, Store};

/// What the requests of a session so far left.
#[derive(Drop)]
pub struct State {
    /// The storage.
    pub store: Store,
    /// The rules of the last frame that ran or of the text that the session began with, rules one before any. A frame under
    /// lower ones is refused.
    pub rules: Rules,
    /// How many frames were answered, without those that failed: at most 9,999,999,999.
    pub height: u64,
    /// The digest of their answers, if one is kept.
    pub digest: Option<[u8; 32]>,
    /// The programs that were handed in, by their names.
    pub programs: ProgramTable,
    /// The answer to the last of those frames.
    pub last: Option<KeptAnswer>,
}
