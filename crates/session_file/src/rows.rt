//! The rows of a session.

use rv_ledger::{Rules, Store};

/// The row of a session: its settings, and how far it is. A height above 9,999,999,999 and another number of 2^63 or above can't
/// be kept.
#[derive(Clone, Copy, Debug, PartialEq, Eq)]
pub struct SessionRow {
    /// The greatest length of a frame.
    pub frame_limit: u64,
    /// The most gas of a frame, if it is bounded.
    pub frame_gas: Option<u64>,
    /// Whether receipts are printed in brief.
    pub is_brief: bool,
    /// The rules of the last frame.
    pub rules: Rules,
    /// How many frames counted.
    pub height: u64,
    /// The digest of the answers.
    pub digest: [u8; 32],
}

/// What the last frame that counts was answered.
#[derive(Drop)]
pub struct AnswerRow {
    /// The line.
    pub line: Vec<u8>,
    /// The bytes after it.
    pub bytes: Vec<u8>,
}

/// What an open finds.
#[derive(Drop)]
pub struct Found<P> {
    /// The storage.
    pub storage: Store,
    /// What was made of the programs' names and files.
    pub programs: P,
    /// The row of the session; None of a new one.
    pub session: Option<SessionRow>,
    /// What the last frame that counts was answered.
    pub answer: Option<AnswerRow>,
}
