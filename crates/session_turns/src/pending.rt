//! What a request will change, before the change is made.

use crate::answer::Answer;
use crate::kept::KeptAnswer;
use crate::run::Left;
use elf32::Image;
use rv_ledger::{Key, Rules, Store};
use std::sync::Arc;

/// What a request will change, with its answer, before the change is made.
#[derive(Drop)]
pub enum Pending {
    /// Nothing changes, and this is the answer.
    Nothing(Answer),
    /// A program is put under its name, and these are the answer's bytes.
    Program(Key, Arc<Image>, Vec<u8>),
    /// The program of this name is removed.
    Forget(Key),
    /// A frame counts.
    Frame(PendingFrame),
    /// The session continues from another storage.
    Begin(PendingBegin),
}

/// What a frame that counts will change.
#[derive(Drop)]
pub struct PendingFrame {
    /// What its run leaves; None for a frame that is refused.
    pub run: Option<PendingRun>,
    /// The height after it.
    pub height: u64,
    /// The digest after its answer, if one is kept.
    pub digest: Option<[u8; 32]>,
    /// Its answer.
    pub answer: KeptAnswer,
}

/// What a run of calls will change.
#[derive(Drop)]
pub struct PendingRun {
    /// What it leaves of the storage.
    pub left: Left,
    /// The rules that it ran under.
    pub rules: Rules,
}

/// What a session continues from.
#[derive(Drop)]
pub struct PendingBegin {
    /// The storage.
    pub store: Store,
    /// Its rules.
    pub rules: Rules,
    /// The height.
    pub height: u64,
    /// The digest, if one is kept.
    pub digest: Option<[u8; 32]>,
}
