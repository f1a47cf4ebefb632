//! What a call returns.

/// It was done.
pub(crate) const DONE: u32 = 0;
/// The request was refused; every node that got the same requests refuses it.
pub(crate) const REFUSED: u32 = 1;
/// The handle has nothing.
pub(crate) const CLOSED: u32 = 2;
/// The handle has something already.
pub(crate) const ALREADY_OPEN: u32 = 3;
/// This machine ran out of memory for the request. All is as it was, and it may be given again.
pub(crate) const FAILED: u32 = 4;
/// Memory for the handle ran out.
pub(crate) const NO_MEMORY: u32 = 5;
/// The buffer is shorter than the answer.
pub(crate) const SHORT_BUFFER: u32 = 6;
/// No session has such settings.
pub(crate) const BAD_SETTINGS: u32 = 7;
/// A call asks for a key.
pub(crate) const KEY: u32 = 8;
/// All calls of the block have ended.
pub(crate) const ENDED: u32 = 9;
/// This machine ran out of memory in mid-run, which may continue.
pub(crate) const PAUSED: u32 = 10;
/// The block is not at the stage of this call.
pub(crate) const WRONG_STAGE: u32 = 11;
/// The rules are not 1, 2 or 3.
pub(crate) const BAD_RULES: u32 = 12;
/// The block has 1,024 calls.
pub(crate) const TOO_MANY_CALLS: u32 = 13;
/// The gas limit is not 1 to 10,000,000.
pub(crate) const BAD_GAS: u32 = 14;
/// The input has more than 4,096 bytes.
pub(crate) const LONG_INPUT: u32 = 15;
/// No key is asked for.
pub(crate) const NOT_ASKED: u32 = 16;
/// The value has more than 256 bytes.
pub(crate) const LONG_VALUE: u32 = 17;
/// There is no entry of this index.
pub(crate) const NO_ENTRY: u32 = 18;
