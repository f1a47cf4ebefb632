//! How many blocks a session has taken.

/// The greatest height of a session.
pub const GREATEST_HEIGHT: u64 = 9_999_999_999;
