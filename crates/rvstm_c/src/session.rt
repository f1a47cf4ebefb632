//! A session that a handle has.

ghost use Rattle.std.specs.Prelude.{◌≡◌, true};
ghost use Rattle.rvstm_c.specs.Given.{is_in_memory};

use crate::given::Given;
use session_turns::{Settings, State};

/// A session that a handle has.
#[derive(Drop)]
pub struct EmbeddedSession {
    /// What it was opened with.
    pub settings: Settings,
    /// What its requests left.
    pub state: State,
    /// The answer to the last one.
    pub given: Given,
    ghost in_memory: { is_in_memory given ≡ true },
}
