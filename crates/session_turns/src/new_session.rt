//! A session before its first request.

ghost use Rattle.std.specs.Prelude.{◌≡◌};
ghost use Rattle.session_turns.specs.Turn.{new_session};

use crate::program_table::ProgramTable;
use crate::settings::Settings;
use crate::state::State;
use rv_ledger::{Rules, Store};
use std::alloc::Global;

impl State {
    /// A session before its first request: an empty storage under rules one, at height 0.
    pub fn new(alloc: Global, settings: Settings) -> State
        ensures { result ≡ new_session settings }
    {
        State {
            store: Store::new(alloc),
            rules: Rules::One,
            height: 0,
            digest: settings.keeps_digest.then_some([0; 32]),
            programs: ProgramTable::new(alloc),
            last: None,
        }
    }
}
