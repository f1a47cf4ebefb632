//! Laws of what a file keeps.

ghost use Rattle.std.specs.Prelude.{◌≡◌};
ghost use Rattle.session_file.specs.Kept.{Kept};
ghost use Rattle.session_states.specs.States.{FileState, KeepsState};
ghost use Rattle.session_turns.specs.declared.settings.Settings.{Settings};

/// A law, and no code: what a file keeps is one state of a session at most. So what is loaded is what was kept.
pub fn kept_state_is_one()
    ensures { (settings : Settings) (f g : FileState) (k : Kept) → KeepsState settings f k → KeepsState settings g k → f ≡ g }
{}
