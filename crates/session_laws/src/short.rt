//! Values that stay as short as the rules allow.

ghost use Rattle.std.specs.Prelude.{◌≡◌, List, Ok, ℕ};
ghost use Rattle.block_file.specs.Block.{BlockValue, parsed_block};
ghost use Rattle.elf32.specs.Layout.{Layout};
ghost use Rattle.programs.specs.Programs.{calls_over};
ghost use Rattle.session_requests.specs.Requests.{Ask};
ghost use Rattle.session_laws.specs.Chained.{AreShort};
ghost use Rattle.rv_ledger.specs.Key.{Storage};
ghost use Rattle.rv_step.specs.Fold.{store_after};
ghost use Rattle.session_serving.specs.Serving.{AreAnswered, state_after};
ghost use Rattle.session_turns.specs.Failures.{IsAnswer};
ghost use Rattle.session_turns.specs.Turn.{new_session, turn};
ghost use Rattle.session_turns.specs.declared.settings.Settings.{Settings};
ghost use Rattle.session_turns.specs.declared.state.State.{State};

/// A law, and no code: the storage of a block file has no value that is longer than its rules allow, 64 bytes or 256. The calls
/// of a block leave no such value over a storage that has none. The same holds for a session: a new one has none, and a request
/// leaves none if there was none. So no session that comes from a new one by requests has one, even if memory ran out at some of
/// them.
pub fn values_stay_short()
    ensures read { (bytes : List ℕ) (block : BlockValue) → parsed_block bytes ≡ Ok block → AreShort block.rules block.store }
    ensures block { (block : BlockValue) (images : List Layout) (store : Storage)
        → AreShort block.rules store → AreShort block.rules (store_after (calls_over block images) store) }
    ensures new { (settings : Settings) → AreShort (new_session settings).rules (new_session settings).store }
    ensures turn { (settings : Settings) (s : State) (ask : Ask)
        → AreShort s.rules s.store → AreShort (turn settings s ask).after.rules (turn settings s ask).after.store }
    ensures left { (settings : Settings) (asks : List Ask)
        → AreShort (state_after settings (new_session settings) asks).rules (state_after settings (new_session settings) asks).store }
    ensures answered { (settings : Settings) (after : State) (asks : List Ask) (text : List ℕ)
        → AreAnswered (IsAnswer settings) (new_session settings) asks text after → AreShort after.rules after.store }
{}
