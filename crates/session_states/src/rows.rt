//! The row of a session.

ghost use Rattle.std.specs.Prelude.{◌≡◌, IsTrue, false};
ghost use Rattle.session_states.specs.States.{HasSettings, session_row_of};

use rv_ledger::Rules;
use session_file::SessionRow;
use session_turns::Settings;

/// The row of a session of these settings, under these rules, at this height, with this digest.
pub fn row_of(settings: Settings, rules: Rules, height: u64, digest: [u8; 32]) -> SessionRow
    ensures { result ≡ session_row_of settings rules height digest }
{
    SessionRow {
        frame_limit: settings.frame_limit,
        frame_gas: settings.frame_gas,
        is_brief: settings.is_brief,
        rules,
        height,
        digest,
    }
}

/// Whether a row keeps these settings.
pub(crate) fn has_settings(settings: &Settings, row: &SessionRow) -> bool
    ensures same { IsTrue result → HasSettings settings.now row.now }
    ensures other { result ≡ false → ¬ HasSettings settings.now row.now }
{
    row.frame_limit == settings.frame_limit
        && row.frame_gas == settings.frame_gas
        && row.is_brief == settings.is_brief
}
