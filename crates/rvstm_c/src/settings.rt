//! The settings that C hands over.

ghost use Rattle.std.specs.Prelude.{◌≡◌, Some};
ghost use Rattle.rvstm_c.specs.Settings.{gas_of, number_of, settings_of};

use crate::fields::MOST_NUMBER;
use session_turns::Settings;

/// The number that stands for no bound.
const NO_LIMIT: u64 = u64::MAX;

/// What a session is opened with, as C hands it over.
#[repr(C)]
#[derive(Clone, Copy)]
pub struct SettingsForC {
    /// The greatest length of a frame, in bytes: at most 9,999,999,999.
    pub frame_limit: u64,
    /// The greatest sum of the gas limits of a frame's calls: at most 9,999,999,999, or 2^64 - 1 if it has no bound.
    pub frame_gas: u64,
    /// Whether a digest of the answers is kept.
    pub digest: bool,
    /// Whether receipts have no `regs` lines.
    pub brief: bool,
}

/// The settings of a session, or None if a number is too great.
pub(crate) fn settings_of(given: SettingsForC) -> Option<Settings>
    ensures { result ≡ settings_of given }
{
    let frame_limit = number_of(given.frame_limit)?;
    let frame_gas = gas_of(given.frame_gas)?;
    Some(Settings {
        frame_limit,
        frame_gas,
        keeps_digest: given.digest,
        is_brief: given.brief,
    })
}

/// A number of at most 9,999,999,999, or None for a greater one.
fn number_of(number: u64) -> Option<u64>
    ensures { result ≡ number_of number }
{
    if number <= MOST_NUMBER {
        return Some(number);
    }
    None
}

/// A bound of the gas, which may be none, or None for a number that is too great.
fn gas_of(number: u64) -> Option<Option<u64>>
    ensures { result ≡ gas_of number }
{
    if number == NO_LIMIT {
        return Some(None);
    }
    match number_of(number) {
        Some(gas) => Some(Some(gas)),
        None => None,
    }
}
