//! The settings of a session.

ghost use Rattle.std.specs.Prelude.{◌≡◌, None, false};

/// What a session is opened with. Sessions of equal settings answer equal requests the same way.
#[derive(Clone, Copy, Debug, PartialEq, Eq)]
pub struct Settings {
    /// The greatest length of a frame, in bytes.
    pub frame_limit: u64,
    /// The greatest sum of the gas limits of a frame's calls, or None if it has no bound.
    pub frame_gas: Option<u64>,
    /// Whether a digest of the answers is kept.
    pub keeps_digest: bool,
    /// Whether receipts have no `regs` lines.
    pub is_brief: bool,
}

impl Settings {
    /// The settings if none is given: frames of at most 64 MiB, gas without a bound, no digest, receipts with registers.
    pub fn new() -> Settings
        ensures { result ≡ record { frame_limit = 67108864; frame_gas = None; keeps_digest = false; is_brief = false } }
    {
        Settings {
            frame_limit: 67_108_864,
            frame_gas: None,
            keeps_digest: false,
            is_brief: false,
        }
    }
}
