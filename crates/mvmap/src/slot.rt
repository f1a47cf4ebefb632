//! The slot of a call at a key.

use version_arena::VersionId;

/// The slot of a call at a key.
#[derive(Clone, Copy, Default, Drop)]
pub(crate) enum Slot {
    /// The call has no entry there.
    #[default]
    Vacant,
    /// The call is expected to write the key again.
    Estimate,
    /// The call wrote this record.
    Placed(VersionId),
}
