//! The answer that is kept of a frame.

use crate::refusal::FrameRefusal;
use std::alloc::Global;
use std::marker::Model;

/// The bytes of an answer that is kept.
#[derive(Drop)]
pub struct KeptBytes {
    bytes: Vec<u8>,
}

impl Model for KeptBytes {
    ghost use Rattle.std.specs.Prelude.{List, ℕ};
    ghost use Rattle.std.specs.Coded.{coded_list, coded_ℕ};

    ghost Value = { List ℕ };

    ghost coded = { coded_list coded_ℕ };

    ghost view = { λ b. b.bytes.items };
}

impl KeptBytes {
    ghost use Rattle.std.specs.Prelude.{◌≡◌, []};

    /// Bytes, which are moved in.
    pub(crate) fn of(bytes: Vec<u8>) -> KeptBytes
        ensures { result ≡ bytes.items }
    {
        KeptBytes { bytes }
    }

    /// No bytes.
    pub(crate) fn none(alloc: Global) -> KeptBytes
        ensures { result ≡ [] }
    {
        KeptBytes {
            bytes: Vec::new(alloc),
        }
    }

    /// All bytes of the answer that is kept, lent.
    pub fn as_slice(&self) -> &[u8]
        ensures { result.now ≡ self.now }
    {
        self.bytes.as_slice()
    }
}

/// The answer to the last frame that counts.
#[derive(Drop)]
pub struct KeptAnswer {
    /// Why the frame was refused, if it was.
    pub refusal: Option<FrameRefusal>,
    /// The bytes after the answer's line; none for a refusal.
    pub bytes: KeptBytes,
}
