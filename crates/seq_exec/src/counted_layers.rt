//! A storage with changes over it, which counts its reads.

use overlay::Layers;
use rv_ledger::{Contents, Key, StoredValue};
use std::cell::Cell;

/// A storage with changes over it, and a count of the reads of its keys.
#[derive(Drop)]
pub(crate) struct CountedLayers<'a> {
    pub(crate) layers: Layers<'a>,
    pub(crate) reads: &'a Cell<u64>,
}

impl Contents for CountedLayers<'_> {
    ghost use Rattle.overlay.specs.Overlay.{with_changes};

    ghost storage = { λ c. with_changes c.layers.base.now c.layers.over.now };

    fn get(&self, key: &Key) -> Option<&StoredValue> {
        self.reads.set(self.reads.get().wrapping_add(1));
        self.layers.get(key)
    }
}
