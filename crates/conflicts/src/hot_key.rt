//! Keys at which calls wait.

use rv_ledger::Key;
use std::marker::Model;

/// A key at which some call waits.
#[derive(Drop)]
pub struct HotKey {
    pub(crate) key: Key,
    pub(crate) writers: Vec<u16>,
    pub(crate) waits: u64,
}

impl Model for HotKey {
    ghost use Rattle.conflicts.specs.Sums.{HotKeyView};

    ghost Value = { HotKeyView };

    ghost view = { λ k. record { key = k.key; writers = k.writers.items; waits = k.waits } };
}

impl HotKey {
    ghost use Rattle.std.specs.Prelude.{◌≡◌};

    /// The key.
    pub(crate) fn key(&self) -> &Key
        ensures { result.now ≡ self.now.key }
    {
        &self.key
    }

    /// The calls that change it: that wrote it, removed it or added to it, ascending.
    pub(crate) fn writers(&self) -> &[u16]
        ensures { result.now ≡ self.now.writers }
    {
        self.writers.as_slice()
    }

    /// How many waits there are at it, over all calls.
    pub(crate) fn waits(&self) -> u64
        ensures { result ≡ self.now.waits }
    {
        self.waits
    }
}
