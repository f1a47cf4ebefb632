//! A record as an arena lends it, and the name of a record.

use rv_ledger::{Change, LentValue};
use std::marker::Model;

/// The name of a record: its place in the arena's list. A record that was placed later has a greater one.
#[derive(Clone, Copy, Debug, PartialEq, Eq, PartialOrd, Ord)]
pub struct VersionId {
    pub(crate) place: u32,
}

impl Model for VersionId {
    ghost use Rattle.std.specs.Prelude.{ℕ};

    ghost Value = { ℕ };

    ghost view = { λ v. v.place };

    ghost inverse = { λ n. record { place = n } };
}

impl VersionId {
    ghost use Rattle.std.specs.Prelude.{◌≡◌, ◌<◌};

    /// The name of the record at a place, which is below 1,048,576.
    pub(crate) fn at(place: usize) -> VersionId
        requires { place < 1048576 }
        ensures { result ≡ place }
    {
        VersionId {
            place: place as u32,
        }
    }

    /// The place of the record.
    pub(crate) fn place(self) -> usize
        ensures { result ≡ self }
    {
        self.place as usize
    }
}

/// A record, lent by its arena: what one run of a call did to one key.
#[derive(Drop)]
pub struct Record<'a> {
    /// The index of the call that wrote it.
    pub writer: u16,
    /// Which run of that call wrote it.
    pub incarnation: u16,
    /// What it did to the key; a value is lent.
    pub change: Change<LentValue<'a>>,
}
