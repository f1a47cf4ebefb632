//! The reads that a run of a call made of the storage, in order, each with the origin of its answer.
#![tactic(auto)]

mod items;
mod origin;
mod shared;

ghost use Rattle.std.specs.Prelude.{◌≡◌, ◌++◌, ◌∷◌, [], List, IfOk, OnOk, OnErr};
ghost use Rattle.read_set.specs.declared.Read.{Read};

use items::Items;
pub use origin::{Origin, Version};
use rv_ledger::Key;
pub use shared::SharedVersions;
use std::alloc::{AllocError, Global};
use std::marker::Model;

/// One read of the storage.
#[derive(Debug, Drop)]
pub struct Read {
    /// The key.
    pub key: Key,
    /// The origin of its answer.
    pub origin: Origin,
}

impl Read {
    /// An equal read; refused if memory ran out. If the read passed no version, this takes no memory.
    fn copy(&self) -> Result<Read, AllocError>
        ensures { IfOk result (λ read. read ≡ self.now) }
    {
        Ok(Read {
            key: self.key,
            origin: self.origin.copy()?,
        })
    }
}

/// The reads of one run, in the order in which they were made. A key that is read twice is listed
/// twice.
#[derive(Debug, Drop)]
pub struct ReadSet {
    items: Items,
    alloc: Global,
}

impl Model for ReadSet {
    ghost use Rattle.std.specs.Prelude.{List};
    ghost use Rattle.read_set.specs.Items.{reads_of};
    ghost use Rattle.read_set.specs.declared.Read.{Read};

    ghost Value = { List Read };

    ghost view = { λ s. reads_of s.items };
}

impl ReadSet {
    /// No reads. Takes no memory.
    pub(crate) fn new(alloc: Global) -> ReadSet
        ensures { result ≡ [] }
    {
        ReadSet {
            items: Items::Many(Vec::new(alloc)),
            alloc,
        }
    }

    /// No reads, with room for `count` of them; refused if memory ran out.
    pub fn with_capacity(alloc: Global, count: usize) -> Result<ReadSet, AllocError>
        ensures { IfOk result (λ s. s ≡ []) }
    {
        let items = Items::Many(Vec::with_capacity(alloc, count)?);
        Ok(ReadSet { items, alloc })
    }

    /// One read. Takes no memory.
    #[inline(always)]
    pub fn one(alloc: Global, read: Read) -> ReadSet
        ensures { result ≡ read ∷ [] }
    {
        ReadSet {
            items: Items::One([read]),
            alloc,
        }
    }

    /// Two reads, in order. Takes no memory.
    #[inline(always)]
    pub fn two(alloc: Global, first: Read, second: Read) -> ReadSet
        ensures { result ≡ first ∷ second ∷ [] }
    {
        ReadSet {
            items: Items::Two([first, second]),
            alloc,
        }
    }

    /// Adds a read at the end; refused if memory ran out, and then nothing changes.
    pub fn push(&mut self, read: Read) -> Result<(), AllocError>
        ensures ok { OnOk result (self.new ≡ self.old ++ read ∷ []) }
        ensures err { OnErr result (self.new ≡ self.old) }
    {
        self.items.push(self.alloc, read)
    }

    /// The reads in order.
    pub fn reads(&self) -> &[Read]
        ensures { result.now ≡ self.now }
    {
        self.items.as_slice()
    }
}
