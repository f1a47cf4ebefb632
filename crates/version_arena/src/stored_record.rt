//! The records as an arena keeps them.

ghost use Rattle.std.specs.Prelude.{◌≡◌, ◌+◌, ◌<◌};
ghost use Rattle.rv_ledger.specs.Change.{IfValue, change_map};
ghost use Rattle.rv_ledger.specs.Lent.{lent_change};
ghost use Rattle.version_arena.specs.ArenaState.{change_size};
ghost use Rattle.version_arena.specs.Chunks.{KeepsBytes, part};
ghost use Rattle.version_arena.specs.Lent.{lent};
ghost use Rattle.version_arena.specs.StoredRecords.{IsShortSpan, IsStored, record_of};

use crate::pool::{Pool, Span};
use crate::record::Record;
use rv_ledger::{Change, LentValue};

/// A record as an arena keeps it: who wrote it, what it did to its key, and the place of the bytes of a value.
#[derive(Drop)]
pub(crate) struct StoredRecord {
    writer: u16,
    incarnation: u16,
    change: Change<Span>,
}

impl StoredRecord {
    /// The record with this writer, incarnation and change. The bytes of a value are copied into room that was
    /// reserved. Takes no memory.
    pub(crate) fn of(
        pool: &mut Pool,
        writer: u16,
        incarnation: u16,
        change: Change<LentValue>,
    ) -> StoredRecord
        requires { change_size (lent_change change) < pool.old.room }
        ensures record { record_of pool.new.chunks result ≡ record { writer = writer; incarnation = incarnation; change = lent_change change.entry } }
        ensures stored { IsStored pool.new.chunks result }
        ensures keeps { KeepsBytes pool.old.chunks pool.new.chunks }
        ensures room { pool.new.room + change_size (lent_change change.entry) ≡ pool.old.room }
    {
        StoredRecord {
            writer,
            incarnation,
            change: store(pool, change),
        }
    }

    /// A filler in the room for a record that is not placed yet.
    pub(crate) fn vacant() -> StoredRecord {
        StoredRecord {
            writer: 0,
            incarnation: 0,
            change: Change::Gone,
        }
    }

    /// The record, as it is lent.
    pub(crate) fn record<'a>(&self, pool: &'a Pool) -> Record<'a>
        requires { IsStored pool.now.chunks self.now }
        ensures { lent result ≡ record_of pool.now.chunks self.now }
    {
        Record {
            writer: self.writer,
            incarnation: self.incarnation,
            change: load(pool, &self.change),
        }
    }
}

/// Copies the bytes of a value into the pool.
fn store(pool: &mut Pool, change: Change<LentValue>) -> Change<Span>
    requires { change_size (lent_change change) < pool.old.room }
    ensures value { change_map (part pool.new.chunks) result ≡ lent_change change.entry }
    ensures stored { IfValue result (IsShortSpan pool.new.chunks) }
    ensures keeps { KeepsBytes pool.old.chunks pool.new.chunks }
    ensures room { pool.new.room + change_size (lent_change change.entry) ≡ pool.old.room }
{
    match change {
        Change::Value(value) => Change::Value(pool.write(value)),
        Change::Gone => Change::Gone,
        Change::Sum(amount) => Change::Sum(amount),
    }
}

/// Lends a value.
fn load<'a>(pool: &'a Pool, change: &Change<Span>) -> Change<LentValue<'a>>
    requires { IfValue change.now (IsShortSpan pool.now.chunks) }
    ensures { lent_change result ≡ change_map (part pool.now.chunks) change.now }
{
    match change {
        Change::Value(span) => Change::Value(LentValue::of(pool.read(*span))),
        Change::Gone => Change::Gone,
        Change::Sum(amount) => Change::Sum(*amount),
    }
}
