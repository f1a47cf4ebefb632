//! The list of a block's records.

ghost use Rattle.std.specs.Prelude.{◌≡◌, ◌+◌, ◌<◌, ◌≤◌, ◌↔◌, [], Err, Ok, OnErr, OnOk, length, max, nat_lt, slice_get, take};
ghost use Rattle.std.specs.Option.{option_map};
ghost use Rattle.rv_ledger.specs.Change.{change_copied};
ghost use Rattle.rv_ledger.specs.Lent.{lent_change};
ghost use Rattle.version_arena.specs.ArenaState.{change_size, emptied, with_record};
ghost use Rattle.version_arena.specs.Lent.{lent};
ghost use Rattle.version_arena.specs.declared.fault.ReserveFault.TheVariants.{ArenaFull};

use crate::fault::ReserveFault;
use crate::pool::Pool;
use crate::record::{Record, VersionId};
use crate::stored_record::StoredRecord;
use rv_ledger::{Change, LentValue, Value, lend_change};
use std::alloc::{AllocError, Global};
use std::marker::Model;

/// The greatest number of records of one block.
pub const RECORD_LIMIT: usize = 1_048_576;

/// How many records the list has room for, once it has room for one. So the records of most blocks are never moved.
const FIRST_ROOM: usize = 1024;

/// The records of one block, in the order in which they were placed, at most 1,048,576. It also has room for a number of
/// further records, and for a number of bytes of their values.
#[derive(Drop)]
pub struct Arena {
    len: usize,
    bytes: usize,
    pool: Pool,
    stored: Vec<StoredRecord>,
}

impl Model for Arena {
    ghost use Rattle.std.specs.Prelude.{◌<◌, ◌≤◌, ◌-◌, ◌+◌, All, length, map, take};
    ghost use Rattle.version_arena.specs.ArenaState.{ArenaState};
    ghost use Rattle.version_arena.specs.StoredRecords.{IsStored, record_of};

    ghost Value = { ArenaState };

    ghost view = { λ a. record { records = map (record_of a.pool.chunks) (take a.len a.stored.items); room = length a.stored.items - a.len; bytes = a.bytes } };

    ghost invariant = { λ a. (a.len ≤ length a.stored.items) × (length a.stored.items ≤ 1048576) × (1 ≤ length a.stored.items + a.bytes → a.bytes < a.pool.room) × All (IsStored a.pool.chunks) (take a.len a.stored.items) };
}

impl Arena {
    /// No records, and no room for any. Takes no memory.
    pub fn new(alloc: Global) -> Arena
        ensures { result ≡ record { records = []; room = 0; bytes = 0 } }
    {
        Arena {
            stored: Vec::new(alloc),
            len: 0,
            bytes: 0,
            pool: Pool::new(alloc),
        }
    }

    /// Makes room for `records` more records, whose values together have at most `bytes` bytes. Refused as ArenaFull exactly if
    /// there would be more than 1,048,576 records, and as Memory if memory ran out; a refusal changes nothing. Room that is
    /// there already takes no memory.
    pub fn reserve(&mut self, records: usize, bytes: usize) -> Result<(), ReserveFault>
        ensures full { (result ≡ Err ArenaFull) ↔ (1048576 < length self.old.records + records) }
        ensures ok { OnOk result ((records ≤ self.new.room) × (bytes ≤ self.new.bytes)) }
        ensures records { self.new.records ≡ self.old.records }
        ensures room { self.old.room ≤ self.new.room }
        ensures bytes { self.old.bytes ≤ self.new.bytes }
        ensures unchanged { OnErr result (self.new ≡ self.old) }
        ensures succeeds { records ≤ self.old.room → bytes ≤ self.old.bytes → result ≡ Ok tt }
    {
        if self.is_full_for(records) {
            return Err(ReserveFault::ArenaFull);
        }
        if records <= self.stored.len() - self.len && bytes <= self.bytes {
            return Ok(());
        }
        let bytes = self.bytes.max(bytes);
        self.pool.reserve(bytes)?;
        grow(&mut self.stored, self.len + records)?;
        self.bytes = bytes;
        Ok(())
    }

    /// Whether this many more records would make more than 1,048,576 in all.
    pub fn is_full_for(&self, records: usize) -> bool
        ensures full { result ≡ nat_lt 1048576 (length self.now.records + records) }
        ensures limit { length self.now.records + self.now.room ≤ 1048576 }
    {
        records > RECORD_LIMIT - self.len
    }

    /// Adds a record at the end, in room that was reserved, and returns its name. Takes no memory.
    pub fn place(&mut self, writer: u16, incarnation: u16, change: Change<&Value>) -> VersionId
        requires room { 1 ≤ self.old.room }
        requires bytes { change_size (change_copied change) ≤ self.old.bytes }
        ensures id { result ≡ length self.old.records }
        ensures placed { self.new ≡ with_record writer incarnation (change_copied change.entry) self.old }
    {
        self.place_lent(writer, incarnation, lend_change(change))
    }

    /// The same with a value that is lent.
    pub fn place_lent(
        &mut self,
        writer: u16,
        incarnation: u16,
        change: Change<LentValue>,
    ) -> VersionId
        requires room { 1 ≤ self.old.room }
        requires bytes { change_size (lent_change change) ≤ self.old.bytes }
        ensures id { result ≡ length self.old.records }
        ensures placed { self.new ≡ with_record writer incarnation (lent_change change.entry) self.old }
    {
        let place = self.len;
        let bytes = len_of(&change);
        self.stored[place] = StoredRecord::of(&mut self.pool, writer, incarnation, change);
        self.len += 1;
        self.bytes -= bytes;
        VersionId::at(place)
    }

    /// The record with this name, or None if no record has it.
    pub fn get(&self, id: VersionId) -> Option<Record<'_>>
        ensures { option_map lent result ≡ slice_get self.now.records id }
    {
        let place = id.place();
        if place >= self.len {
            return None;
        }
        let stored = &self.stored[place];
        Some(stored.record(&self.pool))
    }

    /// How many records there are, at most 1,048,576.
    pub fn len(&self) -> usize
        ensures len { result ≡ length self.now.records }
        ensures limit { result ≤ 1048576 }
    {
        self.len
    }

    /// Removes all records and keeps their room. An earlier name never gives a removed record again, but it may give one that
    /// is placed later. Takes no memory.
    pub fn reset(&mut self)
        ensures { self.new ≡ emptied self.old }
    {
        self.pool.rewind();
        self.len = 0;
    }
}

/// Adds room for records until there is room for at least `count`. Refused if memory ran out, and then nothing changes.
fn grow(stored: &mut Vec<StoredRecord>, count: usize) -> Result<(), AllocError>
    requires { (count ≤ 1048576) × (length stored.old.items ≤ 1048576) }
    ensures ok { OnOk result (length stored.new.items ≡ max count (length stored.old.items)) }
    ensures begins { take (length stored.old.items) stored.new.items ≡ stored.old.items }
    ensures unchanged { OnErr result (stored.new.items ≡ stored.old.items) }
    ensures succeeds { count ≤ length stored.old.items → result ≡ Ok tt }
{
    if count <= stored.len() {
        return Ok(());
    }
    stored.reserve(count.max(FIRST_ROOM) - stored.len())?;
    while stored.len() < count {
        stored.push_reserved(StoredRecord::vacant());
    }
    Ok(())
}

/// The number of bytes that a change takes: those of a value.
fn len_of(change: &Change<LentValue>) -> usize
    ensures { result ≡ change_size (lent_change change.now) }
{
    match change {
        Change::Value(value) => value.bytes().len(),
        Change::Gone | Change::Sum(_) => 0,
    }
}
