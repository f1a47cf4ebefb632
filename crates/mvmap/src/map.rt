//! The map of a block's versions.

use crate::answer::{Answer, LentAnswer};
use crate::slot::Slot;
use crate::slots::Slots;
use crate::snapshot::apply_slots;
use crate::walk::{has_walk, walk, with_amount};
use read_set::{Origin, Version};
use rv_ledger::{Change, Key, LentValue, Store, StoredValue, Value, lend_change};
use std::alloc::{AllocError, Global};
use std::marker::Model;
use version_arena::{Arena, ReserveFault};

/// For each key the entries of the calls that write it: versions, whose bytes are in the map's arena,
/// and estimates.
#[derive(Drop)]
pub struct MvMap {
    arena: Arena,
    slots: Slots,
}

impl Model for MvMap {
    ghost use Rattle.std.specs.Coded.{codes};
    ghost use Rattle.std.specs.FinMap as map;
    ghost use Rattle.std.specs.FinSet as set;
    ghost use Rattle.mvmap.specs.Versions.{coded_entry, coded_place, place_cmp};
    ghost use Rattle.mvmap.specs.Table.{Table};
    ghost use Rattle.mvmap.specs.Slots.{AreSlotsPlaced, places_of, versions_of};

    ghost Value = { Table };

    ghost coded = { Prim.hlevel (codes, map.code {R = place_cmp} coded_place coded_entry, set.code {R = place_cmp} coded_place) };

    ghost view = { λ m. record { versions = versions_of m.arena.records m.slots; places = places_of m.slots; arena = m.arena } };

    ghost invariant = { λ m. AreSlotsPlaced m.arena.records m.slots };
}

impl MvMap {
    ghost use Rattle.std.specs.Prelude.{◌≡◌, ◌≢◌, ◌≤◌, ◌+◌, ◌<◌, ◌↔◌, ℕ, [], Err, IsTrue, List, None, Ok, OnErr, OnOk, length, vec_capacity};
    ghost use Rattle.rv_ledger.specs.Change.{change_copied};
    ghost use Rattle.rv_ledger.specs.Lent.{lent_change};
    ghost use Rattle.std.specs.List.{All};
    ghost use Rattle.std.specs.FinMap as map;
    ghost use Rattle.std.specs.FinSet as set;
    ghost use Rattle.version_arena.specs.ArenaState.{change_size, emptied, with_record};
    ghost use Rattle.version_arena.specs.declared.fault.ReserveFault.TheVariants.{ArenaFull};
    ghost use Rattle.mvmap.specs.Versions.{Estimate, HasNoEstimate, Place, Stands, entry_at};
    ghost use Rattle.mvmap.specs.Reading.{is_origin, reading, value_seen};
    ghost use Rattle.mvmap.specs.Answers.{Tells, added};

    /// A map without versions over an arena. The arena's records are removed, and their room stays.
    /// Takes no memory.
    pub fn over(alloc: Global, arena: Arena) -> MvMap
        ensures versions { result.versions ≡ map.empty }
        ensures places { result.places ≡ set.empty }
        ensures records { result.arena.records ≡ [] }
        ensures arena { result.arena ≡ emptied arena }
    {
        let mut empty = arena;
        empty.reset();
        MvMap {
            slots: Slots::new(alloc),
            arena: empty,
        }
    }

    /// The map's arena, without its records and with their room. Takes no memory.
    pub fn into_arena(self) -> Arena
        ensures { result ≡ emptied self.arena }
    {
        let MvMap {
            slots: _,
            arena: mut left,
        } = self;
        left.reset();
        left
    }

    /// What the call of index `i` sees of a key. From the highest call below `i` downwards it passes the versions that add an
    /// amount, and writes them into `passed`, in room that must be there. It ends at a value or a removal, at an estimate, or at
    /// Base if no further call down has an entry. Takes no memory.
    pub fn read(&self, key: &Key, i: u16, passed: &mut Vec<Version>) -> Answer
        requires { i ≤ vec_capacity passed.old }
        ensures tells { Tells result passed.new.items (reading self.now.versions key.now i) }
        ensures count { length passed.new.items ≤ i }
        ensures room { vec_capacity passed.new ≡ vec_capacity passed.old }
    {
        match self.read_lent(key, i, passed) {
            LentAnswer::Base(sum) => Answer::Base(sum),
            LentAnswer::Found(version, content, sum) => {
                Answer::Found(version, with_amount(content, sum))
            }
            LentAnswer::Estimate(writer) => Answer::Estimate(writer),
        }
    }

    /// The same, but the value of a version is lent and no amount is added yet.
    pub fn read_lent(&self, key: &Key, i: u16, passed: &mut Vec<Version>) -> LentAnswer<'_>
        requires { i ≤ vec_capacity passed.old }
        ensures tells { Tells (added result) passed.new.items (reading self.now.versions key.now i) }
        ensures count { length passed.new.items ≤ i }
        ensures room { vec_capacity passed.new ≡ vec_capacity passed.old }
    {
        walk(self.slots.at(key), &self.arena, i, passed)
    }

    /// Whether what the call of index `i` sees of a key has this origin: it passes these very versions, and finds that very
    /// version below them, or the storage before the block. If it meets an estimate, it has no origin. Takes no memory.
    pub fn still_has(&self, key: &Key, i: u16, origin: &Origin) -> bool
        ensures { result ≡ is_origin origin.now (reading self.now.versions key.now i) }
    {
        has_walk(self.slots.at(key), &self.arena, i, origin)
    }

    /// Makes room for an entry of call `i` at the key of each of these writes, beside the room that was made before, and for
    /// `records` more records with `bytes` bytes of values. Refused as ArenaFull exactly if there would be more than 1,048,576
    /// records: this is tested first, and nothing changes. Refused as Memory if memory ran out: then some entries may have got
    /// room, and nothing else changes.
    pub fn reserve_for(
        &mut self,
        writes: &[(Key, Change<StoredValue>)],
        i: u16,
        records: usize,
        bytes: usize,
    ) -> Result<(), ReserveFault>
        ensures full { (result ≡ Err ArenaFull) ↔ (1048576 < length self.old.arena.records + records) }
        ensures ok { OnOk result (All (λ write. IsTrue (set.contains self.new.places (write.0, i))) writes.now × (records ≤ self.new.arena.room) × (bytes ≤ self.new.arena.bytes)) }
        ensures versions { self.new.versions ≡ self.old.versions }
        ensures records { self.new.arena.records ≡ self.old.arena.records }
        ensures places { (place : Place) → IsTrue (set.contains self.old.places place) → IsTrue (set.contains self.new.places place) }
        ensures room { self.old.arena.room ≤ self.new.arena.room }
        ensures bytes { self.old.arena.bytes ≤ self.new.arena.bytes }
        ensures elsewhere { (place : Place) → All (λ write. (write.0, i) ≢ place) writes.now → set.contains self.new.places place ≡ set.contains self.old.places place }
        ensures unchanged { result ≡ Err ArenaFull → self.new ≡ self.old }
        ensures refused { OnErr result (self.new ≡ record self.old { places = self.new.places }) }
        ensures succeeds { All (λ write. IsTrue (set.contains self.old.places (write.0, i))) writes.now → records ≤ self.old.arena.room → bytes ≤ self.old.arena.bytes → result ≡ Ok tt }
    {
        if self.arena.is_full_for(records) {
            return Err(ReserveFault::ArenaFull);
        }
        self.slots.open_all(writes, i)?;
        self.arena.reserve(records, bytes)
    }

    /// Makes the entry of a call at a key the version that its run wrote: what it did to the key. Room for
    /// the entry and its record must have been made. Takes no memory.
    pub fn publish(&mut self, key: &Key, writer: u16, incarnation: u16, change: Change<&Value>)
        requires place { IsTrue (set.contains self.old.places (key.now, writer)) }
        requires room { 1 ≤ self.old.arena.room }
        requires bytes { change_size (change_copied change) ≤ self.old.arena.bytes }
        ensures versions { self.new.versions ≡ map.insert self.old.versions (key.now, writer) (Stands incarnation (change_copied change.entry)) }
        ensures places { self.new.places ≡ self.old.places }
        ensures arena { self.new.arena ≡ with_record writer incarnation (change_copied change.entry) self.old.arena }
    {
        self.publish_lent(key, writer, incarnation, lend_change(change));
    }

    /// The same with a value that is lent.
    pub fn publish_lent(
        &mut self,
        key: &Key,
        writer: u16,
        incarnation: u16,
        change: Change<LentValue>,
    )
        requires place { IsTrue (set.contains self.old.places (key.now, writer)) }
        requires room { 1 ≤ self.old.arena.room }
        requires bytes { change_size (lent_change change) ≤ self.old.arena.bytes }
        ensures versions { self.new.versions ≡ map.insert self.old.versions (key.now, writer) (Stands incarnation (lent_change change.entry)) }
        ensures places { self.new.places ≡ self.old.places }
        ensures arena { self.new.arena ≡ with_record writer incarnation (lent_change change.entry) self.old.arena }
    {
        let id = self.arena.place_lent(writer, incarnation, change);
        self.slots.put(key, writer, Slot::Placed(id));
    }

    /// Removes the entry of a call at a key; nothing changes if there is none. Takes no memory.
    pub fn withdraw(&mut self, key: &Key, writer: u16)
        ensures { self.new ≡ record self.old { versions = map.remove self.old.versions (key.now, writer) } }
    {
        self.slots.put(key, writer, Slot::Vacant);
    }

    /// Makes the entry of a call at a key an estimate. Room for the entry must have been made. Takes no
    /// memory.
    pub fn to_estimate(&mut self, key: &Key, writer: u16)
        requires { IsTrue (set.contains self.old.places (key.now, writer)) }
        ensures { self.new ≡ record self.old { versions = map.insert self.old.versions (key.now, writer) Estimate } }
    {
        self.slots.put(key, writer, Slot::Estimate);
    }

    /// How many records the arena has, at most 1,048,576.
    pub fn record_count(&self) -> usize
        ensures placed { result ≡ length self.now.arena.records }
        ensures limit { result ≤ 1048576 }
    {
        self.arena.len()
    }

    /// Applies the versions to a storage: then each key has what a call above all writers sees of it. No entry may be an
    /// estimate. Refused if memory ran out: then the storage must be dropped, since it may have some of the versions.
    pub fn snapshot_into(&self, store: &mut Store) -> Result<(), AllocError>
        requires { HasNoEstimate self.now.versions }
        ensures { OnOk result ((key : List ℕ) (i : ℕ) → ((w : ℕ) → i ≤ w → entry_at self.now.versions key w ≡ None) → map.get store.new key ≡ value_seen (map.get store.old key) (reading self.now.versions key i)) }
    {
        apply_slots(&self.slots, &self.arena, store)
    }

    /// Removes all versions, all room for entries and all records; the room of the records stays. Takes
    /// no memory.
    pub fn clear(&mut self)
        ensures versions { self.new.versions ≡ map.empty }
        ensures places { self.new.places ≡ set.empty }
        ensures records { self.new.arena.records ≡ [] }
        ensures arena { self.new.arena ≡ emptied self.old.arena }
    {
        self.slots.clear();
        self.arena.reset();
    }
}
