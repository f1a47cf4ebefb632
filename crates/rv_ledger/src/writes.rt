//! What a call has written: the last write to each key, for at most 256 keys.

ghost use Rattle.std.specs.Prelude.{◌≡◌, ◌+◌, ℕ, IfErr, IfOk, List, OnErr, OnOk, Some, if◌then◌else◌, is_some, length};
ghost use Rattle.std.specs.BTreeMap.{is_at};
ghost use Rattle.std.specs.Map.{lookup};
ghost use Rattle.std.specs.Option.{option_copied};
ghost use Rattle.rv_ledger.specs.Change.{change_copied};
ghost use Rattle.rv_ledger.specs.Entries.{AreAscending, IsAt, IsGapFor};
ghost use Rattle.rv_ledger.specs.Key.{key_cmp};

use crate::change::Change;
use crate::inline_bytes::Value;
use crate::key::Key;
use crate::stored_bytes::StoredValue;
use std::alloc::{AllocError, Global};
use std::marker::Model;

/// The greatest number of keys that one call may write.
pub(crate) const WRITE_LIMIT: usize = 256;

/// How many writes the list gets room for at first. Most calls write no more keys.
const FIRST_ROOM: usize = 2;

/// A write to one key: its new value, its removal, or an amount that is added.
#[derive(Debug, Drop)]
pub struct Write {
    /// The key.
    pub key: Key,
    /// What is done to it.
    pub change: Change<Value>,
}

/// The writes of one call, the last to each key, for at most 256 keys. They are in a list, in the order of their keys.
/// So a call that writes a few keys takes room for these alone. A tree's leaf would have room for fifteen.
#[derive(Drop)]
pub struct Writes {
    entries: Vec<(Key, Change<StoredValue>)>,
}

impl Model for Writes {
    ghost use Rattle.std.specs.FinMap as map;
    ghost use Rattle.std.specs.Coded.{coded_list, coded_ℕ};
    ghost use Rattle.rv_ledger.specs.Change.{coded_change};
    ghost use Rattle.rv_ledger.specs.Key.{WriteMap};
    ghost use Rattle.rv_ledger.specs.Entries.{IsWriteList};

    ghost Value = { WriteMap };

    ghost coded = { map.code (coded_list coded_ℕ) coded_change };

    ghost view = { λ w. map.from_entries w.entries.items };

    ghost invariant = { λ w. IsWriteList w.entries.items };
}

impl Writes {
    ghost use Rattle.std.specs.Prelude.{◌≡◌, ◌≤◌, IsTrue, OnOk, OnErr, IfOk};
    ghost use Rattle.std.specs.Option.{option_copied};
    ghost use Rattle.std.specs.FinMap as map;
    ghost use Rattle.rv_ledger.specs.Change.{change_copied};
    ghost use Rattle.rv_ledger.specs.Key.{has_room};

    /// No writes.
    pub fn new(alloc: Global) -> Writes
        ensures { result ≡ map.empty }
    {
        Writes {
            entries: Vec::new(alloc),
        }
    }

    /// The allocator of the writes.
    pub fn allocator(&self) -> Global {
        *self.entries.allocator()
    }

    /// What was last done to a key, or None if it was not written.
    pub fn get(&self, key: &Key) -> Option<&Change<StoredValue>>
        ensures { option_copied result ≡ map.get self.now key.now }
    {
        get(self.entries.as_slice(), key)
    }

    /// The number of written keys, at most 256.
    pub fn len(&self) -> usize
        ensures { result ≡ map.len self.now }
    {
        self.entries.len()
    }

    /// For a caller's proof: at most 256 keys are written. Does nothing when it runs.
    pub fn holds(&self)
        ensures { map.len self.now ≤ 256 }
    {
        let _ = &self.entries;
    }

    /// Whether a key may be written: it was written already, or fewer than 256 other keys were.
    pub fn has_room(&self, key: &Key) -> bool
        ensures { result ≡ has_room self.now key.now }
    {
        self.entries.len() < WRITE_LIMIT || self.get(key).is_some()
    }

    /// Records a write, in place of an earlier one to the same key. `has_room` must allow the key.
    /// Refused if memory ran out, and then nothing changes.
    pub fn insert(&mut self, write: Write) -> Result<(), AllocError>
        requires { IsTrue (has_room self.old write.key) }
        ensures ok { OnOk result (self.new ≡ map.insert self.old write.key write.change) }
        ensures err { OnErr result (self.new ≡ self.old) }
    {
        self.set(write.key, write.change.as_ref())
    }

    /// Records a write like `insert`, whose value is lent.
    pub fn set(&mut self, key: Key, change: Change<&Value>) -> Result<(), AllocError>
        requires { IsTrue (has_room self.old key) }
        ensures ok { OnOk result (self.new ≡ map.insert self.old key (change_copied change.entry)) }
        ensures err { OnErr result (self.new ≡ self.old) }
    {
        let change = stored(*self.entries.allocator(), change)?;
        put(&mut self.entries, key, change)?;
        Ok(())
    }

    /// Forgets all writes.
    pub fn clear(&mut self)
        ensures { self.new ≡ map.empty }
    {
        self.entries.clear();
    }

    /// The written keys, ascending, each with what was last done to it.
    pub fn as_slice(&self) -> &[(Key, Change<StoredValue>)]
        ensures { result.now ≡ map.entries self.now }
    {
        self.entries.as_slice()
    }

    /// Equal writes; refused if memory ran out.
    pub fn copy(&self) -> Result<Writes, AllocError>
        ensures { IfOk result (λ w. w ≡ self.now) }
    {
        let entries = self.entries.clone()?;
        Ok(Writes { entries })
    }
}

/// The position of a key's entry among entries in the order of their keys, or the position at which it would go.
fn search(entries: &[(Key, Change<StoredValue>)], key: &Key) -> Result<usize, usize>
    requires { AreAscending entries.now }
    ensures found { IfOk result (IsAt entries.now key.now) }
    ensures absent { IfErr result (IsGapFor entries.now key.now) }
{
    entries.binary_search_by(|entry| entry.0.cmp(key))
}

/// The change of a key among entries in the order of their keys, or None if it has none.
fn get<'a>(entries: &'a [(Key, Change<StoredValue>)], key: &Key) -> Option<&'a Change<StoredValue>>
    requires { AreAscending entries.now }
    ensures { option_copied result ≡ lookup (is_at (key_cmp key.now)) entries.now }
{
    match search(entries, key) {
        Ok(at) => Some(&entries[at].1),
        Err(_) => None,
    }
}

/// Puts the change of a key among entries in the order of their keys, in place of an earlier one. Refused if memory ran
/// out, and then nothing changes.
fn put(
    entries: &mut Vec<(Key, Change<StoredValue>)>,
    key: Key,
    change: Change<StoredValue>,
) -> Result<(), AllocError>
    requires { AreAscending entries.old.items }
    ensures ascending { AreAscending entries.new.items }
    ensures ok { OnOk result ((q : List ℕ) → lookup (is_at (key_cmp q)) entries.new.items ≡ (if is_at (key_cmp key) q then Some change else lookup (is_at (key_cmp q)) entries.old.items)) }
    ensures len { OnOk result (length entries.new.items ≡ length entries.old.items + (if is_some (lookup (is_at (key_cmp key)) entries.old.items) then 0 else 1)) }
    ensures err { OnErr result (entries.new.items ≡ entries.old.items) }
{
    match search(entries.as_slice(), &key) {
        Ok(at) => {
            entries[at] = (key, change);
            Ok(())
        }
        Err(at) => {
            reserve_first(entries)?;
            Ok(entries.insert(at, (key, change))?)
        }
    }
}

/// Makes room for the first entries; refused if memory ran out.
fn reserve_first(entries: &mut Vec<(Key, Change<StoredValue>)>) -> Result<(), AllocError>
    ensures { entries.new.items ≡ entries.old.items }
{
    if entries.is_empty() {
        entries.reserve_exact(FIRST_ROOM)?;
    }
    Ok(())
}

/// Keeps the value of a change; refused if memory ran out.
fn stored(alloc: Global, change: Change<&Value>) -> Result<Change<StoredValue>, AllocError>
    ensures { IfOk result (λ kept. kept ≡ change_copied change.entry) }
{
    match change {
        Change::Value(value) => Ok(Change::Value(StoredValue::of(alloc, value.lend())?)),
        Change::Gone => Ok(Change::Gone),
        Change::Sum(amount) => Ok(Change::Sum(amount)),
    }
}
