//! Byte strings as the maps and the receipts keep them.

ghost use Rattle.std.specs.Prelude.{◌≡◌, ◌<◌, ◌≤◌, [], IfOk, IsOk, length, vec_capacity};
ghost use Rattle.std.specs.Option.{option_copied};

use crate::inline_bytes::Value;
use crate::lent_value::LentValue;
use smallvec::SmallVec;
use std::alloc::{AllocError, Global};
use std::marker::Model;
use std::{fmt, mem};

/// The greatest length that is kept in place, in bytes. With this limit, as with any lower one, `StoredBytes` take 32
/// bytes. An entry of a storage, a key and its value, takes 64.
pub const IN_PLACE_LIMIT: usize = 16;

/// A byte string of at most 256 bytes: a short one is kept in place, a longer one in memory of its own.
/// So keeping many short ones takes no room for the longest.
#[derive(Drop)]
pub struct StoredBytes {
    kept: SmallVec<u8, IN_PLACE_LIMIT>,
}

/// A value as a map keeps it.
pub type StoredValue = StoredBytes;

/// What a call returns or reverts with, as its receipt keeps it.
pub type StoredOutput = StoredBytes;

impl Model for StoredBytes {
    ghost use Rattle.std.specs.Prelude.{ℕ, List, ◌≤◌, length};

    ghost Value = { List ℕ };

    ghost view = { λ v. v.kept.items };

    ghost invariant = { λ v. length v.kept.items ≤ 256 };
}

impl StoredBytes {
    /// Keeps what is lent; refused if memory ran out. At most 16 bytes take none, and are never refused.
    pub fn of(alloc: Global, lent: LentValue) -> Result<StoredBytes, AllocError>
        ensures value { IfOk result (λ v. v ≡ lent.entry.bytes.now) }
        ensures succeeds { length lent.entry.bytes.now ≤ 16 → IsOk result }
    {
        let kept = SmallVec::from_slice(alloc, lent.bytes())?;
        Ok(StoredBytes { kept })
    }

    /// Keeps what is lent. More than 16 bytes take the list `room`, which must have room for them; at most 16 leave it.
    /// Takes no memory.
    pub fn of_room(lent: LentValue, room: &mut Vec<u8>) -> StoredBytes
        requires { let bytes = lent.bytes.now in 16 < length bytes → length bytes ≤ vec_capacity room.old }
        ensures value { result ≡ lent.entry.bytes.now }
        ensures stays { length lent.entry.bytes.now ≤ 16 → room.new ≡ room.old }
    {
        let alloc = *room.allocator();
        if lent.bytes().len() <= IN_PLACE_LIMIT {
            return StoredBytes::of(alloc, lent).unwrap();
        }
        room.clear();
        room.extend_from_slice(lent.bytes()).unwrap();
        let filled = mem::replace(room, Vec::new(alloc));
        StoredBytes {
            kept: SmallVec::from_vec(filled),
        }
    }

    /// No bytes. Takes no memory.
    pub fn empty(alloc: Global) -> StoredBytes
        ensures { result ≡ [] }
    {
        StoredBytes {
            kept: SmallVec::new(alloc),
        }
    }

    /// The bytes, at most 256.
    pub fn bytes(&self) -> &[u8]
        ensures value { result.now ≡ self.now }
        ensures short { length result.now ≤ 256 }
    {
        self.kept.as_slice()
    }

    /// The bytes, lent.
    pub fn lend(&self) -> LentValue<'_>
        ensures { result.bytes.now ≡ self.now }
    {
        LentValue::of(self.bytes())
    }

    /// The same value with an array of its own. Takes no memory.
    pub fn value(&self) -> Value
        ensures { result ≡ self.now }
    {
        self.lend().value()
    }

    /// The same value with an array of its own, or None for None. Takes no memory.
    pub fn value_of(stored: Option<&StoredBytes>) -> Option<Value>
        ensures { result ≡ option_copied stored.entry }
    {
        match stored {
            Some(stored) => Some(stored.value()),
            None => None,
        }
    }
}

impl Clone for StoredBytes {
    ghost is_clone = { λ a b. b ≡ a };

    fn clone(&self) -> Result<StoredBytes, AllocError> {
        StoredBytes::of(*self.kept.allocator(), self.lend())
    }
}

impl fmt::Debug for StoredBytes {
    fn fmt<W: fmt::Write>(&self, f: &mut fmt::Formatter<W>) -> fmt::Result {
        self.bytes().fmt(f)
    }
}
