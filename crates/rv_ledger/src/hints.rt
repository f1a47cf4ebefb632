//! Hints of the positions of keys in a list of entries.

use crate::hash::key_hash;
use crate::key::Key;
use crate::stored_bytes::StoredValue;
use std::alloc::{AllocError, Global};

/// The number of hints in a row.
const ROW_SIZE: usize = 8;

/// How many keys there may be for each row, before there are twice as many rows. So for about one key of a hundred the
/// row is full.
const KEYS_PER_ROW: usize = 6;

/// How many bits of a hash select the row of a key, with the fewest rows.
const FEWEST_ROW_BITS: u32 = 3;

/// How many bits of a hash select the row of a key, with the most rows.
const MOST_ROW_BITS: u32 = 24;

/// How many tags there are: a hint has the six lowest bits of its key's hash.
const TAG_COUNT: u64 = 64;

/// How many positions the bits of a hint can name; no hint names a higher one.
const POSITION_COUNT: u32 = 0x0400_0000;

/// What a row has in place of a hint. Its position is the highest one, which no hint names.
const NO_HINT: u32 = u32::MAX;

/// The hints of some keys. Each has its key's tag times 2^26, plus the position that the key had when it was noted.
pub(crate) type Row = [u32; ROW_SIZE];

/// Rows of hints. A hint may be wrong, and a key may have none. A search believes a hint only if the key that it looks
/// for is at the hint's position. It finds the other keys by the tree.
#[derive(Drop)]
pub(crate) struct Hints {
    rows: Vec<Row>,
    /// The keys at lower positions were noted since the rows were made.
    noted: usize,
}

impl Hints {
    /// No rows. Takes no memory.
    pub(crate) fn new(alloc: Global) -> Hints {
        Hints {
            rows: Vec::new(alloc),
            noted: 0,
        }
    }

    /// The same hints; refused if memory ran out.
    pub(crate) fn copy(&self) -> Result<Hints, AllocError> {
        let rows = self.rows.clone()?;
        Ok(Hints {
            rows,
            noted: self.noted,
        })
    }

    /// The row of a hash, or None if there are no rows.
    #[inline(always)]
    pub(crate) fn row(&self, hash: u64) -> Option<&Row> {
        self.rows.as_slice().get(row_of(hash, self.rows.len()))
    }

    /// Makes rows if there are too few for a list. Then notes at most `count` of its keys that were not noted.
    pub(crate) fn note(&mut self, list: &[(Key, StoredValue)], count: usize) {
        self.make_rows(list.len());
        let end = list.len().min(self.noted.saturating_add(count));
        for position in self.noted..end {
            let hash = key_hash(&list[position].0);
            self.replace(hash, NO_HINT, hint_of(hash, position));
        }
        self.noted = end;
    }

    /// Notes that a key was removed from a position of a list, and that the last entry, if it was another, moved to that
    /// position.
    pub(crate) fn note_removal(&mut self, key: &Key, position: usize, list: &[(Key, StoredValue)]) {
        let hash = key_hash(key);
        self.replace(hash, hint_of(hash, position), NO_HINT);
        let last = list.len();
        if let Some((moved, _)) = list.get(position) {
            let hash = key_hash(moved);
            if last < self.noted {
                self.replace(hash, hint_of(hash, last), hint_of(hash, position));
            } else if position < self.noted {
                self.replace(hash, NO_HINT, hint_of(hash, position));
            }
        }
        self.noted = self.noted.min(last);
    }

    /// Makes rows for `count` keys, all without hints, unless there are enough. If memory for them is refused, the old
    /// rows stay.
    fn make_rows(&mut self, count: usize) {
        let row_count = row_count_for(count);
        if row_count <= self.rows.len() {
            return;
        }
        let mut rows = Vec::new(*self.rows.allocator());
        if rows.resize(row_count, [NO_HINT; ROW_SIZE]).is_ok() {
            self.rows = rows;
            self.noted = 0;
        }
    }

    /// Puts a hint in the place of another, or of none, in the row of a hash. Nothing changes if the row does not have
    /// the old one.
    #[inline(always)]
    fn replace(&mut self, hash: u64, old: u32, new: u32) {
        let row = row_of(hash, self.rows.len());
        if let Some(row) = self.rows.get_mut(row) {
            for i in 0..ROW_SIZE {
                if row[i] == old {
                    row[i] = new;
                    return;
                }
            }
        }
    }
}

/// The position that a hint names for the key of a hash, or None if the hint is another key's.
#[inline(always)]
pub(crate) fn position_in(hint: u32, hash: u64) -> Option<usize> {
    if u64::from(hint / POSITION_COUNT) == hash % TAG_COUNT {
        Some((hint % POSITION_COUNT) as usize)
    } else {
        None
    }
}

/// The hint of the key of a hash at a position, or none if no hint can name the position.
#[inline(always)]
fn hint_of(hash: u64, position: usize) -> u32 {
    if position < POSITION_COUNT as usize - 1 {
        (hash % TAG_COUNT) as u32 * POSITION_COUNT + position as u32
    } else {
        NO_HINT
    }
}

/// The index of a hash's row among `row_count` rows, a power of two.
#[inline(always)]
fn row_of(hash: u64, row_count: usize) -> usize {
    (hash >> 32) as usize & row_count.wrapping_sub(1)
}

/// How many rows there are for `count` keys, a power of two.
fn row_count_for(count: usize) -> usize {
    let bits = usize::BITS - (count / KEYS_PER_ROW).leading_zeros();
    1 << bits.clamp(FEWEST_ROW_BITS, MOST_ROW_BITS)
}
