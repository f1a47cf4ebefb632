//! Hints of the positions of keys in a list.

use crate::slot::Slot;
use rv_ledger::{Key, key_hash};
use std::alloc::Global;

/// There are at least this many places for each key. So few keys lose their place to another one.
const PLACES_PER_KEY: usize = 4;

/// The fewest places.
const FEWEST_PLACES: usize = 256;

/// The most places.
const MOST_PLACES: usize = 1 << 24;

/// The positions of most keys. Each key has one place, which it may share: then the key that was noted last has it. So a hint
/// may be another key's.
#[derive(Drop)]
pub(crate) struct Hints {
    /// Their number is a power of two, or 0.
    places: Vec<u32>,
}

impl Hints {
    /// No hints. Takes no memory.
    pub(crate) fn new(alloc: Global) -> Hints {
        Hints {
            places: Vec::new(alloc),
        }
    }

    /// The position that a key may have.
    #[inline(always)]
    pub(crate) fn position(&self, key: &Key) -> Option<usize> {
        match self.places.as_slice().get(place_of(key, self.places.len())) {
            Some(position) => Some(*position as usize),
            None => None,
        }
    }

    /// Makes places for this many keys before the first is noted. If memory for them is refused, there are none.
    pub(crate) fn reserve(&mut self, keys: usize) {
        let _ = self.make_places(keys);
    }

    /// Notes the last key of a list. If there are too few places, it makes more, and notes all keys. If memory for them is refused,
    /// the old ones stay.
    pub(crate) fn note(&mut self, list: &[(Key, Slot)]) {
        let mut first = list.len().saturating_sub(1);
        if self.places.len() / PLACES_PER_KEY < list.len() && self.make_places(list.len()) {
            first = 0;
        }
        for position in first..list.len() {
            self.set(&list[position].0, position);
        }
    }

    /// Makes places for this many keys. Returns whether it did: not if there are as many or the most, or if memory ran out.
    fn make_places(&mut self, keys: usize) -> bool {
        let wanted = keys.saturating_mul(PLACES_PER_KEY);
        let count = wanted.clamp(FEWEST_PLACES, MOST_PLACES).next_power_of_two();
        if count <= self.places.len() {
            return false;
        }
        let mut places = Vec::new(*self.places.allocator());
        if places.resize(count, 0).is_err() {
            return false;
        }
        self.places = places;
        true
    }

    /// Notes the position of a key.
    #[inline(always)]
    fn set(&mut self, key: &Key, position: usize) {
        let place = place_of(key, self.places.len());
        if let Some(hint) = self.places.get_mut(place) {
            if let Ok(position) = u32::try_from(position) {
                *hint = position;
            }
        }
    }
}

/// The place of a key among `count` places, a power of two.
#[inline(always)]
fn place_of(key: &Key, count: usize) -> usize {
    (key_hash(key) >> 32) as usize & count.wrapping_sub(1)
}
