//! Hints of the positions of keys in a list.

ghost use Rattle.std.specs.Prelude.{◌≡◌, ◌<◌, ◌≤◌, ◌⊎◌, ◌↔◌, [], IsTrue, replicate};
ghost use Rattle.mvmap.specs.Hints.{bucket_of, hint_of, noted};
ghost use Rattle.mvmap.specs.declared.hints.Hint.TheVariants.{Nothing};

use rv_ledger::{Key, key_hash};
use std::alloc::Global;

/// How many bits of a hash say the bucket of a key.
const BUCKET_BITS: u32 = 14;

/// The number of buckets.
const BUCKET_COUNT: usize = 16_384;

/// The content of a bucket without a hint.
const NO_HINT: u16 = u16::MAX;

/// The last position that a hint can say.
const LAST_HINT: usize = NO_HINT as usize - 1;

/// What the hints say of a key.
#[derive(Drop)]
pub(crate) enum Hint {
    /// Its bucket is empty, so neither it nor another key of the bucket was noted.
    Nothing,
    /// A position at which the key may be.
    At(usize),
    /// There are no buckets.
    Unknown,
}

/// For each bucket of keys the position of one of them, as a hint. A hint may be wrong: a search uses it only if the key that it
/// looks for is at that position. An empty bucket is reliable: no key of it was noted.
#[derive(Drop)]
pub(crate) struct Hints {
    buckets: Vec<u16>,
}

impl Hints {
    /// No buckets. Takes no memory.
    pub(crate) fn new(alloc: Global) -> Hints
        ensures { result.buckets.items ≡ [] }
    {
        Hints {
            buckets: Vec::new(alloc),
        }
    }

    /// What a key's bucket says.
    #[inline(always)]
    pub(crate) fn of(&self, key: &Key) -> Hint
        ensures { result ≡ hint_of self.now.buckets.items key.now }
    {
        match self.buckets.as_slice().get(bucket_of(key)) {
            Some(position) if *position == NO_HINT => Hint::Nothing,
            Some(position) => Hint::At(*position as usize),
            None => Hint::Unknown,
        }
    }

    /// Makes the buckets, all of them empty. If memory for them is refused, there are none.
    pub(crate) fn open(&mut self)
        ensures { (self.new.buckets.items ≡ []) ⊎ (self.new.buckets.items ≡ replicate BUCKET_COUNT NO_HINT) }
    {
        self.buckets.clear();
        let _ = self.buckets.resize(BUCKET_COUNT, NO_HINT);
    }

    /// Notes the position of a key as the hint of its bucket, unless the bucket has one, and returns whether it did. A position
    /// past the last that a hint can say is noted as that last one, and then the answer is no.
    #[inline(always)]
    pub(crate) fn note(&mut self, key: &Key, position: usize) -> bool
        ensures buckets { self.new.buckets.items ≡ noted self.old.buckets.items key.now position }
        ensures noted { IsTrue result ↔ ((hint_of self.old.buckets.items key.now ≡ Nothing) × (position ≤ 65534)) }
    {
        match self.buckets.get_mut(bucket_of(key)) {
            Some(bucket) if *bucket == NO_HINT => {
                *bucket = position.min(LAST_HINT) as u16;
                position <= LAST_HINT
            }
            _ => false,
        }
    }

    /// Removes the buckets; their room stays. Takes no memory.
    pub(crate) fn clear(&mut self)
        ensures { self.new.buckets.items ≡ [] }
    {
        self.buckets.clear();
    }
}

/// The bucket of a key: the highest bits of its hash.
#[tactic(auto, unfolding(crate::specs::Hints::bucket_of))]
#[inline(always)]
fn bucket_of(key: &Key) -> usize
    ensures value { result ≡ bucket_of key.now }
    ensures count { result < BUCKET_COUNT }
{
    (key_hash(key) >> (u64::BITS - BUCKET_BITS)) as usize
}
