//! What is known of a key while the calls of a block run.

ghost use Rattle.std.specs.Prelude.{◌≡◌};
ghost use Rattle.std.specs.FinMap as map;
ghost use Rattle.host_block.specs.Changes.{known_after};
ghost use Rattle.host_block.specs.Known.{known_content};

use crate::slot::Slot;
use crate::touched_keys::TouchedKeys;
use rv_ledger::{Change, Key, LentValue, StoredValue, Value, add};

/// What is known of a key.
pub(crate) enum Known<'a> {
    /// What it has: the value of a map, or None if it is absent.
    Content(Option<&'a StoredValue>),
    /// It has this value, a sum.
    Sum(Value),
    /// Nothing: the host has to be asked.
    Nothing,
}

/// Looks up what a call of the block reads at a key: what earlier calls left there. Only a key with a value or a removal among the changes
/// needs no answer of the host. The key is soonest found if it is at `position`. Takes no memory.
#[inline(always)]
pub(crate) fn look_up<'a>(touched: &'a TouchedKeys, key: &Key, position: usize) -> Known<'a>
    ensures { known_content result ≡ known_after (map.get touched.now.changes key.now) (map.get touched.now.bases key.now) }
{
    match touched.get_at(key, position) {
        Some(slot) => known_of(slot),
        None => Known::Nothing,
    }
}

/// What a slot tells of its key.
fn known_of(slot: &Slot) -> Known<'_>
    ensures { known_content result ≡ known_after slot.now.change slot.now.base }
{
    match &slot.change {
        Some(Change::Value(value)) => Known::Content(Some(value)),
        Some(Change::Gone) => Known::Content(None),
        Some(Change::Sum(amount)) => match &slot.base {
            Some(base) => Known::Sum(add(LentValue::of_stored(base.as_ref()), *amount)),
            None => Known::Nothing,
        },
        None => match &slot.base {
            Some(base) => Known::Content(base.as_ref()),
            None => Known::Nothing,
        },
    }
}
