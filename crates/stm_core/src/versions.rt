//! The keys that a run moves or that an abort marks, and what is put at them: a version, an estimate or nothing.

ghost use Rattle.std.specs.Prelude.{◌≡◌, ◌≤◌, ◌+◌, ◌*◌, ◌∷◌, [], length, IsTrue, Some};
ghost use Rattle.std.specs.Option.{option_copied};
ghost use Rattle.std.specs.FinMap.{entries};
ghost use Rattle.std.specs.FinSet.{contains};
ghost use Rattle.rv_ledger.specs.Lent.{lent_change};
ghost use Rattle.version_arena.specs.ArenaState.{change_size};
ghost use Rattle.mvmap.specs.Versions.{Estimate, changed};
ghost use Rattle.stm_state.specs.Steps.{version_of, write_of, written_by};
ghost use Rattle.stm_core.specs.Inner.{AreOpen, writes_at};

use mvmap::MvMap;
use rv_ledger::{Change, Key, LentValue, StoredValue, VALUE_LIMIT, Writes};
use stm_state::{CallState, Recorded};

/// The number of keys that are written.
pub(crate) fn written_count(writes: &Writes) -> usize
    ensures count { result ≡ length (entries writes.now) }
    ensures limit { result ≤ 256 }
{
    writes.holds();
    writes.len()
}

/// The number of keys that a call's last recorded run wrote; 0 if there is none.
pub(crate) fn recorded_count(last: &Option<Recorded>) -> usize
    ensures count { result ≡ length (written_by last.now) }
    ensures limit { result ≤ 256 }
{
    match last {
        Some(run) => written_count(&run.receipt.writes),
        None => 0,
    }
}

/// Publishes what a call's run wrote at a key, in room that was promised, or withdraws the key if the run did not write
/// it. `promised` is the number of records that are promised; a publication lowers it by one. Takes no memory.
#[inline(always)]
pub(crate) fn move_key(
    map: &mut MvMap,
    promised: &mut usize,
    key: &Key,
    call: u16,
    state: &CallState,
)
    requires places { AreOpen map.old.places call (writes_at state.now.last (key.now ∷ [])) }
    requires promised { length (writes_at state.now.last (key.now ∷ [])) ≤ promised.old }
    requires room { promised.old ≤ map.old.arena.room }
    requires bytes { promised.old * VALUE_LIMIT ≤ map.old.arena.bytes }
    ensures versions { map.new.versions ≡ changed map.old.versions (key.now, call) (version_of state.now key.now) }
    ensures places { map.new.places ≡ map.old.places }
    ensures placed { length map.new.arena.records + promised.new ≡ length map.old.arena.records + promised.old }
    ensures promised { promised.new + length (writes_at state.now.last (key.now ∷ [])) ≡ promised.old }
    ensures room { promised.new ≤ map.new.arena.room }
    ensures bytes { promised.new * VALUE_LIMIT ≤ map.new.arena.bytes }
{
    match write_at(&state.last, key) {
        Some(change) => {
            map.publish_lent(key, call, state.incarnation, lend_stored(change));
            *promised -= 1;
        }
        None => map.withdraw(key, call),
    }
}

/// The change of a key that a run made; None if it did not write the key, or if there is no run.
fn write_at<'a>(last: &'a Option<Recorded>, key: &Key) -> Option<&'a Change<StoredValue>>
    ensures { option_copied result ≡ write_of last.now key.now }
{
    match last {
        Some(run) => run.receipt.writes.get(key),
        None => None,
    }
}

/// The same change with its value lent.
fn lend_stored(change: &Change<StoredValue>) -> Change<LentValue<'_>>
    ensures value { lent_change result ≡ change.now }
    ensures limit { change_size (lent_change result) ≤ VALUE_LIMIT }
{
    match change {
        Change::Value(value) => Change::Value(value.lend()),
        Change::Gone => Change::Gone,
        Change::Sum(amount) => Change::Sum(*amount),
    }
}

/// Marks a key of a call that is aborted: the version there becomes an estimate. Takes no memory.
pub(crate) fn mark_key(map: &mut MvMap, key: &Key, call: u16)
    requires { IsTrue (contains map.old.places (key.now, call)) }
    ensures { map.new ≡ record map.old { versions = changed map.old.versions (key.now, call) (Some Estimate) } }
{
    map.to_estimate(key, call);
}
