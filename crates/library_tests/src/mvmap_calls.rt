ghost use Rattle.mvmap.specs.Versions.{HasNoEstimate};
ghost use Rattle.std.specs.Prelude.{OnOk};

use crate::asserts::assert_right;
use mvmap::{Answer, MvMap};
use read_set::Version;
use rv_ledger::{Change, Key, Store, StoredValue, Value};
use std::alloc::{AllocError, Global};
use std::process::Abort;
use std::test::Fail;
use version_arena::{Arena, ReserveFault};

// The key of zeros with this last byte.
fn key(last: u8) -> Key {
    let mut bytes = [0; 32];
    bytes[31] = last;
    Key::new(bytes)
}

// The value of one byte.
fn value(byte: u8) -> Value {
    Value::of(&[byte]).unwrap_or(Value::empty())
}

// A map without versions.
fn empty(alloc: Global) -> MvMap
    ensures { HasNoEstimate result.versions }
{
    MvMap::over(alloc, Arena::new(alloc))
}

// Publishes a value that a call's run wrote to a key.
fn set_value(
    map: &mut MvMap,
    key: Key,
    writer: u16,
    incarnation: u16,
    value: Value,
) -> Result<(), ReserveFault>
    ensures { OnOk result (HasNoEstimate map.old.versions → HasNoEstimate map.new.versions) }
{
    map.reserve_for(&[(key, Change::Gone)], writer, 1, 256)?;
    map.publish(&key, writer, incarnation, Change::Value(&value));
    Ok(())
}

// Publishes that a call's run removed a key.
fn set_gone(map: &mut MvMap, key: Key, writer: u16, incarnation: u16) -> Result<(), ReserveFault>
    ensures { OnOk result (HasNoEstimate map.old.versions → HasNoEstimate map.new.versions) }
{
    map.reserve_for(&[(key, Change::Gone)], writer, 1, 0)?;
    map.publish(&key, writer, incarnation, Change::Gone);
    Ok(())
}

// Publishes an amount that a call's run added to a key.
fn set_sum(
    map: &mut MvMap,
    key: Key,
    writer: u16,
    incarnation: u16,
    amount: u64,
) -> Result<(), ReserveFault> {
    map.reserve_for(&[(key, Change::Gone)], writer, 1, 0)?;
    map.publish(&key, writer, incarnation, Change::Sum(amount));
    Ok(())
}

// Publishes what a call's run wrote to a key; None is a removal.
fn set(
    map: &mut MvMap,
    key: Key,
    writer: u16,
    incarnation: u16,
    byte: Option<u8>,
) -> Result<(), ReserveFault>
    ensures { OnOk result (HasNoEstimate map.old.versions → HasNoEstimate map.new.versions) }
{
    match byte {
        Some(byte) => set_value(map, key, writer, incarnation, value(byte)),
        None => set_gone(map, key, writer, incarnation),
    }
}

// Makes the entry of a call at a key an estimate.
fn estimate(map: &mut MvMap, key: Key, writer: u16) -> Result<(), ReserveFault> {
    map.reserve_for(&[(key, Change::Gone)], writer, 0, 0)?;
    map.to_estimate(&key, writer);
    Ok(())
}

// A version of a call's run.
fn version(writer: u16, incarnation: u16) -> Version {
    Version {
        writer,
        incarnation,
    }
}

// Whether an answer is a version with these bytes; None is a removal.
fn is_found(answer: &Answer, found: Version, bytes: Option<&[u8]>) -> bool {
    match answer {
        Answer::Found(version, value) => {
            *version == found && value.as_ref().map(|value| value.bytes()) == bytes
        }
        _ => false,
    }
}

// What a call sees of a key of which no version is a sum.
fn seen(alloc: Global, map: &MvMap, key: &Key, reader: u16) -> Result<Answer, AllocError> {
    let mut passed = Vec::with_capacity(alloc, 16)?;
    Ok(map.read(key, reader.min(16), &mut passed))
}

// Asserts that a call sees a version with these bytes; None is a removal.
fn assert_found(
    rt: &impl Abort,
    alloc: Global,
    map: &MvMap,
    reader: u16,
    found: Version,
    bytes: Option<&[u8]>,
) -> Result<(), AllocError> {
    let answer = seen(alloc, map, &key(1), reader)?;
    assert!(rt; is_found(&answer, found, bytes), "read by {reader}");
    Ok(())
}

// Asserts that a call sees the storage before the block.
fn assert_base(rt: &impl Abort, alloc: Global, map: &MvMap, reader: u16) -> Result<(), AllocError> {
    let answer = seen(alloc, map, &key(1), reader)?;
    assert!(rt; matches!(answer, Answer::Base(None)), "read by {reader}");
    Ok(())
}

// Asserts that this many versions were placed in a map.
fn assert_placed(rt: &impl Abort, map: &MvMap, count: usize) {
    assert_eq!(rt; map.record_count(), count);
}

// Publishes versions of calls 0 and 3 at a key, and one of call 4 at another key.
fn set_at_two_keys(map: &mut MvMap, k: Key) -> Result<(), ReserveFault> {
    set(map, k, 0, 0, Some(1))?;
    set(map, k, 3, 2, None)?;
    set(map, key(0), 4, 0, Some(7))
}

// Asserts what calls see of two keys that have versions.
fn assert_readings(rt: &impl Abort, alloc: Global, map: &mut MvMap) -> Result<(), Fail> {
    assert_base(rt, alloc, map, 9)?;
    set_at_two_keys(map, key(1))?;
    assert_placed(rt, map, 3);
    assert_base(rt, alloc, map, 0)?;
    assert_found(rt, alloc, map, 3, version(0, 0), Some(&[1]))?;
    assert_found(rt, alloc, map, 9, version(3, 2), None)?;
    Ok(())
}

#[test]
fn readings(rt: HostRuntime) -> Result<(), Fail> {
    let mut map = empty(rt.alloc());
    assert_readings(&rt, rt.alloc(), &mut map)
}

// Publishes two sums at a key, of calls 1 and 4, over a value of three bytes.
fn set_sums(map: &mut MvMap) -> Result<(), ReserveFault> {
    let short = Value::of(&[1, 2, 3]).unwrap_or(Value::empty());
    set_value(map, key(1), 0, 0, short)?;
    set_sum(map, key(1), 1, 2, 7)?;
    set_sum(map, key(1), 4, 0, u64::MAX)
}

// Asserts that call 9 passes both sums and finds the value, which counts as 0; and that call 4 passes one.
fn assert_sums(rt: &impl Abort, alloc: Global, map: &mut MvMap) -> Result<(), Fail> {
    let mut passed = Vec::with_capacity(alloc, 9)?;
    set_sums(map)?;
    let answer = map.read(&key(1), 9, &mut passed);
    assert!(rt; is_found(&answer, version(0, 0), Some(&[6, 0, 0, 0, 0, 0, 0, 0])));
    assert!(rt; passed.as_slice() == [version(4, 0), version(1, 2)].as_slice());
    let answer = map.read(&key(1), 4, &mut passed);
    assert!(rt; is_found(&answer, version(0, 0), Some(&[7, 0, 0, 0, 0, 0, 0, 0])));
    assert!(rt; passed.as_slice() == [version(1, 2)].as_slice());
    Ok(())
}

#[test]
fn sums_are_passed(rt: HostRuntime) -> Result<(), Fail> {
    let mut map = empty(rt.alloc());
    assert_sums(&rt, rt.alloc(), &mut map)
}

// Publishes versions of calls 0 and 3 at a key, and makes the second an estimate.
fn set_estimate(map: &mut MvMap, k: Key) -> Result<(), ReserveFault> {
    set(map, k, 0, 0, Some(1))?;
    set(map, k, 3, 2, Some(2))?;
    estimate(map, k, 3)
}

// Asserts that call 9 sees the estimate, and the version of call 0 once that is withdrawn.
fn assert_withdraws(rt: &impl Abort, alloc: Global, map: &mut MvMap) -> Result<(), Fail> {
    set_estimate(map, key(1))?;
    let answer = seen(alloc, map, &key(1), 9)?;
    assert!(rt; matches!(answer, Answer::Estimate(3)));
    map.withdraw(&key(1), 3);
    map.withdraw(&key(1), 1);
    assert_found(rt, alloc, map, 9, version(0, 0), Some(&[1]))?;
    Ok(())
}

// Asserts that call 9 sees the next version of call 3, and nothing in a map that is cleared.
fn assert_clears(rt: &impl Abort, alloc: Global, map: &mut MvMap) -> Result<(), Fail> {
    set(map, key(1), 3, 3, Some(4))?;
    assert_found(rt, alloc, map, 9, version(3, 3), Some(&[4]))?;
    map.clear();
    assert_base(rt, alloc, map, 9)?;
    assert_placed(rt, map, 0);
    set(map, key(1), 0, 0, Some(5))?;
    Ok(())
}

// The number of records in the arena that a map returns.
fn records_left(map: MvMap) -> usize {
    map.into_arena().len()
}

// Asserts what call 9 sees of a key whose versions change.
fn assert_changes(rt: &impl Abort, alloc: Global, map: &mut MvMap) -> Result<(), Fail> {
    assert_withdraws(rt, alloc, map)?;
    assert_clears(rt, alloc, map)
}

#[test]
fn changes(rt: HostRuntime) -> Result<(), Fail> {
    let mut map = empty(rt.alloc());
    assert_changes(&rt, rt.alloc(), &mut map)?;
    assert!(rt; records_left(map) == 0);
    Ok(())
}

// Asserts that a map has no room for this many records.
fn assert_full(
    rt: &impl Abort,
    map: &mut MvMap,
    writes: &[(Key, Change<StoredValue>)],
    records: usize,
) {
    assert_eq!(rt;
        map.reserve_for(writes, 0, records, 0),
        Err(ReserveFault::ArenaFull)
    );
}

// Reserves the same room twice, and publishes a version.
fn reserve_twice(
    map: &mut MvMap,
    writes: &[(Key, Change<StoredValue>)],
) -> Result<(), ReserveFault> {
    map.reserve_for(writes, 0, 2, 512)?;
    map.reserve_for(writes, 0, 2, 512)?;
    set(map, key(1), 0, 0, Some(1))
}

// Asserts that a map refuses more records than an arena can have.
fn assert_room(
    rt: &impl Abort,
    alloc: Global,
    map: &mut MvMap,
    writes: &[(Key, Change<StoredValue>)],
) -> Result<(), Fail> {
    assert_full(rt, map, writes, 1_048_577);
    reserve_twice(map, writes)?;
    assert_full(rt, map, writes, 1_048_576);
    assert_found(rt, alloc, map, 1, version(0, 0), Some(&[1]))?;
    assert_placed(rt, map, 1);
    Ok(())
}

#[test]
fn room(rt: HostRuntime) -> Result<(), Fail> {
    let mut map = empty(rt.alloc());
    let writes = [
        (key(1), Change::Gone),
        (key(2), Change::Gone),
        (key(1), Change::Gone),
    ];
    assert_room(&rt, rt.alloc(), &mut map, &writes)
}

// The first byte of the value that a storage has at the key with this last byte.
fn value_seen(store: &Store, last: u8) -> Option<u8> {
    match store.get(&key(last)) {
        Some(value) => value.bytes().first().copied(),
        None => None,
    }
}

// Asserts the values of a storage after the versions of `snapshot`.
fn assert_values(rt: &impl Abort, store: &Store) {
    assert_right(rt, value_seen(store, 1) == Some(1), "at 1");
    assert_right(rt, value_seen(store, 2) == Some(27), "at 2");
    assert_right(rt, value_seen(store, 3) == None, "at 3");
    assert_right(rt, value_seen(store, 4) == Some(42), "at 4");
}

// Stores the value of one byte at the key with this last byte.
fn insert_value(store: &mut Store, byte: u8) -> Result<(), AllocError> {
    store.insert(key(byte), value(byte))?;
    Ok(())
}

// Stores a value at each key from 1 to 3.
fn insert_three(store: &mut Store) -> Result<(), AllocError> {
    insert_value(store, 1)?;
    insert_value(store, 2)?;
    insert_value(store, 3)
}

// Publishes versions of four calls.
fn set_four(map: &mut MvMap) -> Result<(), ReserveFault>
    ensures { OnOk result (HasNoEstimate map.old.versions → HasNoEstimate map.new.versions) }
{
    set(map, key(2), 7, 0, Some(27))?;
    set(map, key(2), 3, 1, Some(23))?;
    set(map, key(3), 9, 0, None)?;
    set(map, key(4), 2, 0, Some(42))?;
    Ok(())
}

// Puts the versions of four calls into a storage.
fn snapshot(alloc: Global, store: &mut Store) -> Result<(), ReserveFault> {
    let mut map = empty(alloc);
    set_four(&mut map)?;
    map.snapshot_into(store)?;
    Ok(())
}

// Asserts what a storage that is empty so far has after three values and those versions.
fn assert_snapshot(rt: &impl Abort, alloc: Global, store: &mut Store) -> Result<(), ReserveFault> {
    insert_three(store)?;
    snapshot(alloc, store)?;
    assert_values(rt, store);
    Ok(())
}

#[test]
fn snapshot_over_values(rt: HostRuntime) -> Result<(), ReserveFault> {
    let mut store = Store::new(rt.alloc());
    assert_snapshot(&rt, rt.alloc(), &mut store)
}
