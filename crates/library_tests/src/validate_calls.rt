//! Reads that still stand, and reads that do not.

use crate::asserts::assert_right;
use crate::weak_validation::has_what_was_read;
use mvmap::MvMap;
use read_set::{Origin, Read, Version};
use rv_ledger::{Change, Key, Value};
use std::alloc::Global;
use std::process::Abort;
use validate::{next_read, still_read};
use version_arena::{Arena, ReserveFault};

/// The key of the tests.
fn key() -> Key {
    Key::new([7; 32])
}

/// A change of the entry of a call at the key.
#[derive(Clone, Copy)]
enum Entry {
    /// Publishes the empty value that a call wrote at an incarnation.
    Publish(u16, u16),
    /// Withdraws the entry of a call.
    Withdraw(u16),
    /// Makes the entry of a call an estimate.
    Estimate(u16),
}

/// Publishes the empty value at a key.
fn publish(map: &mut MvMap, key: Key, writer: u16, incarnation: u16) -> Result<(), ReserveFault> {
    map.reserve_for(&[(key, Change::Gone)], writer, 1, 256)?;
    let value = Value::empty();
    map.publish(&key, writer, incarnation, Change::Value(&value));
    Ok(())
}

/// Makes the entry of a call at a key an estimate.
fn estimate(map: &mut MvMap, key: Key, writer: u16) -> Result<(), ReserveFault> {
    map.reserve_for(&[(key, Change::Gone)], writer, 0, 0)?;
    map.to_estimate(&key, writer);
    Ok(())
}

/// Makes a change.
fn change(map: &mut MvMap, entry: Entry) -> Result<(), ReserveFault> {
    match entry {
        Entry::Publish(writer, incarnation) => publish(map, key(), writer, incarnation),
        Entry::Withdraw(writer) => {
            map.withdraw(&key(), writer);
            Ok(())
        }
        Entry::Estimate(writer) => estimate(map, key(), writer),
    }
}

/// Changes; whether call 2 read version (0, 0) before them, and not the storage before the block; and two answers after them:
/// whether what was read is in the map, and whether the read stands.
struct Row {
    name: &'static str,
    has_version: bool,
    entries: &'static [Entry],
    answers: [bool; 2],
}

const ROWS: &[Row] = &[
    Row {
        name: "a version that stands",
        has_version: true,
        entries: &[Entry::Publish(0, 0)],
        answers: [true, true],
    },
    Row {
        name: "version_then_higher_publish",
        has_version: true,
        entries: &[Entry::Publish(0, 0), Entry::Publish(1, 0)],
        answers: [true, false],
    },
    Row {
        name: "a base that stands",
        has_version: false,
        entries: &[],
        answers: [true, true],
    },
    Row {
        name: "base_then_publish",
        has_version: false,
        entries: &[Entry::Publish(0, 0)],
        answers: [true, false],
    },
    Row {
        name: "version_withdrawn",
        has_version: true,
        entries: &[Entry::Publish(0, 0), Entry::Withdraw(0)],
        answers: [false, false],
    },
    Row {
        name: "version_turned_or_newer: an estimate",
        has_version: true,
        entries: &[Entry::Publish(0, 0), Entry::Estimate(0)],
        answers: [false, false],
    },
    Row {
        name: "version_turned_or_newer: incarnation 1",
        has_version: true,
        entries: &[
            Entry::Publish(0, 0),
            Entry::Estimate(0),
            Entry::Publish(0, 1),
        ],
        answers: [false, false],
    },
    Row {
        name: "publishes_not_below",
        has_version: true,
        entries: &[
            Entry::Publish(0, 0),
            Entry::Publish(2, 0),
            Entry::Publish(3, 0),
        ],
        answers: [true, true],
    },
];

/// A read of the key that found call 0's first version, or the storage before the block.
fn read_of(alloc: Global, has_version: bool) -> Read {
    let version = Version {
        writer: 0,
        incarnation: 0,
    };
    Read {
        key: key(),
        origin: Origin::new(Vec::new(alloc), has_version.then_some(version)),
    }
}

/// Makes changes.
fn change_all(map: &mut MvMap, entries: &[Entry]) -> Result<(), ReserveFault> {
    for entry in entries {
        change(map, *entry)?;
    }
    Ok(())
}

/// Both answers for a read.
fn answers_for(alloc: Global, map: &MvMap, read: &Read) -> [bool; 2] {
    [
        has_what_was_read(alloc, map, read),
        still_read(map, 2, read),
    ]
}

/// The answers of a row.
fn answers(alloc: Global, row: &Row) -> Result<[bool; 2], ReserveFault> {
    let mut map = MvMap::over(alloc, Arena::new(alloc));
    change_all(&mut map, row.entries)?;
    Ok(answers_for(alloc, &map, &read_of(alloc, row.has_version)))
}

#[test]
fn standing_reads(rt: HostRuntime) -> Result<(), ReserveFault> {
    for row in ROWS {
        let is_right = answers(rt.alloc(), row)? == row.answers;
        assert_right(&rt, is_right, row.name);
    }
    Ok(())
}

/// The answers for the first of two reads, for the second, and for the index past both.
fn answers_by_index(map: &MvMap, reads: &[Read; 2]) -> [Option<bool>; 3] {
    [
        next_read(map, 2, reads, 0),
        next_read(map, 2, reads, 1),
        next_read(map, 2, reads, 2),
    ]
}

/// The answers for a read that stands, for one that does not, and for the index past both.
fn in_turn(alloc: Global) -> Result<[Option<bool>; 3], ReserveFault> {
    let mut map = MvMap::over(alloc, Arena::new(alloc));
    change(&mut map, Entry::Publish(0, 0))?;
    let reads = [read_of(alloc, true), read_of(alloc, false)];
    Ok(answers_by_index(&map, &reads))
}

#[test]
fn reads_in_turn(rt: HostRuntime) -> Result<(), ReserveFault> {
    assert!(rt; in_turn(rt.alloc())? == [Some(true), Some(false), None]);
    Ok(())
}
