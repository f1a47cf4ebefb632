//! The calls of version_arena.

ghost use Rattle.std.specs.Prelude.{◌≤◌, length};

use rv_ledger::{Change, Value};
use std::process::Abort;
use version_arena::{Arena, Record, ReserveFault, VersionId};

// The value of one byte.
fn value(byte: u8) -> Value
    ensures { length result ≤ 1 }
{
    match Value::of(&[byte]) {
        Some(value) => value,
        None => Value::empty(),
    }
}

/// A record's writer and incarnation, and its byte or its sum; 0 if the key was removed.
fn shown(record: Option<Record<'_>>) -> Option<(u16, u16, u64)> {
    let record = record?;
    let number = match record.change {
        Change::Value(value) => match value.bytes() {
            [byte] => u64::from(*byte),
            _ => return None,
        },
        Change::Gone => 0,
        Change::Sum(amount) => amount,
    };
    Some((record.writer, record.incarnation, number))
}

/// Reserves room for a record of one byte, and places it.
fn place_byte(arena: &mut Arena, writer: u16, byte: u8) -> Result<VersionId, ReserveFault> {
    arena.reserve(1, 1)?;
    let value = value(byte);
    Ok(arena.place(writer, 0, Change::Value(&value)))
}

/// Whether an arena refuses this room, because it would have too many records.
fn is_full(arena: &mut Arena, records: usize, bytes: usize) -> bool {
    arena.reserve(records, bytes) == Err(ReserveFault::ArenaFull)
}

/// Whether an arena refuses what is too much, before and after a record is placed.
fn is_filled(arena: &mut Arena) -> Result<bool, ReserveFault> {
    let is_refused = is_full(arena, 1_048_577, 0);
    let id = place_byte(arena, 0, 1)?;
    Ok(
        is_refused
            && is_full(arena, 1_048_576, 0)
            && is_full(arena, usize::MAX, usize::MAX)
            && arena.len() == 1
            && shown(arena.get(id)) == Some((0, 0, 1)),
    )
}

/// Whether a name gives no record that was removed, though it may give one that was placed later.
fn is_reset(arena: &mut Arena) -> Result<bool, ReserveFault> {
    let id = place_byte(arena, 0, 1)?;
    arena.reset();
    let is_gone = shown(arena.get(id)).is_none();
    let _ = place_byte(arena, 1, 2)?;
    let again = shown(arena.get(id));
    Ok(is_gone && (again.is_none() || again == Some((1, 0, 2))))
}

/// Places a record, removes it, and places one of a removal in its room. Returns the name of the first.
fn place_again(arena: &mut Arena) -> Result<VersionId, ReserveFault> {
    arena.reserve(1, 1)?;
    let one = value(1);
    let id = arena.place(0, 0, Change::Value(&one));
    arena.reset();
    let _ = arena.place(2, 3, Change::Gone);
    Ok(id)
}

/// Whether a record can be placed in the room of one that was removed.
fn is_room_kept(arena: &mut Arena) -> Result<bool, ReserveFault> {
    let id = place_again(arena)?;
    Ok(shown(arena.get(id)) == Some((2, 3, 0)))
}

/// Whether an arena lends a sum, which takes no bytes, as it was placed.
fn is_sum_lent(arena: &mut Arena) -> Result<bool, ReserveFault> {
    arena.reserve(1, 0)?;
    let id = arena.place(1, 0, Change::Sum(u64::MAX));
    Ok(shown(arena.get(id)) == Some((1, 0, u64::MAX)))
}

/// The numbers of the refusals, too.
#[test]
fn arena_full(rt: HostRuntime) -> Result<(), ReserveFault> {
    let mut arena = Arena::new(rt.alloc());
    assert!(rt; is_filled(&mut arena)?);
    assert!(rt; [ReserveFault::ArenaFull as u8, ReserveFault::Memory as u8] == [1, 2]);
    Ok(())
}

#[test]
fn place_reset_get(rt: HostRuntime) -> Result<(), ReserveFault> {
    let mut arena = Arena::new(rt.alloc());
    assert!(rt; is_reset(&mut arena)?);
    assert!(rt; is_sum_lent(&mut arena)?);
    Ok(())
}

#[test]
fn reset_keeps_room(rt: HostRuntime) -> Result<(), ReserveFault> {
    let mut arena = Arena::new(rt.alloc());
    assert!(rt; is_room_kept(&mut arena)?);
    Ok(())
}
