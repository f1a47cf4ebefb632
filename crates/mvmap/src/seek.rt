//! The search for the nearest entry below a call.

ghost use Rattle.std.specs.Prelude.{◌≡◌, ◌≤◌, ◌<◌, ◌-◌, ℕ, IsTrue, length};
ghost use Rattle.mvmap.specs.Answers.{IsNearest};
ghost use Rattle.mvmap.specs.Slots.{ArePlacedIn, seen_in};
ghost use Rattle.mvmap.specs.Writers.{AreWritersAscending, writer_at};
ghost use Rattle.mvmap.specs.declared.seek.Nearest.TheVariants.{Standing};

use crate::slot::Slot;
use read_set::Version;
use rv_ledger::{Change, LentValue};
use version_arena::{Arena, Record};

/// The nearest entry below a call at a key.
#[derive(Drop)]
pub(crate) enum Nearest<'a> {
    /// No lower call has an entry.
    Nothing,
    /// A version, and what it did to the key.
    Standing(Version, Change<LentValue<'a>>),
    /// An estimate of the call of this index.
    Waiting(u16),
}

/// The nearest entry below the call of index `i` among the slots at a key: the content of the highest slot of a lower call that
/// is not vacant. It searches for the lower calls once, and walks down from there. `hint` is the caller's guess of the number of
/// lower calls. After a version it is the number of slots below that version, so that a further search from there on takes no
/// time.
#[inline(always)]
pub(crate) fn seek<'a>(
    at_key: &[(u16, Slot)],
    arena: &'a Arena,
    i: u16,
    hint: &mut usize,
) -> Nearest<'a>
    requires ascending { AreWritersAscending at_key.now }
    requires placed { ArePlacedIn arena.now.records at_key.now }
    ensures { IsNearest result (seen_in arena.now.records at_key.now) i }
{
    let mut place = count_below(at_key, i, *hint);
    while place > 0 {
        place -= 1;
        let (writer, slot) = &at_key[place];
        match slot {
            Slot::Vacant => {}
            Slot::Estimate => return Nearest::Waiting(*writer),
            Slot::Placed(id) => {
                *hint = place;
                return standing(*writer, arena.get(*id).unwrap());
            }
        }
    }
    Nearest::Nothing
}

/// How many slots at a key are of calls below the call of index `i`: they come first. The last two slots are looked at first:
/// most calls come in block order, so the slot that is looked for is one of the last. Then the number that the caller guesses is
/// looked at.
fn count_below(at_key: &[(u16, Slot)], i: u16, hint: usize) -> usize
    requires { AreWritersAscending at_key.now }
    ensures bound { result ≤ length at_key.now }
    ensures below { (place : ℕ) → place < result → writer_at at_key.now place < i }
    ensures above { (place : ℕ) → result ≤ place → place < length at_key.now → i ≤ writer_at at_key.now place }
{
    match at_key {
        [.., last] if last.0 < i => at_key.len(),
        [.., before, _] if before.0 < i => at_key.len() - 1,
        _ if is_cut(at_key, i, hint) => hint,
        _ => at_key.partition_point(|slot| slot.0 < i),
    }
}

/// Whether the slot before a place is of a call below the call of index `i`, and the one at it is not. So the slots of lower
/// calls end there.
fn is_cut(at_key: &[(u16, Slot)], i: u16, place: usize) -> bool
    ensures bound { IsTrue result → place ≤ length at_key.now }
    ensures below { IsTrue result → 0 < place → writer_at at_key.now (place - 1) < i }
    ensures above { IsTrue result → place < length at_key.now → i ≤ writer_at at_key.now place }
{
    if place > at_key.len() {
        return false;
    }
    if place > 0 && at_key[place - 1].0 >= i {
        return false;
    }
    place == at_key.len() || at_key[place].0 >= i
}

/// The entry of a call's record: its version, with what it did to the key.
fn standing<'a>(writer: u16, version_record: Record<'a>) -> Nearest<'a>
    ensures { result ≡ Standing (record { writer = writer; incarnation = version_record.entry.incarnation }) version_record.entry.change }
{
    let version = Version {
        writer,
        incarnation: version_record.incarnation,
    };
    Nearest::Standing(version, version_record.change)
}
