//! What a call sees of a key: a walk over the versions that add an amount, down to what is below them.

ghost use Rattle.std.specs.Prelude.{◌≡◌, ◌≤◌, ℕ, List, Option, length, vec_capacity};
ghost use Rattle.std.specs.Option.{option_copied};
ghost use Rattle.read_set.specs.declared.origin.Version.{Version};
ghost use Rattle.rv_ledger.specs.Lent.{lent_content};
ghost use Rattle.mvmap.specs.Answers.{Tells, added, with_amount};
ghost use Rattle.mvmap.specs.Laws.{total_amount};
ghost use Rattle.mvmap.specs.Reading.{Found, Passed, Visible, is_origin, is_walk};
ghost use Rattle.mvmap.specs.Slots.{ArePlacedIn, seen_in, walk_after};
ghost use Rattle.mvmap.specs.Writers.{AreWritersAscending};

use crate::answer::LentAnswer;
use crate::seek::{Nearest, seek};
use crate::slot::Slot;
use read_set::{Origin, Version};
use rv_ledger::{Change, LentValue, Value, add, wrapping_sum};
use version_arena::Arena;

/// What the call of index `i` sees of a key with these slots, with the versions that it passes, the nearest
/// first.
pub(crate) fn walk<'a>(
    at_key: &[(u16, Slot)],
    arena: &'a Arena,
    i: u16,
    passed: &mut Vec<Version>,
) -> LentAnswer<'a>
    requires ascending { AreWritersAscending at_key.now }
    requires placed { ArePlacedIn arena.now.records at_key.now }
    requires room { i ≤ vec_capacity passed.old }
    ensures tells { Tells (added result) passed.new.items (seen_in arena.now.records at_key.now i) }
    ensures count { length passed.new.items ≤ i }
    ensures room { vec_capacity passed.new ≡ vec_capacity passed.old }
{
    passed.clear();
    let mut sum = None;
    let mut below = i;
    let mut hint = 0;
    loop {
        match seek(at_key, arena, below, &mut hint) {
            Nearest::Nothing => return LentAnswer::Base(sum),
            Nearest::Waiting(writer) => return LentAnswer::Estimate(writer),
            Nearest::Standing(version, Change::Sum(amount)) => {
                passed.push_reserved(version);
                sum = Some(total_amount(amount, sum));
                below = version.writer;
            }
            Nearest::Standing(version, Change::Value(value)) => {
                return LentAnswer::Found(version, Some(value), sum);
            }
            Nearest::Standing(version, Change::Gone) => {
                return LentAnswer::Found(version, None, sum);
            }
        }
    }
}

/// Whether what the call of index `i` sees of a key with these slots has this origin. It compares while it
/// walks.
pub(crate) fn has_walk(at_key: &[(u16, Slot)], arena: &Arena, i: u16, origin: &Origin) -> bool
    requires ascending { AreWritersAscending at_key.now }
    requires placed { ArePlacedIn arena.now.records at_key.now }
    ensures { result ≡ is_origin origin.now (seen_in arena.now.records at_key.now i) }
{
    let bottom = origin.bottom();
    let mut left = origin.passed();
    let mut below = i;
    let mut hint = 0;
    loop {
        match seek(at_key, arena, below, &mut hint) {
            Nearest::Nothing => return left.is_empty() && bottom.is_none(),
            Nearest::Waiting(_) => return false,
            Nearest::Standing(version, Change::Sum(_)) => match after(left, version) {
                Some(rest) => {
                    left = rest;
                    below = version.writer;
                }
                None => return false,
            },
            Nearest::Standing(version, Change::Value(_)) => return is_end(left, bottom, version),
            Nearest::Standing(version, Change::Gone) => return is_end(left, bottom, version),
        }
    }
}

/// The versions after the first one, if that is this version.
fn after(passed: &[Version], version: Version) -> Option<&[Version]>
    ensures { (bottom : Option Version) (amount : ℕ) (below : Visible) → is_walk passed.now bottom (Passed version.writer version.incarnation amount below) ≡ walk_after (option_copied result) bottom below }
{
    match passed {
        [first, rest @ ..] if *first == version => Some(rest),
        _ => None,
    }
}

/// Whether no version is left to be passed, and this is the one that was found below.
fn is_end(left: &[Version], bottom: Option<Version>, version: Version) -> bool
    ensures { (content : Option (List ℕ)) → result ≡ is_walk left.now bottom (Found version.writer version.incarnation content) }
{
    left.is_empty() && bottom == Some(version)
}

/// The sum of an amount and of those before it, modulo 2^64.
fn total_amount(amount: u64, sum: Option<u64>) -> u64
    ensures { result ≡ total_amount amount sum }
{
    match sum {
        Some(sum) => wrapping_sum(amount, sum),
        None => amount,
    }
}

/// What a key has after an amount is added, if there is one. Takes no memory.
pub(crate) fn with_amount(content: Option<LentValue>, sum: Option<u64>) -> Option<Value>
    ensures { result ≡ with_amount (lent_content content.entry) sum }
{
    match (sum, content) {
        (Some(amount), _) => Some(add(content, amount)),
        (None, Some(value)) => Some(value.value()),
        (None, None) => None,
    }
}
