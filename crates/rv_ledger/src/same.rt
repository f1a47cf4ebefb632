//! Whether calls, storages and jobs are equal. Takes no memory.

ghost use Rattle.std.specs.Prelude.{◌≡◌, ◌↔◌, true};

use crate::call::Call;
use crate::job::Job;
use crate::store::Store;
use elf32::{Image, Segment};

/// Whether two jobs have equal calls in the same order, and equal storages.
pub fn same_job(left: &Job, right: &Job) -> bool
    ensures { (result ≡ true) ↔ (left.now ≡ right.now) }
{
    same_calls(left.block.calls(), right.block.calls()) && same_store(&left.store, &right.store)
}

/// Whether two lists of calls are equal.
fn same_calls(left: &[Call], right: &[Call]) -> bool
    ensures { (result ≡ true) ↔ (left.now ≡ right.now) }
{
    if left.len() != right.len() {
        return false;
    }
    for i in 0..left.len() {
        if !same_call(&left[i], &right[i]) {
            return false;
        }
    }
    true
}

/// Whether two calls have equal rules, programs, gas limits and inputs; the programs are compared last.
pub fn same_call(left: &Call, right: &Call) -> bool
    ensures { (result ≡ true) ↔ (left.now ≡ right.now) }
{
    left.rules() == right.rules()
        && left.gas() == right.gas()
        && left.input() == right.input()
        && same_image(left.image(), right.image())
}

/// Whether two programs are equal.
fn same_image(left: &Image, right: &Image) -> bool
    ensures { (result ≡ true) ↔ (left.now ≡ right.now) }
{
    left.entry() == right.entry() && same_segments(left.segments(), right.segments())
}

/// Whether two lists of segments are equal.
fn same_segments(left: &[Segment], right: &[Segment]) -> bool
    ensures { (result ≡ true) ↔ (left.now ≡ right.now) }
{
    if left.len() != right.len() {
        return false;
    }
    for i in 0..left.len() {
        if !same_segment(&left[i], &right[i]) {
            return false;
        }
    }
    true
}

/// Whether two segments are equal; their bytes are compared last.
fn same_segment(left: &Segment, right: &Segment) -> bool
    ensures { (result ≡ true) ↔ (left.now ≡ right.now) }
{
    left.address == right.address
        && left.size == right.size
        && left.rights == right.rights
        && left.content.bytes() == right.content.bytes()
}

/// Whether two storages have the same keys, each with the same value.
#[tactic(auto, using(crate::proofs::Storages::same_storage))]
pub(crate) fn same_store(left: &Store, right: &Store) -> bool
    ensures { (result ≡ true) ↔ (left.now ≡ right.now) }
{
    let mut rest = right.iter();
    for (key, value) in left.iter() {
        match rest.next() {
            Some((other, content)) if other == key && content.bytes() == value.bytes() => {}
            _ => return false,
        }
    }
    match rest.next() {
        None => true,
        Some(_) => false,
    }
}
