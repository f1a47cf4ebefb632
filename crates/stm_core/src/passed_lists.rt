//! The lists that a read writes the versions into that it passes.

ghost use Rattle.std.specs.Prelude.{◌≡◌, ◌<◌, ◌≤◌, [], IfOk, IfSome, None, Ok, length, vec_capacity};

use read_set::{Origin, SharedVersions, Version};
use rv_ledger::Key;
use std::alloc::{AllocError, Global};
use std::collections::BTreeMap;
use std::mem;

/// Two lists for the versions that a read passes: one for the origin that the core keeps, and one for the origin that it
/// hands out. A read that passes nothing leaves them their room. Besides, the versions that each worker's last read of a
/// key passed, which later reads may share.
#[derive(Drop)]
pub(crate) struct PassedLists {
    /// The list for the origin that is kept; the map writes into it.
    pub(crate) kept: Vec<Version>,
    /// The list for the origin that is handed out.
    pub(crate) lent: Vec<Version>,
    /// What the last read of a worker passed at a key, if it passed something.
    last: BTreeMap<(usize, Key), SharedVersions>,
    alloc: Global,
}

impl PassedLists {
    ghost use Rattle.std.specs.Prelude.{◌≡◌, ◌≤◌, [], IsTrue, length, vec_capacity};

    /// Lists without room. Takes no memory.
    pub(crate) fn new(alloc: Global) -> PassedLists {
        PassedLists {
            kept: Vec::new(alloc),
            lent: Vec::new(alloc),
            last: BTreeMap::new(alloc),
            alloc,
        }
    }

    /// Whether each has room for `count` versions.
    pub(crate) fn have_room(&self, count: usize) -> bool
        ensures { IsTrue result → (count ≤ vec_capacity self.now.kept) × (count ≤ vec_capacity self.now.lent) }
    {
        count <= self.kept.capacity() && count <= self.lent.capacity()
    }

    /// The two origins of a read that wrote the versions that it passed into the list that is kept, and found this
    /// version below them. The origins take the lists, unless nothing was passed. Takes no memory.
    pub(crate) fn origins(&mut self, bottom: Option<Version>) -> (Origin, Origin)
        requires { length self.old.kept.items ≤ vec_capacity self.old.lent }
        ensures kept { result.0 ≡ record { passed = self.old.kept.items; bottom = bottom } }
        ensures lent { result.1 ≡ record { passed = self.old.kept.items; bottom = bottom } }
        ensures stay { self.old.kept.items ≡ [] → self.new ≡ self.old }
    {
        if self.kept.is_empty() {
            return (Origin::plain(bottom), Origin::plain(bottom));
        }
        self.lent.clear();
        match self.lent.extend_from_slice(self.kept.as_slice()) {
            Ok(()) => {}
            Err(_) => unreachable!(),
        }
        let kept = mem::replace(&mut self.kept, Vec::new(self.alloc));
        let lent = mem::replace(&mut self.lent, Vec::new(self.alloc));
        (Origin::new(kept, bottom), Origin::new(lent, bottom))
    }

    /// A list of the versions that a worker's read of a key passed. If the worker's last read of the key passed the same
    /// versions, it is that read's list. Otherwise it is a new one, which the next read may share. None if memory ran out
    /// or that list has too many owners.
    pub(crate) fn shared(
        &mut self,
        worker: usize,
        key: &Key,
        versions: &[Version],
    ) -> Option<SharedVersions>
        ensures list { IfSome result (λ list. list ≡ versions.now) }
        ensures kept { self.new.kept ≡ self.old.kept }
        ensures lent { self.new.lent ≡ self.old.lent }
    {
        if let Some(list) = self.last.get(&(worker, *key)) {
            if list.is(versions) {
                return owner_of(list);
            }
        }
        let list = match SharedVersions::of(self.alloc, versions) {
            Ok(list) => list,
            Err(_) => return None,
        };
        let Some(owner) = owner_of(&list) else {
            return None;
        };
        match self.last.insert((worker, *key), owner) {
            Ok(_) => {}
            Err(_) => {}
        }
        Some(list)
    }
}

/// The same list for one more owner; None if it has too many.
fn owner_of(list: &SharedVersions) -> Option<SharedVersions>
    ensures { IfSome result (λ owner. owner ≡ list.now) }
{
    match list.copy() {
        Ok(owner) => Some(owner),
        Err(_) => None,
    }
}

/// A list with room for `count` items, to replace one that has less; None if that one has the room. The room at least
/// doubles, so that calls of ascending indices seldom make a list. Refused if memory ran out.
pub(crate) fn larger<T>(list: &Vec<T>, count: usize) -> Result<Option<Vec<T>>, AllocError>
    ensures made { IfOk result (λ made. IfSome made (λ more. (count ≤ vec_capacity more) × (vec_capacity list.now < count))) }
    ensures enough { IfOk result (λ made. made ≡ None → count ≤ vec_capacity list.now) }
    ensures succeeds { count ≤ vec_capacity list.now → result ≡ Ok None }
{
    if count <= list.capacity() {
        return Ok(None);
    }
    let room = count.max(list.capacity().saturating_mul(2));
    Ok(Some(Vec::with_capacity(*list.allocator(), room)?))
}

/// Replaces a list by a larger one, if there is one.
pub(crate) fn replace<T: Drop>(list: &mut Vec<T>, larger: Option<Vec<T>>)
    ensures some { IfSome larger (λ more. list.new ≡ more) }
    ensures none { larger ≡ None → list.new ≡ list.old }
{
    if let Some(larger) = larger {
        *list = larger;
    }
}

/// Replaces a list by one that comes back, if that has more room.
pub(crate) fn take_back(list: &mut Vec<Version>, back: Option<Vec<Version>>)
    ensures back { IfSome back (λ back. vec_capacity back ≤ vec_capacity list.new) }
    ensures kept { vec_capacity list.old ≤ vec_capacity list.new }
{
    if let Some(back) = back {
        if back.capacity() > list.capacity() {
            *list = back;
        }
    }
}
