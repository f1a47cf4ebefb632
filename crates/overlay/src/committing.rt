//! Making changes of a storage, all of them or none.

ghost use Rattle.std.specs.Prelude.{◌≡◌, ℕ, List, IfOk, OnErr, OnOk};
ghost use Rattle.std.specs.FinMap as map;
ghost use Rattle.rv_ledger.specs.Applied.{set_content};
ghost use Rattle.overlay.specs.Overlay.{Changes, with_changes};
ghost use Rattle.rv_ledger.specs.Key.{Storage};
ghost use Rattle.overlay.specs.Commit.{AreAbsent, Fits, HasRoom, IsKeyThere, absent_of, all_set, grown, shrunk};

use crate::overlay::Overlay;
use rv_ledger::{Key, Store, StoredValue, Value};
use std::alloc::AllocError;
use std::collections::BTreeMap;

/// Makes changes of a storage, at a cost in proportion to their number. Refused if memory ran out, and then nothing
/// changes.
///
/// Only a key that the storage does not have yet takes memory. So these keys are put in first, with no value. If memory
/// runs out, they are removed again, which takes none. Then every key gets its new content.
#[tactic(auto, using(crate::proofs::Commits::room_fits, crate::proofs::Commits::room_made))]
pub fn commit(store: &mut Store, changes: Overlay) -> Result<(), AllocError>
    ensures ok { OnOk result (store.new ≡ with_changes store.old changes) }
    ensures err { OnErr result (store.new ≡ store.old) }
{
    make_room(store, &changes)?;
    make(store, changes);
    Ok(())
}

/// Makes the room that changes need: puts in, with no value, the keys that get a value and that the storage does not
/// have, and returns them. Refused if memory ran out, and then nothing changes.
#[tactic(auto, using(crate::proofs::Commits::are_absent))]
pub fn make_room(store: &mut Store, changes: &Overlay) -> Result<Vec<Key>, AllocError>
    ensures ok { IfOk result (λ keys. HasRoom store.old changes.now keys.items store.new) }
    ensures err { OnErr result (store.new ≡ store.old) }
{
    let absent = absent_keys(store, changes)?;
    grow(store, absent.as_slice())?;
    Ok(absent)
}

/// Frees the room: the storage is as it was before.
#[tactic(auto, using(crate::proofs::Commits::given_back))]
pub fn give_back(store: &mut Store, keys: &[Key])
    ensures { (before : Storage) (changes : Changes) → HasRoom before changes keys.now store.old → store.new ≡ before }
{
    shrink(store, keys);
}

/// Makes all changes of a storage that has the room. Takes no memory.
#[tactic(auto, using(crate::proofs::Commits::room_fits, crate::proofs::Commits::room_made))]
pub fn make(store: &mut Store, changes: Overlay)
    requires { Fits store.old (map.entries changes) }
    ensures { (before : Storage) (keys : List (List ℕ)) → HasRoom before changes keys store.old → store.new ≡ with_changes before changes }
{
    set_all(store, changes.into_entries());
}

/// The changed keys that get a value and that the storage does not have; refused if memory ran out.
fn absent_keys(store: &Store, changes: &Overlay) -> Result<Vec<Key>, AllocError>
    ensures { IfOk result (λ v. v.items ≡ absent_of store.now (map.entries changes.now)) }
{
    let mut absent = Vec::new(changes.allocator());
    for (key, content) in changes.iter() {
        if content.is_some() && store.get(key).is_none() {
            absent.push(*key)?;
        }
    }
    Ok(absent)
}

/// Puts in keys that the storage does not have, with no value. Refused if memory ran out, and then nothing changes.
#[tactic(auto, using(crate::proofs::Commits::grown_back))]
fn grow(store: &mut Store, keys: &[Key]) -> Result<(), AllocError>
    requires { AreAbsent store.old keys.now }
    ensures ok { OnOk result (store.new ≡ grown store.old keys.now) }
    ensures err { OnErr result (store.new ≡ store.old) }
{
    for index in 0..keys.len() {
        if store.insert(keys[index], Value::empty()).is_err() {
            shrink(store, &keys[..index]);
            return Err(AllocError);
        }
    }
    Ok(())
}

/// Removes keys.
fn shrink(store: &mut Store, keys: &[Key])
    ensures { store.new ≡ shrunk store.old keys.now }
{
    for key in keys {
        store.remove(key);
    }
}

/// Gives each key its new content. Takes no memory, since the storage has each key that gets a value.
fn set_all(store: &mut Store, changes: BTreeMap<Key, Option<StoredValue>>)
    requires { Fits store.old changes.entries }
    ensures { store.new ≡ all_set store.old changes.entries }
{
    for (key, content) in changes {
        set(store, key, content);
    }
}

/// Gives a key its new content. Takes no memory.
fn set(store: &mut Store, key: Key, content: Option<StoredValue>)
    requires { IsKeyThere store.old key content }
    ensures { store.new ≡ set_content store.old key content }
{
    match content {
        Some(value) => match store.put(key, value) {
            Ok(()) => {}
            Err(_) => unreachable!(),
        },
        None => store.remove(&key),
    }
}
