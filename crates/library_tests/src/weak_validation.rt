//! A validation that is too weak: it asks only whether the version that a read found is still in the map. In two of the rows of
//! `validate_calls` it says yes although the read no longer stands.

ghost use Rattle.std.specs.Prelude.{◌≡◌, IfSome, Some, true};
ghost use Rattle.rv_ledger.specs.Change.{ContentChange};
ghost use Rattle.mvmap.specs.Versions.{Stands, entry_at};

use mvmap::{MvMap, names_what_stands};
use read_set::{Origin, Read, Version};
use rv_ledger::Key;
use std::alloc::Global;
use validate::still_read;

/// Whether a version of a key is in the map.
fn has_version(alloc: Global, map: &MvMap, key: &Key, version: Version) -> bool
    ensures { result ≡ true → (c : ContentChange) × (entry_at map.now.versions key.now version.writer ≡ Some (Stands version.incarnation c)) }
{
    let Some(above) = version.writer.checked_add(1) else {
        return false;
    };
    names_what_stands();
    let read = Read {
        key: *key,
        origin: Origin::new(Vec::new(alloc), Some(version)),
    };
    still_read(map, above, &read)
}

/// Whether the version that a read found is in the map, if it found one.
pub fn has_what_was_read(alloc: Global, map: &MvMap, read: &Read) -> bool
    ensures { result ≡ true → IfSome read.now.origin.bottom (λ version. (c : ContentChange) × (entry_at map.now.versions read.now.key version.writer ≡ Some (Stands version.incarnation c))) }
{
    match read.origin.bottom() {
        Some(version) => has_version(alloc, map, &read.key, version),
        None => true,
    }
}
