//! Checks the reads that a run made: whether the map still answers them as it did then.
#![tactic(auto)]

ghost use Rattle.std.specs.Prelude.{◌≡◌, slice_get};
ghost use Rattle.std.specs.Option.{option_map};
ghost use Rattle.mvmap.specs.Reading.{stands};

use mvmap::MvMap;
use read_set::Read;

/// Whether a read of the call of index `i` stands: reading its key for that call now gives the same origin, with the same
/// passed versions. The storage before the block is checked as an origin too. A read that now meets an estimate does not
/// stand. Takes no memory.
pub fn still_read(map: &MvMap, i: u16, read: &Read) -> bool
    ensures { result ≡ stands map.now.versions i read.now }
{
    map.still_has(&read.key, i, &read.origin)
}

/// Whether the read at index `next` of a list stands, or None past the end of the list. Takes no memory.
pub fn next_read(map: &MvMap, i: u16, reads: &[Read], next: usize) -> Option<bool>
    ensures { result ≡ option_map (stands map.now.versions i) (slice_get reads.now next) }
{
    match reads.get(next) {
        Some(read) => Some(still_read(map, i, read)),
        None => None,
    }
}
