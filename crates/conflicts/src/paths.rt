//! The greatest sums of gas over chains of waits.

ghost use Rattle.std.specs.FinMap as map;
ghost use Rattle.std.specs.Prelude.{◌≡◌, ◌≤◌, ◌<◌, ◌*◌, ◌^◌, ◌+◌, All, List, ℕ};
ghost use Rattle.conflicts.specs.Greatest.{greater, greatest_from, path_at};
ghost use Rattle.conflicts.specs.Table.{waits_in};
ghost use Rattle.conflicts.specs.Waits.{waits_for};

use crate::call_lists::CallLists;
use crate::keys::KeySet;

/// The gas of a call that reads these keys, over the greatest path of those that it waits for.
pub(crate) fn path_over(paths: &[u64], named: &CallLists, keys: &KeySet, gas: u32) -> u64
    requires { All (λ path. path ≤ 1024 * 2 ^ 32) paths.now }
    ensures value { result ≡ gas + greatest_from paths.now 0 (waits_in named.now keys.now) }
    ensures bound { (most : ℕ) → All (λ path. path ≤ most) paths.now → result < most + 2 ^ 32 }
{
    u64::from(gas) + greatest_over(paths, named, keys)
}

/// The greatest path of the calls that are waited for at these keys, or 0 if there is none.
fn greatest_over(paths: &[u64], named: &CallLists, keys: &KeySet) -> u64
    ensures value { result ≡ greatest_from paths.now 0 (waits_in named.now keys.now) }
    ensures bound { (most : ℕ) → All (λ path. path ≤ most) paths.now → result ≤ most }
{
    let mut greatest = 0;
    for (key, _) in keys.iter() {
        greatest = greatest_from(paths, greatest, named.at(key));
    }
    greatest
}

/// The greatest of a number and the paths of some calls.
fn greatest_from(paths: &[u64], least: u64, calls: &[u16]) -> u64
    ensures value { (key : List ℕ) → result ≡ greatest_from paths.now least (waits_for key calls.now) }
    ensures bound { (most : ℕ) → least ≤ most → All (λ path. path ≤ most) paths.now → result ≤ most }
{
    let mut greatest = least;
    for call in calls {
        greatest = greater(greatest, path_at(paths, *call));
    }
    greatest
}

/// The path of a call, or 0 if there is none.
fn path_at(paths: &[u64], call: u16) -> u64
    ensures { result ≡ path_at paths.now call }
{
    match paths.get(usize::from(call)) {
        Some(path) => *path,
        None => 0,
    }
}

/// The greater of two numbers.
fn greater(left: u64, right: u64) -> u64
    ensures { result ≡ greater left right }
{
    if left < right { right } else { left }
}
