//! The sums over all calls.

ghost use Rattle.std.specs.Prelude.{◌≡◌, ◌≤◌, length};
ghost use Rattle.conflicts.specs.Sums.{gas_of_all, greatest_path};

use crate::in_order::CallWaits;

/// The gas of all calls.
pub(crate) fn gas_of_all(calls: &[CallWaits]) -> u64
    requires { length calls.now ≤ 1024 }
    ensures { result ≡ gas_of_all calls.now }
{
    let mut sum = 0;
    for call in calls {
        sum += u64::from(call.gas());
    }
    sum
}

/// The greatest of some paths, or 0 if there is none.
pub(crate) fn greatest_path(paths: &[u64]) -> u64
    ensures { result ≡ greatest_path paths.now }
{
    let mut greatest = 0;
    for path in paths {
        greatest = greatest.max(*path);
    }
    greatest
}
