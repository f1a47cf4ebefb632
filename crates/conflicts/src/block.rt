//! The conflicts of a block.

ghost use Rattle.std.specs.Prelude.{◌≡◌, ◌≤◌, IfOk, length};
ghost use Rattle.conflicts.specs.ByKey.{calls_by_key};
ghost use Rattle.conflicts.specs.Paths.{ArePaths};
ghost use Rattle.conflicts.specs.Sums.{keys_of_calls};
ghost use Rattle.conflicts.specs.Waits.{calls_of};

use crate::hot_key::HotKey;
use crate::hot_keys::hot_keys;
use crate::in_order::{CallWaits, Found, call_waits};
use rv_ledger::Job;
use std::alloc::{AllocError, Global};

/// Which calls of a block wait for which.
#[derive(Drop)]
pub struct Conflicts {
    /// What each call waits for, and its gas, in block order.
    pub calls: Vec<CallWaits>,
    /// The greatest sum of gas over the chains of waits that end in each call, in block order.
    pub paths: Vec<u64>,
    /// The keys at which some call waits, ascending.
    pub keys: Vec<HotKey>,
    ghost few: { length calls.items ≤ 1024 },
    ghost each: { length paths.items ≡ length calls.items },
}

/// The conflicts of a job. Its calls are run one after another. Refused if memory ran out.
pub fn find_conflicts(alloc: Global, job: &Job) -> Result<Conflicts, AllocError>
    ensures calls { IfOk result (λ c. c.calls.items ≡ calls_by_key job.now.block job.now.store) }
    ensures paths { IfOk result (λ c. ArePaths (calls_of job.now.block job.now.store) c.paths.items) }
    ensures keys { IfOk result (λ c. c.keys.items ≡ keys_of_calls job.now.block job.now.store) }
    ensures count { IfOk result (λ c. length c.paths.items ≡ length job.now.block) }
{
    let _calls = job.block.calls();
    let Found {
        calls,
        paths,
        writers,
        waits,
    } = call_waits(alloc, job)?;
    let keys = hot_keys(alloc, &writers, &waits)?;
    Ok(Conflicts { calls, paths, keys })
}
