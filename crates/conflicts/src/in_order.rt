//! What the calls of a block wait for.

ghost use Rattle.std.specs.FinMap as map;
ghost use Rattle.std.specs.Prelude.{◌≡◌, ◌++◌, ◌∷◌, ◌≤◌, ◌<◌, ◌+◌, ◌*◌, ◌^◌, ℕ, List, All, IfOk, OnOk, length};
ghost use Rattle.std.specs.List.{slice_get};
ghost use Rattle.conflicts.specs.ByKey.{calls_by_key, key_waits_from};
ghost use Rattle.conflicts.specs.Calls.{calls_at, count_at, with_call_changes, with_waits};
ghost use Rattle.conflicts.specs.Greatest.{greatest_from};
ghost use Rattle.conflicts.specs.Paths.{ArePaths};
ghost use Rattle.conflicts.specs.Reads.{keys_read};
ghost use Rattle.conflicts.specs.Sums.{all_waits, calls_changing};
ghost use Rattle.conflicts.specs.Table.{after_changes, key_waits_in, waits_in};
ghost use Rattle.conflicts.specs.Waits.{calls_of, waits_for};
ghost use Rattle.rv_step.specs.Chain.{ends};
ghost use Rattle.rv_step.specs.Fold.{receipts_of, store_after_call};

use crate::call_lists::CallLists;
use crate::key_waits::KeyWaits;
use crate::keys::KeySet;
use crate::paths::path_over;
use crate::reading::reading_of;
use crate::wait_counts::WaitCounts;
use rv_ledger::{Call, Job, Key, Store, apply_writes};
use rv_step::SpareRun;
use std::alloc::{AllocError, Global};
use std::marker::Model;

/// What a call waits for, and its gas.
#[derive(Drop)]
pub struct CallWaits {
    waits: Vec<KeyWaits>,
    gas: u32,
}

impl Model for CallWaits {
    ghost use Rattle.conflicts.specs.ByKey.{CallByKey};

    ghost Value = { CallByKey };

    ghost view = { λ c. record { waits = c.waits.items; gas = c.gas } };
}

impl CallWaits {
    ghost use Rattle.std.specs.Prelude.{◌≡◌};

    /// The waits, by ascending key. Each key occurs once.
    pub(crate) fn waits(&self) -> &[KeyWaits]
        ensures { result.now ≡ self.now.waits }
    {
        self.waits.as_slice()
    }

    /// The gas that the call used.
    pub(crate) fn gas(&self) -> u32
        ensures { result ≡ self.now.gas }
    {
        self.gas
    }
}

/// What running the calls of a block in order found.
#[derive(Drop)]
pub(crate) struct Found {
    /// What each call waits for, in block order.
    pub(crate) calls: Vec<CallWaits>,
    /// The path of each call, in block order.
    pub(crate) paths: Vec<u64>,
    /// The calls that change each key.
    pub(crate) writers: CallLists,
    /// How many waits there are at each key.
    pub(crate) waits: WaitCounts,
}

/// What each call of a job waits for, its path, the calls that change each key, and the number of waits there. The calls are run
/// one after another. Refused if memory ran out.
pub(crate) fn call_waits(alloc: Global, job: &Job) -> Result<Found, AllocError>
    ensures calls { IfOk result (λ found. found.calls.items ≡ calls_by_key job.now.block job.now.store) }
    ensures paths { IfOk result (λ found. ArePaths (calls_of job.now.block job.now.store) found.paths.items) }
    ensures count { IfOk result (λ found. length found.paths.items ≡ length job.now.block) }
    ensures writers { IfOk result (λ found. (key : List ℕ) → calls_at found.writers key ≡ calls_changing (receipts_of job.now.block job.now.store) key) }
    ensures waits { IfOk result (λ found. found.waits ≡ with_waits map.empty (all_waits (calls_of job.now.block job.now.store))) }
{
    all_waits(alloc, job.block.calls(), job.store.copy()?)
}

/// How far the calls of a block were run.
#[derive(Drop)]
struct Progress {
    /// The storage after the last call.
    store: Store,
    /// The calls that reads of each key would name.
    named: CallLists,
    /// The calls that changed each key.
    writers: CallLists,
    /// How many waits there are at each key.
    waits: WaitCounts,
    /// The paths of the calls.
    paths: Vec<u64>,
    /// What the run of one call leaves to the next.
    spare: SpareRun,
}

/// The same for some calls and a storage. Refused if memory ran out.
fn all_waits(alloc: Global, calls: &[Call], store: Store) -> Result<Found, AllocError>
    requires { length calls.now ≤ 1024 }
    ensures calls { IfOk result (λ found. found.calls.items ≡ calls_by_key calls.now store) }
    ensures paths { IfOk result (λ found. ArePaths (calls_of calls.now store) found.paths.items) }
    ensures count { IfOk result (λ found. length found.paths.items ≡ length calls.now) }
    ensures writers { IfOk result (λ found. (key : List ℕ) → calls_at found.writers key ≡ calls_changing (receipts_of calls.now store) key) }
    ensures waits { IfOk result (λ found. found.waits ≡ with_waits map.empty (all_waits (calls_of calls.now store))) }
{
    let paths = Vec::with_capacity(alloc, calls.len())?;
    let mut progress = Progress {
        store,
        named: CallLists::new(alloc),
        writers: CallLists::new(alloc),
        waits: WaitCounts::new(alloc),
        paths,
        spare: SpareRun::new(alloc),
    };
    let mut all = Vec::with_capacity(alloc, calls.len())?;
    for (index, call) in calls.iter().enumerate() {
        let next = progress.run_next(alloc, index as u16, call)?;
        all.push(next)?;
    }
    let Progress {
        writers,
        waits,
        paths,
        ..
    } = progress;
    Ok(Found {
        calls: all,
        paths,
        writers,
        waits,
    })
}

impl Progress {
    ghost use Rattle.std.specs.FinMap as map;
    ghost use Rattle.std.specs.Prelude.{◌≡◌, ◌++◌, ◌∷◌, ◌≤◌, ◌<◌, ◌+◌, ◌*◌, ◌^◌, [], ℕ, List, All, IfOk, OnOk};
    ghost use Rattle.conflicts.specs.Calls.{count_at, with_call_changes, with_waits};
    ghost use Rattle.conflicts.specs.Greatest.{greatest_from};
    ghost use Rattle.conflicts.specs.Reads.{keys_read};
    ghost use Rattle.conflicts.specs.Table.{after_changes, key_waits_in, waits_in};
    ghost use Rattle.rv_step.specs.Chain.{ends};
    ghost use Rattle.rv_step.specs.Fold.{store_after_call};

    /// Runs the next call of a block. Refused if memory ran out.
    fn run_next(&mut self, alloc: Global, index: u16, call: &Call) -> Result<CallWaits, AllocError>
        requires paths { All (λ path. path ≤ 1024 * 2 ^ 32) self.old.paths.items }
        requires waits { (q : List ℕ) → count_at (with_waits self.old.waits (waits_in self.old.named (keys_read call.now self.old.store))) q < 2 ^ 64 }
        ensures waits { IfOk result (λ c. c.waits ≡ key_waits_in self.old.named (keys_read call.now self.old.store)) }
        ensures gas { IfOk result (λ c. c.gas ≡ (ends call.now self.old.store).gas) }
        ensures counts { OnOk result (self.new.waits ≡ with_waits self.old.waits (waits_in self.old.named (keys_read call.now self.old.store))) }
        ensures path { OnOk result (self.new.paths.items ≡ self.old.paths.items
            ++ ((ends call.now self.old.store).gas + greatest_from self.old.paths.items 0 (waits_in self.old.named (keys_read call.now self.old.store))) ∷ []) }
        ensures bound { OnOk result ((most : ℕ) → All (λ path. path ≤ most) self.old.paths.items
            → (ends call.now self.old.store).gas + greatest_from self.old.paths.items 0 (waits_in self.old.named (keys_read call.now self.old.store)) < most + 2 ^ 32) }
        ensures store { OnOk result (self.new.store ≡ store_after_call call.now self.old.store) }
        ensures writers { OnOk result (self.new.writers ≡ with_call_changes index (map.entries (ends call.now self.old.store).writes) self.old.writers) }
        ensures named { OnOk result (self.new.named ≡ after_changes index (map.entries (ends call.now self.old.store).writes) self.old.named) }
    {
        let reading = reading_of(alloc, &mut self.spare, call, &self.store)?;
        let waits = key_waits_in(alloc, &self.named, &reading.keys)?;
        count_waits(&mut self.waits, &self.named, &reading.keys)?;
        let path = path_over(
            self.paths.as_slice(),
            &self.named,
            &reading.keys,
            reading.receipt.gas,
        );
        self.paths.push(path)?;
        self.named.note_all(index, &reading.receipt.writes)?;
        self.writers.add_all(index, &reading.receipt.writes)?;
        apply_writes(&mut self.store, &reading.receipt.writes)?;
        Ok(CallWaits {
            waits,
            gas: reading.receipt.gas,
        })
    }
}

/// The waits of a call that reads these keys. Refused if memory ran out.
fn key_waits_in(
    alloc: Global,
    named: &CallLists,
    keys: &KeySet,
) -> Result<Vec<KeyWaits>, AllocError>
    ensures { IfOk result (λ waits. waits.items ≡ key_waits_in named.now keys.now) }
{
    let mut waits = Vec::new(alloc);
    for (key, _) in keys.iter() {
        push_waits(&mut waits, *key, named.at(key))?;
    }
    Ok(waits)
}

/// Adds the waits at a key for these calls, if there are any. Refused if memory ran out.
fn push_waits(waits: &mut Vec<KeyWaits>, key: Key, calls: &[u16]) -> Result<(), AllocError>
    ensures { OnOk result (waits.new.items ≡ waits.old.items ++ key_waits_from key (slice_get calls.now 0)) }
{
    if let Some(from) = calls.first() {
        waits.push(KeyWaits { from: *from, key })?;
    }
    Ok(())
}

/// Counts the waits of a call that reads these keys. Refused if memory ran out.
fn count_waits(counts: &mut WaitCounts, named: &CallLists, keys: &KeySet) -> Result<(), AllocError>
    requires { (q : List ℕ) → count_at (with_waits counts.old (waits_in named.now keys.now)) q < 2 ^ 64 }
    ensures { OnOk result (counts.new ≡ with_waits counts.old (waits_in named.now keys.now)) }
{
    for (key, _) in keys.iter() {
        count_calls(counts, *key, named.at(key))?;
    }
    Ok(())
}

/// Counts the waits at a key for these calls. Refused if memory ran out.
fn count_calls(counts: &mut WaitCounts, key: Key, calls: &[u16]) -> Result<(), AllocError>
    requires { count_at (with_waits counts.old (waits_for key calls.now)) key < 2 ^ 64 }
    ensures { OnOk result (counts.new ≡ with_waits counts.old (waits_for key calls.now)) }
{
    if calls.is_empty() {
        return Ok(());
    }
    counts.add(key, calls.len() as u64)
}
