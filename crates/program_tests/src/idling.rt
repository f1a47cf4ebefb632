//! How often an idle worker looks at its block's cell before it asks for work again.

ghost use Rattle.std.specs.Prelude.{◌≡◌, All, None};
ghost use Rattle.workers.specs.DoneCell.{IsPassOf};

use crate::calls::job_of;
use crate::rows::ECHO;
use crate::threads::shares_of;
use rv_ledger::{Counts, Job};
use std::alloc::Global;
use std::marker::Brand;
use std::process::Abort;
use std::sync::Wait;
use std::sync::atomic::{AtomicBool, AtomicU64, Ordering};
use std::test::Fail;
use std::thread;
use std::thread::{Threads, yield_now};
use stm_core::NextStep;
use workers::{
    DoneCell, DonePass, Gate, JobName, LOOK_LIMIT, Open, RunFault, Share, Shared, Spin,
    WrittenFault, work, work_spinning,
};

/// How often a worker has looked when the other one, which is held at the end of its run, continues.
const HELD_LOOKS: u64 = 200;

/// How often one worker waits for the other, at most.
const WAITS: usize = 1_000_000;

/// Counts how often a worker looked at a cell that did not show done.
#[derive(Clone, Copy)]
struct Looks<'a> {
    count: &'a AtomicU64,
}

impl Spin for Looks<'_> {
    fn looks(&mut self) -> usize {
        LOOK_LIMIT
    }

    fn spin(&self) {
        let _ = self.count.fetch_add(1, Ordering::SeqCst);
    }

    fn backs_off(&self) -> bool {
        false
    }

    fn meet_lock(&mut self) {}

    fn learn(&mut self, _owed: NextStep) {}
}

/// Has a worker look at a cell, and returns how often it did not see done.
fn count_looks<R: Wait>(rt: &R, cell: &DoneCell, pass: &mut DonePass) -> u64
    requires { IsPassOf cell.now pass.old }
    ensures { IsPassOf cell.now pass.new }
{
    let count = AtomicU64::new(0);
    let _ = cell.look(rt, pass, &mut Looks { count: &count });
    count.load(Ordering::SeqCst)
}

#[test]
fn an_idle_worker_looks_64_times(rt: HostRuntime) -> Result<(), Fail> {
    let cell = DoneCell::new(rt.alloc())?;
    let mut pass = cell.pass();
    let while_running = count_looks(&rt, &cell, &mut pass);
    assert_eq!(rt; while_running, 64);
    Ok(())
}

/// A gate at which a worker is held at the end of its run, until the other one has looked often enough.
#[derive(Drop)]
struct Held {
    here: AtomicBool,
    looks: AtomicU64,
}

impl Held {
    /// Waits until a worker is held.
    fn await_worker(&self) {
        for _ in 0..WAITS {
            if self.here.load(Ordering::SeqCst) {
                return;
            }
            yield_now();
        }
    }
}

impl Gate for Held {
    fn held(&self, _worker: usize) {
        self.here.store(true, Ordering::SeqCst);
        for _ in 0..WAITS {
            if self.looks.load(Ordering::SeqCst) >= HELD_LOOKS {
                return;
            }
            yield_now();
        }
    }
}

/// The counts of the second of two workers, once both have worked.
fn second_counts(
    first: Result<Share, WrittenFault>,
    second: Result<Share, WrittenFault>,
) -> Result<Counts, RunFault> {
    match (first, second) {
        (Ok(_), Ok(share)) => Ok(share.counts()),
        (Err(written), _) | (_, Err(written)) => Err(written.fault()),
    }
}

/// The counts of the second of two workers, which finds no work until the first one, on a thread of its own, continues.
fn idle_counts<J: JobName + Send + Sync, R: Threads + Wait + Sync + Abort>(
    rt: &R,
    alloc: Global,
    shared: &Shared<J>,
    shares: Vec<Share>,
    held: &Held,
) -> Result<Counts, RunFault>
    requires { All (λ share. IsPassOf shared.now.cell share.pass) shares.items }
{
    let mut shares = shares;
    assert!(rt; shares.len() == 2);
    let busy = shares.remove(0);
    let idle = shares.remove(0);
    thread::scope(
        thread::scope_env(),
        rt,
        |scope| -> Result<Counts, RunFault>
            requires { IsPassOf shared.now.cell busy.pass × IsPassOf shared.now.cell idle.pass }
        {
            let working = move || -> Result<Share, WrittenFault>
                requires { IsPassOf shared.now.cell busy.pass }
            { work(rt, alloc, shared, busy, held) };
            let Ok(thread) = scope.spawn(working) else {
                return Err(RunFault::Spawn);
            };
            held.await_worker();
            let looks = Looks { count: &held.looks };
            let answer = work_spinning(rt, alloc, shared, idle, &Open, looks);
            second_counts(thread.join(rt), answer)
        },
    )
}

/// How often one of two workers got the answer that there is no task for it, and how often it looked after that.
fn rows_and_looks<J: JobName + Send + Sync, R: Threads + Wait + Sync + Abort>(
    rt: &R,
    alloc: Global,
    job: &Job,
) -> Result<(u64, u64), Fail>
    requires job { job.now ≡ J.job }
    requires limit { J.work_limit ≡ None }
{
    let held = Held {
        here: AtomicBool::new(false),
        looks: AtomicU64::new(0),
    };
    let (shared, shares) = shares_of::<J>(alloc, job, 2)?;
    let counts = idle_counts(rt, alloc, &shared, shares, &held)?;
    let tasks = counts.executions.saturating_add(counts.validations);
    let rows = counts.asks.saturating_sub(tasks).saturating_sub(1);
    Ok((rows, held.looks.load(Ordering::SeqCst)))
}

/// The same for one call.
fn rows_of_a_call<R: Threads + Wait + Sync + Abort>(
    rt: &R,
    alloc: Global,
) -> Result<(u64, u64), Fail> {
    let job = job_of(alloc, &[ECHO], "call 0 100 0102\n")?;
    rows_and_looks::<Brand, R>(rt, alloc, &job)
}

/// Each row of looks except the last has all of them: in the last one the block is done.
#[test]
fn a_worker_looks_once_between_two_asks(rt: HostRuntime) -> Result<(), Fail> {
    let (rows, looks) = rows_of_a_call(&rt, rt.alloc())?;
    let limit = LOOK_LIMIT as u64;
    assert!(&rt; rows > HELD_LOOKS / limit, "{rows} rows");
    let most = rows.saturating_mul(limit);
    assert!(&rt;
        looks <= most && looks >= most.saturating_sub(limit),
        "{looks} looks"
    );
    Ok(())
}
