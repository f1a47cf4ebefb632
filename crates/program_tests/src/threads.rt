//! Blocks run by threads: whatever their number, what is printed is what running the calls in order
//! prints.

ghost use Rattle.std.specs.Prelude.{◌≡◌, ◌≤◌, All, IfOk, None};
ghost use Rattle.workers.specs.DoneCell.{IsPassOf};

use crate::blocks::{count_lines, result_of_counts};
use crate::calls::{has_text, is_as_in_order, job_of};
use crate::rows::{COUNT, ECHO};
use rv_ledger::{Counts, Job, Outcome};
use std::alloc::{AllocError, Global};
use std::marker::Brand;
use std::process::Abort;
use std::sync::Wait;
use std::sync::atomic::{AtomicBool, Ordering};
use std::test::Fail;
use std::thread::Threads;
use stm_core::Core;
use workers::{Executor, Gate, JobName, Open, RunFault, Share, Shared, settle, work};

/// How often a gate looks for the other worker.
const LOOKS: usize = 1_000_000;

/// How often the test tries to have two workers meet at the gate.
const TRIES: usize = 50;

const ONE_ECHO: &str = "call 0 100 0102\n";

const TWO_ECHOES: &str = "call 0 100 0102\ncall 0 100 0102\n";

/// What two echoes print.
const TWO_RESULTS: &str = "call 0 returned gas 13 pc 00010004 out 0102\n\
    regs 00000000 00000000 00110000 00000000 00000000 00000000 00000000 00000000 \
    00000000 00000000 00100000 00000002 00000000 00000000 00000000 00000000 \
    00000000 00000003 00000000 00000000 00000000 00000000 00000000 00000000 \
    00000000 00000000 00000000 00000000 00000000 00000000 00000000 00000000\n\
    call 1 returned gas 13 pc 00010004 out 0102\n\
    regs 00000000 00000000 00110000 00000000 00000000 00000000 00000000 00000000 \
    00000000 00000000 00100000 00000002 00000000 00000000 00000000 00000000 \
    00000000 00000003 00000000 00000000 00000000 00000000 00000000 00000000 \
    00000000 00000000 00000000 00000000 00000000 00000000 00000000 00000000\n\
    end\n";

const THREE_ECHOES: &str = "call 0 1000 -\ncall 0 1000 01\ncall 0 1000 0102\n";

/// Whether an outcome has the right text of forty counts.
fn is_of_forty(alloc: Global, outcome: &Outcome) -> Result<bool, AllocError> {
    let wanted = result_of_counts(alloc, 40)?;
    has_text(alloc, outcome, wanted.as_bytes())
}

/// Whether this many workers get the right text of forty counts.
fn are_counted<R: Threads + Wait + Sync>(
    rt: &R,
    alloc: Global,
    executor: &mut Executor,
    workers: usize,
) -> Result<bool, Fail> {
    let lines = count_lines(alloc, 40)?;
    let job = job_of(alloc, &[COUNT], lines.as_str())?;
    let outcome = executor.run_block(rt, alloc, job, workers)?;
    Ok(is_of_forty(alloc, &outcome)?)
}

/// By each number of workers, twice on one executor.
#[test]
fn forty_counts_by_threads(rt: HostRuntime) -> Result<(), Fail> {
    for workers in 1..33 {
        let mut executor = Executor::new(rt.alloc());
        assert!(rt; are_counted(&rt, rt.alloc(), &mut executor, workers)?);
        assert!(rt; are_counted(&rt, rt.alloc(), &mut executor, workers)?);
    }
    Ok(())
}

/// Whether no job is run by this many workers.
fn is_bad_count<R: Threads + Wait + Sync>(
    rt: &R,
    alloc: Global,
    workers: usize,
) -> Result<bool, Fail> {
    let job = job_of(alloc, &[ECHO], ONE_ECHO)?;
    let mut executor = Executor::new(alloc);
    let answer = executor.run_block(rt, alloc, job, workers);
    Ok(matches!(answer, Err(RunFault::BadCount)))
}

#[test]
fn bad_count(rt: HostRuntime) -> Result<(), Fail> {
    assert!(rt; is_bad_count(&rt, rt.alloc(), 0)?);
    assert!(rt; is_bad_count(&rt, rt.alloc(), 33)?);
    Ok(())
}

/// What the workers of a job share, and the share of each.
pub fn shares_of<J: JobName>(
    alloc: Global,
    job: &Job,
    workers: usize,
) -> Result<(Shared<J>, Vec<Share>), AllocError>
    requires job { job.now ≡ J.job }
    requires limit { J.work_limit ≡ None }
    requires count { (1 ≤ workers) × (workers ≤ 32) }
    ensures { IfOk result (λ made. All (λ share. IsPassOf made.0.cell share.pass) made.1.items) }
{
    let core = Core::new(alloc, job.copy()?, workers)?;
    match Shared::new(alloc, core) {
        Ok(made) => Ok(made),
        Err(_) => Err(AllocError),
    }
}

/// The share of a worker who works until all is done.
fn work_alone<J: JobName, R: Wait>(
    rt: &R,
    alloc: Global,
    shared: &Shared<J>,
    share: Share,
) -> Result<Share, RunFault>
    requires { IsPassOf shared.now.cell share.pass }
{
    match work(rt, alloc, shared, share, &Open) {
        Ok(back) => Ok(back),
        Err(written) => Err(written.fault()),
    }
}

/// The shares of workers who work one after another.
fn work_in_turn<J: JobName, R: Wait>(
    rt: &R,
    alloc: Global,
    shared: &Shared<J>,
    shares: Vec<Share>,
) -> Result<Vec<Share>, Fail>
    requires { All (λ share. IsPassOf shared.now.cell share.pass) shares.items }
{
    let mut back = Vec::new(alloc);
    for share in shares {
        back.push(work_alone(rt, alloc, shared, share)?)?;
    }
    Ok(back)
}

/// The shares of workers who work one after another, the given one first. The shares are in the order of the workers.
fn work_from<J: JobName, R: Wait + Abort>(
    rt: &R,
    alloc: Global,
    shared: &Shared<J>,
    shares: Vec<Share>,
    first: usize,
) -> Result<Vec<Share>, Fail>
    requires { All (λ share. IsPassOf shared.now.cell share.pass) shares.items }
{
    let mut shares = shares;
    assert!(rt; first < shares.len());
    let alone = work_alone(rt, alloc, shared, shares.remove(first))?;
    let mut back = work_in_turn(rt, alloc, shared, shares)?;
    assert!(rt; first <= back.len());
    back.insert(first, alone)?;
    Ok(back)
}

/// The answer to a job whose workers gave these shares back.
pub fn answer_of<J: JobName>(
    alloc: Global,
    shared: Shared<J>,
    back: Vec<Share>,
    job: &Job,
) -> Result<Outcome, RunFault> {
    let (answer, _) = settle(alloc, shared.into_book(), back, job);
    answer
}

/// The counts of this many steps and asks, and of this many calls that were each run and validated once.
fn counts(steps: u64, asks: u64, calls: u64) -> Counts {
    Counts {
        steps,
        asks,
        executions: calls,
        validations: calls,
    }
}

/// Whether worker `first` of three ran three echoes, and each of the others asked once. Each got the answer Done once.
fn are_shares(shares: &[Share], first: usize) -> bool {
    let mut number = 0;
    for share in shares {
        let wanted = if number == first {
            counts(16, 7, 3)
        } else {
            counts(1, 1, 0)
        };
        if share.worker() != number || share.counts() != wanted || share.dones() != 1 {
            return false;
        }
        number = number.wrapping_add(1);
    }
    number == 3
}

/// Whether three workers, of whom the given one works first, have the same outcome as three echoes in order.
fn is_alone<J: JobName, R: Wait + Abort>(
    rt: &R,
    alloc: Global,
    job: &Job,
    first: usize,
) -> Result<bool, Fail>
    requires job { job.now ≡ J.job }
    requires limit { J.work_limit ≡ None }
{
    let (shared, shares) = shares_of::<J>(alloc, job, 3)?;
    let back = work_from(rt, alloc, &shared, shares, first)?;
    let are_right = are_shares(back.as_slice(), first);
    let is_right = is_as_in_order(alloc, &answer_of(alloc, shared, back, job)?, job)?;
    Ok(are_right && is_right)
}

/// The same for a job of its own.
fn is_done_alone<R: Wait + Abort>(rt: &R, alloc: Global, first: usize) -> Result<bool, Fail> {
    let job = job_of(alloc, &[ECHO], THREE_ECHOES)?;
    is_alone::<Brand, R>(rt, alloc, &job, first)
}

/// One worker of three does all the work of three echoes, then the others ask once each.
#[test]
fn one_share_alone(rt: HostRuntime) -> Result<(), Fail> {
    for first in 0..3 {
        assert!(rt; is_done_alone(&rt, rt.alloc(), first)?);
    }
    Ok(())
}

/// Whether a job whose second worker's share is not given back is refused as Foreign.
fn is_foreign<J: JobName, R: Wait + Abort>(rt: &R, alloc: Global, job: &Job) -> Result<bool, Fail>
    requires job { job.now ≡ J.job }
    requires limit { J.work_limit ≡ None }
{
    let (shared, shares) = shares_of::<J>(alloc, job, 2)?;
    let mut back = work_in_turn(rt, alloc, &shared, shares)?;
    let _ = back.pop();
    Ok(matches!(answer_of(alloc, shared, back, job), Err(RunFault::Foreign)))
}

/// The same for a job of its own.
fn is_foreign_without_one<R: Wait + Abort>(rt: &R, alloc: Global) -> Result<bool, Fail> {
    let job = job_of(alloc, &[ECHO], ONE_ECHO)?;
    is_foreign::<Brand, R>(rt, alloc, &job)
}

#[test]
fn settle_misses_a_share(rt: HostRuntime) -> Result<(), Fail> {
    assert!(rt; is_foreign_without_one(&rt, rt.alloc())?);
    Ok(())
}

/// A gate at which each of two workers looks for the other.
#[derive(Drop)]
struct Meeting {
    here: [AtomicBool; 2],
    met: [AtomicBool; 2],
}

impl Meeting {
    /// A gate at which nobody was yet.
    fn new() -> Meeting {
        Meeting {
            here: [AtomicBool::new(false), AtomicBool::new(false)],
            met: [AtomicBool::new(false), AtomicBool::new(false)],
        }
    }

    /// Whether each worker saw the other when it first reached the gate.
    fn is_met(&self) -> bool {
        self.met[0].load(Ordering::SeqCst) && self.met[1].load(Ordering::SeqCst)
    }
}

impl Gate for Meeting {
    fn held(&self, worker: usize) {
        if worker > 1 || self.here[worker].swap(true, Ordering::SeqCst) {
            return;
        }
        for _ in 0..LOOKS {
            if self.here[1 - worker].load(Ordering::SeqCst) {
                self.met[worker].store(true, Ordering::SeqCst);
                return;
            }
        }
    }
}

/// Whether two workers who run two echoes get the right text.
fn echo_at_gate<R: Threads + Wait + Sync>(
    rt: &R,
    alloc: Global,
    executor: &mut Executor,
    gate: &Meeting,
) -> Result<bool, Fail> {
    let job = job_of(alloc, &[ECHO], TWO_ECHOES)?;
    let outcome = executor.run_block_with(rt, alloc, job, 2, gate)?;
    Ok(has_text(alloc, &outcome, TWO_RESULTS.as_bytes())?)
}

#[test]
fn two_at_once(rt: HostRuntime) -> Result<(), Fail> {
    let mut executor = Executor::new(rt.alloc());
    let mut met = false;
    for _ in 0..TRIES {
        let gate = Meeting::new();
        assert!(rt; echo_at_gate(&rt, rt.alloc(), &mut executor, &gate)?);
        if gate.is_met() {
            met = true;
            break;
        }
    }
    assert!(rt; met);
    Ok(())
}
