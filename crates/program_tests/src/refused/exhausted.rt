//! Blocks run while memory, or a thread, is refused. The tests take the memory away themselves.

ghost use Rattle.std.specs.Prelude.{◌≡◌, All, None};
ghost use Rattle.workers.specs.DoneCell.{IsPassOf};

use crate::calls::has_text;
use crate::refused::exhausted::attempts::{Tried, Way, done, refused};
use crate::refused::images::{COUNT, ECHO, KEY, NotMade, assembled_call, job_of};
use crate::refused::limits::{no_blocks, reserve_of, take_rest, take_space};
use crate::refused::rows::{ECHO_TEXT, ECHOED, are_counts};
use crate::refused::taking::Taking;
use crate::threads::{answer_of, shares_of};
use rv_ledger::{Call, Job, Outcome, Store};
use std::alloc::{AllocError, Global};
use std::marker::Brand;
use std::process::Abort;
use std::rt::Clock;
use std::sync::Wait;
use std::thread::Threads;
use workers::{Chain, Executor, JobName, Open, RunFault, Share, Shared, work};

pub mod attempts;
mod files;
mod steps;

/// The room that is left to a block whose threads are refused.
const RESERVE: usize = 1 << 20;

/// The room that is left to a core and to the worker who works over it. With 1 MiB, the heap had too little in one piece at some
/// of the random addresses that the system gives.
const WORK_ROOM: usize = 1 << 21;

/// By how much the memory that is left to a worker grows from one try to the next.
const STEP: usize = 32;

/// How often more memory is left to a worker, at most.
const STEPS: usize = 1 << 14;

/// Whether an executor runs one call of ECHO by two workers, and the outcome is right.
pub fn runs_echo<R: Threads + Wait + Sync>(
    rt: &R,
    alloc: Global,
    executor: &mut Executor,
) -> Result<bool, NotMade> {
    let echo = job_of(alloc, &[(ECHO, ECHOED)])?;
    let outcome = executor.run_block(rt, alloc, echo, 2)?;
    Ok(has_text(alloc, &outcome, ECHO_TEXT)?)
}

/// Whether an executor runs calls of COUNT by some workers, and the outcome is right.
pub fn runs_counts<R: Threads + Wait + Sync>(
    rt: &R,
    alloc: Global,
    executor: &mut Executor,
    calls: &[(&str, &[u8])],
    workers: usize,
) -> Result<bool, NotMade> {
    let outcome = executor.run_block(rt, alloc, job_of(alloc, calls)?, workers)?;
    Ok(are_counts(&outcome, u32::try_from(calls.len()).unwrap_or(0)))
}

/// Asserts that calls which are refused in this way return the right answers in the end.
pub fn assert_come_right(rt: &impl Abort, alloc: Global, way: Way) -> Result<(), NotMade> {
    assert!(rt; files::files(alloc, way)?);
    assert!(rt; files::texts(alloc, way)?);
    assert!(rt; steps::stores(alloc, way)?);
    assert!(rt; steps::runs(alloc, way)?);
    assert!(rt; steps::replays(alloc, way)?);
    assert!(rt; steps::cores(rt, alloc, way)?);
    assert!(rt; steps::drives(alloc, way)?);
    Ok(())
}

/// Each call is refused as Memory at first, and returns the right answer at a later try.
#[test]
fn calls_refused(rt: HostRuntime) {
    assert!(rt; assert_come_right(&rt, rt.alloc(), Way::Exhausted).is_ok());
}

/// Whether a share is that of a worker of an outcome: it has its number and its counts, and one ask answered Done.
fn is_share_of(share: &Share, worker: usize, outcome: &Outcome) -> bool {
    share.worker() == worker
        && share.dones() == 1
        && outcome.counts.as_slice().get(worker).copied() == Some(share.counts())
}

/// Whether two workers give back two shares, in their order.
fn are_shares_in_order<R: Threads + Wait + Sync>(rt: &R, alloc: Global) -> Result<bool, NotMade> {
    let mut executor = Executor::new(alloc);
    let counts = job_of(alloc, &[(COUNT, KEY); 8])?;
    let outcome = executor.run_block(rt, alloc, counts, 2)?;
    let are_in_order = match executor.shares() {
        [first, second] => is_share_of(first, 0, &outcome) && is_share_of(second, 1, &outcome),
        _ => false,
    };
    Ok(are_in_order && are_counts(&outcome, 8))
}

#[test]
fn shares_in_order(rt: HostRuntime) {
    assert!(rt; matches!(are_shares_in_order(&rt, rt.alloc()), Ok(true)));
}

/// Runs eight calls of COUNT by this many workers while no address is left for a thread's stack.
fn run_without_space<R: Threads + Wait + Sync>(
    rt: &R,
    alloc: Global,
    executor: &mut Executor,
    workers: usize,
) -> Result<Result<Outcome, RunFault>, NotMade> {
    let counts = job_of(alloc, &[(COUNT, KEY); 8])?;
    let mut held = no_blocks(alloc)?;
    let reserve = reserve_of(alloc, RESERVE)?;
    take_space(alloc, &mut held);
    drop(reserve);
    Ok(executor.run_block(rt, alloc, counts, workers))
}

/// Whether a block of two workers is refused as Spawn while no address is left for a thread's stack; and whether the executor
/// runs another block after that.
fn is_spawn_refused<R: Threads + Wait + Sync>(
    rt: &R,
    alloc: Global,
    executor: &mut Executor,
) -> Result<bool, NotMade> {
    let is_refused = matches!(
        run_without_space(rt, alloc, executor, 2)?,
        Err(RunFault::Spawn)
    );
    Ok(is_refused && runs_echo(rt, alloc, executor)?)
}

/// Every thread is refused.
#[test]
fn all_threads_refused(rt: HostRuntime) {
    let mut executor = Executor::new(rt.alloc());
    let is_refused = is_spawn_refused(&rt, rt.alloc(), &mut executor);
    assert!(rt; matches!(is_refused, Ok(true)));
}

/// Whether one worker runs without space for more than the stack of the thread of a block before.
fn runs_alone<R: Threads + Wait + Sync>(
    rt: &R,
    alloc: Global,
    executor: &mut Executor,
) -> Result<bool, NotMade> {
    let is_run_before = runs_counts(rt, alloc, executor, &[(COUNT, KEY); 8], 1)?;
    Ok(is_run_before && are_counts(&run_without_space(rt, alloc, executor, 1)??, 8))
}

/// The second thread is refused. The first gets the stack of the thread of a block before.
#[test]
fn second_thread_refused(rt: HostRuntime) {
    let mut executor = Executor::new(rt.alloc());
    assert!(rt; matches!(runs_alone(&rt, rt.alloc(), &mut executor), Ok(true)));
    let is_refused = is_spawn_refused(&rt, rt.alloc(), &mut executor);
    assert!(rt; matches!(is_refused, Ok(true)));
}

/// One call of COUNT, as a chain of one block for two workers.
fn chain_of_counts(alloc: Global) -> Result<Vec<(Vec<Call>, usize)>, NotMade> {
    let mut calls = Vec::new(alloc);
    calls.push(assembled_call(alloc, COUNT, KEY)?)?;
    let mut blocks = Vec::new(alloc);
    blocks.push((calls, 2_usize))?;
    Ok(blocks)
}

/// Whether a chain of a count is refused while all memory is.
fn lacks_memory<R: Threads + Wait + Sync>(
    rt: &R,
    alloc: Global,
    executor: &mut Executor,
) -> Result<bool, NotMade> {
    let blocks = chain_of_counts(alloc)?;
    let mut held = no_blocks(alloc)?;
    take_space(alloc, &mut held);
    take_rest(alloc, &mut held);
    Ok(
        executor
            .run_chain(rt, alloc, Store::new(alloc), blocks)
            .is_err(),
    )
}

/// Whether the growth of a chain itself is refused, and no block is run: the shares are those of the block before.
fn is_chain_refused<R: Threads + Wait + Sync>(rt: &R, alloc: Global) -> Result<bool, NotMade> {
    let mut executor = Executor::new(alloc);
    let before = runs_echo(rt, alloc, &mut executor)?;
    let is_refused = lacks_memory(rt, alloc, &mut executor)?;
    let are_kept = executor.shares().len() == 2;
    Ok(before && is_refused && are_kept && runs_echo(rt, alloc, &mut executor)?)
}

#[test]
fn chain_growth_refused(rt: HostRuntime) {
    assert!(rt; matches!(is_chain_refused(&rt, rt.alloc()), Ok(true)));
}

/// The share of a worker who works while this many bytes are left to it.
fn work_on_spare<J: JobName, R: Wait>(
    rt: &R,
    alloc: Global,
    shared: &Shared<J>,
    share: Share,
    spare: usize,
    rest: &mut Vec<Vec<u8>>,
) -> Result<Result<Share, RunFault>, AllocError>
    requires { IsPassOf shared.now.cell share.pass }
{
    let reserve = reserve_of(alloc, spare)?;
    take_rest(alloc, rest);
    drop(reserve);
    let answer = work(rt, alloc, shared, share, &Open);
    rest.clear();
    match answer {
        Ok(back) => Ok(Ok(back)),
        Err(written) => Ok(Err(written.fault())),
    }
}

/// The shares of workers who work one after another. Each gives its share back, or is refused as the first one was.
fn work_others<J: JobName, R: Wait + Abort>(
    rt: &R,
    alloc: Global,
    shared: &Shared<J>,
    shares: Vec<Share>,
    fault: Option<RunFault>,
) -> Result<Vec<Share>, AllocError>
    requires { All (λ share. IsPassOf shared.now.cell share.pass) shares.items }
{
    let mut back = Vec::new(alloc);
    for share in shares {
        match work(rt, alloc, shared, share, &Open) {
            Ok(share) => back.push(share)?,
            Err(written) => assert!(rt; Some(written.fault()) == fault),
        }
    }
    Ok(back)
}

/// The shares that two workers give back, in their order. Worker `first` works first, with `spare` bytes, and the other one works
/// after it. The other one is refused only if the first one was, with the same fault.
fn work_two<J: JobName, R: Wait + Abort>(
    rt: &R,
    alloc: Global,
    shared: &Shared<J>,
    shares: Vec<Share>,
    first: usize,
    spare: usize,
    rest: &mut Vec<Vec<u8>>,
) -> Result<Vec<Share>, AllocError>
    requires { All (λ share. IsPassOf shared.now.cell share.pass) shares.items }
{
    let mut shares = shares;
    assert!(rt; first < shares.len());
    let share = shares.remove(first);
    let alone = work_on_spare(rt, alloc, shared, share, spare, rest)?;
    let mut back = work_others(rt, alloc, shared, shares, alone.as_ref().err().copied())?;
    if let Ok(share) = alone {
        assert!(rt; first <= back.len());
        back.insert(first, share)?;
    }
    Ok(back)
}

/// The result of a try to run the two calls of a job by two workers, of whom worker `first` works first, with `spare` bytes.
fn tried_on_spare<J: JobName, R: Wait + Abort>(
    rt: &R,
    alloc: Global,
    job: &Job,
    first: usize,
    spare: usize,
    rest: &mut Vec<Vec<u8>>,
) -> Result<Tried, NotMade>
    requires job { job.now ≡ J.job }
    requires limit { J.work_limit ≡ None }
{
    let (shared, shares) = shares_of::<J>(alloc, job, 2)?;
    let back = work_two(rt, alloc, &shared, shares, first, spare, rest)?;
    Ok(match answer_of(alloc, shared, back, job) {
        Ok(outcome) => done(are_counts(&outcome, 2)),
        Err(fault) => refused(fault == RunFault::Memory),
    })
}

/// Leaves more and more memory to a worker until the block is not refused as Memory. Returns whether it was at first, and has the
/// right outcome in the end.
fn is_refused_first<R: Wait + Abort>(
    rt: &R,
    alloc: Global,
    job: &Job,
    first: usize,
) -> Result<bool, NotMade> {
    let (mut space, mut rest) = (no_blocks(alloc)?, no_blocks(alloc)?);
    let reserve = reserve_of(alloc, WORK_ROOM)?;
    take_space(alloc, &mut space);
    drop(reserve);
    for step in 0..STEPS {
        match tried_on_spare::<Brand, R>(rt, alloc, job, first, step * STEP, &mut rest)? {
            Tried::Refused => {}
            Tried::Done => return Ok(step > 0),
            Tried::Wrong => return Ok(false),
        }
    }
    Ok(false)
}

/// Whether the growths of a worker that works alone are refused before the block has its outcome.
fn are_growths_refused<R: Wait + Abort>(
    rt: &R,
    alloc: Global,
    first: usize,
) -> Result<bool, NotMade> {
    let job = job_of(alloc, &[(COUNT, KEY); 2])?;
    is_refused_first(rt, alloc, &job, first)
}

/// The growths of a worker that works alone are refused one after another, because more and more memory is left to it. The other
/// worker is refused as this one was. Small growths right after the end of a run are not refused: they get memory that the run
/// freed.
#[test]
fn growths_of_work_refused(rt: HostRuntime) {
    assert!(rt; matches!(are_growths_refused(&rt, rt.alloc(), 0), Ok(true)));
    assert!(rt; matches!(are_growths_refused(&rt, rt.alloc(), 1), Ok(true)));
}

/// Whether a job is refused as Memory at a gate at which memory is taken away from workers.
fn is_refused_at_gate<R: Threads + Wait + Sync + Clock + Clone + Drop>(
    rt: &R,
    alloc: Global,
    executor: &mut Executor,
    refused: [bool; 2],
) -> Result<bool, NotMade> {
    let job = job_of(alloc, &[(COUNT, KEY); 4])?;
    let gate = Taking::new(rt.clone()?, alloc, refused)?;
    let answer = executor.run_block_with(rt, alloc, job, 2, &gate);
    Ok(matches!(answer, Err(RunFault::Memory)) && gate.is_taken())
}

/// The same; and whether the executor runs other blocks after that.
fn is_refused<R: Threads + Wait + Sync + Clock + Clone + Drop>(
    rt: &R,
    alloc: Global,
    refused: [bool; 2],
) -> Result<bool, NotMade> {
    let mut executor = Executor::new(alloc);
    Ok(
        is_refused_at_gate(rt, alloc, &mut executor, refused)?
            && runs_echo(rt, alloc, &mut executor)?
            && runs_counts(rt, alloc, &mut executor, &[(COUNT, KEY); 4], 2)?,
    )
}

/// Memory is refused only to the first worker, only to the second, and to both.
#[test]
fn memory_of_workers_refused(rt: HostRuntime) {
    assert!(rt; matches!(is_refused(&rt, rt.alloc(), [true, false]), Ok(true)));
    assert!(rt; matches!(is_refused(&rt, rt.alloc(), [false, true]), Ok(true)));
    assert!(rt; matches!(is_refused(&rt, rt.alloc(), [true, true]), Ok(true)));
}
