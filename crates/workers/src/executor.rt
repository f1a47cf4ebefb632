//! Runs the calls of blocks on several threads, over one arena.

ghost use Rattle.std.specs.Prelude.{◌≡◌, ◌≢◌, ◌≤◌, ◌⊎◌, [], All, Err, IfErr, IfOk, Ok, length, map};
ghost use Rattle.std.specs.Vec.{vec_capacity};
ghost use Rattle.workers.specs.Book.{KeepsLimit, counts_of_share, zero_counts_of_all};
ghost use Rattle.workers.specs.DoneCell.{IsPassOf};
ghost use Rattle.workers.specs.Run.{IsRun};
ghost use Rattle.workers.specs.Settle.{AreLeft, IsGivenBack};
ghost use Rattle.workers.specs.Work.{AreGivenBy, HasPromised, HoldFrom, IsGivenBy};
ghost use Rattle.workers.specs.declared.fault.OutsideFault.TheVariants as outside;
ghost use Rattle.workers.specs.declared.fault.RunFault.TheVariants as faults;

use crate::answer::finish;
use crate::book::{JobName, MetFault, Share, WrittenFault};
use crate::fault::{OutsideFault, RunFault};
use crate::gate::{Gate, Open};
use crate::shared::Shared;
use crate::worker::work;
use overlay::copy_with_receipts;
use rv_ledger::{Contents, Job, LentBlock, Outcome};
use std::alloc::{AllocError, Global};
use std::marker::{Brand, Model, PhantomData};
use std::sync::Wait;
use std::thread::{Promise, PromisedHandle, Scope, SpawnError, Threads};
use std::{mem, thread};
use stm_core::{Core, Finished, JobSource, LentJob, StoredJob, WORKER_LIMIT};
use version_arena::Arena;

/// Runs blocks one after another over one arena. The arena has no records between two blocks. The shares are
/// those that the threads of the last block that was run gave back, or none.
#[derive(Drop)]
pub struct Executor {
    pub(crate) arena: Arena,
    pub(crate) shares: Vec<Share>,
    ghost empty: { arena.records ≡ [] },
}

impl Executor {
    ghost use Rattle.std.specs.Prelude.{◌≡◌, ◌≢◌, ◌<◌, ◌⊎◌, ◌↔◌, ℕ, [], Err, IfErr, IfOk, None, length};
    ghost use Rattle.rv_step.specs.Fold.{receipts_of, store_after};
    ghost use Rattle.stm_state.specs.Steps as steps;
    ghost use Rattle.workers.specs.declared.fault.RunFault.TheVariants as faults;
    ghost use Rattle.never_stuck.specs.Far.{HasAtMostGas};
    ghost use Rattle.workers.specs.History.{HasHistory, HasLimit, HasStepLimit, AreOneWorkerCounts, IsBoundedHistory};
    ghost use Rattle.workers.specs.Run.{IsRun};
    ghost use Rattle.workers.specs.Settle.{AreLeft, AreSharesOf};

    /// An executor without shares, whose arena has room for no record yet. Takes no memory.
    pub fn new(alloc: Global) -> Executor
        ensures { result.shares.items ≡ [] }
    {
        Executor {
            arena: Arena::new(alloc),
            shares: Vec::new(alloc),
        }
    }

    /// The shares that the threads of the last block that was run gave back, one of each worker, in their order. None if no block
    /// was run, or if not each worker of that block gave its share back. A block that is refused as BadCount, or as TooManyCalls
    /// in a chain, is not run: the shares stay.
    pub fn shares(&self) -> &[Share]
        ensures { result.now ≡ self.now.shares.items }
    {
        self.shares.as_slice()
    }

    /// Runs a job on 1 to 32 threads. Refused as BadCount exactly if the number of workers is another; this is tested first.
    /// Refused as ArenaFull or IncarnationLimit only if some list of worker steps of this job meets that limit, and as StepLimit
    /// only if some list leads to 2^64 - 1 steps of a worker. Refused as Memory if memory ran out, as Spawn if a thread was
    /// refused, and as Foreign if a worker or the core is not as it was left. After every answer the executor may be used again.
    /// Its shares are those of this block or none, unless the answer is BadCount.
    pub fn run_block<R: Threads + Wait + Sync>(
        &mut self,
        rt: &R,
        alloc: Global,
        job: Job,
        workers: usize,
    ) -> Result<Outcome, RunFault>
        ensures bad_count { (result ≡ Err faults.BadCount) ↔ ((workers ≡ 0) ⊎ (32 < workers)) }
        ensures job { IfOk result (λ o. o.job ≡ job) }
        ensures receipts { IfOk result (λ o. o.receipts.items ≡ receipts_of job.block job.store) }
        ensures store { IfOk result (λ o. o.store ≡ store_after job.block job.store) }
        ensures history { IfOk result (λ o. HasHistory job workers o.counts.items) }
        ensures bounded { IfOk result (λ o. (gas : ℕ) → HasAtMostGas gas job.block → IsBoundedHistory job workers gas o.counts.items) }
        ensures one_worker { IfOk result (λ o. workers ≡ 1 → AreOneWorkerCounts (length job.block) o.counts.items) }
        ensures shares { IfOk result (λ o. AreSharesOf o.counts.items self.new.shares.items) }
        ensures full { IfErr result (λ e. e ≡ faults.ArenaFull → HasLimit job workers steps.ArenaFull) }
        ensures limit { IfErr result (λ e. e ≡ faults.IncarnationLimit → HasLimit job workers steps.IncarnationLimit) }
        ensures step_limit { IfErr result (λ e. e ≡ faults.StepLimit → HasStepLimit job workers None) }
        ensures left { result ≢ Err faults.BadCount → AreLeft None workers self.new.shares.items }
        ensures kept { result ≡ Err faults.BadCount → self.new ≡ self.old }
    {
        self.run_block_with(rt, alloc, job, workers, &Open)
    }

    /// `run_block` with a gate. Each thread passes it between the end of a run and its record, and may be
    /// held there.
    pub fn run_block_with<R: Threads + Wait + Sync, G: Gate + Sync>(
        &mut self,
        rt: &R,
        alloc: Global,
        job: Job,
        workers: usize,
        gate: &G,
    ) -> Result<Outcome, RunFault>
        ensures bad_count { (result ≡ Err faults.BadCount) ↔ ((workers ≡ 0) ⊎ (32 < workers)) }
        ensures job { IfOk result (λ o. o.job ≡ job) }
        ensures receipts { IfOk result (λ o. o.receipts.items ≡ receipts_of job.block job.store) }
        ensures store { IfOk result (λ o. o.store ≡ store_after job.block job.store) }
        ensures history { IfOk result (λ o. HasHistory job workers o.counts.items) }
        ensures bounded { IfOk result (λ o. (gas : ℕ) → HasAtMostGas gas job.block → IsBoundedHistory job workers gas o.counts.items) }
        ensures one_worker { IfOk result (λ o. workers ≡ 1 → AreOneWorkerCounts (length job.block) o.counts.items) }
        ensures shares { IfOk result (λ o. AreSharesOf o.counts.items self.new.shares.items) }
        ensures full { IfErr result (λ e. e ≡ faults.ArenaFull → HasLimit job workers steps.ArenaFull) }
        ensures limit { IfErr result (λ e. e ≡ faults.IncarnationLimit → HasLimit job workers steps.IncarnationLimit) }
        ensures step_limit { IfErr result (λ e. e ≡ faults.StepLimit → HasStepLimit job workers None) }
        ensures left { result ≢ Err faults.BadCount → AreLeft None workers self.new.shares.items }
        ensures kept { result ≡ Err faults.BadCount → self.new ≡ self.old }
    {
        let Finished { receipts, counts } = self.run_lent(
            rt,
            alloc,
            job.block.lent(),
            &job.store,
            workers,
            None,
            gate,
        )?;
        always_ends::work_is_bounded();
        match copy_with_receipts(&job.store, receipts.as_slice()) {
            Ok(store) => Ok(Outcome {
                job,
                receipts,
                store,
                counts,
            }),
            Err(AllocError) => Err(RunFault::Memory),
        }
    }

    /// Runs a block on 1 to 32 threads over what is lent in place of a storage; nothing is copied. Refused as `run_block` is; if
    /// there is a limit, also as StepLimit if a worker has made this many steps, not counting asks. If it answers Ok, each worker
    /// has made no more steps, not counting asks, than the limit. The shares are those that the threads gave back, one of each
    /// worker, or none.
    pub(crate) fn run_lent<S: Contents + Sync, R: Threads + Wait + Sync, G: Gate + Sync>(
        &mut self,
        rt: &R,
        alloc: Global,
        block: LentBlock<'_>,
        contents: &S,
        workers: usize,
        work_limit: Option<u64>,
        gate: &G,
    ) -> Result<Finished, RunFault>
        ensures bad_count { (result ≡ Err faults.BadCount) ↔ ((workers ≡ 0) ⊎ (32 < workers)) }
        ensures run { IsRun (record { block = block.entry.calls.now; store = S.storage contents.now }) workers work_limit self.new.shares.items result }
        ensures kept { result ≡ Err faults.BadCount → self.new ≡ self.old }
    {
        if workers == 0 || workers > WORKER_LIMIT {
            return Err(RunFault::BadCount);
        }
        let arena = mem::replace(&mut self.arena, Arena::new(alloc));
        let (answer, arena, shares) = run_on_threads::<Brand, S, R, G>(
            rt, alloc, arena, block, contents, workers, work_limit, gate,
        );
        self.arena = arena;
        self.shares = shares;
        answer
    }
}

/// Runs a block on threads over an arena and over what is lent in place of a storage. The arena comes back without records.
/// Refused as `Executor::run_lent` is, but never as BadCount. Also returns the shares that the threads gave back: one of each
/// worker, which has made no more steps, not counting asks, than the limit; or none.
fn run_on_threads<
    J: JobName + Send + Sync,
    S: Contents + Sync,
    R: Threads + Wait + Sync,
    G: Gate + Sync,
>(
    rt: &R,
    alloc: Global,
    arena: Arena,
    block: LentBlock<'_>,
    contents: &S,
    workers: usize,
    work_limit: Option<u64>,
    gate: &G,
) -> (Result<Finished, RunFault>, Arena, Vec<Share>)
    requires count { (1 ≤ workers) × (workers ≤ 32) }
    requires job { J.job ≡ record { block = block.calls.now; store = S.storage contents.now } }
    requires limit { J.work_limit ≡ work_limit }
    ensures bad_count { IfErr result.0 (λ e. e ≢ faults.BadCount) }
    ensures run { IsRun J.job workers work_limit result.2.items result.0 }
    ensures arena { result.1.records ≡ [] }
{
    let (shared, shares) = match share_out::<J, S>(
        alloc, arena, block, contents, workers, work_limit,
    ) {
        Ok(shared) => shared,
        Err(arena) => return (Err(RunFault::Memory), arena, Vec::new(alloc)),
    };
    let back = shares_back(rt, alloc, &shared, shares, gate);
    let book = shared.into_book();
    book.holds();
    stm_state::reached_by_list();
    stm_state::last_entry_is_done();
    stm_state::one_worker_counts_where_reached();
    let found = book.core().workers();
    let (answer, arena) = finish(alloc, book, back.as_slice());
    (answer_of(answer, found, workers), arena, back)
}

/// The answer of a core with `found` workers, but Foreign if another number was asked for.
fn answer_of(
    answer: Result<Finished, RunFault>,
    found: usize,
    workers: usize,
) -> Result<Finished, RunFault>
    ensures ok { IfOk result (λ f. (answer ≡ Ok f) × (found ≡ workers)) }
    ensures err { IfErr result (λ e. ((answer ≡ Err e) × (found ≡ workers)) ⊎ ((e ≡ faults.Foreign) × (found ≢ workers))) }
{
    if found != workers {
        return Err(RunFault::Foreign);
    }
    answer
}

/// The lock and the cell over the core of what is lent at its start, and its workers' shares. If memory ran out, it returns the
/// arena, without records.
fn share_out<'a, J: JobName, S: Contents>(
    alloc: Global,
    arena: Arena,
    block: LentBlock<'a>,
    contents: &'a S,
    workers: usize,
    work_limit: Option<u64>,
) -> Result<(Shared<J, LentJob<'a, S>>, Vec<Share>), Arena>
    requires count { (1 ≤ workers) × (workers ≤ 32) }
    requires job { J.job ≡ record { block = block.calls.now; store = S.storage contents.now } }
    requires limit { J.work_limit ≡ work_limit }
    ensures passes { IfOk result (λ made. All (λ share. IsPassOf made.0.cell share.pass) made.1.items) }
    ensures shares { IfOk result (λ made. map counts_of_share made.1.items ≡ zero_counts_of_all workers) }
    ensures back { IfErr result (λ arena. arena.records ≡ []) }
{
    match Core::of(alloc, arena, LentJob { block, contents }, workers) {
        Ok(core) => Shared::over(alloc, core, LentJob { block, contents }, work_limit),
        Err(arena) => Err(arena),
    }
}

/// What a thread promises: a share that it gives back is of this worker, which got exactly one ask answered Done, and has made no
/// more steps, not counting asks, than the limit that `J` names. Contracts see the worker.
#[derive(Drop)]
struct GivesBack<J: JobName> {
    worker: usize,
    of: PhantomData<J>,
}

impl<J: JobName> Model for GivesBack<J> {
    ghost use Rattle.std.specs.Prelude.{ℕ};

    ghost Value = { ℕ };

    ghost view = { λ promise. promise.worker };
}

impl<J: JobName> Promise<Result<Share, WrittenFault>> for GivesBack<J> {
    ghost use Rattle.std.specs.Prelude.{IfOk};
    ghost use Rattle.workers.specs.Settle.{IsGivenBack};

    ghost kept_by = { λ worker result. IfOk result (λ back. IsGivenBack J.work_limit worker back) };
}

/// The handle of a thread that runs for a share.
type Thread<J> = PromisedHandle<Result<Share, WrittenFault>, GivesBack<J>>;

/// Runs a thread for each share, waits for all of them, and returns the shares that they give back. Returns no share if memory runs
/// out for the lists of threads and of shares, if a thread is refused, or if a worker ends with a fault; the fault is written then.
#[tactic(auto, using(crate::proofs::GivenBack::none_left, crate::proofs::GivenBack::all_left, crate::proofs::GivenBack::all_keep))]
fn shares_back<
    J: JobName + Send + Sync,
    H: StoredJob + Send + Sync,
    R: Threads + Wait + Sync,
    G: Gate + Sync,
>(rt: &R, alloc: Global, shared: &Shared<J, H>, shares: Vec<Share>, gate: &G) -> Vec<Share>
    requires passes { All (λ share. IsPassOf shared.now.cell share.pass) shares.items }
    requires shares { map counts_of_share shares.items ≡ zero_counts_of_all (length shares.items) }
    ensures left { AreLeft J.work_limit (length shares.items) result.items }
    ensures within { All (λ share. KeepsLimit J.work_limit share.counts) result.items }
{
    let back = thread::scope(
        thread::scope_env(),
        rt,
        |scope| -> Result<Vec<Share>, WrittenFault>
            requires { All (λ share. IsPassOf shared.now.cell share.pass) shares.items × (map counts_of_share shares.items ≡ zero_counts_of_all (length shares.items)) }
            ensures { IfOk result (λ back. (length back.items ≡ length shares.items) × HoldFrom (IsGivenBack J.work_limit) 0 back.items) }
        {
            let room = room_for_shares(rt, alloc, shared, shares.len())?;
            let threads = start_threads(scope, rt, alloc, shared, shares, gate)?;
            join_threads(rt, threads, room)
        },
    );
    match back {
        Ok(back) => back,
        Err(_) => Vec::new(alloc),
    }
}

/// Room for this many shares; refused as Memory if memory ran out.
fn room_for_shares<J: JobName, H: JobSource, R: Wait>(
    rt: &R,
    alloc: Global,
    shared: &Shared<J, H>,
    count: usize,
) -> Result<Vec<Share>, MetFault>
    ensures empty { IfOk result (λ room. room.items ≡ []) }
    ensures room { IfOk result (λ room. count ≤ vec_capacity room) }
    ensures memory { IfErr result (λ e. e.met ≡ outside.Memory) }
{
    match Vec::with_capacity(alloc, count) {
        Ok(room) => Ok(room),
        Err(AllocError) => Err(shared.refuse(rt, OutsideFault::Memory)),
    }
}

/// Starts a thread for each share. If the system refuses one, Spawn is written, and the fault takes the thread's place. Refused
/// as Memory if memory ran out before the first.
#[tactic(auto, using(crate::proofs::GivenBack::all_new))]
fn start_threads<
    's,
    E,
    J: JobName + Send + Sync,
    H: StoredJob + Send + Sync,
    R: Threads + Wait + Sync,
    G: Gate + Sync,
>(
    scope: &Scope<'s, E>,
    rt: &'s R,
    alloc: Global,
    shared: &'s Shared<J, H>,
    shares: Vec<Share>,
    gate: &'s G,
) -> Result<Vec<Result<Thread<J>, MetFault>>, MetFault>
    requires passes { All (λ share. IsPassOf shared.now.cell share.pass) shares.items }
    requires shares { map counts_of_share shares.items ≡ zero_counts_of_all (length shares.items) }
    ensures all { IfOk result (λ threads. length threads.items ≡ length shares.items) }
    ensures promises { IfOk result (λ threads. HoldFrom HasPromised 0 threads.items) }
    ensures memory { IfErr result (λ e. e.met ≡ outside.Memory) }
{
    let Ok(mut threads) = Vec::with_capacity(alloc, shares.len()) else {
        return Err(shared.refuse(rt, OutsideFault::Memory));
    };
    for share in shares {
        threads.push_reserved(start_thread(scope, rt, alloc, shared, share, gate));
    }
    Ok(threads)
}

/// Starts a thread for a share within the limit, of a worker that got no ask answered Done. The thread promises to give the share
/// back within the limit. Refused as Spawn if the system refuses the thread.
fn start_thread<
    's,
    E,
    J: JobName + Send + Sync,
    H: StoredJob + Send + Sync,
    R: Threads + Wait + Sync,
    G: Gate + Sync,
>(
    scope: &Scope<'s, E>,
    rt: &'s R,
    alloc: Global,
    shared: &'s Shared<J, H>,
    share: Share,
    gate: &'s G,
) -> Result<Thread<J>, MetFault>
    requires pass { IsPassOf shared.now.cell share.pass }
    requires limit { KeepsLimit J.work_limit share.counts }
    requires dones { share.dones ≡ 0 }
    ensures promise { HasPromised share.worker result }
    ensures spawn { IfErr result (λ e. e.met ≡ outside.Spawn) }
{
    let promise = GivesBack {
        worker: share.worker(),
        of: PhantomData,
    };
    let working = move || -> Result<Share, WrittenFault>
        requires { IsPassOf shared.now.cell share.pass × KeepsLimit J.work_limit share.counts × (share.dones ≡ 0) }
        ensures { IfOk result (λ back. IsGivenBack J.work_limit share.worker back) }
    { work(rt, alloc, shared, share, gate) };
    match scope.spawn_with(promise, working) {
        Ok(thread) => Ok(thread),
        Err(SpawnError { .. }) => Err(shared.refuse(rt, OutsideFault::Spawn)),
    }
}

/// Waits for all threads that were started. Returns the share of each, as it promised, in room that was made, or the last fault
/// among them.
fn join_threads<J: JobName, R: Threads>(
    rt: &R,
    threads: Vec<Result<Thread<J>, MetFault>>,
    room: Vec<Share>,
) -> Result<Vec<Share>, WrittenFault>
    requires empty { room.items ≡ [] }
    requires room { length threads.items ≤ vec_capacity room }
    ensures { IfOk result (λ back. AreGivenBy J.work_limit threads.items back.items) }
{
    let (mut back, mut refused) = (room, None);
    for thread in threads {
        match join_thread(rt, thread) {
            Ok(share) => back.push_reserved(share),
            Err(written) => refused = Some(written),
        }
    }
    match refused {
        Some(written) => Err(written),
        None => Ok(back),
    }
}

/// The share that a thread gives back, as it promised, or the fault that is written in its place.
fn join_thread<J: JobName, R: Threads>(
    rt: &R,
    thread: Result<Thread<J>, MetFault>,
) -> Result<Share, WrittenFault>
    ensures given { IfOk result (IsGivenBy J.work_limit thread) }
    ensures refused { IfErr result (λ written. IfErr thread (λ met. written ≡ met.written)) }
{
    match thread {
        Ok(started) => started.join(rt),
        Err(met) => Err(met.written()),
    }
}
