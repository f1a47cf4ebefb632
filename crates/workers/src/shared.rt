//! What the threads of a block share.

ghost use Rattle.std.specs.Prelude.{◌≡◌, true, All, IfOk, map};
ghost use Rattle.std.specs.Coded.{codes};
ghost use Rattle.rv_ledger.specs.contracts.job.Job.{the_row as job_row};
ghost use Rattle.workers.specs.Book.{zero_counts_of_all, counts_of_share};
ghost use Rattle.workers.specs.DoneCell.{IsPassOf};

use crate::book::{Book, JobName, MetFault, Share};
use crate::done_cell::DoneCell;
use crate::fault::OutsideFault;
use crate::gate::Spin;
use crate::patience::spin_for;
use rv_ledger::{Call, Job};
use std::alloc::{AllocError, Global};
use std::marker::Brand;
use std::sync::{Mutex, MutexGuard, Wait};
use stm_core::{Core, JobSource};
use version_arena::Arena;

/// How often a thread tries the lock before it waits for it.
const TRIES: u32 = 200;

/// How often a thread spins after a try that found the lock taken. With fewer spins its tries slow down the thread that
/// has the lock.
const SPINS: u32 = 64;

/// What the threads of a block share: the lock with the book, the job, whose calls they run and whose storage they
/// search outside the lock, and the cell, which they look at outside the lock. The job is the one that `J` names.
#[derive(Drop)]
pub struct Shared<J: JobName = Brand, H: JobSource = Job> {
    pub(crate) lock: Mutex<Book<J, H>>,
    pub(crate) job: H,
    pub(crate) cell: DoneCell,
    ghost is: { H.job job ≡ J.job } by { Prim.hlevel (codes, job_row.coded) },
}

impl<J: JobName> Shared<J> {
    ghost use Rattle.std.specs.Prelude.{◌≡◌, [], length, map, All, IfErr, IfOk, None};
    ghost use Rattle.workers.specs.Book.{zero_counts_of_all, counts_of_share};
    ghost use Rattle.workers.specs.DoneCell.{IsPassOf};

    /// The lock over a core at its start, with a cell that shows running, and without a limit of work; and one share per worker,
    /// in their order, each with counts of zero and a pass of the cell. If memory ran out, it returns the core's arena, without
    /// records.
    pub fn new(alloc: Global, core: Core) -> Result<(Shared<J>, Vec<Share>), Arena>
        requires job { core.job ≡ J.job }
        requires limit { J.work_limit ≡ None }
        ensures shares { IfOk result (λ made. map counts_of_share made.1.items ≡ zero_counts_of_all (length core.state.tasks)) }
        ensures passes { IfOk result (λ made. All (λ share. IsPassOf made.0.cell share.pass) made.1.items) }
        ensures back { IfErr result (λ arena. arena.records ≡ []) }
    {
        let job = core.job().copy().ok();
        Shared::over_copy(alloc, core, job)
    }
}

impl<J: JobName, H: JobSource> Shared<J, H> {
    ghost use Rattle.std.specs.Prelude.{◌≡◌, ◌<◌, [], None, Some, length, map, slice_get, All, IfErr, IfOk, IfSome};
    ghost use Rattle.workers.specs.Book.{zero_counts_of_all, counts_of_share, outside_fault};
    ghost use Rattle.workers.specs.Work.{IsWrittenOver};
    ghost use Rattle.workers.specs.DoneCell.{IsPassOf};

    /// `new` over a copy of the job, if there was memory for it.
    fn over_copy(
        alloc: Global,
        core: Core<H>,
        job: Option<H>,
    ) -> Result<(Shared<J, H>, Vec<Share>), Arena>
        requires core { core.job ≡ J.job }
        requires job { IfSome job (λ job. H.job job ≡ J.job) }
        requires limit { J.work_limit ≡ None }
        ensures shares { IfOk result (λ made. map counts_of_share made.1.items ≡ zero_counts_of_all (length core.state.tasks)) }
        ensures passes { IfOk result (λ made. All (λ share. IsPassOf made.0.cell share.pass) made.1.items) }
        ensures back { IfErr result (λ arena. arena.records ≡ []) }
    {
        match job {
            Some(job) => Shared::over(alloc, core, job, None),
            None => Err(core.into_arena()),
        }
    }

    /// `new` with the limit of work that `J` names, and with another holder of the job, whose calls the threads run and whose
    /// storage they search.
    pub(crate) fn over(
        alloc: Global,
        core: Core<H>,
        job: H,
        work_limit: Option<u64>,
    ) -> Result<(Shared<J, H>, Vec<Share>), Arena>
        requires core { core.job ≡ J.job }
        requires job { H.job job ≡ J.job }
        requires limit { work_limit ≡ J.work_limit }
        ensures shares { IfOk result (λ made. map counts_of_share made.1.items ≡ zero_counts_of_all (length core.state.tasks)) }
        ensures passes { IfOk result (λ made. All (λ share. IsPassOf made.0.cell share.pass) made.1.items) }
        ensures back { IfErr result (λ arena. arena.records ≡ []) }
    {
        let Ok(cell) = DoneCell::new(alloc) else {
            return Err(core.into_arena());
        };
        match new_shares(alloc, core.workers(), &cell) {
            Ok(shares) => {
                let lock = Mutex::new(Book::within(core, work_limit));
                Ok((Shared { lock, job, cell }, shares))
            }
            Err(AllocError) => Err(core.into_arena()),
        }
    }

    /// The book that was under the lock, once no thread has the lock any more.
    pub fn into_book(self) -> Book<J, H> {
        let Shared { lock, .. } = self;
        lock.into_inner()
    }

    /// The call of the job with an index.
    #[inline(always)]
    pub(crate) fn call(&self, index: u16) -> &Call
        requires { index < length J.job.block }
        ensures { slice_get J.job.block index ≡ Some result.now }
    {
        &self.job.calls()[usize::from(index)]
    }

    /// Takes the lock for a step of a worker.
    #[inline(always)]
    pub(crate) fn hold<R: Wait, S: Spin>(
        &self,
        rt: &R,
        spin: &mut S,
    ) -> MutexGuard<'_, Book<J, H>> {
        match self.lock.try_lock() {
            Some(guard) => guard,
            None => {
                spin.meet_lock();
                self.wait_for(rt)
            }
        }
    }

    /// Takes the lock, which another thread may have. It is tried for a while before the thread waits for it, since a
    /// thread that waits sleeps, and waking it takes longer than a step under the lock. Before each try the thread
    /// spins, since a try takes the lock's cache line away from the thread that has the lock.
    #[inline(never)]
    fn wait_for<R: Wait>(&self, rt: &R) -> MutexGuard<'_, Book<J, H>> {
        for _ in 0..TRIES {
            spin_for(SPINS);
            if let Some(guard) = self.lock.try_lock() {
                return guard;
            }
        }
        self.lock.lock(rt)
    }

    /// Writes a fault that was met outside the lock, unless one was written before. Returns it with the first one
    /// that was written.
    pub(crate) fn refuse<R: Wait>(&self, rt: &R, fault: OutsideFault) -> MetFault
        ensures met { result.met ≡ fault }
        ensures written { IsWrittenOver J.job J.work_limit (outside_fault fault) result.written }
    {
        let mut guard = self.wait_for(rt);
        let book = &mut *guard;
        book.holds();
        book.write_outside(fault)
    }
}

/// One share per worker, in their order, each with counts of zero and a pass of the cell; refused if memory ran out.
#[tactic(auto, using(crate::proofs::Zeros::no_shares))]
fn new_shares(alloc: Global, workers: usize, cell: &DoneCell) -> Result<Vec<Share>, AllocError>
    ensures shares { IfOk result (λ shares. map counts_of_share shares.items ≡ zero_counts_of_all workers) }
    ensures passes { IfOk result (λ shares. All (λ share. IsPassOf cell.now share.pass) shares.items) }
{
    let mut shares = Vec::with_capacity(alloc, workers)?;
    for worker in 0..workers {
        shares.push(Share::new(worker, cell.pass()))?;
    }
    Ok(shares)
}
