//! What the scheduler keeps of a worker.

ghost use Rattle.std.specs.Prelude.{◌≡◌, ◌≤◌, ◌<◌, ◌+◌, ◌-◌, ◌++◌, ◌∷◌, ℕ, [], Bool, IfOk, List, OnOk, Option, get_or, length, map, nat_lt, not, replicate, slice_get, vec_capacity, vec_len};
ghost use Rattle.std.specs.Option.{option_copied};
ghost use Rattle.std.specs.FinMap.{contains_key, entries};
ghost use Rattle.std.specs.List.{filter, list_all};
ghost use Rattle.rv_step.specs.declared.answer.StorageAnswer.{StorageAnswer};
ghost use Rattle.stm_state.specs.State.{is_idle};
ghost use Rattle.stm_state.specs.Steps.{keys_of, keys_to_move, written_by};
ghost use Rattle.stm_state.specs.declared.state.Task.TheVariants as task;
ghost use Rattle.scheduler.specs.Workers.{HasKeyLeft, IsRunning, IsTaskKindOf, with_answer, with_answers, blocked_on, but_key_room, failed_check, idle_worker, task_of, task_with};

use crate::counting::COUNT_LIMIT;
use rv_ledger::{Counts, Key, Writes};
use rv_step::StorageAnswer;
use std::alloc::{AllocError, Global};
use std::marker::Model;
use std::mem;
use stm_state::Recorded;

/// What a worker is doing, without the answers and the keys of its task.
#[derive(Clone, Copy, Debug, PartialEq, Eq)]
pub enum TaskKind {
    /// Nothing: it asks for work.
    Idle,
    /// It runs a call.
    Running {
        /// The call's index.
        call: u16,
        /// The index of the call whose estimate the run met, or None.
        blocked: Option<u16>,
    },
    /// It moves the keys of a run that it handed in.
    Moving {
        /// The call's index.
        call: u16,
        /// Whether the run wrote a key that the run before it did not write.
        new_key: bool,
    },
    /// It validates a call.
    Validating {
        /// The call's index.
        call: u16,
        /// The incarnation whose reads it checks.
        incarnation: u16,
        /// The number of reads that it still has to check.
        left: usize,
        /// Whether a read that it checked did not stand.
        failed: bool,
    },
    /// It takes a call back: it turns the call's versions into estimates.
    Marking {
        /// The call's index.
        call: u16,
    },
}

/// A worker: its task, the answers that its run was given, the keys that it moves or marks and how many of
/// them it dropped, what it did, and how many of its askings were answered Done.
#[derive(Drop)]
pub(crate) struct Worker {
    task_kind: TaskKind,
    answers: Vec<StorageAnswer>,
    keys: Vec<Key>,
    dropped: usize,
    counts: Counts,
    dones: u64,
    /// Unused bytes, so that no two workers share a line of the processor's cache.
    apart: [u64; 9],
}

impl Model for Worker {
    ghost use Rattle.std.specs.Prelude.{◌-◌, drop, vec_capacity, vec_len};
    ghost use Rattle.std.specs.Coded.{codes};
    ghost use Rattle.stm_state.specs.contracts.state.Task.{the_row as task_row};
    ghost use Rattle.scheduler.specs.Workers.{WorkerState, task_with};

    ghost Value = { WorkerState };

    ghost coded = { Prim.hlevel (codes, task_row.coded) };

    ghost view = { λ w. record { task = task_with w.task_kind w.answers.items (drop w.dropped w.keys.items); counts = w.counts; dones = w.dones; room = vec_capacity w.answers - vec_len w.answers; key_room = vec_capacity w.keys } };
}

impl Worker {
    /// A worker without a task, which has done nothing yet. Takes no memory.
    pub(crate) fn new(alloc: Global) -> Worker
        ensures { result ≡ idle_worker }
    {
        Worker {
            task_kind: TaskKind::Idle,
            answers: Vec::new(alloc),
            keys: Vec::new(alloc),
            dropped: 0,
            counts: Counts {
                steps: 0,
                asks: 0,
                executions: 0,
                validations: 0,
            },
            dones: 0,
            apart: [0; 9],
        }
    }

    /// What it is doing.
    pub(crate) fn task_kind(&self) -> TaskKind
        ensures { IsTaskKindOf result self.now.task }
    {
        self.task_kind
    }

    /// The answers that its run was given, in order.
    pub(crate) fn answers(&self) -> &[StorageAnswer]
        requires { IsRunning self.now.task }
        ensures { (i : ℕ) (answers : List StorageAnswer) (blocked : Option ℕ) → self.now.task ≡ task.Running i answers blocked → result.now ≡ answers }
    {
        self.answers.as_slice()
    }

    /// What it did.
    pub(crate) fn counts(&self) -> Counts
        ensures { result ≡ self.now.counts }
    {
        self.counts
    }

    /// The number of its askings that were answered Done.
    pub(crate) fn dones(&self) -> u64
        ensures { result ≡ self.now.dones }
    {
        self.dones
    }

    /// Whether it has no task.
    pub(crate) fn is_idle(&self) -> bool
        ensures { result ≡ is_idle self.now.task }
    {
        matches!(self.task_kind, TaskKind::Idle)
    }

    /// Gives it a task without answers and keys.
    pub(crate) fn begin(&mut self, task_kind: TaskKind)
        ensures { self.new ≡ record self.old { task = task_with task_kind [] []; room = self.new.room } }
    {
        self.task_kind = task_kind;
        self.answers.clear();
        self.keys.clear();
        self.dropped = 0;
    }

    /// Gives it the keys of a call's run to move, which wrote `writes`, and drops its answers. `before` is the
    /// run that the call had before. Takes no memory.
    pub(crate) fn begin_moving(
        &mut self,
        call: u16,
        new_key: bool,
        writes: &Writes,
        before: &Option<Recorded>,
    )
        requires { length (entries writes.now) + length (written_by before.now) ≤ self.old.key_room }
        ensures { self.new ≡ record self.old { task = task.Moving call (keys_to_move before.now writes.now) new_key; room = self.new.room } }
    {
        self.task_kind = TaskKind::Moving { call, new_key };
        self.answers.clear();
        self.keys.clear();
        self.dropped = 0;
        push_keys(&mut self.keys, writes);
        if let Some(run) = before {
            push_left_over(&mut self.keys, &run.receipt.writes, writes);
        }
    }

    /// Gives it the keys that a call's last run wrote to mark, and drops its answers. Takes no memory.
    pub(crate) fn begin_marking(&mut self, call: u16, last: &Option<Recorded>)
        requires { length (written_by last.now) ≤ self.old.key_room }
        ensures { self.new ≡ record self.old { task = task.Marking call (keys_of (written_by last.now)); room = self.new.room } }
    {
        self.task_kind = TaskKind::Marking { call };
        self.answers.clear();
        self.keys.clear();
        self.dropped = 0;
        if let Some(run) = last {
            push_keys(&mut self.keys, &run.receipt.writes);
        }
    }

    /// Makes room in its list for `count` keys. Refused if memory ran out.
    fn reserve_keys(&mut self, count: usize) -> Result<(), AllocError>
        ensures room { OnOk result (count ≤ self.new.key_room) }
        ensures grown { self.old.key_room ≤ self.new.key_room }
        ensures same { self.new ≡ record self.old { key_room = self.new.key_room } }
    {
        let spare = count.saturating_sub(self.keys.len());
        self.keys.reserve(spare)
    }

    /// The next key that it must move or mark; None if no key is left.
    pub(crate) fn next_key(&self) -> Option<&Key>
        ensures moving { (call : ℕ) (keys : List (List ℕ)) (new : Bool) → self.now.task ≡ task.Moving call keys new → option_copied result ≡ slice_get keys 0 }
        ensures marking { (call : ℕ) (keys : List (List ℕ)) → self.now.task ≡ task.Marking call keys → option_copied result ≡ slice_get keys 0 }
    {
        self.keys.as_slice().get(self.dropped)
    }

    /// Drops its next key.
    pub(crate) fn drop_key(&mut self)
        requires { HasKeyLeft self.old.task }
        ensures moving { (call : ℕ) (key : List ℕ) (keys : List (List ℕ)) (new : Bool) → self.old.task ≡ task.Moving call (key ∷ keys) new → self.new ≡ record self.old { task = task.Moving call keys new } }
        ensures marking { (call : ℕ) (key : List ℕ) (keys : List (List ℕ)) → self.old.task ≡ task.Marking call (key ∷ keys) → self.new ≡ record self.old { task = task.Marking call keys } }
        ensures key_room { self.new.key_room ≡ self.old.key_room }
    {
        self.dropped += 1;
    }

    /// Swaps the answers that its run was given with a list. Takes no memory.
    pub(crate) fn swap_answers(&mut self, list: &mut Vec<StorageAnswer>)
        ensures answers { (i : ℕ) (answers : List StorageAnswer) (blocked : Option ℕ) → self.old.task ≡ task.Running i answers blocked → list.new.items ≡ answers }
        ensures room { vec_capacity list.new - vec_len list.new ≡ self.old.room }
        ensures worker { self.new ≡ record self.old { task = with_answers list.old.items self.old.task; room = vec_capacity list.old - vec_len list.old } }
    {
        mem::swap(&mut self.answers, list);
    }

    /// Whether there is room for one more answer.
    #[inline(always)]
    pub(crate) fn has_room(&self) -> bool
        ensures { result ≡ nat_lt 0 self.now.room }
    {
        self.answers.len() < self.answers.capacity()
    }

    /// Keeps one more answer in room that was made. Takes no memory.
    pub(crate) fn push(&mut self, answer: StorageAnswer)
        requires { 1 ≤ self.old.room }
        ensures { self.new ≡ record self.old { task = with_answer answer self.old.task; room = self.old.room - 1 } }
    {
        self.answers.push_reserved(answer);
    }

    /// Blocks its run on a call; any other task stays as it is.
    pub(crate) fn block(&mut self, on: u16)
        ensures { self.new ≡ record self.old { task = blocked_on on self.old.task } }
    {
        if let TaskKind::Running { call, .. } = self.task_kind {
            self.task_kind = TaskKind::Running {
                call,
                blocked: Some(on),
            };
        }
    }

    /// Fails its validation, since a read did not stand; any other task stays as it is.
    pub(crate) fn fail_check(&mut self)
        ensures { self.new ≡ record self.old { task = failed_check self.old.task } }
    {
        if let TaskKind::Validating {
            call,
            incarnation,
            left,
            ..
        } = self.task_kind
        {
            self.task_kind = TaskKind::Validating {
                call,
                incarnation,
                left,
                failed: true,
            };
        }
    }

    /// Sets what it did.
    pub(crate) fn set_counts(&mut self, counts: Counts)
        ensures { self.new ≡ record self.old { counts = counts } }
    {
        self.counts = counts;
    }

    /// Counts one more asking that was answered Done.
    pub(crate) fn count_done(&mut self)
        requires { self.old.dones < COUNT_LIMIT }
        ensures { self.new ≡ record self.old { dones = self.old.dones + 1 } }
    {
        self.dones += 1;
    }
}

/// `count` workers without a task, which have done nothing yet. Refused if memory ran out.
pub(crate) fn idle_workers(alloc: Global, count: usize) -> Result<Vec<Worker>, AllocError>
    ensures { IfOk result (λ workers. workers.items ≡ replicate count idle_worker) }
{
    let mut workers = Vec::with_capacity(alloc, count)?;
    while workers.len() < count {
        workers.push(Worker::new(alloc))?;
    }
    Ok(workers)
}

/// Whether no worker has a task.
pub(crate) fn all_idle(workers: &[Worker]) -> bool
    ensures { result ≡ list_all is_idle (map task_of workers.now) }
{
    for worker in workers {
        if !worker.is_idle() {
            return false;
        }
    }
    true
}

/// Makes room in each worker's list for `count` keys. Refused if memory ran out: then some lists may have more room than before.
#[cold]
#[inline(never)]
pub(crate) fn reserve_keys(workers: &mut Vec<Worker>, count: usize) -> Result<(), AllocError>
    ensures room { OnOk result ((w : ℕ) → w < length workers.new.items → count ≤ (get_or workers.new.items w idle_worker).key_room) }
    ensures grown { (w : ℕ) → (get_or workers.old.items w idle_worker).key_room ≤ (get_or workers.new.items w idle_worker).key_room }
    ensures same { map but_key_room workers.new.items ≡ map but_key_room workers.old.items }
{
    for index in 0..workers.len() {
        workers[index].reserve_keys(count)?;
    }
    Ok(())
}

/// Adds the keys that are written, in room that was made. Takes no memory.
fn push_keys(keys: &mut Vec<Key>, writes: &Writes)
    requires { vec_len keys.old + length (entries writes.now) ≤ vec_capacity keys.old }
    ensures keys { keys.new.items ≡ keys.old.items ++ keys_of (entries writes.now) }
    ensures len { vec_len keys.new ≡ vec_len keys.old + length (entries writes.now) }
    ensures capacity { vec_capacity keys.new ≡ vec_capacity keys.old }
{
    for (key, _) in writes.as_slice() {
        keys.push_reserved(*key);
    }
}

/// Adds the keys of `before` that `writes` does not have, in room that was made. Takes no memory.
fn push_left_over(keys: &mut Vec<Key>, before: &Writes, writes: &Writes)
    requires { vec_len keys.old + length (entries before.now) ≤ vec_capacity keys.old }
    ensures keys { keys.new.items ≡ keys.old.items ++ keys_of (filter (λ write. not (contains_key writes.now write.0)) (entries before.now)) }
    ensures capacity { vec_capacity keys.new ≡ vec_capacity keys.old }
{
    for (key, _) in before.as_slice() {
        if writes.get(key).is_none() {
            keys.push_reserved(*key);
        }
    }
}
