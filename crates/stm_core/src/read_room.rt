//! The room for reads, and the reads that are made in it.

ghost use Rattle.std.specs.Prelude.{◌≡◌, ◌<◌, ◌≤◌, ℕ, [], length, get_or, vec_capacity, Ok, OnErr, OnOk};
ghost use Rattle.mvmap.specs.Versions.{Versions};
ghost use Rattle.stm_state.specs.declared.state.Task.TheVariants as task;
ghost use Rattle.stm_state.specs.State.{with_task};
ghost use Rattle.stm_state.specs.Steps.{counted, one_step};
ghost use Rattle.scheduler.specs.Schedule.{KeepsRooms, MayCount, state_of};
ghost use Rattle.scheduler.specs.Workers.{with_answer};
ghost use Rattle.stm_core.specs.declared.next_step.ReadResult.TheVariants as read_result;

use crate::next_step::ReadResult;
use crate::owed_step::index_run;
use crate::passed_lists::{PassedLists, larger, replace, take_back};
use crate::value_lists::{ReadContents, ValueLists};
use mvmap::{LentAnswer, MvMap};
use read_set::{Origin, SharedVersions, Version};
use rv_ledger::{Key, LentValue, VALUE_LIMIT};
use rv_step::StorageAnswer;
use scheduler::Scheduler;
use std::alloc::{AllocError, Global};
use std::marker::Model;

/// The lists that a read writes into. Contracts see how many versions the next read may pass and how long a value it may find.
#[derive(Drop)]
pub(crate) struct ReadRoom {
    /// The lists of the versions that a read passes.
    passed: PassedLists,
    /// The lists of the bytes of a value that a read finds.
    values: ValueLists,
    /// A list that takes the place of a run's answers while they are changed.
    spare_answers: Vec<StorageAnswer>,
}

impl Model for ReadRoom {
    ghost use Rattle.stm_core.specs.CoreState.{ReadSizes};
    ghost use Rattle.stm_core.specs.Inner.{sizes_of};

    ghost Value = { ReadSizes };

    ghost view = { λ r. sizes_of r.passed r.values };
}

impl ReadRoom {
    ghost use Rattle.std.specs.Prelude.{◌≡◌, ◌<◌, ◌≤◌, ℕ, [], IsTrue, List, length, get_or, None, Ok, OnErr, OnOk};
    ghost use Rattle.std.specs.FinMap as finite;
    ghost use Rattle.rv_ledger.specs.Key.{Storage};
    ghost use Rattle.rv_ledger.specs.Lent.{lent_content};
    ghost use Rattle.rv_step.specs.declared.answer.StorageAnswer.{StorageAnswer};
    ghost use Rattle.mvmap.specs.Versions.{Versions};
    ghost use Rattle.mvmap.specs.Reading.{passed_in, reading};
    ghost use Rattle.stm_state.specs.declared.state.Task.TheVariants as task;
    ghost use Rattle.stm_state.specs.State.{with_task};
    ghost use Rattle.stm_state.specs.Steps.{answered_with, counted, one_step};
    ghost use Rattle.scheduler.specs.Schedule.{KeepsRooms, MayCount, state_of};
    ghost use Rattle.stm_core.specs.CoreState.{GivesInPlace, HasValueRoom, IsNoLess, IsRoomFor, read_result_of};

    /// Lists without room. Takes no memory.
    pub(crate) fn new(alloc: Global) -> ReadRoom {
        ReadRoom {
            passed: PassedLists::new(alloc),
            values: ValueLists::new(alloc),
            spare_answers: Vec::new(alloc),
        }
    }

    /// Whether there is room for one more answer to a worker's run, and for a read of its call that passes as many versions as
    /// the call's index and finds any value.
    #[inline(always)]
    pub(crate) fn suffices(&self, scheduler: &Scheduler, worker: usize) -> bool
        requires { worker < length scheduler.now.tasks }
        ensures answer { IsTrue result → 1 ≤ get_or scheduler.now.rooms worker 0 }
        ensures room { IsTrue result → IsRoomFor (get_or scheduler.now.tasks worker task.Idle) self.now }
    {
        let count = index_run(scheduler.task_kind(worker));
        scheduler.has_answer_room(worker) && self.passed.have_room(count) && self.values.have_room()
    }

    /// Makes room for one more answer to a worker's run, and for a read of its call that passes as many versions as the call's
    /// index and finds any value. Refused if memory ran out, and then nothing changes.
    #[cold]
    #[inline(never)]
    pub(crate) fn grow(
        &mut self,
        scheduler: &mut Scheduler,
        worker: usize,
    ) -> Result<(), AllocError>
        requires { worker < length scheduler.old.tasks }
        ensures answer { OnOk result (1 ≤ get_or scheduler.new.rooms worker 0) }
        ensures room { OnOk result (IsRoomFor (get_or scheduler.old.tasks worker task.Idle) self.new) }
        ensures kept { get_or scheduler.old.rooms worker 0 ≤ get_or scheduler.new.rooms worker 0 }
        ensures same { (v : Versions) (p : ℕ) → state_of v p scheduler.new ≡ state_of v p scheduler.old }
        ensures rooms { KeepsRooms worker scheduler.old.rooms scheduler.new.rooms }
        ensures grows { IsNoLess self.old self.new }
        ensures unchanged { OnErr result ((scheduler.new ≡ scheduler.old) × (self.new ≡ self.old)) }
        ensures succeeds { 1 ≤ get_or scheduler.old.rooms worker 0 → IsRoomFor (get_or scheduler.old.tasks worker task.Idle) self.old → result ≡ Ok tt }
    {
        let count = index_run(scheduler.task_kind(worker));
        let kept = larger(&self.passed.kept, count)?;
        let lent = larger(&self.passed.lent, count)?;
        let kept_value = larger(&self.values.kept, VALUE_LIMIT)?;
        let lent_value = larger(&self.values.lent, VALUE_LIMIT)?;
        make_answer_room(scheduler, worker, &mut self.spare_answers)?;
        replace(&mut self.passed.kept, kept);
        replace(&mut self.passed.lent, lent);
        replace(&mut self.values.kept, kept_value);
        replace(&mut self.values.lent, lent_value);
        Ok(())
    }

    /// A worker's run reads a key for its call, in room that was made; the storage before the block has `base` at the key,
    /// which is lent. From the highest call below downwards the read passes the versions that add an amount. What it then
    /// finds decides. If that is an estimate, the run is blocked. Otherwise the run gets the value that this version or the
    /// storage has, with the amounts added. Takes no memory.
    pub(crate) fn read_from_map(
        &mut self,
        base: Option<LentValue>,
        map: &MvMap,
        scheduler: &mut Scheduler,
        worker: usize,
        call: u16,
        key: &Key,
    ) -> ReadResult
        requires counts { MayCount worker scheduler.old }
        requires answer { 1 ≤ get_or scheduler.old.rooms worker 0 }
        requires kept { call ≤ self.old.passed.kept }
        requires lent { call ≤ self.old.passed.lent }
        requires values { HasValueRoom self.old.values }
        ensures answers { (store : Storage) → lent_content base.entry ≡ finite.get store key.now → result ≡ read_result_of store key.now (reading map.now.versions key.now call) }
        ensures state { (store : Storage) → lent_content base.entry ≡ finite.get store key.now → (answers : List StorageAnswer) → get_or scheduler.old.tasks worker task.Idle ≡ task.Running call answers None → (v : Versions) (p : ℕ) →
            state_of v p scheduler.new ≡ counted one_step worker (with_task worker (answered_with store key.now call answers (reading map.now.versions key.now call)) (state_of v p scheduler.old)) }
        ensures rooms { KeepsRooms worker scheduler.old.rooms scheduler.new.rooms }
        ensures passed { passed_in (reading map.now.versions key.now call) ≡ [] → self.new.passed ≡ self.old.passed }
        ensures workers { length scheduler.new.tasks ≡ length scheduler.old.tasks }
        ensures stay { GivesInPlace result → self.new.values ≡ self.old.values }
    {
        match map.read_lent(key, call, &mut self.passed.kept) {
            LentAnswer::Base(sum) => {
                let found = self.values.contents(base, sum);
                give(scheduler, &mut self.passed, worker, key, found, None)
            }
            LentAnswer::Found(version, content, sum) => {
                let found = self.values.contents(content, sum);
                give(
                    scheduler,
                    &mut self.passed,
                    worker,
                    key,
                    found,
                    Some(version),
                )
            }
            LentAnswer::Estimate(writer) => {
                scheduler.block(worker, writer);
                ReadResult::Blocked
            }
        }
    }

    /// Lets the origin that a worker's read of a key gave, and the one that its run keeps, share a list of the versions that they
    /// passed. They share it with the worker's last read of the key if that passed the same versions, otherwise with its next
    /// one. So it may take memory; if that ran out, they keep lists of their own.
    pub(crate) fn share(
        &mut self,
        scheduler: &mut Scheduler,
        worker: usize,
        key: &Key,
        read: &mut ReadResult,
    )
        requires { worker < length scheduler.old.tasks }
        ensures read { read.new ≡ read.old }
        ensures same { (v : Versions) (p : ℕ) → state_of v p scheduler.new ≡ state_of v p scheduler.old }
        ensures rooms { KeepsRooms worker scheduler.old.rooms scheduler.new.rooms }
        ensures stay { self.new.values ≡ self.old.values }
    {
        let ReadResult::Given(_, origin) = read else {
            return;
        };
        if origin.passed().is_empty() {
            return;
        }
        share_passed(
            scheduler,
            &mut self.spare_answers,
            &mut self.passed,
            worker,
            key,
            origin,
        );
    }
}

/// Makes room for one more answer to a worker's run; the answers are in `spare` meanwhile. Refused if memory ran out, and
/// then nothing changes.
fn make_answer_room(
    scheduler: &mut Scheduler,
    worker: usize,
    spare: &mut Vec<StorageAnswer>,
) -> Result<(), AllocError>
    requires { worker < length scheduler.old.tasks }
    ensures room { OnOk result (1 ≤ get_or scheduler.new.rooms worker 0) }
    ensures kept { get_or scheduler.old.rooms worker 0 ≤ get_or scheduler.new.rooms worker 0 }
    ensures same { (v : Versions) (p : ℕ) → state_of v p scheduler.new ≡ state_of v p scheduler.old }
    ensures rooms { KeepsRooms worker scheduler.old.rooms scheduler.new.rooms }
    ensures unchanged { OnErr result (scheduler.new ≡ scheduler.old) }
    ensures succeeds { 1 ≤ get_or scheduler.old.rooms worker 0 → result ≡ Ok tt }
{
    if scheduler.has_answer_room(worker) {
        return Ok(());
    }
    scheduler.swap_answers(worker, spare);
    let made = spare.reserve(1);
    scheduler.swap_answers(worker, spare);
    made
}

/// Keeps an answer to a worker's run, in room that was made, and returns it. Its origin has the versions in the list that
/// is kept, and the one that was found below them.
#[inline(always)]
fn give(
    scheduler: &mut Scheduler,
    lists: &mut PassedLists,
    worker: usize,
    key: &Key,
    contents: ReadContents,
    bottom: Option<Version>,
) -> ReadResult
    requires counts { MayCount worker scheduler.old }
    requires room { 1 ≤ get_or scheduler.old.rooms worker 0 }
    requires twice { contents.lent ≡ contents.kept }
    requires lent { length lists.old.kept.items ≤ vec_capacity lists.old.lent }
    ensures answers { result ≡ read_result.Given contents.kept (record { passed = lists.old.kept.items; bottom = bottom }) }
    ensures state { (v : Versions) (p : ℕ) → state_of v p scheduler.new ≡ counted one_step worker (with_task worker (with_answer (record { key = key.now; value = contents.kept; origin = record { passed = lists.old.kept.items; bottom = bottom } }) (get_or scheduler.old.tasks worker task.Idle)) (state_of v p scheduler.old)) }
    ensures rooms { KeepsRooms worker scheduler.old.rooms scheduler.new.rooms }
    ensures passed { lists.old.kept.items ≡ [] → lists.new ≡ lists.old }
{
    let (kept, lent) = lists.origins(bottom);
    let answer = StorageAnswer {
        key: *key,
        value: contents.kept,
        origin: kept,
    };
    scheduler.answer(worker, answer);
    ReadResult::Given(contents.lent, lent)
}

/// Lets the last answer of a worker's run and an equal origin that is handed out share a list of the versions that they
/// passed. If memory ran out, they keep lists of their own. `spare` holds the answers meanwhile.
#[cold]
#[inline(never)]
fn share_passed(
    scheduler: &mut Scheduler,
    spare: &mut Vec<StorageAnswer>,
    lists: &mut PassedLists,
    worker: usize,
    key: &Key,
    origin: &mut Origin,
)
    requires { worker < length scheduler.old.tasks }
    ensures origin { origin.new ≡ origin.old }
    ensures same { (v : Versions) (p : ℕ) → state_of v p scheduler.new ≡ state_of v p scheduler.old }
    ensures rooms { KeepsRooms worker scheduler.old.rooms scheduler.new.rooms }
{
    let Some(list) = lists.shared(worker, key, origin.passed()) else {
        return;
    };
    take_back(&mut lists.lent, origin.share(&list));
    scheduler.swap_answers(worker, spare);
    take_back(&mut lists.kept, share_last(spare, &list));
    scheduler.swap_answers(worker, spare);
}

/// Lets the last of some answers share a list of versions, if it passed the same, and returns the list that it had.
fn share_last(answers: &mut Vec<StorageAnswer>, list: &SharedVersions) -> Option<Vec<Version>>
    ensures items { answers.new.items ≡ answers.old.items }
    ensures room { vec_capacity answers.new ≡ vec_capacity answers.old }
{
    match answers.as_mut_slice() {
        [.., last] if list.is(last.origin.passed()) => last.origin.share(list),
        _ => None,
    }
}
