//! A read of a worker's run, as a step of the core, and the room for it.

use crate::job_source::{JobSource, StoredJob};
use crate::next_step::ReadResult;
use crate::state::Core;
use rv_ledger::{Key, LentValue, StoredValue};
use scheduler::TaskKind;
use std::alloc::AllocError;

impl<H: JobSource> Core<H> {
    ghost use Rattle.std.specs.Prelude.{◌≡◌, ◌<◌, ◌≤◌, ℕ, true, length, get_or, [], OnOk, OnErr, Ok};
    ghost use Rattle.std.specs.FinMap as finite;
    ghost use Rattle.rv_ledger.specs.Lent.{lent_content};
    ghost use Rattle.mvmap.specs.Reading.{passed_in, reading};
    ghost use Rattle.stm_state.specs.State.{task_at};
    ghost use Rattle.stm_state.specs.Steps as steps;
    ghost use Rattle.scheduler.specs.Schedule.{KeepsRooms};
    ghost use Rattle.stm_core.specs.CoreState.{GivesInPlace, HasReadRoom, IsDue, IsNoLess, Makes, read_result_of, runs};

    /// Makes room for the next read of a worker's run: for one more answer, for as many passed versions as the index of
    /// its call, and for any value. The versions and the value get room both in the answer that is kept and in the one
    /// that `read` hands out. Succeeds if the room is there. Refused if memory ran out, and then nothing changes. This is
    /// not a step.
    pub fn room_for_read(&mut self, worker: usize) -> Result<(), AllocError>
        requires { worker < length self.old.state.tasks }
        ensures room { OnOk result (HasReadRoom worker self.new) }
        ensures kept { get_or self.old.rooms worker 0 ≤ get_or self.new.rooms worker 0 }
        ensures rooms { KeepsRooms worker self.old.rooms self.new.rooms }
        ensures grows { IsNoLess self.old.room self.new.room }
        ensures job { self.new.job ≡ self.old.job }
        ensures state { self.new.state ≡ self.old.state }
        ensures unchanged { OnErr result (self.new ≡ self.old) }
        ensures succeeds { HasReadRoom worker self.old → result ≡ Ok tt }
    {
        if self.read_room.suffices(&self.scheduler, worker) {
            return Ok(());
        }
        self.read_room.grow(&mut self.scheduler, worker)
    }

    /// Like `read`, but the caller lends what the storage before the block has at the key.
    fn read_over(&mut self, worker: usize, key: &Key, base: Option<LentValue>) -> ReadResult
        requires due { IsDue worker (steps.ReadKey key.now) self.old }
        requires room { HasReadRoom worker self.old }
        requires base { lent_content base ≡ finite.get self.old.job.store key.now }
        ensures makes { Makes worker (steps.ReadKey key.now) self.old self.new }
        ensures answers { (i : ℕ) → runs (task_at self.old.state worker) i ≡ true → result ≡ read_result_of self.old.job.store key.now (reading self.old.state.versions key.now i) }
        ensures passed { (i : ℕ) → runs (task_at self.old.state worker) i ≡ true → passed_in (reading self.old.state.versions key.now i) ≡ [] → self.new.room.passed ≡ self.old.room.passed }
        ensures values { GivesInPlace result → self.new.room.values ≡ self.old.room.values }
    {
        let TaskKind::Running { call, .. } = self.scheduler.task_kind(worker) else {
            unreachable!();
        };
        self.read_room
            .read_from_map(base, &self.map, &mut self.scheduler, worker, call, key)
    }

    /// Like `read`, but the caller lends what the storage before the block has at the key. Then the answer that is kept and
    /// the one that is handed out share a list of the versions that the read passed. They share it with the worker's last
    /// read of the key if that passed the same versions, otherwise with its next one. So it may take memory, but it does not
    /// refuse: if memory ran out, they keep lists of their own.
    pub fn read_sharing(&mut self, worker: usize, key: &Key, base: Option<LentValue>) -> ReadResult
        requires due { IsDue worker (steps.ReadKey key.now) self.old }
        requires room { HasReadRoom worker self.old }
        requires base { lent_content base ≡ finite.get self.old.job.store key.now }
        ensures makes { Makes worker (steps.ReadKey key.now) self.old self.new }
        ensures answers { (i : ℕ) → runs (task_at self.old.state worker) i ≡ true → result ≡ read_result_of self.old.job.store key.now (reading self.old.state.versions key.now i) }
        ensures values { GivesInPlace result → self.new.room.values ≡ self.old.room.values }
    {
        let TaskKind::Running { call, .. } = self.scheduler.task_kind(worker) else {
            unreachable!();
        };
        let mut read = self
            .read_room
            .read_from_map(base, &self.map, &mut self.scheduler, worker, call, key);
        self.read_room
            .share(&mut self.scheduler, worker, key, &mut read);
        read
    }
}

impl<H: StoredJob> Core<H> {
    ghost use Rattle.std.specs.Prelude.{◌≡◌, ℕ, true, []};
    ghost use Rattle.mvmap.specs.Reading.{passed_in, reading};
    ghost use Rattle.stm_state.specs.State.{task_at};
    ghost use Rattle.stm_state.specs.Steps as steps;
    ghost use Rattle.stm_core.specs.CoreState.{GivesInPlace, HasReadRoom, IsDue, Makes, read_result_of, runs};

    /// A worker's run reads the key that it asks for, in room that `room_for_read` made. Takes no memory.
    pub fn read(&mut self, worker: usize, key: &Key) -> ReadResult
        requires due { IsDue worker (steps.ReadKey key.now) self.old }
        requires room { HasReadRoom worker self.old }
        ensures makes { Makes worker (steps.ReadKey key.now) self.old self.new }
        ensures answers { (i : ℕ) → runs (task_at self.old.state worker) i ≡ true → result ≡ read_result_of self.old.job.store key.now (reading self.old.state.versions key.now i) }
        ensures passed { (i : ℕ) → runs (task_at self.old.state worker) i ≡ true → passed_in (reading self.old.state.versions key.now i) ≡ [] → self.new.room.passed ≡ self.old.room.passed }
        ensures values { GivesInPlace result → self.new.room.values ≡ self.old.room.values }
    {
        let base = StoredValue::value_of(self.job.content(key));
        self.read_over(worker, key, base.as_ref().map(|base| base.lend()))
    }
}
