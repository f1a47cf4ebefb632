//! A run of one call, which stops when it needs an answer from the storage.

ghost use Rattle.std.specs.Prelude.{◌≡◌, ◌<◌, ◌≤◌, IfOk, OnOk, vec_capacity, vec_len};
ghost use Rattle.rv_ledger.specs.Lent.{lent_content};
ghost use Rattle.rv_mem.specs.Code.{HasCode};
ghost use Rattle.rv_step.specs.Chain.{receipt_of};
ghost use Rattle.rv_step.specs.Meets.{MeetsSteps};
ghost use Rattle.rv_step.specs.declared.stage.Stage.TheVariants.{Running};

use crate::answer::StorageAnswer;
use crate::ended_run::EndedRun;
use crate::machine::Machine;
use crate::outcome::InstructionOutcome;
use crate::page_walk::is_at;
use crate::spare_run::SpareRun;
use crate::stage::{Stage, end_with};
use elf32::BasePages;
use read_set::Origin;
use rv_ledger::{Call, End, Key, LentValue, Receipt, StoredOutput, StoredValue, Value, Writes};
use std::alloc::{AllocError, Global};
use std::marker::Model;
use std::mem::replace;

/// How many answers a run has room for once it has the first one. Most calls ask for no more, and the allocator is
/// slower with a list of more than a kibibyte.
const FIRST_ROOM: usize = 2;

/// A run of one call that is under way.
#[derive(Drop)]
pub struct Run {
    call: Call,
    machine: Box<Machine>,
    answers: Vec<StorageAnswer>,
    stage: Stage,
}

impl Model for Run {
    ghost use Rattle.std.specs.Coded.{codes};
    ghost use Rattle.rv_step.specs.Run.{RunView, IsBeginning};
    ghost use Rattle.rv_step.specs.contracts.machine.Machine.{the_row as machine_row};

    ghost Value = { RunView };

    ghost coded = { Prim.hlevel (codes, machine_row.coded) };

    ghost view = { λ r. record { call = r.call; machine = r.machine.value; answers = r.answers.items; stage = r.stage } };

    ghost invariant = { λ r. IsBeginning (record { call = r.call; machine = r.machine.value; answers = r.answers.items; stage = r.stage }) };
}

/// Why a run has stopped.
#[derive(Clone, Copy, Debug, PartialEq, Eq)]
pub enum Pause {
    /// It asks the storage for this key.
    Ask(Key),
    /// Its call has ended.
    Ended,
}

impl Run {
    ghost use Rattle.std.specs.Prelude.{◌≡◌, ◌<◌, ◌≤◌, ℕ, false, IsTrue, IsSome, IfSome, IfOk, OnOk, OnErr};
    ghost use Rattle.std.specs.Option.{option_copied};
    ghost use Rattle.rv_ledger.specs.Lent.{lent_content};
    ghost use Rattle.rv_step.specs.Growth.{TakesMemory};
    ghost use Rattle.rv_step.specs.Step.{step};
    ghost use Rattle.rv_step.specs.Asked.{asked_by, asked_of};
    ghost use Rattle.rv_step.specs.Replies.{replies_of};
    ghost use Rattle.rv_step.specs.Until.{GoesUntil, stops_at};
    ghost use Rattle.rv_step.specs.Run.{IsEnded, IsPause, IsReceiptOf, after_answer, after_steps, asked_key, is_running, run_after_result, run_at_start, steps_left};

    /// A run of a call before its first instruction; refused if memory ran out.
    pub fn start(alloc: Global, call: &Call) -> Result<Run, AllocError>
        ensures { IfOk result (λ r. r ≡ run_at_start call.now) }
    {
        Run::start_in(alloc, SpareRun::new(alloc), call)
    }

    /// The same with the machine and the list of an earlier run.
    #[inline(always)]
    pub fn start_in(alloc: Global, spare: SpareRun, call: &Call) -> Result<Run, AllocError>
        ensures { IfOk result (λ r. r ≡ run_at_start call.now) }
    {
        let SpareRun {
            mut machine,
            answers,
        } = spare;
        let machine = machine.start(alloc, call)?;
        Ok(Run {
            call: call.copy()?,
            machine,
            answers,
            stage: Stage::Running,
        })
    }

    /// Whether the run can make a step: it neither asks the storage nor has ended.
    pub fn is_running(&self) -> bool
        ensures { result ≡ is_running self.now.stage }
    {
        matches!(self.stage, Stage::Running)
    }

    /// The machine of the call, as the last step left it.
    pub fn machine(&self) -> &Machine
        ensures { result.now ≡ self.now.machine }
    {
        &self.machine
    }

    /// Whether it can make a step, asks the storage, or has ended.
    pub fn stage(&self) -> &Stage
        ensures { result.now ≡ self.now.stage }
    {
        &self.stage
    }

    /// Makes one step of a run that is running. Refused if memory ran out, and then nothing changes. Only a store or a storage
    /// call can be refused, and only if the call continues after it or has an output of more than 16 bytes.
    pub fn step_one(&mut self) -> Result<(), AllocError>
        requires { IsTrue (is_running self.old.stage) }
        ensures ok { OnOk result (self.new ≡ run_after_result (step self.old.machine) self.old) }
        ensures fewer { OnOk result (steps_left self.new < steps_left self.old) }
        ensures err { OnErr result (self.new ≡ self.old) }
        ensures grows { OnErr result (TakesMemory self.old.machine) }
    {
        match self.machine.execute_instruction()? {
            InstructionOutcome::Next => {}
            InstructionOutcome::StorageCall => self.machine.execute_ecall(&mut self.stage)?,
            InstructionOutcome::End(end) => {
                end_with(&mut self.stage, self.machine.own.allocator(), end);
            }
        }
        Ok(())
    }

    /// Makes steps until the run asks the storage or has ended. A run that asks or has ended stays as it is. Refused if memory
    /// ran out: then the run is before the instruction that needed memory, a store or a storage call, and may continue.
    pub fn go(&mut self) -> Result<Pause, AllocError>
        ensures call { self.new.call ≡ self.old.call }
        ensures answers { self.new.answers ≡ self.old.answers }
        ensures fewer { steps_left self.new ≤ steps_left self.old }
        ensures pause { IfOk result (λ pause. IsPause pause self.new.stage) }
        ensures asks { IfOk result (λ pause. asked_of pause ≡ asked_by self.new.call (replies_of self.new.answers)) }
        ensures steps { (n : ℕ) × (self.new ≡ after_steps n self.old) }
        ensures stopped { OnErr result (IsTrue (is_running self.new.stage)) }
        ensures grows { OnErr result (TakesMemory self.new.machine) }
        ensures stays { is_running self.old.stage ≡ false → self.new ≡ self.old }
    {
        while self.is_running() {
            self.step_until_stop()?;
        }
        Ok(self.pause())
    }

    /// Makes steps of a run that is running, as `run_until_stop` does.
    fn step_until_stop(&mut self) -> Result<(), AllocError>
        requires { IsTrue (is_running self.old.stage) }
        ensures call { self.new.call ≡ self.old.call }
        ensures answers { self.new.answers ≡ self.old.answers }
        ensures steps { (n : ℕ) × (self.new ≡ after_steps n self.old) }
        ensures fewer { OnOk result (steps_left self.new < steps_left self.old) }
        ensures left { steps_left self.new ≤ steps_left self.old }
        ensures stopped { OnErr result (IsTrue (is_running self.new.stage)) }
        ensures grows { OnErr result (TakesMemory self.new.machine) }
    {
        run_until_stop(&mut self.machine, self.call.image().base(), &mut self.stage)
    }

    /// Makes steps of a run that is running: one at least, and `most` at most. It makes none after the first moment at which
    /// the run asks, has ended, or has the pc `stop`. Returns the number of steps. It stops sooner only before an instruction
    /// that needs memory which ran out. Refused if memory ran out before the first step, and then nothing changes.
    pub fn go_until(&mut self, stop: Option<u32>, most: u64) -> Result<u64, AllocError>
        requires running { IsTrue (is_running self.old.stage) }
        requires some { 0 < most }
        ensures ok { IfOk result (λ made. GoesUntil stop most made self.old self.new) }
        ensures sooner { IfOk result (λ made. made < most → stops_at stop self.new ≡ false → TakesMemory self.new.machine) }
        ensures err { OnErr result (self.new ≡ self.old) }
        ensures grows { OnErr result (TakesMemory self.old.machine) }
    {
        self.step_one()?;
        let mut made = 1;
        while made < most && !self.stops_at(stop) {
            match self.go_on(stop, most - made) {
                Ok(more) => made += more,
                Err(AllocError) => return Ok(made),
            }
        }
        Ok(made)
    }

    /// Whether the run can make no step, or has this pc.
    fn stops_at(&self, stop: Option<u32>) -> bool
        ensures { result ≡ stops_at stop self.now }
    {
        !self.is_running() || is_at(stop, self.machine.pc)
    }

    /// Makes steps as `go_until` does, for a run that can make a step and whose pc is not `stop`.
    fn go_on(&mut self, stop: Option<u32>, most: u64) -> Result<u64, AllocError>
        requires going { stops_at stop self.old ≡ false }
        requires some { 0 < most }
        ensures ok { IfOk result (λ made. GoesUntil stop most made self.old self.new) }
        ensures err { OnErr result (self.new ≡ self.old) }
        ensures grows { OnErr result (TakesMemory self.old.machine) }
    {
        let made = self.walk(stop, most);
        if made > 0 {
            return Ok(made);
        }
        self.step_one()?;
        Ok(1)
    }

    /// Makes steps in a page of code, at most `most`. It stops at the first moment at which the pc is `stop`, lies in another
    /// page, or is that of an instruction that is not made there. Returns the number of steps.
    fn walk(&mut self, stop: Option<u32>, most: u64) -> u64
        requires { IsTrue (is_running self.old.stage) }
        ensures within { result ≤ most }
        ensures steps { self.new ≡ after_steps result self.old }
        ensures between { (n : ℕ) → n < result → stops_at stop (after_steps n self.old) ≡ false }
    {
        self.machine.walk(self.call.image().base(), stop, most)
    }

    /// Why the run has stopped. It must not be running.
    fn pause(&self) -> Pause
        requires { is_running self.now.stage ≡ false }
        ensures pause { IsPause result self.now.stage }
        ensures asks { asked_of result ≡ asked_by self.now.call (replies_of self.now.answers) }
    {
        match &self.stage {
            Stage::Asked(key) => Pause::Ask(*key),
            Stage::Ended(_, _) => Pause::Ended,
            Stage::Running => unreachable!(),
        }
    }

    /// Gives the run the storage's answer to the key that it asks for: the key's value, or None for absence, and the source of
    /// the answer. Refused if memory ran out, and then nothing changes.
    pub fn answer(&mut self, content: Option<&Value>, origin: Origin) -> Result<(), AllocError>
        requires { IsSome (asked_key self.old.stage) }
        ensures ok { OnOk result (IfSome (asked_key self.old.stage) (λ key. self.new ≡ after_answer key (option_copied content.entry) origin self.old)) }
        ensures fewer { OnOk result (steps_left self.new < steps_left self.old) }
        ensures err { OnErr result (self.new ≡ self.old) }
    {
        self.answer_lent(content.map(|value| value.lend()), origin)
    }

    /// The same with a value that is lent.
    pub fn answer_lent(
        &mut self,
        content: Option<LentValue>,
        origin: Origin,
    ) -> Result<(), AllocError>
        requires { IsSome (asked_key self.old.stage) }
        ensures ok { OnOk result (IfSome (asked_key self.old.stage) (λ key. self.new ≡ after_answer key (lent_content content.entry) origin self.old)) }
        ensures fewer { OnOk result (steps_left self.new < steps_left self.old) }
        ensures err { OnErr result (self.new ≡ self.old) }
    {
        let value = stored(*self.answers.allocator(), content)?;
        self.answer_stored(value, origin)
    }

    /// The same with a value that is moved in.
    pub fn answer_stored(
        &mut self,
        value: Option<StoredValue>,
        origin: Origin,
    ) -> Result<(), AllocError>
        requires { IsSome (asked_key self.old.stage) }
        ensures ok { OnOk result (IfSome (asked_key self.old.stage) (λ key. self.new ≡ after_answer key value origin self.old)) }
        ensures fewer { OnOk result (steps_left self.new < steps_left self.old) }
        ensures err { OnErr result (self.new ≡ self.old) }
    {
        let key = match &self.stage {
            Stage::Asked(key) => *key,
            _ => unreachable!(),
        };
        make_room(&mut self.answers)?;
        self.stage = Stage::Running;
        let content = LentValue::of_stored(value.as_ref());
        match self.machine.answer(&key, content, &mut self.stage) {
            Ok(()) => {
                let answer = StorageAnswer { key, value, origin };
                self.answers.push_reserved(answer);
                Ok(())
            }
            Err(refused) => {
                self.stage = Stage::Asked(key);
                Err(refused)
            }
        }
    }

    /// Turns a run whose call has ended into its receipt and answers. Takes no memory.
    pub fn finish(self) -> EndedRun
        requires { IsEnded self.stage }
        ensures call { result.call ≡ self.call }
        ensures answers { result.answers.items ≡ self.answers }
        ensures receipt { IsReceiptOf result.receipt self }
    {
        let mut spare = SpareRun::new(*self.answers.allocator());
        self.finish_in(&mut spare)
    }

    /// The same, and its machine is left in `spare`.
    #[inline(always)]
    pub fn finish_in(self, spare: &mut SpareRun) -> EndedRun
        requires { IsEnded self.stage }
        ensures call { result.call ≡ self.call }
        ensures answers { result.answers.items ≡ self.answers }
        ensures receipt { IsReceiptOf result.receipt self }
    {
        let Run {
            call,
            mut machine,
            answers,
            stage,
        } = self;
        match stage {
            Stage::Ended(end, out) => {
                let receipt = receipt(call.gas(), end, out, &mut machine);
                spare.machine.keep(machine);
                EndedRun {
                    call,
                    answers,
                    receipt,
                }
            }
            _ => unreachable!(),
        }
    }

    /// What a run that is given up leaves to the next: its machine, and the list of its answers.
    pub fn into_spare(self) -> SpareRun {
        let Run {
            machine,
            answers,
            ..
        } = self;
        let mut spare = SpareRun::new(*answers.allocator());
        spare.machine.keep(machine);
        spare.keep_answers(answers);
        spare
    }
}

/// Keeps a value, or None for None; refused if memory ran out.
fn stored(alloc: Global, content: Option<LentValue>) -> Result<Option<StoredValue>, AllocError>
    ensures { IfOk result (λ value. value ≡ lent_content content.entry) }
{
    match content {
        Some(value) => Ok(Some(StoredValue::of(alloc, value)?)),
        None => Ok(None),
    }
}

/// Makes room for one more answer, or for the first answers together if there is none yet; refused if memory ran out.
fn make_room(answers: &mut Vec<StorageAnswer>) -> Result<(), AllocError>
    ensures items { answers.new.items ≡ answers.old.items }
    ensures room { OnOk result (vec_len answers.new < vec_capacity answers.new) }
{
    if answers.is_empty() {
        return answers.reserve_exact(FIRST_ROOM);
    }
    answers.reserve(1)
}

/// Makes steps of a machine that is running, up to and including the first ECALL, or up to the end of the call. Refused if
/// memory ran out; then the machine is before the instruction that needed memory. `program` has the pages of the machine's
/// program.
pub(crate) fn run_until_stop(
    machine: &mut Machine,
    program: &BasePages,
    stage: &mut Stage,
) -> Result<(), AllocError>
    requires running { stage.old ≡ Running }
    requires code { HasCode machine.old.memory program.now }
    ensures { MeetsSteps result stage.new machine.old machine.new }
{
    match machine.execute_until_stop(program)? {
        InstructionOutcome::Next => unreachable!(),
        InstructionOutcome::StorageCall => machine.execute_ecall(stage)?,
        InstructionOutcome::End(end) => end_with(stage, machine.own.allocator(), end),
    }
    Ok(())
}

/// The receipt of a call with this gas limit that ended this way; only a call that returned keeps its writes. They are taken
/// from the machine, which nobody needs any more.
#[inline(always)]
pub(crate) fn receipt(limit: u32, end: End, out: StoredOutput, machine: &mut Machine) -> Receipt
    requires { machine.old.gas ≤ limit }
    ensures { result ≡ receipt_of limit end out machine.old }
{
    let alloc = machine.own.allocator();
    if end != End::Returned {
        machine.own.clear();
    }
    Receipt {
        end,
        gas: limit - machine.gas.left(),
        pc: machine.pc,
        out,
        regs: machine.regs,
        writes: replace(&mut machine.own, Writes::new(alloc)),
    }
}
