//! The storage calls of a machine. Each writes how far the run is into a stage that the caller passes, since a stage may hold
//! an output and is expensive to move.

ghost use Rattle.std.specs.Prelude.{◌≡◌, ◌≤◌, if◌then◌else◌, [], length};
ghost use Rattle.std.specs.Option.{option_copied};
ghost use Rattle.std.specs.FinMap as map;
ghost use Rattle.ecalls.specs.StorageCalls.{a1, ecall_charge, late_charge, length_of, request_by};
ghost use Rattle.ecalls.specs.declared.storage_call.StorageCall.TheVariants as call;
ghost use Rattle.rv_isa.specs.Registers.{written};
ghost use Rattle.rv_ledger.specs.declared.end.End.TheVariants.{OutOfGas, Returned, Reverted};
ghost use Rattle.rv_step.specs.Meets.{MeetsOutput, MeetsStage, is_asked};
ghost use Rattle.rv_ledger.specs.Change.{change_copied};
ghost use Rattle.rv_ledger.specs.Lent.{lent_content};
ghost use Rattle.rv_step.specs.Step.{Going, Leads, answered, change_after_add, charged, delivered, delivery_result, ecall_result, next_instruction, read_result, storage_call_result, value_result, write_result};
ghost use Rattle.rv_step.specs.declared.stage.Stage.TheVariants.{Ended, Running};

use crate::faults::refusal;
use crate::machine::Machine;
use crate::stage::{Stage, end_with, is_asked};
use ecalls::{
    READ_CHARGE, StorageCall, Trap, added_amount, bytes_at, key_at, late_charge, requested_call,
};
use gas::Meter;
use rv_isa::Reg;
use rv_ledger::{
    Change, End, IN_PLACE_LIMIT, Key, LentValue, OUTPUT_LIMIT, StoredOutput, StoredValue, Value,
    add, wrapping_sum,
};
use std::alloc::AllocError;

/// The number in a0 after a READ of an absent key.
const ABSENT: u32 = 0xffff_ffff;

/// The number in a0 after a READ of a value that is longer than the buffer.
const TOO_LONG: u32 = 0xffff_fffe;

impl Machine {
    /// Charges the storage call at the pc and does it. A READ that asks the storage is charged only when its answer comes.
    /// Refused if memory ran out, and then nothing changes.
    #[inline(never)]
    #[tactic(auto, unfolding(ecalls::specs::StorageCalls::request_of))]
    pub(crate) fn execute_ecall(&mut self, stage: &mut Stage) -> Result<(), AllocError>
        requires { stage.old ≡ Running }
        ensures { MeetsStage result stage.new (ecall_result self.old (ecall_charge self.old.regs self.old.rules)) self.old self.new }
    {
        let call = match requested_call(&self.regs, self.rules) {
            Ok(call) => call,
            Err(cause) => {
                end_with(stage, self.own.allocator(), End::Trapped(cause));
                return Ok(());
            }
        };
        let gas = self.gas;
        if !self.gas.charge(call.charge(&self.regs)) {
            end_with(stage, self.own.allocator(), self.run_out());
            return Ok(());
        }
        match self.serve(call, stage) {
            Ok(()) => {
                self.refund_if_asked(gas, stage);
                Ok(())
            }
            Err(refused) => {
                self.gas = gas;
                Err(refused)
            }
        }
    }

    /// Gives the storage's answer to the READ of this key at the pc: the value, or None for absence. If the call has added to
    /// the key, its sum is added to the answer. Charges the READ, and then the bytes that it copies; the call ends out of gas
    /// if less is left. Refused if memory ran out, and then nothing changes.
    pub(crate) fn answer(
        &mut self,
        key: &Key,
        content: Option<LentValue>,
        stage: &mut Stage,
    ) -> Result<(), AllocError>
        requires { stage.old ≡ Running }
        ensures { MeetsStage result stage.new (Leads (answered self.old (delivered self.old key.now (lent_content content.entry)))) self.old self.new }
    {
        let Some(Change::Sum(amount)) = self.own.get(key) else {
            return self.answer_with(content, stage);
        };
        let sum = add(content, *amount);
        self.answer_with(Some(sum.lend()), stage)
    }

    /// Delivers this content to the READ at the pc. Charges and refuses as `answer` does.
    #[tactic(auto, unfolding(crate::specs::Step::answered))]
    fn answer_with(
        &mut self,
        content: Option<LentValue>,
        stage: &mut Stage,
    ) -> Result<(), AllocError>
        requires { stage.old ≡ Running }
        ensures { MeetsStage result stage.new (Leads (answered self.old (lent_content content.entry))) self.old self.new }
    {
        let gas = self.gas;
        if !self.gas.charge(READ_CHARGE) {
            end_with(stage, self.own.allocator(), self.run_out());
            return Ok(());
        }
        match self.deliver(content, stage) {
            Ok(()) => Ok(()),
            Err(refused) => {
                self.gas = gas;
                Err(refused)
            }
        }
    }

    /// Returns the gas if the storage was asked: such a READ is charged when its answer comes.
    fn refund_if_asked(&mut self, gas: Meter, stage: &Stage)
        ensures { self.new ≡ (if is_asked stage.now then record self.old { gas = gas } else self.old) }
    {
        if is_asked(stage) {
            self.gas = gas;
        }
    }

    /// Does a storage call that has been charged; it may trap MemoryFault or TooManyWrites.
    fn serve(&mut self, call: StorageCall, stage: &mut Stage) -> Result<(), AllocError>
        requires length { length_of call self.old.regs ≤ 256 }
        requires running { stage.old ≡ Running }
        ensures { MeetsStage result stage.new (storage_call_result self.old (request_by call self.old.regs self.old.memory)) self.old self.new }
    {
        match call {
            StorageCall::Read => self.read(stage),
            StorageCall::Write => self.write(stage),
            StorageCall::Remove => self.remove(stage),
            StorageCall::Return => self.return_output(stage),
            StorageCall::Revert => self.revert_output(stage),
            StorageCall::Add => self.add(stage),
        }
    }

    /// Reads a key into a buffer; traps MemoryFault unless the key may be read and the buffer be written.
    #[tactic(auto, unfolding(crate::specs::Step::storage_call_result))]
    fn read(&mut self, stage: &mut Stage) -> Result<(), AllocError>
        requires { stage.old ≡ Running }
        ensures { MeetsStage result stage.new (storage_call_result self.old (request_by call.Read self.old.regs self.old.memory)) self.old self.new }
    {
        let Some(key) = key_at(&self.memory, self.regs.get(Reg::a0())) else {
            end_with(stage, self.own.allocator(), End::Trapped(Trap::MemoryFault));
            return Ok(());
        };
        if !self
            .memory
            .range_writable(self.regs.get(Reg::a1()), self.regs.get(Reg::a2()))
        {
            end_with(stage, self.own.allocator(), End::Trapped(Trap::MemoryFault));
            return Ok(());
        }
        self.read_key(&key, stage)
    }

    /// Reads a key: from the call's own writes if it is there, otherwise by asking the storage. A key that the call has only
    /// added to is asked for.
    fn read_key(&mut self, key: &Key, stage: &mut Stage) -> Result<(), AllocError>
        requires { stage.old ≡ Running }
        ensures { MeetsStage result stage.new (read_result self.old key.now (map.get self.old.own key.now)) self.old self.new }
    {
        let content = match self.own.get(key) {
            Some(Change::Value(value)) => Some(value.value()),
            Some(Change::Gone) => None,
            Some(Change::Sum(_)) | None => {
                *stage = Stage::Asked(*key);
                return Ok(());
            }
        };
        self.deliver(content.as_ref().map(|value| value.lend()), stage)
    }

    /// Writes a value to a key; traps MemoryFault unless both may be read.
    #[tactic(auto, unfolding(crate::specs::Step::storage_call_result))]
    fn write(&mut self, stage: &mut Stage) -> Result<(), AllocError>
        requires length { length_of call.Write self.old.regs ≤ 256 }
        requires running { stage.old ≡ Running }
        ensures { MeetsStage result stage.new (storage_call_result self.old (request_by call.Write self.old.regs self.old.memory)) self.old self.new }
    {
        let Some(key) = key_at(&self.memory, self.regs.get(Reg::a0())) else {
            end_with(stage, self.own.allocator(), End::Trapped(Trap::MemoryFault));
            return Ok(());
        };
        let value: Option<Value> = bytes_at(
            &self.memory,
            self.regs.get(Reg::a1()),
            self.regs.get(Reg::a2()),
        );
        let Some(value) = &value else {
            end_with(stage, self.own.allocator(), End::Trapped(Trap::MemoryFault));
            return Ok(());
        };
        self.put(key, Change::Value(value), stage)
    }

    /// Removes a key; traps MemoryFault unless it may be read.
    #[tactic(auto, unfolding(crate::specs::Step::storage_call_result))]
    fn remove(&mut self, stage: &mut Stage) -> Result<(), AllocError>
        requires { stage.old ≡ Running }
        ensures { MeetsStage result stage.new (storage_call_result self.old (request_by call.Remove self.old.regs self.old.memory)) self.old self.new }
    {
        let Some(key) = key_at(&self.memory, self.regs.get(Reg::a0())) else {
            end_with(stage, self.own.allocator(), End::Trapped(Trap::MemoryFault));
            return Ok(());
        };
        self.put(key, Change::Gone, stage)
    }

    /// Adds an amount to a key without reading it; traps MemoryFault unless the key may be read.
    #[tactic(auto, unfolding(crate::specs::Step::storage_call_result))]
    fn add(&mut self, stage: &mut Stage) -> Result<(), AllocError>
        requires { stage.old ≡ Running }
        ensures { MeetsStage result stage.new (storage_call_result self.old (request_by call.Add self.old.regs self.old.memory)) self.old self.new }
    {
        let Some(key) = key_at(&self.memory, self.regs.get(Reg::a0())) else {
            end_with(stage, self.own.allocator(), End::Trapped(Trap::MemoryFault));
            return Ok(());
        };
        let change = change_after_add(self.own.get(&key), added_amount(&self.regs));
        self.put(key, change.as_ref(), stage)
    }

    /// Changes a key; traps TooManyWrites if the call has written 256 other keys.
    #[tactic(auto, unfolding(crate::specs::Step::write_result))]
    fn put(&mut self, key: Key, change: Change<&Value>, stage: &mut Stage) -> Result<(), AllocError>
        requires { stage.old ≡ Running }
        ensures { MeetsStage result stage.new (Leads (write_result self.old (record { key = key; change = change_copied change.entry }))) self.old self.new }
    {
        if !self.own.has_room(&key) {
            end_with(
                stage,
                self.own.allocator(),
                End::Trapped(Trap::TooManyWrites),
            );
            return Ok(());
        }
        self.own.set(key, change)?;
        self.advance_pc();
        Ok(())
    }

    /// Ends the call with an output, and its writes are kept; traps MemoryFault unless each byte of the
    /// output may be read.
    #[tactic(auto, unfolding(crate::specs::Step::storage_call_result))]
    fn return_output(&mut self, stage: &mut Stage) -> Result<(), AllocError>
        requires length { length_of call.Return self.old.regs ≤ 256 }
        requires running { stage.old ≡ Running }
        ensures { MeetsStage result stage.new (storage_call_result self.old (request_by call.Return self.old.regs self.old.memory)) self.old self.new }
    {
        match self.output()? {
            Some(out) => *stage = Stage::Ended(End::Returned, out),
            None => end_with(stage, self.own.allocator(), End::Trapped(Trap::MemoryFault)),
        }
        Ok(())
    }

    /// Ends the call with an output, and its writes are dropped; traps MemoryFault unless each byte of the
    /// output may be read.
    #[tactic(auto, unfolding(crate::specs::Step::storage_call_result))]
    fn revert_output(&mut self, stage: &mut Stage) -> Result<(), AllocError>
        requires length { length_of call.Revert self.old.regs ≤ 256 }
        requires running { stage.old ≡ Running }
        ensures { MeetsStage result stage.new (storage_call_result self.old (request_by call.Revert self.old.regs self.old.memory)) self.old self.new }
    {
        match self.output()? {
            Some(out) => *stage = Stage::Ended(End::Reverted, out),
            None => end_with(stage, self.own.allocator(), End::Trapped(Trap::MemoryFault)),
        }
        Ok(())
    }

    /// The output of a RETURN or a REVERT, or None if a byte of it may not be read. Refused if memory ran out; an output of at
    /// most 16 bytes takes no memory.
    fn output(&self) -> Result<Option<StoredOutput>, AllocError>
        requires { a1 self.now.regs ≤ 256 }
        ensures { MeetsOutput result self.now }
    {
        if self.regs.get(Reg::a1()) <= IN_PLACE_LIMIT as u32 {
            return self.output_within::<IN_PLACE_LIMIT>();
        }
        self.long_output()
    }

    /// The same, out of line: a frame with room for the longest output is expensive to clear.
    #[inline(never)]
    fn long_output(&self) -> Result<Option<StoredOutput>, AllocError>
        requires { a1 self.now.regs ≤ 256 }
        ensures { MeetsOutput result self.now }
    {
        self.output_within::<OUTPUT_LIMIT>()
    }

    /// The same, by way of an array of this length.
    #[inline(always)]
    fn output_within<const LIMIT: usize>(&self) -> Result<Option<StoredOutput>, AllocError>
        requires fits { a1 self.now.regs ≤ LIMIT }
        requires short { LIMIT ≤ 256 }
        ensures { MeetsOutput result self.now }
    {
        let (at, len) = (self.regs.get(Reg::a0()), self.regs.get(Reg::a1()));
        match bytes_at::<LIMIT>(&self.memory, at, len) {
            Some(bytes) => Ok(Some(StoredOutput::of(
                self.own.allocator(),
                LentValue::of(bytes.bytes()),
            )?)),
            None => Ok(None),
        }
    }

    /// Delivers the answer to a READ: sets a0, and charges and copies a value that fits into the buffer.
    #[tactic(auto, unfolding(crate::specs::Step::delivery_result))]
    fn deliver(&mut self, content: Option<LentValue>, stage: &mut Stage) -> Result<(), AllocError>
        requires { stage.old ≡ Running }
        ensures { MeetsStage result stage.new (Leads (delivery_result self.old (lent_content content.entry))) self.old self.new }
    {
        let Some(value) = content else {
            self.end_read(ABSENT);
            return Ok(());
        };
        if value.bytes().len() > self.regs.get(Reg::a2()) as usize {
            self.end_read(TOO_LONG);
            return Ok(());
        }
        self.deliver_charged(value, stage)
    }

    /// Charges the bytes of a value and copies it. If less gas is left, the call ends out of gas and nothing is copied. Refused
    /// if memory ran out, and then nothing changes.
    fn deliver_charged(&mut self, value: LentValue, stage: &mut Stage) -> Result<(), AllocError>
        requires { stage.old ≡ Running }
        ensures { let bytes = value.entry.bytes.now in MeetsStage result stage.new (Leads (charged (late_charge self.old.rules (length bytes)) self.old (λ t. value_result t bytes))) self.old self.new }
    {
        let gas = self.gas;
        let cost = late_charge(self.rules, value.bytes().len() as u32);
        if !self.gas.charge(cost) {
            end_with(stage, self.own.allocator(), self.run_out());
            return Ok(());
        }
        match self.copy_value(value, stage) {
            Ok(()) => Ok(()),
            Err(refused) => {
                self.gas = gas;
                Err(refused)
            }
        }
    }

    /// Copies a value into the buffer of a READ. Refused if memory ran out, and then nothing changes.
    fn copy_value(&mut self, value: LentValue, stage: &mut Stage) -> Result<(), AllocError>
        requires { stage.old ≡ Running }
        ensures { MeetsStage result stage.new (Leads (value_result self.old value.entry.bytes.now)) self.old self.new }
    {
        let bytes = value.bytes();
        match self.memory.copy_in(self.regs.get(Reg::a1()), bytes) {
            Ok(()) => self.end_read(bytes.len() as u32),
            Err(fault) => end_with(stage, self.own.allocator(), refusal(fault)?),
        }
        Ok(())
    }

    /// Sets a0 at the end of a READ, and moves the pc to the next instruction.
    fn end_read(&mut self, number: u32)
        ensures { next_instruction (record self.old { regs = written self.old.regs 10 number }) ≡ Going self.new }
    {
        self.regs.set(Reg::a0(), number);
        self.advance_pc();
    }
}

/// A call's own change of a key after it adds an amount: a value of eight bytes if the call has written or removed the key,
/// otherwise a sum.
fn change_after_add(own: Option<&Change<StoredValue>>, amount: u64) -> Change<Value>
    ensures { result ≡ change_after_add (option_copied own.entry) amount }
{
    match own {
        None => Change::Sum(amount),
        Some(Change::Sum(sum)) => Change::Sum(wrapping_sum(*sum, amount)),
        Some(Change::Value(value)) => Change::Value(add(Some(value.lend()), amount)),
        Some(Change::Gone) => Change::Value(add(None, amount)),
    }
}
