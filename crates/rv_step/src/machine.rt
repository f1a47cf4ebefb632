//! The machine of one call, and one step of it.

ghost use Rattle.std.specs.Prelude.{◌≡◌, ◌<◌, ◌≤◌, ◌*◌, ◌%◌, ◌^◌, if◌then◌else◌, [], false, IfOk, IsTrue, None, Ok, OnOk, length};
ghost use Rattle.rv_alu.specs.Accesses.{store_width, width_of};
ghost use Rattle.rv_alu.specs.Effects.{effect_of, register_value, is_plain};
ghost use Rattle.rv_ledger.specs.declared.end.End.TheVariants.{OutOfGas, Trapped};
ghost use Rattle.rv_isa.specs.Decoded.{decoded};
ghost use Rattle.rv_isa.specs.declared.instruction.Instr.TheVariants.{Load, Store};
ghost use Rattle.rv_mem.specs.Code.{HasCode};
ghost use Rattle.rv_mem.specs.Space.{LeavesMemory, as_answer, loaded, stored};
ghost use Rattle.rv_mem.specs.declared.access.Access.TheVariants as access;
ghost use Rattle.rv_step.specs.Moment.{start_registers};

use crate::accesses::{number_at, store_number};
use crate::faults::{refusal, trap_of};
use crate::outcome::{InstructionOutcome, is_ecall};
use ecalls::Trap;
use elf32::BasePages;
use elf32::extent::{END_ADDRESS, INPUT_ADDRESS};
use gas::{Meter, cost};
use rv_alu::{address, execute, extended};
use rv_isa::{Immediate, Instr, LoadKind, Reg, Regs, StoreKind, decode};
use rv_ledger::{Call, End, Rules, Writes};
use rv_mem::Memory;
use std::alloc::{AllocError, Global};

/// The machine of one call between two instructions. The fields that each instruction needs come first: its code is shorter
/// then.
#[derive(Drop)]
pub struct Machine {
    /// The address of the next instruction.
    pub pc: u32,
    /// The gas that it has left.
    pub gas: Meter,
    /// The memory.
    pub memory: Memory,
    /// The registers.
    pub regs: Regs,
    /// What the call has written.
    pub own: Writes,
    /// The rules of the call.
    pub rules: Rules,
}

impl Machine {
    ghost use Rattle.rv_step.specs.Step.{Going, Leads, instruction_result, address_of, compute_result, next_instruction, is_ecall, memory_result, decode_result, step, load_result};
    ghost use Rattle.rv_step.specs.Moment.{start};
    ghost use Rattle.rv_step.specs.Growth.{instruction_at};
    ghost use Rattle.rv_step.specs.Meets.{MeetsEffect, MeetsInstruction, MeetsInstructions, is_next};

    /// The machine of a call before its first instruction; refused if memory ran out.
    #[tactic(auto, unfolding(crate::specs::Moment::start))]
    pub(crate) fn start(alloc: Global, call: &Call) -> Result<Machine, AllocError>
        ensures { IfOk result (λ s. s ≡ start call.now) }
    {
        Ok(Machine {
            pc: call.image().entry(),
            gas: Meter::new(call.gas()),
            memory: Memory::of(alloc, call.image(), call.input())?,
            regs: start_registers(call),
            own: Writes::new(alloc),
            rules: call.rules(),
        })
    }

    /// Makes it the machine of another call before its first instruction, in its own place. Refused if memory ran out; then it
    /// must be dropped or begun again.
    #[tactic(auto, unfolding(crate::specs::Moment::start))]
    pub(crate) fn begin(&mut self, call: &Call) -> Result<(), AllocError>
        ensures { OnOk result (self.new ≡ start call.now) }
    {
        self.memory.begin(call.image(), call.input())?;
        self.pc = call.image().entry();
        self.gas = Meter::new(call.gas());
        self.regs = start_registers(call);
        self.own.clear();
        self.rules = call.rules();
        Ok(())
    }

    /// Executes instructions up to and including the first one after which the machine does not continue. An ECALL is only
    /// found: the machine stops before it. Refused if memory ran out; then the machine is before the instruction that needed
    /// memory. `program` has the pages of the machine's program.
    pub(crate) fn execute_until_stop(
        &mut self,
        program: &BasePages,
    ) -> Result<InstructionOutcome, AllocError>
        requires { HasCode self.old.memory program.now }
        ensures did { MeetsInstructions result self.old self.new }
        ensures last { IfOk result (λ outcome. is_next outcome ≡ false) }
    {
        loop {
            let outcome = match self.execute_next(program) {
                Ok(outcome) => outcome,
                Err(refused) => return Err(refused),
            };
            match outcome {
                InstructionOutcome::Next => {}
                outcome => return Ok(outcome),
            }
        }
    }

    /// Makes one step: fetch, decode, charge, act. An ECALL is only found, and nothing changes. Refused if memory ran out, and
    /// then nothing changes.
    #[tactic(auto, unfolding(crate::specs::Step::step))]
    pub(crate) fn execute_instruction(&mut self) -> Result<InstructionOutcome, AllocError>
        ensures { MeetsInstruction result (instruction_at self.old) (step self.old) self.old self.new }
    {
        match self.memory.fetch(self.pc) {
            Ok(word) => self.execute_decoded(decode(word)),
            Err(fault) => Ok(InstructionOutcome::End(End::Trapped(trap_of(fault)))),
        }
    }

    /// Ends the call out of gas: all the gas that is left is spent.
    pub(crate) fn run_out(&mut self) -> End
        ensures end { result ≡ OutOfGas }
        ensures spent { self.new ≡ record self.old { gas = 0 } }
    {
        self.gas.spend_all();
        End::OutOfGas
    }

    /// Charges an instruction and executes it. The call ends out of gas if less is left than the charge. None stands for an
    /// illegal word, which traps and costs nothing. An ECALL is only found.
    #[inline(always)]
    fn execute_decoded(&mut self, instr: Option<Instr>) -> Result<InstructionOutcome, AllocError>
        ensures { MeetsInstruction result instr (decode_result self.old instr) self.old self.new }
    {
        let Some(instr) = instr else {
            return Ok(InstructionOutcome::End(End::Trapped(Trap::Illegal)));
        };
        if is_ecall(&instr) {
            return Ok(InstructionOutcome::StorageCall);
        }
        let gas = self.gas;
        if !self.gas.charge(cost(&instr)) {
            return Ok(InstructionOutcome::End(self.run_out()));
        }
        match self.execute_charged(&instr) {
            Ok(None) => Ok(InstructionOutcome::Next),
            Ok(Some(end)) => Ok(InstructionOutcome::End(end)),
            Err(refused) => {
                self.gas = gas;
                Err(refused)
            }
        }
    }

    /// Executes an instruction that has been charged and is not an ECALL. Returns None if the machine continues, or how the
    /// call ends.
    #[tactic(auto, unfolding(crate::specs::Step::instruction_result))]
    #[inline(always)]
    fn execute_charged(&mut self, instr: &Instr) -> Result<Option<End>, AllocError>
        requires { is_ecall instr.now ≡ false }
        ensures { MeetsEffect result instr.now (instruction_result instr.now self.old) self.old self.new }
    {
        match *instr {
            Instr::Load {
                kind,
                rd,
                base,
                offset,
            } => Ok(self.load(kind, rd, base, offset)),
            Instr::Store {
                kind,
                source,
                base,
                offset,
            } => self.store(kind, source, base, offset),
            Instr::Ebreak => Ok(Some(End::Trapped(Trap::Breakpoint))),
            _ => Ok(self.compute(instr)),
        }
    }

    /// Executes an instruction that changes only registers and the pc; traps Misaligned if it jumps or branches to an address
    /// that is not aligned.
    #[inline(always)]
    fn compute(&mut self, instr: &Instr) -> Option<End>
        requires { IsTrue (is_plain instr.now) }
        ensures { MeetsEffect (Ok result) instr.now (compute_result self.old (effect_of instr.now self.old.regs self.old.pc)) self.old self.new }
    {
        match execute(instr, &mut self.regs, self.pc) {
            Some(pc) => {
                self.pc = pc;
                None
            }
            None => Some(End::Trapped(Trap::Misaligned)),
        }
    }

    /// Executes a load; a fault of memory traps.
    #[inline(always)]
    fn load(&mut self, kind: LoadKind, rd: Reg, base: Reg, offset: Immediate) -> Option<End>
        ensures { MeetsEffect (Ok result) (Load kind rd base offset) (load_result kind rd self.old (loaded (width_of kind) access.Read self.old.memory (address_of self.old base offset))) self.old self.new }
    {
        let address = address(self.regs.get(base), offset);
        match number_at(&self.memory, kind, address) {
            Ok(number) => {
                self.regs.set(rd, extended(kind, number));
                self.advance_pc();
                None
            }
            Err(fault) => Some(End::Trapped(trap_of(fault))),
        }
    }

    /// Executes a store; a fault of memory traps. Refused if memory ran out, and then nothing changes.
    #[inline(always)]
    fn store(
        &mut self,
        kind: StoreKind,
        source: Reg,
        base: Reg,
        offset: Immediate,
    ) -> Result<Option<End>, AllocError>
        ensures { MeetsEffect result (Store kind source base offset) (memory_result self.old self.old.regs (stored (store_width kind) self.old.memory (address_of self.old base offset) (register_value self.old.regs source))) self.old self.new }
    {
        let address = address(self.regs.get(base), offset);
        let value = self.regs.get(source);
        match store_number(&mut self.memory, kind, address, value) {
            Ok(()) => {
                self.advance_pc();
                Ok(None)
            }
            Err(fault) => Ok(Some(refusal(fault)?)),
        }
    }

    /// Moves the pc to the next instruction.
    #[inline(always)]
    pub(crate) fn advance_pc(&mut self)
        ensures { next_instruction self.old ≡ Going self.new }
    {
        self.pc = self.pc.wrapping_add(4);
    }
}

/// The registers of a call before its first instruction.
fn start_registers(call: &Call) -> Regs
    ensures { result ≡ start_registers (length call.now.input) }
{
    let mut regs = Regs::zero();
    regs.set(Reg::sp(), END_ADDRESS);
    regs.set(Reg::a0(), INPUT_ADDRESS);
    regs.set(Reg::a1(), call.input().len() as u32);
    regs
}
