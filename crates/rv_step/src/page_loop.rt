//! The loop over the instructions of one page of code. It keeps the pc and the gas in locals, and makes the steps that are
//! frequent. Rare cases leave the loop: an ECALL, a trap, the end of the gas, memory that ran out.

ghost use Rattle.std.specs.Prelude.{◌≡◌, ◌≤◌, ◌<◌, ◌+◌, ◌-◌, ◌*◌, ◌%◌, ◌^◌, ℕ, IsTrue, Some};
ghost use Rattle.rv_alu.specs.Effects.{is_plain};
ghost use Rattle.rv_isa.specs.declared.instruction.Instr.TheVariants.{Load, Store, Ecall};
ghost use Rattle.rv_mem.specs.Code.{HasCode, IsCode, page_of};
ghost use Rattle.rv_step.specs.Growth.{instruction_at};
ghost use Rattle.rv_step.specs.Meets.{MeetsInstructions, Reaches};
ghost use Rattle.rv_step.specs.PageSteps.{MeetsPageEnd, MeetsTry, machine_at};
ghost use Rattle.std.specs.Bool.{OnTrue};

use crate::accesses::{number_at, store_number};
use crate::fields::ECALL;
use crate::machine::Machine;
use crate::outcome::InstructionOutcome;
use elf32::extent::PAGE_SIZE;
use elf32::{BasePages, Page};
use gas::{Meter, cost};
use rv_alu::{address, execute, extended};
use rv_isa::{Immediate, Instr, LoadKind, Reg, StoreKind};
use rv_mem::{code_page, word_in};
use std::alloc::AllocError;

/// The number of bytes of a page.
pub(crate) const PAGE: u64 = PAGE_SIZE as u64;

/// The position of a machine in a page of code, and the gas that it has left there.
#[derive(Clone, Copy)]
pub struct Position {
    /// The distance of the pc from the first address of the page, modulo 2^32. It has 64 bits, since otherwise the compiler
    /// widens it at each fetch.
    pub offset: u64,
    /// The gas that is left.
    pub gas: u32,
}

/// How the loop over a page ends.
#[derive(Clone, Copy)]
pub enum PageEnd {
    /// The machine has made a step, and is in another page.
    Left,
    /// The machine is at an ECALL.
    Ecall,
    /// The machine is at an instruction that this loop does not execute.
    Stopped,
}

/// The type of the loop up to the end of a page, by which a step says for which loop it is.
pub(crate) struct ToEnd;

/// The type of the loop up to a pc or a number of steps (page_walk.rt), for the same use.
pub(crate) struct ToStop;

impl Position {
    /// The pc, in the page of this first address.
    #[inline(always)]
    pub(crate) fn pc(&self, first: u32) -> u32
        ensures { result ≡ (first + self.now.offset) % 2 ^ 32 }
    {
        first.wrapping_add((self.offset & 0xffff_ffff) as u32)
    }
}

impl Machine {
    /// Makes the step of an instruction that changes only registers and the pc. Returns false if its target is misaligned or
    /// less gas is left than it costs; then nothing changes.
    #[inline(always)]
    pub(crate) fn try_plain(&mut self, instr: &Instr, first: u32, position: &mut Position) -> bool
        requires { IsTrue (is_plain instr.now) }
        ensures { MeetsTry result (Some instr.now) (machine_at self.old first position.old) (machine_at self.new first position.new) }
    {
        let cost = cost(instr);
        if position.gas < cost {
            return false;
        }
        match execute(instr, &mut self.regs, position.pc(first)) {
            Some(next) => {
                position.gas -= cost;
                position.offset = u64::from(next.wrapping_sub(first));
                true
            }
            None => false,
        }
    }

    /// Makes the step of a load. Returns false if memory refuses it or less gas is left than it costs; then nothing changes.
    #[inline(always)]
    pub(crate) fn try_load(
        &mut self,
        kind: LoadKind,
        rd: Reg,
        base: Reg,
        offset: Immediate,
        first: u32,
        position: &mut Position,
    ) -> bool
        ensures { MeetsTry result (Some (Load kind rd base offset)) (machine_at self.old first position.old) (machine_at self.new first position.new) }
    {
        let cost = cost(&Instr::Load {
            kind,
            rd,
            base,
            offset,
        });
        if position.gas < cost {
            return false;
        }
        match number_at(&self.memory, kind, address(self.regs.get(base), offset)) {
            Ok(number) => {
                self.regs.set(rd, extended(kind, number));
                position.gas -= cost;
                position.offset = position.offset.wrapping_add(4);
                true
            }
            Err(_) => false,
        }
    }

    /// Makes the step of a store. Returns false if memory refuses it or runs out, or less gas is left than it costs; then
    /// nothing changes.
    #[inline(always)]
    pub(crate) fn try_store(
        &mut self,
        kind: StoreKind,
        source: Reg,
        base: Reg,
        offset: Immediate,
        first: u32,
        position: &mut Position,
    ) -> bool
        ensures { MeetsTry result (Some (Store kind source base offset)) (machine_at self.old first position.old) (machine_at self.new first position.new) }
    {
        let cost = cost(&Instr::Store {
            kind,
            source,
            base,
            offset,
        });
        if position.gas < cost {
            return false;
        }
        let address = address(self.regs.get(base), offset);
        let value = self.regs.get(source);
        match store_number(&mut self.memory, kind, address, value) {
            Ok(()) => {
                position.gas -= cost;
                position.offset = position.offset.wrapping_add(4);
                true
            }
            Err(_) => false,
        }
    }
}

impl Machine {
    /// Makes steps in the page of the pc, a page of code, up to the first that leaves the page or that this loop does not make.
    /// It is a function of its own, since its loop runs faster without the calls of the machine's other loop.
    #[inline(never)]
    fn execute_in_page(&mut self, code: &Page, first: u32) -> PageEnd
        requires code { IsCode self.old.memory first code.now }
        requires even { self.old.pc % 4 ≡ 0 }
        requires page { first ≡ page_of self.old.pc }
        ensures reached { (n : ℕ) × Reaches n self.old self.new }
        ensures end { MeetsPageEnd result self.old self.new }
    {
        let mut position = Position {
            offset: u64::from(self.pc.wrapping_sub(first)),
            gas: self.gas.left(),
        };
        while position.offset < PAGE {
            let word = word_in(code, position.offset as usize);
            if !self.step_word::<ToEnd>(word, first, &mut position) {
                self.stand_at(first, position);
                return if word == ECALL {
                    PageEnd::Ecall
                } else {
                    PageEnd::Stopped
                };
            }
        }
        self.stand_at(first, position);
        PageEnd::Left
    }

    /// Sets the pc and the gas of the machine from a position in the page of this first address.
    #[inline(always)]
    pub(crate) fn stand_at(&mut self, first: u32, position: Position)
        ensures { self.new ≡ machine_at self.old first position }
    {
        self.pc = position.pc(first);
        self.gas = Meter::new(position.gas);
    }

    /// Makes steps in the pages of code of the program, from page to page, up to the first that is not made there. Returns true
    /// only if the machine is at an ECALL then.
    fn execute_in_code(&mut self, program: &BasePages) -> bool
        requires { HasCode self.old.memory program.now }
        ensures reached { (n : ℕ) × Reaches n self.old self.new }
        ensures ecall { OnTrue result (instruction_at self.new ≡ Some Ecall) }
    {
        while self.pc % 4 == 0 {
            let pc = self.pc;
            let Some(page) = code_page(program, pc) else {
                return false;
            };
            match self.execute_in_page(page, pc - pc % PAGE as u32) {
                PageEnd::Left => {}
                PageEnd::Ecall => return true,
                PageEnd::Stopped => return false,
            }
        }
        false
    }

    /// Makes steps in the pages of code of the program, and then one more unless they stopped at an ECALL. Refused if memory
    /// ran out; then the machine is before the instruction that needed memory.
    pub(crate) fn execute_next(
        &mut self,
        program: &BasePages,
    ) -> Result<InstructionOutcome, AllocError>
        requires { HasCode self.old.memory program.now }
        ensures { MeetsInstructions result self.old self.new }
    {
        if self.execute_in_code(program) {
            return Ok(InstructionOutcome::StorageCall);
        }
        self.execute_instruction()
    }
}
