//! The effect of an instruction that does not use memory.

ghost use Rattle.std.specs.Prelude.{◌≡◌, pos, ◌+ℤ◌, IsTrue, IfSome, IfNone};
ghost use Rattle.rv_alu.specs.Effects.{effect_of, is_plain, with_register, onward, jumped};
ghost use Rattle.rv_alu.specs.Computations.{is_computation};

use crate::accesses::address;
use crate::branches::holds;
use crate::immediates::{compute_immediate, compute_shift};
use crate::operations::compute;
use rv_isa::{Instr, Reg, Regs};

/// Executes `instr`, which is at `pc`, and gives the pc after it. `instr` is not a load, a store,
/// ECALL or EBREAK. None if it is a jump or a taken branch to an address that is not a multiple of 4,
/// an instruction-address-misaligned exception; then nothing changes.
#[inline(always)]
pub fn execute(instr: &Instr, registers: &mut Regs, pc: u32) -> Option<u32>
    requires { IsTrue (is_plain instr.now) }
    ensures done { IfSome result (λ next. effect_of instr.now registers.old pc ≡ Some (registers.new, next)) }
    ensures misaligned { IfNone result (effect_of instr.now registers.old pc ≡ None) }
    ensures unchanged { IfNone result (registers.new ≡ registers.old) }
{
    match *instr {
        Instr::Jal { rd, offset } => {
            let target = pc.wrapping_add_signed(offset.value);
            jump(registers, rd, pc, target)
        }
        Instr::Jalr { rd, base, offset } => {
            let target = address(registers.get(base), offset) & !1;
            jump(registers, rd, pc, target)
        }
        Instr::Branch {
            condition,
            left,
            right,
            offset,
        } => {
            if holds(condition, registers.get(left), registers.get(right)) {
                let target = pc.wrapping_add_signed(offset.value);
                if target % 4 == 0 { Some(target) } else { None }
            } else {
                Some(pc.wrapping_add(4))
            }
        }
        _ => {
            write_value(instr, registers, pc);
            Some(pc.wrapping_add(4))
        }
    }
}

/// Jumps from `pc` to `target` and writes pc + 4 to `rd`. None if `target` is not a multiple of 4;
/// then nothing changes.
#[inline(always)]
fn jump(registers: &mut Regs, rd: Reg, pc: u32, target: u32) -> Option<u32>
    ensures done { let linked = with_register registers.old rd (pos pc +ℤ pos 4) in
        IfSome result (λ next. jumped linked target ≡ Some (registers.new, next)) }
    ensures misaligned { let linked = with_register registers.old rd (pos pc +ℤ pos 4) in
        IfNone result (jumped linked target ≡ None) }
    ensures unchanged { IfNone result (registers.new ≡ registers.old) }
{
    if target % 4 != 0 {
        return None;
    }
    registers.set(rd, pc.wrapping_add(4));
    Some(target)
}

/// Writes to rd what `instr`, which is at `pc`, computes. A FENCE writes nothing. After `instr` the
/// program goes on with the next instruction.
#[inline(always)]
fn write_value(instr: &Instr, registers: &mut Regs, pc: u32)
    requires { IsTrue (is_computation instr.now) }
    ensures { effect_of instr.now registers.old pc ≡ onward registers.new pc }
{
    let (rd, value) = match *instr {
        Instr::Lui { rd, immediate } => (rd, immediate.value << 12),
        Instr::Auipc { rd, immediate } => (rd, pc.wrapping_add(immediate.value << 12)),
        Instr::ComputeImmediate {
            operation,
            rd,
            source,
            immediate,
        } => (
            rd,
            compute_immediate(operation, registers.get(source), immediate),
        ),
        Instr::ShiftImmediate {
            shift,
            rd,
            source,
            amount,
        } => (rd, compute_shift(shift, registers.get(source), amount)),
        Instr::Compute {
            operation,
            rd,
            left,
            right,
        } => (
            rd,
            compute(operation, registers.get(left), registers.get(right)),
        ),
        Instr::Fence { .. } => return,
        _ => unreachable!(),
    };
    registers.set(rd, value);
}
