//! The gas that each instruction costs.

ghost use Rattle.std.specs.Prelude.{◌≡◌};
ghost use Rattle.gas.specs.Costs.{cost_of, cost_of_operation};

use rv_isa::{Instr, Operation};

/// The gas that `instr` costs. ECALL costs 0 here: the storage call that it makes has a charge of its own.
#[inline(always)]
pub fn cost(instr: &Instr) -> u32
    ensures { result ≡ cost_of instr.now }
{
    match instr {
        Instr::Compute { operation, .. } => operation_cost(*operation),
        Instr::Load { .. } | Instr::Store { .. } => 2,
        Instr::Ecall => 0,
        _ => 1,
    }
}

/// The gas that an operation on two registers costs.
#[inline(always)]
fn operation_cost(operation: Operation) -> u32
    ensures { result ≡ cost_of_operation operation }
{
    match operation {
        Operation::Div | Operation::Divu | Operation::Rem | Operation::Remu => 16,
        Operation::Mul | Operation::Mulh | Operation::Mulhsu | Operation::Mulhu => 4,
        _ => 1,
    }
}
