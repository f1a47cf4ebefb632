//! The run of one call over a storage, without a list of the storage's answers.

ghost use Rattle.std.specs.Prelude.{◌≡◌, ◌<◌, IfOk, OnOk, false};
ghost use Rattle.rv_mem.specs.Code.{HasCode};
ghost use Rattle.rv_ledger.specs.Call.{Invocation};
ghost use Rattle.rv_step.specs.Chain.{ends};
ghost use Rattle.rv_step.specs.Over.{IsBeginningOver, is_ended};
ghost use Rattle.rv_step.specs.Run.{left_for};

use crate::machine::Machine;
use crate::run::{receipt, run_until_stop};
use crate::spare_machine::SpareMachine;
use crate::stage::{Stage, is_ended};
use elf32::BasePages;
use rv_ledger::{Call, Contents, LentValue, Receipt};
use std::alloc::{AllocError, Global};

/// The receipt of a call that is run over a storage. It takes no room for the storage's answers. The call's machine begins in
/// the place of an earlier call's, and leaves it to the next. Refused if memory ran out.
pub fn receipt_over<S: Contents>(
    alloc: Global,
    spare: &mut SpareMachine,
    call: &Call,
    store: &S,
) -> Result<Receipt, AllocError>
    ensures { IfOk result (λ r. r ≡ ends call.now (S.storage store.now)) }
{
    let mut machine = spare.start(alloc, call)?;
    let program: &BasePages = call.image().base();
    let mut stage = Stage::Running;
    while !is_ended(&stage) {
        go_on_over(&mut machine, program, &mut stage, store)?;
    }
    match stage {
        Stage::Ended(end, out) => {
            let receipt = receipt(call.gas(), end, out, &mut machine);
            spare.keep(machine);
            Ok(receipt)
        }
        _ => unreachable!(),
    }
}

/// Continues a call that has not ended. If the call asks for a key, it gets what the storage has there; otherwise it makes
/// steps up to the next ECALL or the end. Refused if memory ran out. `program` has the pages of the call's program.
fn go_on_over<S: Contents>(
    machine: &mut Machine,
    program: &BasePages,
    stage: &mut Stage,
    store: &S,
) -> Result<(), AllocError>
    requires going { is_ended stage.old ≡ false }
    requires code { HasCode machine.old.memory program.now }
    ensures over { OnOk result ((call : Invocation) → IsBeginningOver call (S.storage store.now) machine.old stage.old → IsBeginningOver call (S.storage store.now) machine.new stage.new) }
    ensures fewer { OnOk result (left_for machine.new.gas stage.new < left_for machine.old.gas stage.old) }
{
    match stage {
        Stage::Running => run_until_stop(machine, program, stage),
        Stage::Asked(key) => {
            let key = *key;
            let content = LentValue::of_stored(store.get(&key));
            *stage = Stage::Running;
            machine.answer(&key, content, stage)
        }
        Stage::Ended(_, _) => unreachable!(),
    }
}
