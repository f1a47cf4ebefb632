//! The machine that one call leaves to the next.

ghost use Rattle.std.specs.Prelude.{◌≡◌, IfOk};
ghost use Rattle.rv_step.specs.Moment.{start};

use crate::machine::Machine;
use rv_ledger::Call;
use std::alloc::{AllocError, Global};

/// The machine of an earlier call, in whose place the next one begins, so that the allocator and the copying have less
/// to do.
#[derive(Drop)]
pub struct SpareMachine {
    machine: Option<Box<Machine>>,
}

impl SpareMachine {
    /// No machine yet. Takes no memory.
    pub fn new() -> SpareMachine {
        SpareMachine { machine: None }
    }

    /// The machine of a call before its first instruction, in the place of the machine that is here; refused if memory ran out.
    pub(crate) fn start(&mut self, alloc: Global, call: &Call) -> Result<Box<Machine>, AllocError>
        ensures { IfOk result (λ m. m.value ≡ start call.now) }
    {
        match self.machine.take() {
            Some(mut machine) => {
                machine.begin(call)?;
                Ok(machine)
            }
            None => Ok(Box::new(alloc, Machine::start(alloc, call)?)?),
        }
    }

    /// Keeps a machine that nobody needs any more.
    pub(crate) fn keep(&mut self, machine: Box<Machine>) {
        self.machine = Some(machine);
    }
}
