//! What runs the calls of a frame.

ghost use Rattle.std.specs.Prelude.{◌≡◌, ⊤, IfOk, OnOk};
ghost use Rattle.overlay.specs.Overlay.{with_changes};
ghost use Rattle.rv_step.specs.Fold.{receipts_of, store_after};

use overlay::Overlay;
use rv_ledger::{Call, Receipt, Store};
use seq_exec::run_over;
use std::alloc::{AllocError, Global};

/// What runs the calls of a frame. However it runs them, the result is the same as in order.
pub trait CallRunner {
    /// What it needs of the types in it, for example that threads may share a handle.
    ghost ready: { Type 0 };

    /// Runs calls on a storage with changes over it, each on what the ones before it left, and adds theirs to the changes.
    /// Refused if memory ran out, and then some of theirs may be added.
    fn run_calls(
        &mut self,
        alloc: Global,
        base: &Store,
        over: &mut Overlay,
        calls: &[Call],
    ) -> Result<Vec<Receipt>, AllocError>
        requires { ready }
        ensures receipts { IfOk result (λ r. r.items ≡ receipts_of calls.now (with_changes base.now over.old)) }
        ensures store { OnOk result (with_changes base.now over.new ≡ store_after calls.now (with_changes base.now over.old)) };
}

/// Runs calls one after another.
#[derive(Clone, Copy, Debug)]
pub struct InOrder;

impl CallRunner for InOrder {
    ghost ready = { ⊤ };

    fn run_calls(
        &mut self,
        alloc: Global,
        base: &Store,
        over: &mut Overlay,
        calls: &[Call],
    ) -> Result<Vec<Receipt>, AllocError> {
        run_over(alloc, base, over, calls)
    }
}
