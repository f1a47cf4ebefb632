//! How far a run is.

ghost use Rattle.std.specs.Prelude.{◌≡◌, []};
ghost use Rattle.rv_step.specs.Meets.{is_asked};
ghost use Rattle.rv_step.specs.Over.{is_ended};
ghost use Rattle.rv_step.specs.declared.stage.Stage.TheVariants.{Ended};

use rv_ledger::{End, Key, StoredOutput};
use std::alloc::Global;

/// How far a run is.
#[derive(Drop)]
pub enum Stage {
    /// It can make a step.
    Running,
    /// It waits for the storage's answer to a key.
    Asked(Key),
    /// Its call has ended, with an output.
    Ended(End, StoredOutput),
}

/// Whether a run waits for the storage's answer.
pub(crate) fn is_asked(stage: &Stage) -> bool
    ensures { result ≡ is_asked stage.now }
{
    matches!(stage, Stage::Asked(_))
}

/// Whether the call has ended.
pub(crate) fn is_ended(stage: &Stage) -> bool
    ensures { result ≡ is_ended stage.now }
{
    matches!(stage, Stage::Ended(_, _))
}

/// Sets the stage of a call that ends without an output. It is kept out of the loop over instructions,
/// since a function's frame is cleared at each entry.
#[inline(never)]
pub(crate) fn end_with(stage: &mut Stage, alloc: Global, end: End)
    ensures { stage.new ≡ Ended end [] }
{
    *stage = Stage::Ended(end, StoredOutput::empty(alloc));
}
