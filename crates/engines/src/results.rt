//! How the result of a run is written.

ghost use Rattle.std.specs.Prelude.{◌≡◌, IfErr, IfOk, OnOk, length};
ghost use Rattle.std.specs.Io.KnownBytes.{Appends};
ghost use Rattle.receipts.specs.Text.{result_text};
ghost use Rattle.engines.specs.Engine.{IsOutputFault};

use crate::counts::RunCounts;
use crate::fault::Refusal;
use byte_streams::Destination;
use receipts::write_result;
use rv_ledger::{Outcome, Receipt, Store};
use std::alloc::Global;

/// Writes the result of a run, and returns what its workers did.
pub(crate) fn write_counted<W: Destination>(
    alloc: Global,
    outcome: Outcome,
    out: &mut W,
) -> Result<RunCounts, Refusal>
    ensures written { OnOk result (Appends (W.contents out.old) (W.contents out.new)
        (result_text outcome.receipts.items outcome.store)) }
    ensures refused { IfErr result (λ e. IsOutputFault (W.may_refuse out.old) (result_text outcome.receipts.items outcome.store)
        (W.contents out.old) (W.contents out.new) e) }
    ensures calls { IfOk result (λ counts. counts.calls ≡ length outcome.job.block) }
    ensures workers { IfOk result (λ counts. counts.workers.items ≡ outcome.counts.items) }
{
    match write_run(alloc, outcome.receipts.as_slice(), &outcome.store, out) {
        Ok(()) => Ok(counts_of(outcome)),
        Err(refusal) => Err(refusal),
    }
}

/// What the workers of a run did.
fn counts_of(outcome: Outcome) -> RunCounts
    ensures calls { result.calls ≡ length outcome.job.block }
    ensures workers { result.workers.items ≡ outcome.counts.items }
{
    let Outcome { job, counts, .. } = outcome;
    RunCounts {
        calls: job.block.calls().len(),
        workers: counts,
    }
}

/// Writes the result of a run: what each call did, and the storage after the last one.
pub(crate) fn write_run<W: Destination>(
    alloc: Global,
    receipts: &[Receipt],
    store: &Store,
    out: &mut W,
) -> Result<(), Refusal>
    ensures written { OnOk result (Appends (W.contents out.old) (W.contents out.new)
        (result_text receipts.now store.now)) }
    ensures refused { IfErr result (λ e. IsOutputFault (W.may_refuse out.old) (result_text receipts.now store.now)
        (W.contents out.old) (W.contents out.new) e) }
{
    match write_result(alloc, receipts, store, out) {
        Ok(()) => Ok(()),
        Err(fault) => Err(Refusal::Output(fault)),
    }
}
