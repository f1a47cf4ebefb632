//! How a call ends.

ghost use Rattle.std.specs.Prelude.{◌≡◌, ◌<◌, ◌^◌, IfOk};
ghost use Rattle.std.specs.String.{string_bytes};
ghost use Rattle.rv_step.specs.Chain.{ends};
ghost use Rattle.rv_step.specs.Moment.{moment_over};
ghost use Rattle.debugger.specs.More.{ending_line, last_moment, receipt_line};
ghost use Rattle.rv_step.specs.Over.{is_ended};
ghost use Rattle.debugger.specs.ReplayMoment.{HasEnded};

use crate::running::go_run;
use receipts::{bytes_text, end_name};
use rv_ledger::{Call, End, Store};
use rv_step::{Run, Stage};
use std::alloc::{AllocError, Global};

/// The line of how a call ends over a storage. Refused if memory ran out.
pub(crate) fn end_line(alloc: Global, call: &Call, store: &Store) -> Result<String, AllocError>
    ensures { IfOk result (λ t. string_bytes t ≡ receipt_line (ends call.now store.now) (last_moment call.now store.now)) }
{
    let (run, moment) = run_to_end(alloc, call, store)?;
    let gas = call.gas().saturating_sub(run.machine().gas.left());
    match run.stage() {
        Stage::Ended(end, out) => ending_line(alloc, *end, out.bytes(), gas, moment),
        _ => unreachable!(),
    }
}

/// The run of a call over a storage at its last moment, and that moment. Refused if memory ran out.
#[tactic(auto, unfolding(rv_step::specs::Moment::moment_from))]
fn run_to_end(alloc: Global, call: &Call, store: &Store) -> Result<(Run, u64), AllocError>
    ensures { IfOk result (λ at. HasEnded call.now store.now at.0 at.1) }
{
    let _gas = call.gas();
    let mut run = Run::start(alloc, call)?;
    let mut moment = 0;
    while !is_ended(&run) {
        let more = go_run(alloc, &mut run, store, None, u64::MAX)?;
        moment += more;
    }
    Ok((run, moment))
}

/// Whether the call of a run is over.
fn is_ended(run: &Run) -> bool
    ensures { result ≡ is_ended run.now.stage }
{
    matches!(run.stage(), Stage::Ended(_, _))
}

/// The line of an end, its output, the gas that was used, and the last moment. Refused if memory ran out.
fn ending_line(
    alloc: Global,
    end: End,
    out: &[u8],
    gas: u32,
    moment: u64,
) -> Result<String, AllocError>
    ensures { IfOk result (λ t. string_bytes t ≡ ending_line end out.now gas moment) }
{
    let end = end_name(end);
    let out = bytes_text(alloc, out)?;
    format!(in alloc; "ends {end} {out} {gas} {moment}\n")
}
