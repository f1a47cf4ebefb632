//! What the scheduler does to a call, and to all calls.

ghost use Rattle.std.specs.Prelude.{◌≡◌, ◌≤◌, ◌<◌, ◌+◌, ℕ, [], Some, None, IfOk, false, true, if◌then◌else◌, length, map, min, get_or, replicate, vec_items};
ghost use Rattle.stm_state.specs.State.{fresh, is_executed, is_ready};
ghost use Rattle.stm_state.specs.Steps.{has_new_key, is_executed_at, is_parked_on, least_parked_call, next_incarnation, resume_if_parked, recorded_reads, written_by, wrote};
ghost use Rattle.stm_state.specs.declared.state.Status.TheVariants as status;
ghost use Rattle.scheduler.specs.declared.worker.TaskKind.TheVariants as task_kind;

use crate::worker::TaskKind;
use rv_ledger::{CALL_LIMIT, Key, Writes};
use std::alloc::{AllocError, Global};
use stm_state::{CallState, Recorded, Status};

/// The last incarnation at which a run is recorded.
pub(crate) const LAST_INCARNATION: u16 = 65_534;

/// The incarnation at which no run is recorded, and from which a call is not readied again.
pub const INCARNATION_LIMIT: u16 = 65_535;

/// `count` calls as they are at the start: READY at incarnation 0. Refused if memory ran out.
pub(crate) fn fresh_calls(alloc: Global, count: usize) -> Result<Vec<CallState>, AllocError>
    ensures { IfOk result (λ calls. calls.items ≡ replicate count fresh) }
{
    let mut calls = Vec::with_capacity(alloc, count)?;
    while calls.len() < count {
        calls.push(CallState {
            status: Status::Ready,
            incarnation: 0,
            parked: None,
            last: None,
        })?;
    }
    Ok(calls)
}

/// A flag for each of `count` calls, which says that no call is parked on it. Refused if memory ran out.
pub(crate) fn none_awaited(alloc: Global, count: usize) -> Result<Vec<bool>, AllocError>
    ensures { IfOk result (λ awaited. awaited.items ≡ replicate count false) }
{
    let mut awaited = Vec::with_capacity(alloc, count)?;
    for _ in 0..count {
        awaited.push(false)?;
    }
    Ok(awaited)
}

/// Readies a call: it is READY at the next incarnation, and not parked.
pub(crate) fn make_ready(call: &mut CallState)
    requires { call.old.incarnation < INCARNATION_LIMIT }
    ensures { call.new ≡ next_incarnation call.old }
{
    call.status = Status::Ready;
    call.incarnation += 1;
    call.parked = None;
}

/// Readies all calls that are parked on the call `on`, and lowers an execution index to the least of
/// them. Returns whether any call still names `on` as the one that it is parked on.
pub(crate) fn resume_parked(calls: &mut Vec<CallState>, on: u16, execution: &mut u16) -> bool
    requires count { length calls.old.items ≤ CALL_LIMIT }
    requires incarnations { (i : ℕ) → (get_or calls.old.items i fresh).status ≡ status.Aborting → (get_or calls.old.items i fresh).incarnation ≤ LAST_INCARNATION }
    ensures calls { calls.new.items ≡ map (resume_if_parked on) calls.old.items }
    ensures execution { execution.new ≡ least_parked_call on execution.old 0 calls.old.items }
    ensures named { (i : ℕ) → (get_or calls.new.items i fresh).parked ≡ Some on → result ≡ true }
{
    let mut named = false;
    let mut number = 0;
    for index in 0..calls.len() {
        let call = &mut calls[index];
        resume_if_parked(call, number, on, execution);
        named |= is_named(call, on);
        number += 1;
    }
    named
}

/// Readies the call of index `number` if it is parked on the call `on`, and then lowers an execution index
/// to it.
fn resume_if_parked(call: &mut CallState, number: u16, on: u16, execution: &mut u16)
    requires { call.old.status ≡ status.Aborting → call.old.incarnation ≤ LAST_INCARNATION }
    ensures call { call.new ≡ resume_if_parked on call.old }
    ensures execution { execution.new ≡ (if is_parked_on on call.old then min execution.old number else execution.old) }
{
    if is_parked_on(call, on) {
        make_ready(call);
        *execution = (*execution).min(number);
    }
}

/// Whether a call names the call `on` as the one that it is parked on, be it ABORTING or not.
fn is_named(call: &CallState, on: u16) -> bool
    ensures { call.now.parked ≡ Some on → result ≡ true }
{
    call.parked == Some(on)
}

/// Whether a call is ABORTING and parked on the call `on`.
fn is_parked_on(call: &CallState, on: u16) -> bool
    ensures { result ≡ is_parked_on on call.now }
{
    call.status == Status::Aborting && call.parked == Some(on)
}

/// Whether a call is READY.
pub(crate) fn is_ready(call: &CallState) -> bool
    ensures { result ≡ is_ready call.now.status }
{
    call.status == Status::Ready
}

/// Whether a call is EXECUTED.
pub(crate) fn is_executed(call: &CallState) -> bool
    ensures { result ≡ is_executed call.now.status }
{
    call.status == Status::Executed
}

/// Whether a call is EXECUTED at an incarnation.
pub(crate) fn is_executed_at(call: &CallState, incarnation: u16) -> bool
    ensures { result ≡ is_executed_at incarnation call.now }
{
    is_executed(call) && call.incarnation == incarnation
}

/// The task to check all reads of a call's last run.
pub(crate) fn validation_of(call: &CallState, index: u16) -> TaskKind
    ensures { result ≡ task_kind.Validating index call.now.incarnation (length (recorded_reads call.now.last)) false }
{
    TaskKind::Validating {
        call: index,
        incarnation: call.incarnation,
        left: reads(&call.last),
        failed: false,
    }
}

/// The number of reads of a run; 0 if there is no run.
fn reads(last: &Option<Recorded>) -> usize
    ensures { result ≡ length (recorded_reads last.now) }
{
    match last {
        Some(run) => run.reads.reads().len(),
        None => 0,
    }
}

/// Whether some of the written keys is one that the last recorded run did not write.
pub(crate) fn has_new_key(last: &Option<Recorded>, writes: &Writes) -> bool
    ensures { result ≡ has_new_key last.now writes.now }
{
    for (key, _) in writes.as_slice() {
        if !wrote(last, key) {
            return true;
        }
    }
    false
}

/// Whether a run wrote a key; false if there is no run.
fn wrote(last: &Option<Recorded>, key: &Key) -> bool
    ensures { result ≡ wrote last.now key.now }
{
    match last {
        Some(run) => run.receipt.writes.get(key).is_some(),
        None => false,
    }
}
