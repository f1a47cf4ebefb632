//! How a run that is handed in is checked and recorded.

ghost use Rattle.std.specs.Prelude.{◌≡◌, ◌≢◌, ◌<◌, ◌≤◌, ◌+◌, ◌*◌, ◌↔◌, ℕ, List, length, get_or, slice_get, true, Some, None, IfOk, IfErr, OnOk, OnErr};
ghost use Rattle.std.specs.FinMap.{entries, len};
ghost use Rattle.rv_step.specs.declared.answer.StorageAnswer.{StorageAnswer};
ghost use Rattle.rv_step.specs.declared.ended_run.EndedRun.{EndedRun};
ghost use Rattle.stm_state.specs.declared.state.Status.TheVariants.{Executing};
ghost use Rattle.stm_state.specs.declared.state.Task.TheVariants as task;
ghost use Rattle.stm_state.specs.State.{fresh};
ghost use Rattle.stm_state.specs.Steps.{counted, one_execution, after_record};
ghost use Rattle.scheduler.specs.Schedule.{KeepsRooms, MayCount};
ghost use Rattle.scheduler.specs.Workers.{IsRunning, NobodyMoves};
ghost use Rattle.stm_core.specs.declared.fault.RecordFault.TheVariants as fault;
ghost use Rattle.stm_core.specs.CoreState.{IsReadyOf};
ghost use Rattle.stm_core.specs.Inner.{AreOpen, IsGrown, IsPromised, state_in};

use crate::fault::RecordFault;
use crate::ready_record::ReadyRecord;
use crate::same::same_answers;
use crate::versions::{recorded_count, written_count};
use mvmap::MvMap;
use rv_ledger::{Call, VALUE_LIMIT, Writes, same_call};
use rv_step::StorageAnswer;
use scheduler::{INCARNATION_LIMIT, Scheduler};
use std::alloc::AllocError;
use version_arena::{RECORD_LIMIT, ReserveFault};

/// What a record leaves over, so that it can be dropped after a lock: the call and the answers of the run that was
/// handed in, and the run of the call that was kept before.
#[derive(Drop)]
pub struct SpentRun {
    pub(crate) left: ReadyRecord,
}

/// Whether a call is the one at an index among these. Takes no memory.
pub(crate) fn is_call_at(calls: &[Call], index: u16, call: &Call) -> bool
    ensures { (result ≡ true) ↔ (slice_get calls.now index ≡ Some call.now) }
{
    match calls.get(usize::from(index)) {
        Some(own) => same_call(own, call),
        None => false,
    }
}

/// Whether a run's answers are exactly those that a worker's run was given. Takes no memory.
pub(crate) fn has_own_answers(
    scheduler: &Scheduler,
    worker: usize,
    given: &Vec<StorageAnswer>,
) -> bool
    requires worker { worker < length scheduler.now.tasks }
    requires running { IsRunning (get_or scheduler.now.tasks worker task.Idle) }
    ensures { (call : ℕ) (answers : List StorageAnswer) → get_or scheduler.now.tasks worker task.Idle ≡ task.Running call answers None → (result ≡ true) ↔ (given.now.items ≡ answers) }
{
    same_answers(given.as_slice(), scheduler.answers(worker))
}

/// Records a worker's own run of a call: the run is kept, its keys must be moved next, and room for what it wrote is
/// promised. `promised` is the number of records that are promised. The run that the call had before goes into `ready`.
/// Refused as ArenaFull, IncarnationLimit or Memory, tested in this order. All that takes memory comes before any change.
/// After a refusal the run is still ready, and nothing has changed, except that the map may have more room.
pub(crate) fn record_run(
    map: &mut MvMap,
    promised: &mut usize,
    scheduler: &mut Scheduler,
    worker: usize,
    call: u16,
    ready: &mut ReadyRecord,
) -> Result<(), RecordFault>
    requires ready { (run : EndedRun) × IsReadyOf run ready.old }
    requires counts { MayCount worker scheduler.old }
    requires within { call < length scheduler.old.calls }
    requires executing { (get_or scheduler.old.calls call fresh).status ≡ Executing }
    requires nobody { NobodyMoves call scheduler.old.tasks }
    requires placed { length map.old.arena.records + promised.old ≤ RECORD_LIMIT }
    ensures state { (run : EndedRun) → IsReadyOf run ready.old → OnOk result (state_in map.new promised.new scheduler.new ≡ counted one_execution worker (after_record worker call run.answers.items run.receipt (state_in map.old promised.old scheduler.old))) }
    ensures within { (run : EndedRun) → IsReadyOf run ready.old → OnOk result ((length map.old.arena.records + promised.old + len run.receipt.writes ≤ RECORD_LIMIT) × ((get_or scheduler.old.calls call fresh).incarnation < INCARNATION_LIMIT)) }
    ensures full { (run : EndedRun) → IsReadyOf run ready.old → IfErr result (λ e. e ≡ fault.ArenaFull → RECORD_LIMIT < length map.old.arena.records + promised.old + len run.receipt.writes) }
    ensures limit { (run : EndedRun) → IsReadyOf run ready.old → IfErr result (λ e. e ≡ fault.IncarnationLimit → (length map.old.arena.records + promised.old + len run.receipt.writes ≤ RECORD_LIMIT) × (INCARNATION_LIMIT ≤ (get_or scheduler.old.calls call fresh).incarnation)) }
    ensures memory { (run : EndedRun) → IsReadyOf run ready.old → IfErr result (λ e. e ≡ fault.Memory → (length map.old.arena.records + promised.old + len run.receipt.writes ≤ RECORD_LIMIT) × ((get_or scheduler.old.calls call fresh).incarnation < INCARNATION_LIMIT)) }
    ensures own { IfErr result (λ e. e ≢ fault.Foreign) }
    ensures back { OnErr result ((promised.new ≡ promised.old) × (scheduler.new ≡ scheduler.old)) }
    ensures kept { (run : EndedRun) → IsReadyOf run ready.old → OnErr result (IsReadyOf run ready.new) }
    ensures before { OnOk result (ready.new.recorded ≡ (get_or scheduler.old.calls call fresh).last) }
    ensures promised { (run : EndedRun) → IsReadyOf run ready.old → OnOk result (IsPromised call run.receipt.writes map.new promised.old promised.new) }
    ensures grown { IsGrown map.old map.new }
    ensures rooms { KeepsRooms worker scheduler.old.rooms scheduler.new.rooms }
{
    let Some(kept) = &ready.recorded else {
        unreachable!();
    };
    let writes = &kept.receipt.writes;
    let state = scheduler.call(call);
    check_limits(map, *promised, state.incarnation, writes)?;
    let count = written_count(writes);
    let keys = count + recorded_count(&state.last);
    let records = *promised + count;
    let Ok(()) = make_record_room(map, scheduler, records, call, writes, keys) else {
        return Err(RecordFault::Memory);
    };
    *promised += count;
    scheduler.keep_run(worker, call, &mut ready.recorded);
    Ok(())
}

/// Checks that the record of a run stays within the limits. Refused as ArenaFull, which is tested first, or as
/// IncarnationLimit. Takes no memory.
pub(crate) fn check_limits(
    map: &MvMap,
    promised: usize,
    incarnation: u16,
    writes: &Writes,
) -> Result<(), RecordFault>
    requires { length map.now.arena.records + promised ≤ RECORD_LIMIT }
    ensures within { OnOk result ((length map.now.arena.records + promised + len writes.now ≤ RECORD_LIMIT) × (incarnation < INCARNATION_LIMIT)) }
    ensures full { IfErr result (λ e. e ≡ fault.ArenaFull → RECORD_LIMIT < length map.now.arena.records + promised + len writes.now) }
    ensures limit { IfErr result (λ e. e ≡ fault.IncarnationLimit → (length map.now.arena.records + promised + len writes.now ≤ RECORD_LIMIT) × (INCARNATION_LIMIT ≤ incarnation)) }
    ensures other { IfErr result (λ e. (e ≢ fault.Foreign) × (e ≢ fault.Memory)) }
{
    if written_count(writes) > RECORD_LIMIT - map.record_count() - promised {
        return Err(RecordFault::ArenaFull);
    }
    if incarnation == INCARNATION_LIMIT {
        return Err(RecordFault::IncarnationLimit);
    }
    Ok(())
}

/// Makes room for `records` records, places for what a run wrote, and room for `keys` keys to move. Refused if memory ran
/// out; then only the map may have more room. The versions stay.
fn make_record_room(
    map: &mut MvMap,
    scheduler: &mut Scheduler,
    records: usize,
    call: u16,
    writes: &Writes,
    keys: usize,
) -> Result<(), AllocError>
    requires { length map.old.arena.records + records ≤ RECORD_LIMIT }
    ensures keys { OnOk result (keys ≤ scheduler.new.key_room) }
    ensures same { scheduler.new ≡ record scheduler.old { key_room = scheduler.new.key_room } }
    ensures back { OnErr result (scheduler.new ≡ scheduler.old) }
    ensures open_ { OnOk result (AreOpen map.new.places call (entries writes.now)) }
    ensures room { OnOk result (records ≤ map.new.arena.room) }
    ensures bytes { OnOk result (records * VALUE_LIMIT ≤ map.new.arena.bytes) }
    ensures grown { IsGrown map.old map.new }
{
    match map.reserve_for(writes.as_slice(), call, records, records * VALUE_LIMIT) {
        Ok(()) => {}
        Err(ReserveFault::Memory) => return Err(AllocError),
        Err(ReserveFault::ArenaFull) => unreachable!(),
    }
    scheduler.reserve_keys(keys)?;
    Ok(())
}
