//! The engine of `rvstm debug`, over any readers, programs and writer.

ghost use Rattle.std.specs.Prelude.{◌≡◌, ◌⊎◌, None, Some, Ok, slice_get, IfErr, IfOk, IfSome, IsOkAnd, OnErr, OnOk};
ghost use Rattle.std.specs.Io.KnownBytes.{Appends};
ghost use Rattle.block_file.specs.Block.{parsed_block};
ghost use Rattle.debugger.specs.Session.{AppendsBeginning, MayBeCutOff, lines_of, session};
ghost use Rattle.rv_step.specs.Fold.{store_after};
ghost use Rattle.engines.specs.Debug.{first_moment, replayed_text, IsReplayFault, IsReplayedFault, IsSessionFault};
ghost use Rattle.engines.specs.Engine.{loaded_job, IsRefusedJob};

use crate::fault::{FileFault, Refusal, SeqFault};
use crate::loading::load_job;
use crate::program_source::Programs;
use byte_streams::{Destination, Source};
use debugger::{DebugFault, Replay, ReplayFault, debug_lines_to};
use rv_ledger::{Call, Job, Store, apply_writes};
use rv_step::{SpareMachine, receipt_over};
use std::alloc::{AllocError, Global};

/// Reads a block file to its end and parses it. Opens, reads and loads its programs in the order of their numbers. Runs the
/// calls in order; if `has_more` is true, only those before the call at an index. Then replays that call, over the storage that
/// the calls before it left, along the lines that are read. If `has_more` is true, the lines of `--more` are commands too. So
/// what is printed is a function of the call and of those before it. The first refusal ends it. What was read by then stays
/// read, and a beginning of what the session prints was written. If there is no session, nothing was written.
pub fn debug_block_to<R: Source, P: Programs, L: Source, W: Destination>(
    alloc: Global,
    has_more: bool,
    block: &mut R,
    programs: &mut P,
    call: usize,
    lines: &mut L,
    out: &mut W,
) -> Result<(), Refusal>
    ensures written { OnOk result (IfSome (R.remaining block.old) (λ input. IfSome (L.remaining lines.old) (λ typed.
        IfSome (loaded_job (P.content programs.old) (parsed_block input)) (λ job.
        IsOkAnd (replayed_text has_more job call typed) (Appends (W.contents out.old) (W.contents out.new)))))) }
    ensures refused { IfErr result (IsRefusedJob (Refusal.Seq SeqFault.Memory)
        (IsReplayedFault (MayBeCutOff (L.may_fail lines.old) (L.remaining lines.old)) (W.may_refuse out.old) call)
        (R.may_fail block.old) (R.remaining block.old) (P.content programs.old) (W.contents out.old) (W.contents out.new)) }
    ensures cut { OnErr result (IfSome (R.remaining block.old) (λ input. IfSome (L.remaining lines.old) (λ typed.
        IfSome (loaded_job (P.content programs.old) (parsed_block input)) (λ job.
        IfOk (replayed_text has_more job call typed) (AppendsBeginning (W.contents out.old) (W.contents out.new)))))) }
{
    // Not by `?`: the proof answers this arm.
    let job = match load_job(alloc, block, programs, Refusal::Seq(SeqFault::Memory)) {
        Ok(job) => job,
        Err(refusal) => return Err(refusal),
    };
    let mut replay = match replay_of(alloc, has_more, job, call) {
        Ok(replay) => replay,
        Err(refusal) => return Err(refusal),
    };
    debug_lines(alloc, has_more, &mut replay, lines, out)
}

/// The replay of the call at an index of a job, at its first moment. The calls before it run on the job's own storage. The call
/// and those after it run on a copy, or not at all if `has_more` is true. Refused as NoSuchCall if there is no such call, after
/// all calls ran, or at once if `has_more` is true. Refused as Memory if memory ran out.
fn replay_of(alloc: Global, has_more: bool, job: Job, call: usize) -> Result<Replay, Refusal>
    ensures ok { IfOk result (λ r. first_moment job call ≡ Some r) }
    ensures err { IfErr result (λ e. IsReplayFault job call e) }
{
    let Job { block, store } = job;
    let calls = block.calls();
    let Some(shown) = calls.get(call) else {
        if !has_more && store_after_calls(alloc, calls, store).is_err() {
            return Err(Refusal::Seq(SeqFault::Memory));
        }
        return Err(Refusal::Debug(ReplayFault::NoSuchCall));
    };
    let Ok(left) = store_after_calls(alloc, &calls[..call], store) else {
        return Err(Refusal::Seq(SeqFault::Memory));
    };
    if !has_more && run_on_copy(alloc, &calls[call..], &left).is_err() {
        return Err(Refusal::Seq(SeqFault::Memory));
    }
    match Replay::start(alloc, shown, left) {
        Ok(replay) => Ok(replay),
        Err(AllocError) => Err(Refusal::Debug(ReplayFault::Memory)),
    }
}

/// Runs calls in order on a copy of a storage, which is dropped. Refused if memory ran out.
fn run_on_copy(alloc: Global, calls: &[Call], store: &Store) -> Result<(), AllocError> {
    let _ = store_after_calls(alloc, calls, store.copy()?)?;
    Ok(())
}

/// The storage that calls leave if they run in order on `store`. Refused if memory ran out.
#[tactic(auto, unfolding(rv_step::specs::Fold::store_after))]
fn store_after_calls(alloc: Global, calls: &[Call], store: Store) -> Result<Store, AllocError>
    ensures { IfOk result (λ s. s ≡ store_after calls.now store) }
{
    let mut left = store;
    let mut spare = SpareMachine::new();
    for call in calls {
        // A `?` would copy the receipt, which is large, once more.
        let Ok(receipt) = receipt_over(alloc, &mut spare, call, &left) else {
            return Err(AllocError);
        };
        apply_writes(&mut left, &receipt.writes)?;
    }
    Ok(left)
}

/// A session along the lines that are read.
fn debug_lines<L: Source, W: Destination>(
    alloc: Global,
    has_more: bool,
    replay: &mut Replay,
    lines: &mut L,
    out: &mut W,
) -> Result<(), Refusal>
    ensures written { OnOk result (IfSome (L.remaining lines.old) (λ typed.
        Appends (W.contents out.old) (W.contents out.new) (session has_more replay.old (lines_of typed)).text)) }
    ensures refused { IfErr result (IsSessionFault (MayBeCutOff (L.may_fail lines.old) (L.remaining lines.old)) (W.may_refuse out.old)) }
    ensures cut { OnErr result (IfSome (L.remaining lines.old) (λ typed.
        AppendsBeginning (W.contents out.old) (W.contents out.new) (session has_more replay.old (lines_of typed)).text)) }
{
    match debug_lines_to(alloc, has_more, replay, lines, out) {
        Ok(()) => Ok(()),
        Err(DebugFault::Unreadable) => Err(Refusal::File(FileFault::Unreadable)),
        Err(DebugFault::Output(fault)) => Err(Refusal::Output(fault)),
        Err(DebugFault::Memory) => Err(Refusal::Debug(ReplayFault::Memory)),
    }
}
