//! The engine of `rvstm drive`, over any readers, programs and writer.

ghost use Rattle.std.specs.Prelude.{◌≡◌, IfErr, IfOk, IfSome, IsOkAnd, OnOk, Ok};
ghost use Rattle.std.specs.Io.KnownBytes.{Appends};
ghost use Rattle.std.specs.Option.{option_map};
ghost use Rattle.block_file.specs.Block.{parsed_block};
ghost use Rattle.block_file.specs.Schedule.{parsed_schedule};
ghost use Rattle.engines.specs.Counts.{AreCountsAlong};
ghost use Rattle.engines.specs.Drive.{driven_answer, text_along, IsDriveFault, IsScheduleFault, IsScheduledFault};
ghost use Rattle.engines.specs.Engine.{loaded_job, IsRefusedJob};

use crate::counts::RunCounts;
use crate::fault::Refusal;
use crate::loading::load_job;
use crate::program_source::Programs;
use crate::reading::read_text;
use crate::results::write_counted;
use block_file::{BlockFault, Cause, parse_schedule};
use byte_streams::{Destination, Source};
use rv_ledger::Job;
use std::alloc::Global;
use stm_core::{DriveFault, drive};

/// Reads a block file to its end and parses it. Opens, reads and loads its programs in the order of their numbers. Reads a
/// schedule file to its end and parses it. Then runs the calls on `workers` workers along the schedule and writes the result,
/// which is that of the calls in order. The first refusal ends it. If the output is refused, a beginning of the result was
/// written; before any other refusal nothing was written. If nothing is refused, returns what the workers did.
pub fn drive_to<R: Source, P: Programs, S: Source, W: Destination>(
    alloc: Global,
    block: &mut R,
    programs: &mut P,
    schedule: &mut S,
    workers: usize,
    out: &mut W,
) -> Result<RunCounts, Refusal>
    ensures written { OnOk result (IfSome (R.remaining block.old) (λ input.
        IfSome (driven_answer (P.content programs.old) (parsed_block input) workers (option_map parsed_schedule (S.remaining schedule.old))) (λ answer.
        IsOkAnd answer (Appends (W.contents out.old) (W.contents out.new))))) }
    ensures refused { IfErr result (IsRefusedJob (Refusal.Drive DriveFault.Memory)
        (IsScheduledFault (S.may_fail schedule.old) (W.may_refuse out.old) workers (option_map parsed_schedule (S.remaining schedule.old)))
        (R.may_fail block.old) (R.remaining block.old) (P.content programs.old) (W.contents out.old) (W.contents out.new)) }
    ensures counts { IfOk result (λ counts. IfSome (R.remaining block.old) (λ input. IfSome (S.remaining schedule.old) (λ bytes.
        IfSome (loaded_job (P.content programs.old) (parsed_block input)) (λ wanted. IsOkAnd wanted (λ job.
        IsOkAnd (parsed_schedule bytes) (λ entries. AreCountsAlong job workers entries counts)))))) }
{
    let job = load_job(alloc, block, programs, Refusal::Drive(DriveFault::Memory))?;
    // Not by `?`: the proof answers this arm.
    let entries = match read_schedule(alloc, schedule) {
        Ok(entries) => entries,
        Err(refusal) => return Err(refusal),
    };
    drive_job(alloc, &job, workers, entries.as_slice(), out)
}

/// Reads and parses a schedule file.
fn read_schedule<S: Source>(alloc: Global, schedule: &mut S) -> Result<Vec<u16>, Refusal>
    ensures ok { IfOk result (λ v. IfSome (S.remaining schedule.old) (λ bytes. parsed_schedule bytes ≡ Ok v.items)) }
    ensures err { IfErr result (λ e. IsScheduleFault (S.may_fail schedule.old) (option_map parsed_schedule (S.remaining schedule.old)) e) }
{
    let memory = BlockFault {
        line: 1,
        cause: Cause::Memory,
    };
    // Not by `?`: the proof answers this arm.
    let bytes = match read_text(alloc, schedule, Refusal::Schedule(memory)) {
        Ok(bytes) => bytes,
        Err(refusal) => return Err(refusal),
    };
    match parse_schedule(alloc, bytes.as_slice()) {
        Ok(entries) => Ok(entries),
        Err(fault) => Err(Refusal::Schedule(fault)),
    }
}

/// Runs a job along a list of worker numbers and writes the result.
fn drive_job<W: Destination>(
    alloc: Global,
    job: &Job,
    workers: usize,
    entries: &[u16],
    out: &mut W,
) -> Result<RunCounts, Refusal>
    ensures written { OnOk result (IsOkAnd (text_along job.now.block job.now.store workers entries.now) (Appends (W.contents out.old) (W.contents out.new))) }
    ensures refused { IfErr result (λ e. IsDriveFault (W.may_refuse out.old) (text_along job.now.block job.now.store workers entries.now) (W.contents out.old) (W.contents out.new) e) }
    ensures counts { IfOk result (AreCountsAlong job.now workers entries.now) }
{
    match drive(alloc, job, workers, entries) {
        Ok(outcome) => write_counted(alloc, outcome, out),
        Err(fault) => Err(Refusal::Drive(fault)),
    }
}
