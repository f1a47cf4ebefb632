//! The engine of `rvstm conflicts`, over any reader, programs and writer.

ghost use Rattle.std.specs.Prelude.{IfErr, IfSome, IsOkAnd, OnOk};
ghost use Rattle.std.specs.Io.KnownBytes.{Appends};
ghost use Rattle.block_file.specs.Block.{parsed_block};
ghost use Rattle.conflicts.specs.Text.{conflicts_text};
ghost use Rattle.engines.specs.Engine.{loaded_job, IsOutputFault, IsRefusedJob};
ghost use Rattle.engines.specs.Conflicts.{AppendsConflicts, IsConflictsFault};

use crate::fault::{Refusal, SeqFault};
use crate::loading::load_job;
use crate::program_source::Programs;
use byte_streams::{Destination, Source};
use conflicts::{Conflicts, find_conflicts, write_conflicts};
use rv_ledger::Job;
use std::alloc::Global;

/// Reads a block file to its end and parses it. Opens, reads and loads its programs in the order of their numbers. Then runs
/// the calls in order and writes which of them wait for which. The first refusal ends it, and the refusals are those of
/// `seq_to`. If the output is refused, a beginning of the text was written; before any other refusal nothing was written.
pub(crate) fn conflicts_to<R: Source, P: Programs, W: Destination>(
    alloc: Global,
    block: &mut R,
    programs: &mut P,
    out: &mut W,
) -> Result<(), Refusal>
    ensures written { OnOk result (IfSome (R.remaining block.old) (λ input.
        IfSome (loaded_job (P.content programs.old) (parsed_block input)) (λ wanted.
        IsOkAnd wanted (λ job. AppendsConflicts job (W.contents out.old) (W.contents out.new))))) }
    ensures refused { IfErr result (IsRefusedJob (Refusal.Seq SeqFault.Memory) (IsConflictsFault (W.may_refuse out.old))
        (R.may_fail block.old) (R.remaining block.old) (P.content programs.old) (W.contents out.old) (W.contents out.new)) }
{
    let job = load_job(alloc, block, programs, Refusal::Seq(SeqFault::Memory))?;
    conflicts_job(alloc, &job, out)
}

/// Finds the conflicts of a job and writes them.
fn conflicts_job<W: Destination>(alloc: Global, job: &Job, out: &mut W) -> Result<(), Refusal>
    ensures written { OnOk result (AppendsConflicts job.now (W.contents out.old) (W.contents out.new)) }
    ensures refused { IfErr result (IsConflictsFault (W.may_refuse out.old) (W.contents out.old) (W.contents out.new) job.now) }
{
    let Ok(conflicts) = find_conflicts(alloc, job) else {
        return Err(Refusal::Seq(SeqFault::Memory));
    };
    write_found(alloc, &conflicts, out)
}

/// Writes the conflicts that were found.
fn write_found<W: Destination>(
    alloc: Global,
    conflicts: &Conflicts,
    out: &mut W,
) -> Result<(), Refusal>
    ensures written { OnOk result (Appends (W.contents out.old) (W.contents out.new)
        (conflicts_text conflicts.now.calls.items conflicts.now.paths.items conflicts.now.keys.items)) }
    ensures refused { IfErr result (λ e. IsOutputFault (W.may_refuse out.old)
        (conflicts_text conflicts.now.calls.items conflicts.now.paths.items conflicts.now.keys.items) (W.contents out.old) (W.contents out.new) e) }
{
    match write_conflicts(alloc, conflicts, out) {
        Ok(()) => Ok(()),
        Err(fault) => Err(Refusal::Output(fault)),
    }
}
