//! The engine of `rvstm seq`, over any reader, programs and writer.

ghost use Rattle.std.specs.Prelude.{IfErr, IfSome, IsOkAnd, OnOk};
ghost use Rattle.std.specs.Io.KnownBytes.{Appends};
ghost use Rattle.block_file.specs.Block.{parsed_block};
ghost use Rattle.engines.specs.Engine.{answer_of, text_of, IsRefusedJob, IsRunFault};

use crate::fault::{Refusal, SeqFault};
use crate::loading::load_job;
use crate::program_source::Programs;
use crate::results::write_run;
use byte_streams::{Destination, Source};
use rv_ledger::Job;
use seq_exec::into_result;
use std::alloc::Global;

/// Reads a block file to its end and parses it. Opens, reads and loads its programs in the order of their numbers. Then runs
/// the calls in order and writes the result. The first refusal ends it. If the output is refused, a beginning of the result was
/// written; before any other refusal nothing was written.
pub fn seq_to<R: Source, P: Programs, W: Destination>(
    alloc: Global,
    block: &mut R,
    programs: &mut P,
    out: &mut W,
) -> Result<(), Refusal>
    ensures written { OnOk result (IfSome (R.remaining block.old) (λ input.
        IfSome (answer_of (P.content programs.old) (parsed_block input)) (λ answer.
        IsOkAnd answer (Appends (W.contents out.old) (W.contents out.new))))) }
    ensures refused { IfErr result (IsRefusedJob (Refusal.Seq SeqFault.Memory) (IsRunFault (W.may_refuse out.old))
        (R.may_fail block.old) (R.remaining block.old) (P.content programs.old) (W.contents out.old) (W.contents out.new)) }
{
    let job = load_job(alloc, block, programs, Refusal::Seq(SeqFault::Memory))?;
    seq_job(alloc, job, out)
}

/// Runs a job in order and writes the result.
fn seq_job<W: Destination>(alloc: Global, job: Job, out: &mut W) -> Result<(), Refusal>
    ensures written { OnOk result (Appends (W.contents out.old) (W.contents out.new) (text_of job)) }
    ensures refused { IfErr result (IsRunFault (W.may_refuse out.old) (W.contents out.old) (W.contents out.new) job) }
{
    let Ok(ran) = into_result(alloc, job) else {
        return Err(Refusal::Seq(SeqFault::Memory));
    };
    write_run(alloc, ran.receipts.as_slice(), &ran.store, out)
}
