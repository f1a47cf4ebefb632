//! The job of a block file and the files of its programs.

ghost use Rattle.std.specs.Prelude.{◌≡◌, ◌<◌, ◌≤◌, length, map, vec_len, All, IfOk, IfErr, IfSome, Ok};
ghost use Rattle.std.specs.Arc.{arc_value};
ghost use Rattle.block_file.specs.Block.{block_value, call_value, parsed_block};
ghost use Rattle.engines.specs.Engine.{IsBlockFault, IsLoadFault, loaded_job, program_refusal};
ghost use Rattle.programs.specs.Programs.{call_over};

use crate::fault::{FileFault, Refusal};
use crate::file_loader::FileLoader;
use crate::program_source::Programs;
use crate::reading::read_text;
use block_file::{BlockFault, BlockText, CallLine, Cause, parse};
use byte_streams::Source;
use elf32::Image;
use programs::{ProgramFault, calls_over, programs_at};
use rv_ledger::{Job, Rules, Store};
use std::alloc::{AllocError, Global};
use std::sync::Arc;

/// Want of memory for the bytes of a block file.
pub(crate) const BLOCK_MEMORY: BlockFault = BlockFault {
    line: 1,
    cause: Cause::Memory,
};

/// Reads a block file to its end and parses it. Opens, reads and loads its programs in the order of their numbers. Then makes
/// the job. The first refusal ends it. It is `memory` if memory for the calls ran out.
pub(crate) fn load_job<R: Source, P: Programs>(
    alloc: Global,
    block: &mut R,
    programs: &mut P,
    memory: Refusal,
) -> Result<Job, Refusal>
    ensures ok { IfOk result (λ job. IfSome (R.remaining block.old) (λ input.
        IfSome (loaded_job (P.content programs.old) (parsed_block input)) (λ wanted. wanted ≡ Ok job))) }
    ensures err { IfErr result (λ e. IfSome (R.remaining block.old) (λ input.
        IsLoadFault (R.may_fail block.old) (P.content programs.old) (parsed_block input) memory e)) }
{
    let text = read_block(alloc, block)?;
    load_text(alloc, text, programs, memory)
}

/// Reads and parses a block file.
fn read_block<R: Source>(alloc: Global, block: &mut R) -> Result<BlockText, Refusal>
    ensures ok { IfOk result (λ text. IfSome (R.remaining block.old) (λ input. parsed_block input ≡ Ok (block_value text))) }
    ensures err { IfErr result (λ e. IfSome (R.remaining block.old) (λ input. IsBlockFault (R.may_fail block.old) (parsed_block input) e)) }
{
    // Not by `?`: the proof answers this arm.
    let bytes = match read_text(alloc, block, Refusal::Block(BLOCK_MEMORY)) {
        Ok(bytes) => bytes,
        Err(refusal) => return Err(refusal),
    };
    match parse(alloc, bytes.as_slice()) {
        Ok(text) => Ok(text),
        Err(fault) => Err(Refusal::Block(fault)),
    }
}

/// Loads the programs of a block, and makes its job.
fn load_text<P: Programs>(
    alloc: Global,
    text: BlockText,
    programs: &mut P,
    memory: Refusal,
) -> Result<Job, Refusal>
    ensures ok { IfOk result (λ job. IfSome (loaded_job (P.content programs.old) (Ok (block_value text))) (λ wanted. wanted ≡ Ok job)) }
    ensures err { IfErr result (λ e. IsLoadFault ⊥ (P.content programs.old) (Ok (block_value text)) memory e) }
{
    let BlockText {
        rules,
        programs: paths,
        store,
        calls,
    } = text;
    let mut loader = FileLoader { alloc, programs };
    // Not by `?`: the proof answers this arm.
    let images = match programs_at(alloc, &mut loader, paths.as_slice()) {
        Ok(images) => images,
        Err(fault) => return Err(Refusal::from(fault)),
    };
    match job_of(alloc, rules, images.as_slice(), calls, store) {
        Ok(job) => Ok(job),
        Err(AllocError) => Err(memory),
    }
}

impl From<ProgramFault> for Refusal {
    ghost from_gives = { λ fault refusal. refusal ≡ program_refusal fault };

    fn from(fault: ProgramFault) -> Refusal {
        match fault {
            ProgramFault::Unreadable => Refusal::File(FileFault::Unreadable),
            ProgramFault::TooLong => Refusal::File(FileFault::TooLong),
            ProgramFault::Elf(fault) => Refusal::Elf(fault),
        }
    }
}

/// The job of the calls over the loaded programs. Refused if memory ran out.
fn job_of(
    alloc: Global,
    rules: Rules,
    images: &[Arc<Image>],
    lines: Vec<CallLine>,
    store: Store,
) -> Result<Job, AllocError>
    requires few { vec_len lines ≤ 1024 }
    requires known { All (λ line. line.program < length images.now) lines.items }
    ensures { IfOk result (λ j. j ≡ record { block = map (call_over rules (map arc_value images.now)) (map call_value lines.items); store = store }) }
{
    let calls = calls_over(alloc, rules, images, lines)?;
    let Ok(job) = Job::new(calls, store) else {
        unreachable!()
    };
    Ok(job)
}
