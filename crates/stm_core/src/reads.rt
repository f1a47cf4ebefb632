//! The reads of a run, as its answers give them, and whether the next one stands.

ghost use Rattle.std.specs.Prelude.{◌≡◌, ◌-◌, length, map, slice_get, IfOk};
ghost use Rattle.stm_state.specs.Steps.{read_of, read_stands, recorded_reads};
ghost use Rattle.stm_core.specs.Passed.{passed_by_read};

use mvmap::MvMap;
use read_set::{Read, ReadSet};
use rv_step::StorageAnswer;
use std::alloc::{AllocError, Global};
use stm_state::Recorded;
use validate::next_read;

/// The reads of a run that was given these answers; refused if memory ran out. One or two take only the memory of their
/// origins.
#[inline(always)]
pub(crate) fn reads_in(alloc: Global, answers: &[StorageAnswer]) -> Result<ReadSet, AllocError>
    ensures { IfOk result (λ reads. reads ≡ map read_of answers.now) }
{
    match answers {
        [only] => Ok(ReadSet::one(alloc, read_of(only)?)),
        [first, second] => Ok(ReadSet::two(alloc, read_of(first)?, read_of(second)?)),
        _ => many_reads_in(alloc, answers),
    }
}

/// Like `reads_in`, in memory of their own.
fn many_reads_in(alloc: Global, answers: &[StorageAnswer]) -> Result<ReadSet, AllocError>
    ensures { IfOk result (λ reads. reads ≡ map read_of answers.now) }
{
    let mut reads = ReadSet::with_capacity(alloc, answers.len())?;
    for answer in answers {
        reads.push(read_of(answer)?)?;
    }
    Ok(reads)
}

/// The read that was given an answer; refused if memory ran out.
fn read_of(answer: &StorageAnswer) -> Result<Read, AllocError>
    ensures { IfOk result (λ read. read ≡ read_of answer.now) }
{
    Ok(Read {
        key: answer.key,
        origin: answer.origin.copy()?,
    })
}

/// Whether the first of the last `left` reads of the call's last recorded run stands. A run that was recorded since may
/// have fewer reads; then the first of all is checked. True if there is no run or no such read. Takes no memory.
#[inline(always)]
pub(crate) fn next_stands(map: &MvMap, call: u16, last: &Option<Recorded>, left: usize) -> bool
    ensures { result ≡ read_stands map.now.versions call (slice_get (recorded_reads last.now) (length (recorded_reads last.now) - left)) }
{
    match last {
        Some(run) => {
            let reads = run.reads.reads();
            next_read(map, call, reads, reads.len().saturating_sub(left)).unwrap_or(true)
        }
        None => true,
    }
}

/// How many versions the first of the last `left` reads of the call's last recorded run passed. 0 if there is no run or no
/// such read. Takes no memory.
#[inline(always)]
pub(crate) fn next_passed(last: &Option<Recorded>, left: usize) -> usize
    ensures { result ≡ passed_by_read (slice_get (recorded_reads last.now) (length (recorded_reads last.now) - left)) }
{
    let Some(run) = last else {
        return 0;
    };
    let reads = run.reads.reads();
    match reads.get(reads.len().saturating_sub(left)) {
        Some(read) => read.origin.passed().len(),
        None => 0,
    }
}
