//! Calls and jobs of programs, and the texts of their outcomes.

use crate::blocks::{block_of, elf_of};
use block_file::{BlockText, CallLine, parse};
use elf32::{Image, load};
use receipts::result_text;
use rv_ledger::{Call, Job, Outcome, Store};
use seq_exec::run_in_order;
use std::alloc::{AllocError, Global};
use std::sync::Arc;
use std::test::Fail;

/// The image of a program.
pub fn image_of(alloc: Global, words: &[u32]) -> Result<Arc<Image>, Fail> {
    let file = elf_of(alloc, words)?;
    let image = load(alloc, file.as_slice())?;
    Ok(Arc::new(alloc, image)?)
}

/// The call of a line.
fn call_of_line(alloc: Global, programs: &[&[u32]], line: CallLine) -> Result<Call, Fail> {
    let CallLine {
        program,
        gas,
        input,
    } = line;
    let words = programs.get(program).copied().unwrap_or(&[]);
    Ok(Call::new(image_of(alloc, words)?, gas, input)?)
}

/// The calls of lines.
fn calls_of_lines(
    alloc: Global,
    programs: &[&[u32]],
    lines: Vec<CallLine>,
) -> Result<Vec<Call>, Fail> {
    let mut calls = Vec::new(alloc);
    for line in lines {
        calls.push(call_of_line(alloc, programs, line)?)?;
    }
    Ok(calls)
}

/// What the block file of some programs and further lines says.
fn block_text(alloc: Global, programs: usize, lines: &str) -> Result<BlockText, Fail> {
    let block = block_of(alloc, programs, lines)?;
    Ok(parse(alloc, block.as_bytes())?)
}

/// The calls of a block.
pub fn calls_of(alloc: Global, programs: &[&[u32]], lines: &str) -> Result<Vec<Call>, Fail> {
    let BlockText { calls, .. } = block_text(alloc, programs.len(), lines)?;
    calls_of_lines(alloc, programs, calls)
}

/// The job of a block.
pub fn job_of(alloc: Global, programs: &[&[u32]], lines: &str) -> Result<Job, Fail> {
    let BlockText { calls, store, .. } = block_text(alloc, programs.len(), lines)?;
    let calls = calls_of_lines(alloc, programs, calls)?;
    Ok(Job::new(calls, store)?)
}

/// The outcome of running the calls of a job in order.
pub fn in_order(alloc: Global, job: &Job) -> Result<Outcome, AllocError> {
    run_in_order(alloc, job)
}

/// The text of the result of an outcome.
fn text_of(alloc: Global, outcome: &Outcome) -> Result<Vec<u8>, AllocError> {
    result_text(alloc, outcome.receipts.as_slice(), &outcome.store)
}

/// Whether the result of an outcome has this text.
pub fn has_text(alloc: Global, outcome: &Outcome, text: &[u8]) -> Result<bool, AllocError> {
    let found = text_of(alloc, outcome)?;
    Ok(found.as_slice() == text)
}

/// Whether the result of an outcome has the text of running the calls of a job in order.
pub fn is_as_in_order(alloc: Global, outcome: &Outcome, job: &Job) -> Result<bool, AllocError> {
    let wanted = text_of(alloc, &in_order(alloc, job)?)?;
    has_text(alloc, outcome, wanted.as_slice())
}
