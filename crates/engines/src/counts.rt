//! What the workers of a run did, and how it is printed.

ghost use Rattle.std.specs.Prelude.{◌≡◌, ◌++◌, ◌*◌, ◌+◌, ◌-◌, ◌≤◌, ◌<◌, ◌^◌, IfErr, IfOk, OnErr, OnOk, codes, length};
ghost use Rattle.std.specs.Fmt.{decimal};
ghost use Rattle.std.specs.Io.KnownBytes.{Appends};
ghost use Rattle.std.specs.List.{sum_by};
ghost use Rattle.std.specs.String.{string_bytes};
ghost use Rattle.engines.specs.Counts.{counts_text, sums_line, worker_line, worker_lines};
ghost use Rattle.byte_streams.specs.Written.{AppendsPart};

use byte_streams::{Destination, WriteFault, write_whole};
use rv_ledger::Counts;
use std::alloc::{AllocError, Global};

/// What the workers of a run did.
#[derive(Drop)]
pub struct RunCounts {
    /// The number of calls of the block.
    pub calls: usize,
    /// What each worker did, in the order of their numbers.
    pub workers: Vec<Counts>,
}

/// What some workers did together.
#[derive(Clone, Copy)]
struct Sums {
    steps: u128,
    asks: u128,
    executions: u128,
    validations: u128,
}

/// Writes a line for each worker with its steps, asks, executions and validations, and a line with their sums
/// and the number of executions above that of the calls. Refused as Memory before anything is written, or as
/// `write_whole` is; then a beginning of the lines was written, and not all of them.
pub fn write_counts<W: Destination>(
    alloc: Global,
    counts: &RunCounts,
    out: &mut W,
) -> Result<(), WriteFault>
    ensures ok { OnOk result (Appends (W.contents out.old) (W.contents out.new) (counts_text counts.now)) }
    ensures err { OnErr result (AppendsPart (W.contents out.old) (W.contents out.new) (counts_text counts.now)) }
    ensures cause { IfErr result (W.may_refuse out.old) }
    ensures memory { IfErr result (λ e. e ≡ WriteFault.Memory → out.new ≡ out.old) }
{
    let Ok(text) = counts_text(alloc, counts) else {
        return Err(WriteFault::Memory);
    };
    write_whole(text.as_str().as_bytes(), out)
}

/// All lines. Refused if memory ran out.
fn counts_text(alloc: Global, counts: &RunCounts) -> Result<String, AllocError>
    ensures { IfOk result (λ text. string_bytes text ≡ counts_text counts.now) }
{
    let mut text = String::new(alloc);
    push_workers(alloc, counts.workers.as_slice(), &mut text)?;
    text.push_str(sums_text(alloc, counts.calls, counts.workers.as_slice())?.as_str())?;
    Ok(text)
}

/// Appends the line of each worker. Refused if memory ran out.
fn push_workers(alloc: Global, counts: &[Counts], text: &mut String) -> Result<(), AllocError>
    ensures { OnOk result (string_bytes text.new ≡ string_bytes text.old ++ worker_lines 0 counts.now) }
{
    for worker in 0..counts.len() {
        text.push_str(worker_text(alloc, worker, counts[worker])?.as_str())?;
    }
    Ok(())
}

/// The line of a worker. Refused if memory ran out.
fn worker_text(alloc: Global, worker: usize, counts: Counts) -> Result<String, AllocError>
    ensures { IfOk result (λ line. string_bytes line ≡ worker_line worker counts) }
{
    let Counts {
        steps,
        asks,
        executions,
        validations,
    } = counts;
    format!(in alloc;
        "worker {worker} steps {steps} asks {asks} executions {executions} validations {validations}\n"
    )
}

/// The line of the sums. Refused if memory ran out.
fn sums_text(alloc: Global, calls: usize, counts: &[Counts]) -> Result<String, AllocError>
    ensures { IfOk result (λ line. string_bytes line ≡ sums_line calls counts.now) }
{
    let Sums {
        steps,
        asks,
        executions,
        validations,
    } = sums_of(counts);
    let repeated = executions.saturating_sub(calls as u128);
    format!(in alloc;
        "all steps {steps} asks {asks} executions {executions} validations {validations} repeated {repeated}\n"
    )
}

/// What all these workers did together.
fn sums_of(counts: &[Counts]) -> Sums
    ensures steps { result.steps ≡ sum_by (λ c. c.steps) counts.now }
    ensures asks { result.asks ≡ sum_by (λ c. c.asks) counts.now }
    ensures executions { result.executions ≡ sum_by (λ c. c.executions) counts.now }
    ensures validations { result.validations ≡ sum_by (λ c. c.validations) counts.now }
    ensures few_steps { result.steps ≤ length counts.now * 0xffff_ffff_ffff_ffff }
    ensures few_asks { result.asks ≤ length counts.now * 0xffff_ffff_ffff_ffff }
    ensures few_executions { result.executions ≤ length counts.now * 0xffff_ffff_ffff_ffff }
    ensures few_validations { result.validations ≤ length counts.now * 0xffff_ffff_ffff_ffff }
{
    let Some((first, rest)) = counts.split_first() else {
        return Sums {
            steps: 0,
            asks: 0,
            executions: 0,
            validations: 0,
        };
    };
    let sums = sums_of(rest);
    let workers = rest.len();
    Sums {
        steps: with_count(sums.steps, first.steps, workers),
        asks: with_count(sums.asks, first.asks, workers),
        executions: with_count(sums.executions, first.executions, workers),
        validations: with_count(sums.validations, first.validations, workers),
    }
}

/// The sum over this many workers, with the count of one more.
fn with_count(sum: u128, count: u64, workers: usize) -> u128
    requires { sum ≤ workers * 0xffff_ffff_ffff_ffff }
    ensures sum { result ≡ count + sum }
    ensures few { result ≤ (workers + 1) * 0xffff_ffff_ffff_ffff }
{
    u128::from(count) + sum
}
