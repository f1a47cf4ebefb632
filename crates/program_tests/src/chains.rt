//! Blocks run one after another on one executor.

use crate::blocks::count_lines;
use crate::calls::calls_of;
use crate::rows::COUNT;
use rv_ledger::{Call, Key, Receipt, Store};
use std::alloc::{AllocError, Global};
use std::process::Abort;
use std::sync::Wait;
use std::test::Fail;
use std::thread::Threads;
use workers::{Chain, ChainFault, Executor, RunFault};

/// One count of the key that count_lines counts.
const ONE_COUNT: &str =
    "call 0 1000 0000000000000000000000000000000000000000000000000000000000000001\n";

/// More calls than a block may have.
const TOO_MANY_CALLS: usize = 1025;

/// The calls of each block of a chain, and the number of its workers.
type Blocks = Vec<(Vec<Call>, usize)>;

/// Runs a chain of blocks over an empty storage.
fn run<R: Threads + Wait + Sync>(
    rt: &R,
    alloc: Global,
    blocks: Blocks,
) -> Result<Chain, AllocError> {
    let mut executor = Executor::new(alloc);
    executor.run_chain(rt, alloc, Store::new(alloc), blocks)
}

/// Blocks of calls of COUNT, each with its lines and the number of its workers.
fn blocks_of(alloc: Global, rows: &[(&str, usize)]) -> Result<Blocks, Fail> {
    let mut blocks = Vec::new(alloc);
    for (lines, workers) in rows {
        blocks.push((calls_of(alloc, &[COUNT], lines)?, *workers))?;
    }
    Ok(blocks)
}

/// Three blocks of forty counts by 8 workers, and after the first of them one that 33 workers have to run.
fn four_blocks(alloc: Global) -> Result<Blocks, Fail> {
    let lines = count_lines(alloc, 40)?;
    let forty = lines.as_str();
    blocks_of(
        alloc,
        &[(forty, 8), (ONE_COUNT, 33), (forty, 8), (forty, 8)],
    )
}

/// The number to which calls counted the key up from a number; None if one of them did not.
fn counted_up(receipts: &[Receipt], from: u32) -> Option<u32> {
    let mut count = from;
    for receipt in receipts {
        count = count.wrapping_add(1);
        if receipt.regs.values()[5] != count {
            return None;
        }
    }
    Some(count)
}

/// Whether the key holds this number.
fn is_counted(store: &Store, number: u32) -> bool {
    let mut key = [0; 32];
    key[31] = 1;
    match store.get(&Key::new(key)) {
        Some(value) => value.bytes() == number.to_le_bytes().as_slice(),
        None => false,
    }
}

/// Whether a chain has the answers to the four blocks, of which only the second is refused, and the key the last number.
fn is_right_of_four(chain: &Chain) -> bool {
    match chain.blocks.as_slice() {
        [
            Ok(first),
            Err(ChainFault::Run(RunFault::BadCount)),
            Ok(second),
            Ok(third),
        ] => {
            counted_up(first.as_slice(), 0) == Some(40)
                && counted_up(second.as_slice(), 40) == Some(80)
                && counted_up(third.as_slice(), 80) == Some(120)
                && is_counted(&chain.store, 120)
        }
        _ => false,
    }
}

#[test]
fn three_chained_blocks(rt: HostRuntime) -> Result<(), Fail> {
    let is_right = is_right_of_four(&run(&rt, rt.alloc(), four_blocks(rt.alloc())?)?);
    assert!(rt; is_right);
    Ok(())
}

/// Whether each answer of a chain is that of one call of COUNT, which counts up to the number of its block, from 1 to 100.
fn is_right_of_100(chain: &Chain) -> bool {
    let mut count = 0_u32;
    for answer in &chain.blocks {
        let Ok(receipts) = answer else {
            return false;
        };
        if counted_up(receipts.as_slice(), count) != Some(count.wrapping_add(1)) {
            return false;
        }
        count = count.wrapping_add(1);
    }
    count == 100 && is_counted(&chain.store, 100)
}

#[test]
fn a_chain_of_100_blocks(rt: HostRuntime) -> Result<(), Fail> {
    let blocks = blocks_of(rt.alloc(), &[(ONE_COUNT, 2); 100])?;
    let is_right = is_right_of_100(&run(&rt, rt.alloc(), blocks)?);
    assert!(rt; is_right);
    Ok(())
}

/// A block of too many calls, which 33 workers have to run.
fn too_large_block(alloc: Global) -> Result<Blocks, Fail> {
    let lines = count_lines(alloc, 1)?;
    let calls = calls_of(alloc, &[COUNT], lines.as_str())?;
    let mut many = Vec::new(alloc);
    for call in &calls {
        for _ in 0..TOO_MANY_CALLS {
            many.push(call.copy()?)?;
        }
    }
    let mut blocks = Vec::new(alloc);
    blocks.push((many, 33))?;
    Ok(blocks)
}

#[test]
fn chain_too_many_calls(rt: HostRuntime) -> Result<(), Fail> {
    let is_refused = matches!(
        run(&rt, rt.alloc(), too_large_block(rt.alloc())?)?
            .blocks
            .as_slice(),
        [Err(ChainFault::TooManyCalls)]
    );
    let printed = format!(in rt.alloc(); "{}", ChainFault::TooManyCalls)?;
    assert!(rt; is_refused && printed.as_str() == "TooManyCalls 8");
    Ok(())
}
