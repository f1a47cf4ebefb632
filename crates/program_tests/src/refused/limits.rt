//! Memory that is taken away from the rest of the process. While the blocks of a list are held, requests are refused.

use std::alloc::{AllocError, Global};

/// The most blocks of a list.
const BLOCKS: usize = 1 << 17;

/// The first size that is asked for: half of the addresses that a process has.
const ADDRESSES: usize = 1 << 46;

/// The least size of a block that is taken as space. Every thread's stack is larger.
const SPACE: usize = 1 << 20;

/// The sizes from this one down are asked for one by one.
const SMALL: usize = 2048;

/// The heap gives out memory in steps of this many bytes.
const UNIT: usize = 16;

/// The size of the parts of a reserve.
const PART: usize = 1 << 14;

/// A list of no blocks with room for all that are taken.
pub fn no_blocks(alloc: Global) -> Result<Vec<Vec<u8>>, AllocError> {
    Vec::with_capacity(alloc, BLOCKS)
}

/// Takes blocks of a size until one is refused.
fn take(alloc: Global, held: &mut Vec<Vec<u8>>, size: usize) {
    for _ in 0..BLOCKS {
        let Ok(block) = Vec::with_capacity(alloc, size) else {
            return;
        };
        if held.push(block).is_err() {
            return;
        }
    }
}

/// Takes blocks of a size until one is refused, then of half that size, and so on down to a least size.
fn take_halves(alloc: Global, held: &mut Vec<Vec<u8>>, first: usize, least: usize) {
    let mut size = first;
    for _ in 0..usize::BITS {
        if size < least {
            return;
        }
        take(alloc, held, size);
        size /= 2;
    }
}

/// Takes all addresses, except for gaps of less than a thread's stack. The system gives no memory to blocks that nobody writes
/// to.
pub fn take_space(alloc: Global, held: &mut Vec<Vec<u8>>) {
    take_halves(alloc, held, ADDRESSES, SPACE);
}

/// Takes what the heap has left after `take_space` for the calling thread, to the last block.
pub fn take_rest(alloc: Global, held: &mut Vec<Vec<u8>>) {
    take_halves(alloc, held, SPACE, SMALL);
    for unit in 0..SMALL / UNIT {
        take(alloc, held, SMALL - unit * UNIT);
    }
}

/// A reserve of this many bytes, in blocks of the heap. Memory that it frees is there for all requests.
pub fn reserve_of(alloc: Global, bytes: usize) -> Result<Vec<Vec<u8>>, AllocError> {
    let mut reserve = Vec::with_capacity(alloc, bytes / PART + 1)?;
    for _ in 0..bytes / PART {
        reserve.push(Vec::with_capacity(alloc, PART)?)?;
    }
    reserve.push(Vec::with_capacity(alloc, bytes % PART)?)?;
    Ok(reserve)
}
