//! A call that is made again and again: with a little more memory each time, or once more.

ghost use Rattle.std.specs.Prelude.{◌≤◌, ◌<◌};

use crate::refused::limits::{no_blocks, take_rest, take_space};
use std::alloc::{AllocError, Global};

/// The size of the piece of memory; the call gets more and more of it.
const PIECE: usize = 1 << 20;

/// How much more the call gets from one try to the next: the heap gives out no smaller parts.
const STEP: usize = 32;

/// How often it gets only this much more.
const SMALL_STEPS: usize = 512;

/// How much more it gets from then on.
const LARGE_STEP: usize = 1 << 10;

/// How often a call is tried, at most.
const TRIES: usize = 1500;

/// The result of a try.
#[derive(Clone, Copy)]
pub enum Tried {
    /// It was refused as Memory, and what had to stay is as it was.
    Refused,
    /// The right answer.
    Done,
    /// Any other result.
    Wrong,
}

/// The result of a try that was refused: whether it was refused as Memory, and what had to stay is as it was.
pub fn refused(is_right: bool) -> Tried {
    if is_right {
        Tried::Refused
    } else {
        Tried::Wrong
    }
}

/// The result of a try that was not refused: whether the answer is right.
pub fn done(is_right: bool) -> Tried {
    if is_right { Tried::Done } else { Tried::Wrong }
}

/// A call that takes memory.
pub trait Attempt {
    /// Makes the call, on what the tries before it left.
    fn attempt(&mut self, alloc: Global) -> Tried;
}

/// A block of this many bytes.
fn block_of(alloc: Global, size: usize) -> Result<Vec<u8>, AllocError> {
    Ok(Vec::with_capacity(alloc, size)?)
}

/// How many bytes of the piece a call gets at a try.
fn spare_at(step: usize) -> usize
    requires { step < 1500 }
    ensures { result ≤ 1048576 }
{
    if step < SMALL_STEPS {
        step * STEP
    } else {
        SMALL_STEPS * STEP + (step - SMALL_STEPS) * LARGE_STEP
    }
}

/// Takes the beginning of the piece again, in place of what was taken of it before. The call gets the rest.
fn taken_again(alloc: Global, before: Vec<u8>, step: usize) -> Result<Vec<u8>, AllocError>
    requires { step < 1500 }
{
    drop(before);
    block_of(alloc, PIECE - spare_at(step))
}

/// Makes a call with more and more memory until it is not refused. Returns whether it was refused at first, left then what it
/// must leave, and returned the right answer in the end.
fn is_refused_first<A: Attempt>(alloc: Global, call: &mut A) -> Result<bool, AllocError> {
    // From then on the heap keeps blocks of up to this size, and returns nothing to the system.
    drop(block_of(alloc, 4 * PIECE)?);
    let mut taken = block_of(alloc, PIECE)?;
    let (mut space, mut rest) = (no_blocks(alloc)?, no_blocks(alloc)?);
    take_space(alloc, &mut space);
    take_rest(alloc, &mut rest);
    for step in 0..TRIES {
        taken = taken_again(alloc, taken, step)?;
        match call.attempt(alloc) {
            Tried::Refused => {}
            Tried::Done => return Ok(step > 0),
            Tried::Wrong => return Ok(false),
        }
    }
    Ok(false)
}

/// Makes a call, and once more if it is refused. Returns whether it returned the right answer in the end.
fn is_made_again<A: Attempt>(alloc: Global, call: &mut A) -> bool {
    match call.attempt(alloc) {
        Tried::Refused => matches!(call.attempt(alloc), Tried::Done),
        Tried::Done => true,
        Tried::Wrong => false,
    }
}

/// How calls are refused.
#[derive(Clone, Copy)]
pub enum Way {
    /// All memory is taken away, and more and more of it is given back.
    Exhausted,
    /// One request at most is refused, by `rvstm-developers growths`.
    OneRequest,
}

/// Whether a call that is refused in this way leaves then what it must leave, and returns the right answer in the end.
pub fn comes_right<A: Attempt>(alloc: Global, call: &mut A, way: Way) -> bool {
    match way {
        Way::Exhausted => is_refused_first(alloc, call) == Ok(true),
        Way::OneRequest => is_made_again(alloc, call),
    }
}
