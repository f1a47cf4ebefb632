//! A gate at which memory is taken away from workers.

use crate::refused::limits::{no_blocks, take_rest, take_space};
use std::alloc::{AllocError, Global};
use std::rt::Clock;
use std::sync::atomic::{AtomicBool, Ordering};
use std::sync::{Mutex, Wait};
use std::thread::{sleep, yield_now};
use std::time::Duration;
use workers::Gate;

/// How often a worker looks for the other, at most.
const LOOKS: usize = 10_000_000;

/// How many milliseconds a worker that has memory leaves for the end of one that has none.
const HOLD: u64 = 5;

/// A gate at which each of two workers waits for the other when it gets there for the first time. Then memory is taken away from
/// some of them. A worker that keeps its memory continues later.
#[derive(Drop)]
pub struct Taking<R: Wait + Clock + Drop> {
    rt: R,
    alloc: Global,
    held: Mutex<Vec<Vec<u8>>>,
    refused: [bool; 2],
    here: [AtomicBool; 2],
    taken: [AtomicBool; 2],
}

impl<R: Wait + Clock + Drop> Taking<R> {
    /// A gate at which memory is taken away from each worker that `refused` shows.
    pub fn new(rt: R, alloc: Global, refused: [bool; 2]) -> Result<Taking<R>, AllocError> {
        Ok(Taking {
            rt,
            alloc,
            held: Mutex::new(no_blocks(alloc)?),
            refused,
            here: [AtomicBool::new(false), AtomicBool::new(false)],
            taken: [AtomicBool::new(false), AtomicBool::new(false)],
        })
    }

    /// Whether memory was taken away from all workers that had to lose it.
    pub fn is_taken(&self) -> bool {
        is_or_set(self.refused[0], &self.taken[0]) && is_or_set(self.refused[1], &self.taken[1])
    }

    /// Takes away all memory that the calling thread can get.
    fn take(&self) {
        let mut held = self.held.lock(&self.rt);
        take_space(self.alloc, &mut held);
        take_rest(self.alloc, &mut held);
    }
}

/// Whether nothing is wanted or the flag is set.
fn is_or_set(is_wanted: bool, flag: &AtomicBool) -> bool {
    !is_wanted || flag.load(Ordering::SeqCst)
}

impl<R: Wait + Clock + Drop> Gate for Taking<R> {
    fn held(&self, worker: usize) {
        if worker > 1 || self.here[worker].swap(true, Ordering::SeqCst) {
            return;
        }
        for _ in 0..LOOKS {
            if self.here[1 - worker].load(Ordering::SeqCst) {
                break;
            }
            yield_now();
        }
        if self.refused[worker] {
            self.take();
            self.taken[worker].store(true, Ordering::SeqCst);
        }
        for _ in 0..LOOKS {
            if self.is_taken() {
                break;
            }
            yield_now();
        }
        if !self.refused[worker] {
            sleep(&self.rt, Duration::from_millis(HOLD));
        }
    }
}
