//! A block over a storage.

ghost use Rattle.std.specs.Prelude.{◌≡◌, IfOk};

use crate::call::Call;
use crate::lent_block::LentBlock;
use crate::store::Store;
use std::alloc::{AllocError, Global};
use std::marker::Model;
use thiserror::Error;

/// The greatest number of calls in a block.
pub const CALL_LIMIT: usize = 1024;

/// Why a job is refused.
#[derive(Clone, Copy, Debug, PartialEq, Eq, Error)]
pub enum JobFault {
    /// There are more than 1,024 calls.
    #[error("TooManyCalls 1")]
    TooManyCalls = 1,
}

/// The calls of a block, at most 1,024, in block order.
#[derive(Drop)]
pub struct Block {
    calls: Vec<Call>,
}

impl Model for Block {
    ghost use Rattle.std.specs.Prelude.{List, length, ◌≤◌};
    ghost use Rattle.rv_ledger.specs.Call.{Invocation};

    ghost Value = { List Invocation };

    ghost view = { λ b. b.calls.items };

    ghost invariant = { λ b. length b.calls.items ≤ 1024 };
}

impl Block {
    ghost use Rattle.std.specs.Prelude.{◌≡◌, ◌≤◌, IfOk, length};

    /// The calls in order.
    pub fn calls(&self) -> &[Call]
        ensures value { result.now ≡ self.now }
        ensures count { length self.now ≤ 1024 }
    {
        self.calls.as_slice()
    }

    /// The calls, lent.
    pub fn lent(&self) -> LentBlock<'_>
        ensures { result.calls.now ≡ self.now }
    {
        match LentBlock::of(self.calls()) {
            Some(block) => block,
            None => unreachable!(),
        }
    }

    /// An equal block; refused if memory ran out.
    pub fn copy(&self) -> Result<Block, AllocError>
        ensures { IfOk result (λ b. b ≡ self.now) }
    {
        let calls = copies(*self.calls.allocator(), self.calls.as_slice())?;
        Ok(Block { calls })
    }
}

/// A job to run: a block, and the storage that it starts from.
#[derive(Drop)]
pub struct Job {
    /// The calls.
    pub block: Block,
    /// The storage before the first call.
    pub store: Store,
}

impl Job {
    ghost use Rattle.std.specs.Prelude.{◌≡◌, IfOk};
    ghost use Rattle.rv_ledger.specs.Job.{job_of};

    /// The job of these calls over a storage; TooManyCalls if there are more than 1,024 calls.
    pub fn new(calls: Vec<Call>, store: Store) -> Result<Job, JobFault>
        ensures { result ≡ job_of calls.items store }
    {
        if calls.len() > CALL_LIMIT {
            return Err(JobFault::TooManyCalls);
        }
        Ok(Job {
            block: Block { calls },
            store,
        })
    }

    /// An equal job; refused if memory ran out.
    pub fn copy(&self) -> Result<Job, AllocError>
        ensures { IfOk result (λ j. j ≡ self.now) }
    {
        Ok(Job {
            block: self.block.copy()?,
            store: self.store.copy()?,
        })
    }
}

/// Equal calls, in the same order.
fn copies(alloc: Global, calls: &[Call]) -> Result<Vec<Call>, AllocError>
    ensures { IfOk result (λ v. v.items ≡ calls.now) }
{
    let mut copies = Vec::with_capacity(alloc, calls.len())?;
    for call in calls {
        copies.push(call.copy()?)?;
    }
    Ok(copies)
}
