//! The list of the reads of one run, as a set keeps it.

ghost use Rattle.std.specs.Prelude.{◌≡◌, ◌++◌, ◌∷◌, [], IfOk, OnErr, OnOk};
ghost use Rattle.read_set.specs.Items.{reads_of};

use crate::Read;
use std::alloc::{AllocError, Global};

/// The reads of one run. Most runs make one or two, which take no memory of their own.
#[derive(Debug, Drop)]
pub(crate) enum Items {
    /// One read.
    One([Read; 1]),
    /// Two reads.
    Two([Read; 2]),
    /// Any number of reads.
    Many(Vec<Read>),
}

impl Items {
    /// The reads, in order.
    pub(crate) fn as_slice(&self) -> &[Read]
        ensures { result.now ≡ reads_of self.now }
    {
        match self {
            Items::One(reads) => &reads[..],
            Items::Two(reads) => &reads[..],
            Items::Many(reads) => reads.as_slice(),
        }
    }

    /// Adds a read at the end; refused if memory ran out, and then nothing changes.
    pub(crate) fn push(&mut self, alloc: Global, read: Read) -> Result<(), AllocError>
        ensures ok { OnOk result (reads_of self.new ≡ reads_of self.old ++ read ∷ []) }
        ensures err { OnErr result (reads_of self.new ≡ reads_of self.old) }
    {
        if let Items::Many(reads) = self {
            reads.push(read)?;
            return Ok(());
        }
        let mut more = copies_of(alloc, self.as_slice())?;
        more.push(read)?;
        *self = Items::Many(more);
        Ok(())
    }
}

/// A list of equal reads, with room for one more; refused if memory ran out.
fn copies_of(alloc: Global, reads: &[Read]) -> Result<Vec<Read>, AllocError>
    ensures { IfOk result (λ copies. copies.items ≡ reads.now) }
{
    let mut copies = Vec::with_capacity(alloc, reads.len() + 1)?;
    for read in reads {
        copies.push(read.copy()?)?;
    }
    Ok(copies)
}
