//! The receipt of a call.

use crate::end::End;
use crate::stored_bytes::StoredOutput;
use crate::writes::Writes;
use rv_isa::Regs;
use std::alloc::AllocError;

/// What one call did.
#[derive(Drop)]
pub struct Receipt {
    /// How it ended.
    pub end: End,
    /// The gas that it used, at most its limit.
    pub gas: u32,
    /// The address of the instruction that ended it.
    pub pc: u32,
    /// What it returned or reverted with; empty after any other end.
    pub out: StoredOutput,
    /// The registers at its end.
    pub regs: Regs,
    /// What it wrote; empty unless it returned.
    pub writes: Writes,
}

impl Receipt {
    ghost use Rattle.std.specs.Prelude.{◌≡◌, IfOk};

    /// An equal receipt; refused if memory ran out.
    pub fn copy(&self) -> Result<Receipt, AllocError>
        ensures { IfOk result (λ r. r ≡ self.now) }
    {
        Ok(Receipt {
            end: self.end,
            gas: self.gas,
            pc: self.pc,
            out: self.out.clone()?,
            regs: self.regs,
            writes: self.writes.copy()?,
        })
    }
}
