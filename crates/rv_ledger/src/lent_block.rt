//! The calls of a block, lent.

ghost use Rattle.std.specs.Prelude.{◌≤◌, length};

use crate::call::Call;
use crate::job::CALL_LIMIT;

/// Calls that are lent to run as a block, at most 1,024, in block order.
#[derive(Clone, Copy)]
pub struct LentBlock<'a> {
    calls: &'a [Call],
    ghost few: { length calls.now ≤ 1024 },
}

impl<'a> LentBlock<'a> {
    ghost use Rattle.std.specs.Prelude.{◌≡◌, ◌<◌, ◌≤◌, ◌↔◌, IfSome, None, length};

    /// These calls; None if there are more than 1,024.
    pub fn of(calls: &'a [Call]) -> Option<LentBlock<'a>>
        ensures some { IfSome result (λ block. block.calls.now ≡ calls.now) }
        ensures none { (result ≡ None) ↔ (1024 < length calls.now) }
    {
        if calls.len() > CALL_LIMIT {
            return None;
        }
        Some(LentBlock { calls })
    }

    /// The calls in order.
    pub fn calls(self) -> &'a [Call]
        ensures value { result.now ≡ self.entry.calls.now }
        ensures count { length self.entry.calls.now ≤ 1024 }
    {
        self.calls
    }
}
