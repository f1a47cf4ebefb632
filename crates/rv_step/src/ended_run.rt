//! A run that has ended.

ghost use Rattle.std.specs.Prelude.{◌≡◌, Some};
ghost use Rattle.std.specs.Coded.{Coded-set, coded_option};
ghost use Rattle.rv_step.specs.Chain.{borne_out};
ghost use Rattle.rv_step.specs.Replies.{replies_of};

use crate::answer::StorageAnswer;
use rv_ledger::{Call, Receipt};

/// A run that has ended. Its receipt is proved to be the one that its call reaches with these answers.
#[derive(Drop)]
pub struct EndedRun {
    /// The call.
    pub call: Call,
    /// The storage's answers, in order.
    pub answers: Vec<StorageAnswer>,
    /// What the call did.
    pub receipt: Receipt,
    pub ghost borne_out: { borne_out call (replies_of answers.items) ≡ Some receipt } by { Coded-set (coded_option receipt-code) (borne_out call (replies_of answers.items)) (Some receipt) },
}
