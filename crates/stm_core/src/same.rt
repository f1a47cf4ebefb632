//! Whether two runs were given equal answers. Takes no memory.

ghost use Rattle.std.specs.Prelude.{◌≡◌, ◌↔◌, true};

use rv_ledger::StoredValue;
use rv_step::StorageAnswer;

/// Whether two runs were given equal answers, in the same order.
pub(crate) fn same_answers(left: &[StorageAnswer], right: &[StorageAnswer]) -> bool
    ensures { (result ≡ true) ↔ (left.now ≡ right.now) }
{
    if left.len() != right.len() {
        return false;
    }
    for i in 0..left.len() {
        if !same_answer(&left[i], &right[i]) {
            return false;
        }
    }
    true
}

/// Whether two answers are equal.
fn same_answer(left: &StorageAnswer, right: &StorageAnswer) -> bool
    ensures { (result ≡ true) ↔ (left.now ≡ right.now) }
{
    left.key == right.key && left.origin.is(&right.origin) && same_value(&left.value, &right.value)
}

/// Whether two values are equal, or both absent.
fn same_value(left: &Option<StoredValue>, right: &Option<StoredValue>) -> bool
    ensures { (result ≡ true) ↔ (left.now ≡ right.now) }
{
    match (left, right) {
        (None, None) => true,
        (Some(left), Some(right)) => left.bytes() == right.bytes(),
        _ => false,
    }
}
