//! The text of a result determines its receipts and its storage.

ghost use Rattle.std.specs.Prelude.{◌≡◌, List};
ghost use Rattle.rv_ledger.specs.Key.{Storage};
ghost use Rattle.rv_ledger.specs.declared.receipt.Receipt.{Receipt};
ghost use Rattle.receipts.specs.Ranges.{AreInRange};
ghost use Rattle.receipts.specs.Text.{result_text};

use crate::ranges::are_in_range;
use rv_ledger::Outcome;

/// A law, and no code: two results with the same text are equal, if their numbers are in the ranges that the types of
/// a result keep.
pub fn one_text()
    ensures { (r s : List Receipt) (a b : Storage)
        → AreInRange r a → AreInRange s b
        → result_text r a ≡ result_text s b
        → (r ≡ s) × (a ≡ b) }
{}

/// The same law for two outcomes that a program holds: if their texts are equal, so are their receipts and storages.
/// It walks over both and changes nothing.
pub fn one_text_of(first: &Outcome, second: &Outcome)
    ensures { result_text first.now.receipts.items first.now.store ≡ result_text second.now.receipts.items second.now.store
        → (first.now.receipts.items ≡ second.now.receipts.items) × (first.now.store ≡ second.now.store) }
{
    are_in_range(first.receipts.as_slice(), &first.store);
    are_in_range(second.receipts.as_slice(), &second.store);
}
