//! Laws of what the calls of a block read and wait for.

ghost use Rattle.conflicts.specs.ByKey.{calls_by_key};
ghost use Rattle.conflicts.specs.LeftOut.{AgreeAt, IsClosedUnderWaits, Needs, items_where};
ghost use Rattle.conflicts.specs.Paths.{WaitsAt};
ghost use Rattle.conflicts.specs.Reads.{keys_read};
ghost use Rattle.conflicts.specs.Sums.{keys_of_calls};
ghost use Rattle.conflicts.specs.Text.{IsNamed};
ghost use Rattle.conflicts.specs.Waits.{calls_of};
ghost use Rattle.rv_ledger.specs.Call.{Invocation};
ghost use Rattle.rv_ledger.specs.Key.{Storage};
ghost use Rattle.rv_step.specs.Chain.{ends};
ghost use Rattle.rv_step.specs.Fold.{receipts_of};
ghost use Rattle.std.specs.Prelude.{◌≡◌, ◌↔◌, ℕ, Bool, List, true};

/// A law, and no code: a call that runs over another storage has the same receipt, and reads the same keys, if both storages have
/// the same at each key that it reads.
pub fn only_keys_read_matter()
    ensures receipt { (call : Invocation) (one other : Storage) → AgreeAt (keys_read call one) one other
        → ends call one ≡ ends call other }
    ensures keys { (call : Invocation) (one other : Storage) → AgreeAt (keys_read call one) one other
        → keys_read call one ≡ keys_read call other }
{}

/// A law, and no code: calls that no call of the others waits for can be left out of a block. The receipts of the others stay as
/// they are. So the receipt of one call depends only on the calls that it needs: those that it waits for, directly or through
/// others.
pub fn calls_can_be_left_out()
    ensures closed { (block : List Invocation) (store : Storage) (stays : ℕ → Bool) → IsClosedUnderWaits stays (calls_of block store)
        → receipts_of (items_where stays block) store ≡ items_where stays (receipts_of block store) }
    ensures one_call { (block : List Invocation) (store : Storage) (stays : ℕ → Bool) (j : ℕ)
        → ((i : ℕ) → (stays i ≡ true) ↔ Needs (calls_of block store) j i)
        → receipts_of (items_where stays block) store ≡ items_where stays (receipts_of block store) }
{}

/// A law, and no code: the lines of a block's text name its waits, and no others.
pub fn lines_name_the_waits()
    ensures { (block : List Invocation) (store : Storage) (j i : ℕ) (key : List ℕ)
        → WaitsAt (calls_of block store) j i key ↔ IsNamed (calls_by_key block store) (keys_of_calls block store) j i key }
{}
