//! Laws about the moments of a call.

ghost use Rattle.std.specs.Prelude.{◌≡◌, ◌+◌, ◌≤◌, ℕ, Some, true, IfSome, slice_get};
ghost use Rattle.rv_ledger.specs.Call.{Invocation};
ghost use Rattle.rv_ledger.specs.Key.{Storage};
ghost use Rattle.rv_ledger.specs.declared.outcome.Outcome.{Outcome};
ghost use Rattle.rv_ledger.specs.declared.receipt.Receipt.{Receipt};
ghost use Rattle.rv_step.specs.Chain.{ends};
ghost use Rattle.rv_step.specs.Fold.{receipts_of, store_before};
ghost use Rattle.rv_step.specs.Moment.{is_over, machine_of, moment_over};
ghost use Rattle.debugger.specs.Replay.{AgreesAtEnd, opened};

/// A law, and no code: if an outcome's receipts are those of running its calls in order, a replay of one of the calls is over
/// the storage that the calls before it left.
pub fn opens_over_its_storage()
    ensures { (outcome : Outcome) (index : ℕ)
        → outcome.receipts.items ≡ receipts_of outcome.job.block outcome.job.store
        → IfSome (opened outcome index) (λ r. r.store ≡ store_before outcome.job.block index outcome.job.store) }
{}

/// A law, and no code: a call is over after at most one step more than it has gas. When it is over, it has
/// the pc and the registers of its receipt.
pub fn last_moment_is_the_receipts()
    ensures comes { (call : Invocation) (store : Storage) → (n : ℕ) × (n ≤ call.gas + 1) × (is_over (moment_over call store n) ≡ true) }
    ensures pc { (call : Invocation) (store : Storage) (n : ℕ) → is_over (moment_over call store n) ≡ true
        → (machine_of (moment_over call store n)).pc ≡ (ends call store).pc }
    ensures regs { (call : Invocation) (store : Storage) (n : ℕ) → is_over (moment_over call store n) ≡ true
        → (machine_of (moment_over call store n)).regs ≡ (ends call store).regs }
{}

/// A law, and no code: if an outcome's receipts are those of running its calls in order, a replay of one of the calls ends with
/// the pc and the registers of the outcome's receipt of that call.
pub fn replay_ends_as_its_receipt()
    ensures { (outcome : Outcome) (index n : ℕ) (receipt : Receipt)
        → outcome.receipts.items ≡ receipts_of outcome.job.block outcome.job.store
        → slice_get outcome.receipts.items index ≡ Some receipt
        → IfSome (opened outcome index) (λ r. AgreesAtEnd receipt (record r { moment = n })) }
{}
