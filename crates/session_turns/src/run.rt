//! Running the calls of a frame beside the storage.

ghost use Rattle.std.specs.Prelude.{◌≡◌, ◌⊎◌, IfErr, IfOk, IsTrue, OnOk};
ghost use Rattle.std.specs.FinMap as fin;
ghost use Rattle.overlay.specs.Overlay.{with_changes};
ghost use Rattle.receipts.specs.Brief.{receipts_text};
ghost use Rattle.rv_ledger.specs.Key.{Storage};
ghost use Rattle.rv_step.specs.Fold.{receipts_of, store_after};
ghost use Rattle.session_turns.specs.Turn.{put_over};
ghost use Rattle.session_turns.specs.Stages.{left_of};

use crate::refusal::Failure;
use crate::runner::CallRunner;
use overlay::{Overlay, commit};
use receipts::receipts_text;
use rv_ledger::{Call, Store};
use std::alloc::{AllocError, Global};

/// What a frame leaves, before the change is made.
#[derive(Drop)]
pub enum Left {
    /// Changes of the storage.
    Changed(Overlay),
    /// Another storage in the place of an empty one.
    Begun(Store),
}

/// Runs calls on a storage with entries put over it, and leaves the storage as it is. Returns the text of the receipts, and what
/// the calls leave. In order, the cost does not grow with the storage. Fails if memory runs out.
///
/// Over an empty storage the calls run on the entries, which were made in one pass.
#[tactic(auto, using(overlay::proofs::WithChanges::without_changes, crate::proofs::Entries::over_none))]
pub(crate) fn run_beside<C: CallRunner>(
    alloc: Global,
    runner: &mut C,
    is_brief: bool,
    store: &Store,
    entries: Store,
    calls: &[Call],
) -> Result<(Vec<u8>, Left), Failure>
    requires ready { C.ready }
    ensures text { IfOk result (λ ran. ran.0.items ≡ receipts_text is_brief (receipts_of calls.now (put_over store.now entries))) }
    ensures left { IfOk result (λ ran. left_of store.now ran.1 ≡ store_after calls.now (put_over store.now entries)) }
    ensures failure { IfErr result (λ failure. (failure ≡ Failure.Run) ⊎ (failure ≡ Failure.Answer)) }
{
    if is_empty(store) {
        return run_first(alloc, runner, is_brief, entries, calls);
    }
    let mut changes = Overlay::new(alloc);
    match put_entries(&mut changes, &entries) {
        Ok(()) => {}
        Err(AllocError) => return Err(Failure::Run),
    }
    let text = run_changed(alloc, runner, is_brief, store, &mut changes, calls)?;
    Ok((text, Left::Changed(changes)))
}

/// Whether a storage has no key.
#[tactic(auto, using(crate::proofs::Entries::no_entries))]
fn is_empty(store: &Store) -> bool
    ensures { IsTrue result → store.now ≡ fin.empty }
{
    store.iter().next().is_none()
}

/// Runs calls on entries alone.
#[tactic(auto, using(overlay::proofs::WithChanges::without_changes))]
fn run_first<C: CallRunner>(
    alloc: Global,
    runner: &mut C,
    is_brief: bool,
    entries: Store,
    calls: &[Call],
) -> Result<(Vec<u8>, Left), Failure>
    requires ready { C.ready }
    ensures text { IfOk result (λ ran. ran.0.items ≡ receipts_text is_brief (receipts_of calls.now entries)) }
    ensures left { IfOk result (λ ran. left_of fin.empty ran.1 ≡ store_after calls.now entries) }
    ensures failure { IfErr result (λ failure. (failure ≡ Failure.Run) ⊎ (failure ≡ Failure.Answer)) }
{
    let mut first = entries;
    let mut changes = Overlay::new(alloc);
    let text = run_changed(alloc, runner, is_brief, &first, &mut changes, calls)?;
    match commit(&mut first, changes) {
        Ok(()) => Ok((text, Left::Begun(first))),
        Err(AllocError) => Err(Failure::Run),
    }
}

/// Runs calls on a storage with changes over it, and adds theirs to the changes.
fn run_changed<C: CallRunner>(
    alloc: Global,
    runner: &mut C,
    is_brief: bool,
    store: &Store,
    changes: &mut Overlay,
    calls: &[Call],
) -> Result<Vec<u8>, Failure>
    requires ready { C.ready }
    ensures text { IfOk result (λ text. text.items ≡ receipts_text is_brief (receipts_of calls.now (with_changes store.now changes.old))) }
    ensures store { OnOk result (with_changes store.now changes.new ≡ store_after calls.now (with_changes store.now changes.old)) }
    ensures failure { IfErr result (λ failure. (failure ≡ Failure.Run) ⊎ (failure ≡ Failure.Answer)) }
{
    let receipts = match runner.run_calls(alloc, store, changes, calls) {
        Ok(receipts) => receipts,
        Err(AllocError) => return Err(Failure::Run),
    };
    match receipts_text(alloc, is_brief, receipts.as_slice()) {
        Ok(text) => Ok(text),
        Err(AllocError) => Err(Failure::Answer),
    }
}

/// Adds the entries of a storage to changes. Refused if memory ran out.
fn put_entries(changes: &mut Overlay, entries: &Store) -> Result<(), AllocError>
    ensures { OnOk result ((base : Storage) → with_changes base changes.new ≡ put_over (with_changes base changes.old) entries.now) }
{
    for (key, value) in entries.iter() {
        changes.set(*key, Some(value.clone()?))?;
    }
    Ok(())
}
