//! The run of one call over a storage, and the keys that it reads.

ghost use Rattle.std.specs.Prelude.{◌≡◌, ◌<◌, IfOk, OnOk, Some};
ghost use Rattle.conflicts.specs.Reads.{keys_in, keys_read};
ghost use Rattle.rv_step.specs.Chain.{ends};
ghost use Rattle.rv_step.specs.Replies.{replies_of};
ghost use Rattle.rv_step.specs.Chain.{AreFrom};
ghost use Rattle.rv_step.specs.Run.{asked_key, steps_left};

use crate::keys::KeySet;
use read_set::Origin;
use rv_ledger::{Call, Key, LentValue, Receipt, Store};
use rv_step::{EndedRun, Pause, Run, SpareRun, StorageAnswer};
use std::alloc::{AllocError, Global};
use std::mem::replace;

/// The receipt of a call, and the keys that it read.
#[derive(Drop)]
pub(crate) struct Reading {
    pub(crate) receipt: Receipt,
    pub(crate) keys: KeySet,
}

/// Runs a call over a storage. The run takes the machine and the list of an earlier call's run, and leaves them to the next.
/// Refused if memory ran out.
pub(crate) fn reading_of(
    alloc: Global,
    spare: &mut SpareRun,
    call: &Call,
    store: &Store,
) -> Result<Reading, AllocError>
    ensures receipt { IfOk result (λ r. r.receipt ≡ ends call.now store.now) }
    ensures keys { IfOk result (λ r. r.keys ≡ keys_read call.now store.now) }
{
    let ended = run_answered(alloc, spare, call, store)?;
    let keys = keys_answered(alloc, ended.answers.as_slice())?;
    spare.keep_answers(ended.answers);
    Ok(Reading {
        receipt: ended.receipt,
        keys,
    })
}

/// Runs a call whose answers are the storage's.
fn run_answered(
    alloc: Global,
    spare: &mut SpareRun,
    call: &Call,
    store: &Store,
) -> Result<EndedRun, AllocError>
    ensures call { IfOk result (λ r. r.call ≡ call.now) }
    ensures from { IfOk result (λ r. AreFrom store.now (replies_of r.answers.items)) }
{
    let mut run = Run::start_in(alloc, replace(spare, SpareRun::new(alloc)), call)?;
    let mut pause = run.go()?;
    while let Pause::Ask(key) = pause {
        answer_from(alloc, &mut run, &key, store)?;
        pause = run.go()?;
    }
    Ok(run.finish_in(spare))
}

/// Answers a run that asks for a key, from a storage. Refused if memory ran out.
fn answer_from(alloc: Global, run: &mut Run, key: &Key, store: &Store) -> Result<(), AllocError>
    requires { asked_key run.old.stage ≡ Some key.now }
    ensures call { OnOk result (run.new.call ≡ run.old.call) }
    ensures from { OnOk result (AreFrom store.now (replies_of run.old.answers) → AreFrom store.now (replies_of run.new.answers)) }
    ensures fewer { OnOk result (steps_left run.new < steps_left run.old) }
{
    let content = LentValue::of_stored(store.get(key));
    run.answer_lent(content, Origin::base(alloc))
}

/// The keys of some answers. Refused if memory ran out.
fn keys_answered(alloc: Global, answers: &[StorageAnswer]) -> Result<KeySet, AllocError>
    ensures { IfOk result (λ keys. keys ≡ keys_in (replies_of answers.now)) }
{
    let mut keys = KeySet::new(alloc);
    for answer in answers {
        keys.insert(answer.key)?;
    }
    Ok(keys)
}
