//! The run of one call of a block, over what is known of the storage.

ghost use Rattle.std.specs.Prelude.{◌≡◌, ◌<◌, ◌≤◌, IfOk, OnErr, Some, true};
ghost use Rattle.std.specs.FinMap as map;
ghost use Rattle.rv_step.specs.Run.{asked_key, steps_left};
ghost use Rattle.host_block.specs.Changes.{known_after};
ghost use Rattle.host_block.specs.Known.{IsAnsweredIfKnown, IsCallPause, KeepsAnswers};

use crate::known::{Known, look_up};
use crate::touched_keys::TouchedKeys;
use read_set::Origin;
use rv_ledger::{Key, LentValue};
use rv_step::{Pause, Run};
use std::alloc::AllocError;

/// Continues a run until it asks for a key that is not known, which is returned, or until its call has ended. Refused if memory
/// ran out; then the run is before the instruction that needed memory, or still asks, and may continue.
pub(crate) fn run_call(run: &mut Run, touched: &mut TouchedKeys) -> Result<Option<Key>, AllocError>
    ensures touched { touched.new ≡ touched.old }
    ensures call { run.new.call ≡ run.old.call }
    ensures from { KeepsAnswers touched.old.bases touched.old.changes run.old run.new }
    ensures stopped { IfOk result (λ asked. IsCallPause asked touched.old.bases touched.old.changes run.new) }
{
    while let Pause::Ask(key) = run.go()? {
        if !answer_known(run, touched, &key)? {
            return Ok(Some(key));
        }
    }
    Ok(None)
}

/// Answers the key that a run asks for, if it is known. Returns whether it is. Refused if memory ran out, and then nothing
/// changes.
fn answer_known(run: &mut Run, touched: &mut TouchedKeys, key: &Key) -> Result<bool, AllocError>
    requires { asked_key run.old.stage ≡ Some key.now }
    ensures touched { touched.new ≡ touched.old }
    ensures ok { IfOk result (λ is_known. IsAnsweredIfKnown (known_after (map.get touched.old.changes key.now) (map.get touched.old.bases key.now)) key.now is_known run.old run.new) }
    ensures err { OnErr result (run.new ≡ run.old) }
    ensures fewer { IfOk result (λ is_known. is_known ≡ true → steps_left run.new < steps_left run.old) }
{
    let position = touched.touch(key)?;
    match look_up(touched, key, position) {
        Known::Content(content) => {
            run.answer_lent(LentValue::of_stored(content), Origin::plain(None))?;
            Ok(true)
        }
        Known::Sum(value) => {
            run.answer(Some(&value), Origin::plain(None))?;
            Ok(true)
        }
        Known::Nothing => Ok(false),
    }
}
