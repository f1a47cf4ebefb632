//! The room for what is pending: all the memory that making it takes.

ghost use Rattle.std.specs.Prelude.{◌≡◌, IfErr, IfOk, IsSome, OnErr, OnOk};
ghost use Rattle.std.specs.Arc.{arc_value};
ghost use Rattle.std.specs.FinMap.{insert};
ghost use Rattle.session_turns.specs.Pending.{HasRoomFor, HasRoomForRun, IsNewProgram, MayWantRoom};
ghost use Rattle.session_turns.specs.Ready.{store_without};

use crate::pending::{Pending, PendingRun};
use crate::program_table::ProgramTable;
use crate::refusal::Failure;
use crate::run::Left;
use crate::state::State;
use elf32::Image;
use overlay::{give_back as give_back_keys, make_room as make_room_for};
use rv_ledger::{Key, Store};
use std::alloc::AllocError;
use std::sync::Arc;

/// Makes the room that what is pending needs, and returns the keys that were put in for it. Fails if memory runs out, and then
/// nothing changes.
pub(crate) fn make_room(state: &mut State, pending: &Pending) -> Result<Option<Vec<Key>>, Failure>
    requires { IsNewProgram state.old pending.now }
    ensures ok { IfOk result (λ keys. HasRoomFor state.old pending.now keys state.new) }
    ensures err { OnErr result (state.new ≡ state.old) }
    ensures failure { IfErr result (MayWantRoom pending.now) }
{
    match pending {
        Pending::Program(name, image, _) => match put_shared(&mut state.programs, *name, image) {
            Ok(()) => Ok(None),
            Err(AllocError) => Err(Failure::Program),
        },
        Pending::Frame(frame) => match room_for_run(&mut state.store, &frame.run) {
            Ok(keys) => Ok(keys),
            Err(AllocError) => Err(Failure::Run),
        },
        _ => Ok(None),
    }
}

/// Puts a shared program under its name. Refused if memory ran out, and then nothing changes.
fn put_shared(programs: &mut ProgramTable, name: Key, image: &Arc<Image>) -> Result<(), AllocError>
    ensures ok { OnOk result (programs.new ≡ insert programs.old name (arc_value image.now)) }
    ensures err { OnErr result (programs.new ≡ programs.old) }
{
    let image = Arc::try_clone(image)?;
    programs.insert(name, image)
}

/// Makes the room that what a run leaves needs in a storage. Refused if memory ran out, and then nothing changes.
fn room_for_run(store: &mut Store, run: &Option<PendingRun>) -> Result<Option<Vec<Key>>, AllocError>
    ensures ok { IfOk result (λ keys. HasRoomForRun store.old run.now keys store.new) }
    ensures err { OnErr result (store.new ≡ store.old) }
    ensures ran { OnErr result (IsSome run.now) }
{
    match run {
        Some(run) => match &run.left {
            Left::Changed(changes) => match make_room_for(store, changes) {
                Ok(keys) => Ok(Some(keys)),
                Err(AllocError) => Err(AllocError),
            },
            Left::Begun(_) => Ok(None),
        },
        None => Ok(None),
    }
}

/// Frees the room for what a run leaves.
pub(crate) fn give_back_run(store: &mut Store, run: &Option<PendingRun>, keys: Option<Vec<Key>>)
    ensures { HasRoomForRun (store_without run.now keys store.old) run.now keys store.old → store.new ≡ store_without run.now keys store.old }
{
    let (Some(run), Some(keys)) = (run, keys) else {
        return;
    };
    match &run.left {
        Left::Changed(_) => give_back_keys(store, keys.as_slice()),
        Left::Begun(_) => {}
    }
}
