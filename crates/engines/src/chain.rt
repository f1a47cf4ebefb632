//! The engine of `rvstm chain`, over any input and writer.

ghost use Rattle.std.specs.Prelude.{◌≡◌, false, IfErr, IfSome, None, OnOk};
ghost use Rattle.std.specs.declared.convert.Infallible.{Infallible};
ghost use Rattle.session_durability.specs.Durable.{IsFileAnswer, IsShutBy, IsFileSessionStopped, moment};
ghost use Rattle.session_durability.specs.Keeping.{IsKeptBy};
ghost use Rattle.engines.specs.Chain.{broken_of, cut_of, durably_cut, never_shut};
ghost use Rattle.session_serving.specs.Serving.{IsEndedBy, IsServed, MayEnd};
ghost use Rattle.session_serving.specs.declared.serving.ServeFault.{ServeFault};
ghost use Rattle.session_states.specs.States.{file_state};
ghost use Rattle.session_states.specs.declared.fault.StoreFault.{StoreFault};
ghost use Rattle.sqlite_trees.specs.View.{IsClean};
ghost use Rattle.session_turns.specs.Failures.{IsAnswer};
ghost use Rattle.session_turns.specs.Turn.{new_session};
ghost use Rattle.session_turns.specs.declared.state.State.{State};

use crate::fault::{InputFault, Refusal};
use byte_streams::{BufferedSource, Destination};
use session_durability::FileSession;
use session_requests::RequestFault;
use session_serving::{ServeFault, serve};
use session_states::StoreFault;
use session_turns::{CallRunner, Settings, State};
use sqlite_trees::store::Store;
use std::alloc::Global;
use std::convert::Infallible;

/// Answers each request of an input in a new session, up to a `q` or the input's end. A runner runs the calls of its frames,
/// which changes no answer. Each answer is written and flushed before more is read. Refused as BadLine or Cut if the next bytes
/// are no request, which is answered too. Refused as Unreadable if a read failed, before anything of a request was done.
/// Refused as Output if a write failed; a beginning of the answer was then written.
pub fn chain_to<R: BufferedSource, C: CallRunner, W: Destination>(
    alloc: Global,
    input: &mut R,
    runner: &mut C,
    settings: Settings,
    out: &mut W,
) -> Result<(), Refusal>
    requires ready { C.ready }
    ensures ok { OnOk result (IfSome (R.remaining input.old) (λ bytes. (after : State)
        × IsServed (IsAnswer settings) None (new_session settings) bytes after (W.contents out.old) (W.contents out.new))) }
    ensures err { IfErr result (λ e. IfSome (R.remaining input.old) (λ bytes. (fault : ServeFault Infallible) × (after : State) × (e ≡ cut_of fault)
        × IsEndedBy (R.may_fail input.old) (IsAnswer settings) never_shut fault (new_session settings) bytes after (W.contents out.old) (W.contents out.new))) }
    ensures refused { IfErr result (λ e. (fault : ServeFault Infallible) × (e ≡ cut_of fault) × MayEnd (W.may_refuse out.old) fault) }
{
    let mut state = State::new(alloc, settings);
    match serve(alloc, input, runner, settings, &mut state, out) {
        Ok(()) => Ok(()),
        Err(fault) => Err(Refusal::from(fault)),
    }
}

/// Of bytes that are no request.
impl From<RequestFault> for Refusal {
    ghost from_gives = { λ request refusal. refusal ≡ broken_of request };

    fn from(fault: RequestFault) -> Refusal {
        match fault {
            RequestFault::BadLine => Refusal::Request(InputFault::BadLine),
            RequestFault::Cut => Refusal::Request(InputFault::Cut),
        }
    }
}

/// Of what ends a session in memory.
impl From<ServeFault<Infallible>> for Refusal {
    ghost from_gives = { λ fault refusal. refusal ≡ cut_of fault };

    fn from(fault: ServeFault<Infallible>) -> Refusal {
        match fault {
            ServeFault::Broken(fault) => Refusal::from(fault),
            ServeFault::Unreadable => Refusal::Request(InputFault::Unreadable),
            ServeFault::Output(fault) => Refusal::Output(fault),
        }
    }
}

/// Of what ends a session over a file.
impl From<ServeFault<StoreFault>> for Refusal {
    ghost from_gives = { λ fault refusal. refusal ≡ durably_cut fault };

    fn from(fault: ServeFault<StoreFault>) -> Refusal {
        match fault {
            ServeFault::Broken(fault) => Refusal::from(fault),
            ServeFault::Unreadable => Refusal::Request(InputFault::Unreadable),
            ServeFault::Output(fault) => Refusal::Output(fault),
            ServeFault::Shut(fault) => Refusal::Store(fault),
        }
    }
}

/// Answers each request of an input in the session of an open file, as `chain_to` does in a new session. What a request changes
/// is on the disk before a byte of its answer is written. If the file did not take a change, and is open and as before, the
/// answer is `failed store`, and the request may be given again. Refused as `chain_to` is, and as Store if the file is shut:
/// only another open mends it, the request that met this has no answer, and the next session shows whether it was kept.
///
/// However the session ends, a crash leaves what the requests that were answered in full left, or the next one too. By the
/// crash argument of the file's log the same holds if the machine stops at any moment of it.
pub fn durable_chain_to<R: BufferedSource, S: Store, C: CallRunner, W: Destination>(
    alloc: Global,
    input: &mut R,
    runner: &mut C,
    settings: Settings,
    session: &mut FileSession<S>,
    out: &mut W,
) -> Result<(), Refusal>
    requires ready { C.ready }
    requires kept { IsKeptBy settings (S.Store.view session.old.file) (file_state session.old.state session.old.found) }
    requires sound { IsClean (S.Store.view session.old.file) → (S.Store.view session.old.file).is_broken ≡ false }
    ensures ok { OnOk result (IfSome (R.remaining input.old) (λ bytes. IsServed (IsFileAnswer settings) None (moment (file_state session.old.state session.old.found) (S.Store.view session.old.file) (S.Store.faults session.old.file)) bytes
        (moment (file_state session.new.state session.new.found) (S.Store.view session.new.file) (S.Store.faults session.new.file)) (W.contents out.old) (W.contents out.new))) }
    ensures err { IfErr result (λ e. (fault : ServeFault StoreFault) × (e ≡ durably_cut fault) × IfSome (R.remaining input.old) (λ bytes. IsEndedBy (R.may_fail input.old) (IsFileAnswer settings) (IsShutBy settings) fault
        (moment (file_state session.old.state session.old.found) (S.Store.view session.old.file) (S.Store.faults session.old.file)) bytes (moment (file_state session.new.state session.new.found) (S.Store.view session.new.file) (S.Store.faults session.new.file)) (W.contents out.old) (W.contents out.new))) }
    ensures stopped { IsClean (S.Store.view session.new.file) → IfSome (R.remaining input.old) (λ bytes. IsFileSessionStopped settings (moment (file_state session.old.state session.old.found) (S.Store.view session.old.file) (S.Store.faults session.old.file)) bytes
        (W.contents out.old) (W.contents out.new) (S.Store.recovers session.new.file)) }
    ensures kept { IsKeptBy settings (S.Store.view session.new.file) (file_state session.new.state session.new.found) }
    ensures refused { IfErr result (λ e. (fault : ServeFault StoreFault) × (e ≡ durably_cut fault) × MayEnd (W.may_refuse out.old) fault) }
{
    match serve(alloc, input, runner, settings, session, out) {
        Ok(()) => Ok(()),
        Err(fault) => Err(Refusal::from(fault)),
    }
}
