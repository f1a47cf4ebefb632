//! The command `chain`: one session, in memory or over a file.

ghost use Rattle.std.specs.Prelude.{◌≡◌, [], ◌∷◌, false, true, option_map, IfErr, IfSome, None, OnErr, OnOk};
ghost use Rattle.session_durability.specs.Durable.{moment};
ghost use Rattle.session_durability.specs.Keeping.{IsKeptBy};
ghost use Rattle.engines.specs.Opened.{OrdersFollow};
ghost use Rattle.engines.specs.Program.{IsCutKept, IsRefusedSession, KeepsFrom, KeepsSessionAt, PrintsKept, PrintsSession};
ghost use Rattle.engines.specs.Stores.{AreClosed, AsksAsTold, AsksForSession, AsksInVain, Close, HoldsCommitted, IsOfSession, KeepsOthers};
ghost use Rattle.session_states.specs.States.{file_state};
ghost use Rattle.session_states.specs.declared.fault.StoreFault.{StoreFault};
ghost use Rattle.sqlite_trees.specs.View.{IsClean};

use crate::chain::{chain_to, durable_chain_to};
use crate::fault::{Refusal, SeqFault};
use crate::stores::{SessionStores, fault_of};
use byte_streams::{BufferedSource, Destination, FallibleBuffer};
use session_durability::{FileSession, open_durably};
use session_states::StoreFault;
use session_turns::{CallRunner, Settings};
use std::alloc::Global;
use std::io::{BufReader, Read};

/// Answers the requests of the input in one session, whose calls are run by `runner`, in memory or over the file that is given.
pub(crate) fn chain<K: SessionStores, C: CallRunner, I: Read, W: Destination>(
    alloc: Global,
    stores: &mut K,
    store: Option<&str>,
    runner: &mut C,
    settings: Settings,
    input: &mut I,
    out: &mut W,
) -> Result<(), Refusal>
    requires ready { C.ready }
    ensures printed { OnOk result (IfSome (I.remaining input.old) (PrintsSession settings (option_map (λ file. file.now) store.entry) (W.contents out.old) (W.contents out.new))) }
    ensures refused { IfErr result (λ e. IfSome (I.remaining input.old) (λ bytes. IsRefusedSession settings (option_map (λ file. file.now) store.entry) (W.contents out.old) (W.contents out.new) bytes e)) }
    ensures closed { OnOk result (IfSome store.entry (λ _. AreClosed K.are_folded)) }
    ensures kept { OnOk result (IfSome store.entry (λ path. KeepsSessionAt (record settings { keeps_digest = true }) (K.trees_at stores.old) (K.trees_at stores.new) path.now (I.remaining input.old) (W.contents out.old) (W.contents out.new))) }
    ensures same { store.entry ≡ None → K.trees_at stores.new ≡ K.trees_at stores.old }
    ensures none { store.entry ≡ None → K.asked stores.new ≡ K.asked stores.old }
    ensures ok { OnOk result (IfSome store.entry (λ path. AsksForSession (K.asked stores.old) (K.asked stores.new) path.now)) }
    ensures err { OnErr result (IfSome store.entry (λ path. AsksInVain (K.asked stores.old) (K.asked stores.new) path.now)) }
    ensures told { IfErr result (λ e. IfSome store.entry (λ path. IfSome (I.remaining input.old) (λ _. AsksAsTold (K.asked stores.old) (K.asked stores.new) path.now e))) }
{
    let Ok(reader) = BufReader::new(alloc, input) else {
        return Err(Refusal::Seq(SeqFault::Memory));
    };
    let mut requests = FallibleBuffer { reader };
    match store {
        None => chain_to(alloc, &mut requests, runner, settings, out),
        Some(path) => chain_in(alloc, stores, path, &mut requests, runner, settings, out),
    }
}

/// Answers the requests of the input in the session that a file keeps, and closes the file. A file that keeps no session of these
/// settings is abandoned.
fn chain_in<K: SessionStores, R: BufferedSource, C: CallRunner, W: Destination>(
    alloc: Global,
    stores: &mut K,
    path: &str,
    requests: &mut R,
    runner: &mut C,
    settings: Settings,
    out: &mut W,
) -> Result<(), Refusal>
    requires ready { C.ready }
    ensures printed { OnOk result (IfSome (R.remaining requests.old) (PrintsKept (record settings { keeps_digest = true }) (W.contents out.old) (W.contents out.new))) }
    ensures refused { IfErr result (λ e. IfSome (R.remaining requests.old) (λ bytes. IsCutKept (R.may_fail requests.old) (record settings { keeps_digest = true }) (W.contents out.old) (W.contents out.new) bytes e)) }
    ensures closed { OnOk result (AreClosed K.are_folded) }
    ensures kept { OnOk result (KeepsSessionAt (record settings { keeps_digest = true }) (K.trees_at stores.old) (K.trees_at stores.new) path.now (R.remaining requests.old) (W.contents out.old) (W.contents out.new)) }
    ensures ok { OnOk result (AsksForSession (K.asked stores.old) (K.asked stores.new) path.now) }
    ensures err { OnErr result (AsksInVain (K.asked stores.old) (K.asked stores.new) path.now) }
    ensures told { IfErr result (λ e. IfSome (R.remaining requests.old) (λ _. AsksAsTold (K.asked stores.old) (K.asked stores.new) path.now e)) }
{
    let mut settings = settings;
    settings.keeps_digest = true;
    let (store, log) = match stores.open_store(path) {
        Ok(opened) => opened,
        Err(fault) => return Err(Refusal::Store(fault_of(fault))),
    };
    match open_durably(alloc, settings, store) {
        Ok(session) => chain_and_close(
            alloc, stores, path, session, requests, runner, settings, out,
        ),
        Err((fault, store)) => {
            let _ = stores.abandon_store(store, log);
            Err(Refusal::Store(StoreFault::from(fault)))
        }
    }
}

/// Answers the requests of the input in the session of a file that was opened at a path. Then closes the file, even if the
/// session was refused.
fn chain_and_close<K: SessionStores, R: BufferedSource, C: CallRunner, W: Destination>(
    alloc: Global,
    stores: &mut K,
    path: &str,
    session: FileSession<K::Kept>,
    requests: &mut R,
    runner: &mut C,
    settings: Settings,
    out: &mut W,
) -> Result<(), Refusal>
    requires ready { C.ready }
    requires kept { IsKeptBy settings (K.Kept.view session.file) (file_state session.state session.found) }
    requires sound { IsClean (K.Kept.view session.file) → (K.Kept.view session.file).is_broken ≡ false }
    ensures printed { OnOk result (IfSome (R.remaining requests.old) (PrintsKept settings (W.contents out.old) (W.contents out.new))) }
    ensures refused { IfErr result (λ e. IfSome (R.remaining requests.old) (λ bytes. IsCutKept (R.may_fail requests.old) settings (W.contents out.old) (W.contents out.new) bytes e)) }
    ensures closed { OnOk result (AreClosed K.are_folded) }
    ensures kept { OnOk result (IfSome (R.remaining requests.old) (KeepsFrom settings (moment (file_state session.state session.found) (K.Kept.view session.file) (K.Kept.faults session.file)) (K.trees_at stores.new path.now) (W.contents out.old) (W.contents out.new))) }
    ensures others { KeepsOthers (K.trees_at stores.old) (K.trees_at stores.new) path.now }
    ensures asks { OrdersFollow (K.asked stores.old) (K.asked stores.new) (Close ∷ []) }
    ensures told { IfErr result (λ e. IfSome (R.remaining requests.old) (λ _. IsOfSession e)) }
{
    let mut session = session;
    let ended = durable_chain_to(alloc, requests, runner, settings, &mut session, out);
    let closed = close(stores, path, session.file.into_store());
    // Not by `?`: the proof answers this arm.
    match ended {
        Ok(()) => closed,
        Err(refusal) => Err(refusal),
    }
}

/// Closes the store of a session that was opened at a path. The files that the close returns are dropped here, which unlocks
/// them.
fn close<K: SessionStores>(stores: &mut K, path: &str, store: K::Kept) -> Result<(), Refusal>
    ensures closed { OnOk result (AreClosed K.are_folded) }
    ensures kept { OnOk result (IfSome (K.trees_at stores.new path.now) (HoldsCommitted (K.Kept.view store))) }
    ensures others { KeepsOthers (K.trees_at stores.old) (K.trees_at stores.new) path.now }
    ensures asks { OrdersFollow (K.asked stores.old) (K.asked stores.new) (Close ∷ []) }
    ensures told { IfErr result IsOfSession }
    ensures refused { IfErr result (λ e. (fault : StoreFault) × (e ≡ Refusal.Store fault)) }
{
    match stores.close_store(path, store) {
        Ok(_) => Ok(()),
        Err((error, _)) => Err(Refusal::Store(StoreFault::from(error))),
    }
}
