//! Opening the session that a store keeps, or beginning one in it.

ghost use Rattle.std.specs.Prelude.{◌≡◌, ◌⊎◌, ◌≤◌, false, true, IfErr, IfOk, OnOk};
ghost use Rattle.sqlite_disk.specs.Disk.{MoreFaults};
ghost use Rattle.sqlite_trees.specs.Tree.{Trees};
ghost use Rattle.sqlite_trees.specs.View.{HasCause, IsClean, Tells, doubt};
ghost use Rattle.session_file.specs.Kept.{HoldsIn};
ghost use Rattle.session_file.specs.Opening.{IsFresh};
ghost use Rattle.session_file.specs.Staging.{FailsFor, IsKeeping, Lasts};
ghost use Rattle.session_states.specs.States.{file_state, new_state, nothing_kept};
ghost use Rattle.session_turns.specs.Turn.{new_session};
ghost use Rattle.session_durability.specs.Durable.{HasNoRow, HoldsState};
ghost use Rattle.session_durability.specs.Keeping.{IsKeptBy};
ghost use Rattle.session_durability.specs.Opened.{IsFoundIn, new_kept, IsSessionUnopened, store_fault_of, fault_of_load, fault_of_open};

use crate::session::FileSession;
use rv_ledger::Rules;
use session_file::{OpenFault, SessionFile, open_session};
use session_states::{LoadFault, Loaded, ProgramLoader, StoreFault, load_state, row_of};
use session_turns::Settings;
use sqlite_trees::error::StoreError;
use sqlite_trees::store::Store;
use std::alloc::Global;

/// Why a store is not opened as a session of some settings.
#[derive(Clone, Copy, Debug, PartialEq, Eq)]
pub enum SessionFault {
    /// Its trees are not those of a session.
    NotASession,
    /// Its session is kept by another version of the format.
    OtherVersion,
    /// Its session has other settings.
    OtherSettings,
    /// It has a row that is not one of a session.
    Damaged,
    /// The store failed, or memory ran out.
    Store(StoreError),
}

impl From<OpenFault> for SessionFault {
    ghost from_gives = { λ below fault. fault ≡ fault_of_open below };

    fn from(fault: OpenFault) -> SessionFault {
        match fault {
            OpenFault::NotASession => SessionFault::NotASession,
            OpenFault::OtherVersion => SessionFault::OtherVersion,
            OpenFault::Damaged => SessionFault::Damaged,
            OpenFault::Store(error) => SessionFault::Store(error),
        }
    }
}

impl From<LoadFault> for SessionFault {
    ghost from_gives = { λ load fault. fault ≡ fault_of_load load };

    fn from(fault: LoadFault) -> SessionFault {
        match fault {
            LoadFault::OtherSettings => SessionFault::OtherSettings,
            LoadFault::Damaged => SessionFault::Damaged,
        }
    }
}

/// The fault that is reported of it.
impl From<SessionFault> for StoreFault {
    ghost from_gives = { λ session fault. fault ≡ store_fault_of session };

    fn from(fault: SessionFault) -> StoreFault {
        match fault {
            SessionFault::NotASession => StoreFault::NotASession,
            SessionFault::OtherVersion => StoreFault::OtherVersion,
            SessionFault::OtherSettings => StoreFault::OtherSettings,
            SessionFault::Damaged => StoreFault::Damaged,
            SessionFault::Store(error) => StoreFault::from(error),
        }
    }
}

/// Opens a store that was just opened, or made with no rows, as a session of these settings, which keep a digest. If it has no
/// rows, a new session begins, and its row is on the disk before this returns. Refused as NotASession, OtherVersion,
/// OtherSettings and Damaged by what the store has. Refused as Store if the store fails, if the row of a new session is beyond
/// the format, or if memory runs out. A refusal returns the store.
pub fn open_durably<S: Store>(
    alloc: Global,
    settings: Settings,
    store: S,
) -> Result<FileSession<S>, (SessionFault, S)>
    requires fresh { IsClean (S.Store.view store) → IsFresh (S.Store.view store) }
    requires digest { settings.keeps_digest ≡ true }
    ensures kept { IfOk result (λ s. IsKeptBy settings (S.Store.view s.file) (file_state s.state s.found)) }
    ensures sound { IfOk result (λ s. IsClean (S.Store.view s.file) → (S.Store.view s.file).is_broken ≡ false) }
    ensures opened { IfOk result (λ s. IsClean (S.Store.view s.file) → IsFoundIn settings (S.Store.view store).trees (file_state s.state s.found)) }
    ensures crash { IfOk result (λ s. (db : Trees) → S.Store.recovers s.file db → S.Store.recovers store db ⊎ HoldsState settings (new_state settings) db) }
    ensures refused { IfErr result (λ e. IsClean (S.Store.view e.1) → IsSessionUnopened settings (S.Store.view store) (MoreFaults (S.Store.faults store) (S.Store.faults e.1)) e.0) }
    ensures told { IfErr result (λ e. (error : StoreError) → e.0 ≡ SessionFault.Store error → Tells (S.Store.blamed e.1) error) }
    ensures left { IfErr result (λ e. (db : Trees) → S.Store.recovers e.1 db → S.Store.recovers store db ⊎ HoldsState settings (new_state settings) db) }
{
    let (file, found) = match open_session(alloc, store, ProgramLoader::new(alloc)) {
        Ok(opened) => opened,
        Err((fault, store)) => return Err((SessionFault::from(fault), store)),
    };
    let loaded = match load_state(alloc, settings, found) {
        Ok(loaded) => loaded,
        Err(fault) => return Err((SessionFault::from(fault), file.into_store())),
    };
    if loaded.is_new {
        return begin_new(settings, file, loaded);
    }
    Ok(FileSession {
        file,
        state: loaded.state,
        found: loaded.answer,
    })
}

/// Begins a new session over a file that has no rows.
fn begin_new<S: Store>(
    settings: Settings,
    file: SessionFile<S>,
    loaded: Loaded,
) -> Result<FileSession<S>, (SessionFault, S)>
    requires digest { settings.keeps_digest ≡ true }
    requires nothing { IsKeeping (S.Store.view file) nothing_kept }
    requires new { file_state loaded.state loaded.answer ≡ new_state settings }
    ensures kept { IfOk result (λ s. IsKeptBy settings (S.Store.view s.file) (file_state s.state s.found)) }
    ensures new { IfOk result (λ s. file_state s.state s.found ≡ new_state settings) }
    ensures sound { IfOk result (λ s. IsClean (S.Store.view s.file) → (S.Store.view s.file).is_broken ≡ false) }
    ensures crash { IfOk result (λ s. (db : Trees) → S.Store.recovers s.file db → S.Store.recovers file db ⊎ HoldsState settings (new_state settings) db) }
    ensures clean { IfOk result (λ s. doubt (S.Store.view file).is_clean ≤ doubt (S.Store.view s.file).is_clean) }
    ensures refused { IfErr result (λ e. (error : StoreError) × (e.0 ≡ SessionFault.Store error) × (doubt (S.Store.view file).is_clean ≤ doubt (S.Store.view e.1).is_clean)
        × (IsClean (S.Store.view e.1) → HasCause (S.Store.view file) (MoreFaults (S.Store.faults file) (S.Store.faults e.1)) (HasNoRow settings (new_session settings)) error)) }
    ensures told { IfErr result (λ e. (error : StoreError) → e.0 ≡ SessionFault.Store error → Tells (S.Store.blamed e.1) error) }
    ensures left { IfErr result (λ e. (db : Trees) → S.Store.recovers e.1 db → S.Store.recovers file db ⊎ HoldsState settings (new_state settings) db) }
{
    let mut file = file;
    match keep_new(&mut file, settings) {
        Ok(()) => Ok(FileSession {
            file,
            state: loaded.state,
            found: loaded.answer,
        }),
        Err(error) => Err((SessionFault::Store(error), file.into_store())),
    }
}

/// Keeps the row of a new session.
fn keep_new<S: Store>(file: &mut SessionFile<S>, settings: Settings) -> Result<(), StoreError>
    ensures ok { OnOk result (IsKeeping (S.Store.view file.old) nothing_kept → IsKeeping (S.Store.view file.new) (new_kept settings)) }
    ensures sound { OnOk result (IsClean (S.Store.view file.new) → (S.Store.view file.new).is_broken ≡ false) }
    ensures fails { FailsFor S.Store (HasNoRow settings (new_session settings)) file.old file.new result }
    ensures lasts { Lasts S.Store file.old file.new }
    ensures crash { IsKeeping (S.Store.view file.old) nothing_kept → (db : Trees) → S.Store.recovers file.new db → S.Store.recovers file.old db ⊎ HoldsIn db (new_kept settings) }
{
    file.stage_session(row_of(settings, Rules::One, 0, [0; 32]))?;
    file.commit()
}
