//! The state of a session from the rows of its file.

ghost use Rattle.std.specs.Prelude.{◌≡◌, ◌≢◌, false, IfErr, IfOk, IsTrue, None, Some};
ghost use Rattle.std.specs.FinMap.{empty};
ghost use Rattle.session_tree.specs.Entries.{ByteMap};
ghost use Rattle.session_file.specs.Opening.{kept_of};
ghost use Rattle.session_states.specs.Loads.{HasNoRows, kept_rows};
ghost use Rattle.session_states.specs.States.{AreLoadedAs, IsUnloadable, Loads};

use crate::loader::ProgramLoader;
use crate::rows::has_settings;
use rv_ledger::Store;
use session_file::{AnswerRow, Found, SessionRow};
use session_turns::{Settings, State};
use std::alloc::Global;

/// Why the rows of a file are no state of a session.
#[derive(Clone, Copy, Debug, PartialEq, Eq)]
pub enum LoadFault {
    /// They keep a session of other settings.
    OtherSettings,
    /// There are rows, and no session has them all.
    Damaged,
}

/// A session that was loaded.
#[derive(Drop)]
pub struct Loaded {
    /// Its state, without the last answer.
    pub state: State,
    /// The last answer, as the file has it.
    pub answer: Option<AnswerRow>,
    /// Whether the file had no rows.
    pub is_new: bool,
}

/// The state that the rows of a file keep of a session of these settings; a new session's if there are no rows. Refused as
/// OtherSettings if the session's row has other settings, and as Damaged if no session has these rows, such as a program under
/// another name than its file's SHA-256.
pub fn load_state(
    alloc: Global,
    settings: Settings,
    found: Found<ProgramLoader>,
) -> Result<Loaded, LoadFault>
    ensures ok { IfOk result (λ loaded. (files : ByteMap) → AreLoadedAs files found.programs → Loads settings (kept_of files found) loaded) }
    ensures err { IfErr result (λ fault. (files : ByteMap) → AreLoadedAs files found.programs → IsUnloadable settings (kept_of files found) fault) }
{
    let Found {
        storage,
        programs,
        session,
        answer,
    } = found;
    match session {
        Some(row) => load_session(settings, storage, programs, row, answer),
        None => load_new(alloc, settings, &storage, &programs, &answer),
    }
}

/// The same if there is no row of a session.
fn load_new(
    alloc: Global,
    settings: Settings,
    storage: &Store,
    programs: &ProgramLoader,
    answer: &Option<AnswerRow>,
) -> Result<Loaded, LoadFault>
    ensures ok { IfOk result (λ loaded. (files : ByteMap) → AreLoadedAs files programs.now → Loads settings (kept_rows files storage.now None answer.now) loaded) }
    ensures err { IfErr result (λ fault. (files : ByteMap) → AreLoadedAs files programs.now → IsUnloadable settings (kept_rows files storage.now None answer.now) fault) }
{
    if !has_no_rows(storage, programs, answer) {
        return Err(LoadFault::Damaged);
    }
    let state = State::new(alloc, settings);
    Ok(Loaded {
        state,
        answer: None,
        is_new: true,
    })
}

/// The same if there is the row of a session.
fn load_session(
    settings: Settings,
    storage: Store,
    programs: ProgramLoader,
    row: SessionRow,
    answer: Option<AnswerRow>,
) -> Result<Loaded, LoadFault>
    ensures ok { IfOk result (λ loaded. (files : ByteMap) → AreLoadedAs files programs → Loads settings (kept_rows files storage (Some row) answer) loaded) }
    ensures err { IfErr result (λ fault. (files : ByteMap) → AreLoadedAs files programs → IsUnloadable settings (kept_rows files storage (Some row) answer) fault) }
{
    if !has_settings(&settings, &row) {
        return Err(LoadFault::OtherSettings);
    }
    let Some(programs) = programs.into_programs() else {
        return Err(LoadFault::Damaged);
    };
    Ok(Loaded {
        state: State {
            store: storage,
            rules: row.rules,
            height: row.height,
            digest: Some(row.digest),
            programs,
            last: None,
        },
        answer,
        is_new: false,
    })
}

/// Whether there are no rows, except perhaps that of a session.
fn has_no_rows(storage: &Store, programs: &ProgramLoader, answer: &Option<AnswerRow>) -> bool
    ensures same { IsTrue result → HasNoRows storage.now programs.now answer.now }
    ensures other { result ≡ false → ¬ HasNoRows storage.now programs.now answer.now }
{
    is_empty(storage) && programs.is_empty() && answer.is_none()
}

/// Whether a storage has no key.
fn is_empty(storage: &Store) -> bool
    ensures same { IsTrue result → storage.now ≡ empty }
    ensures other { result ≡ false → storage.now ≢ empty }
{
    storage.iter().next().is_none()
}
