//! Sessions of blocks, for C. `include/rvstm.h` says what a caller must ensure.
#![tactic(auto)]

mod asking;
mod block;
pub mod block_calls;
mod block_handle;
mod copying;
mod entries;
mod fields;
mod given;
mod handle;
mod image;
pub mod image_calls;
mod image_handle;
mod loose;
mod moving;
mod padding;
mod refusal;
pub mod result_calls;
mod session;
mod settings;
mod status;
mod whole;

ghost use Rattle.std.specs.Prelude.{◌≡◌, length, None, Some};
ghost use Rattle.session_requests.specs.Requests.{Dump, Forget, Frame, Get, Last, Program, Programs, State, Try};
ghost use Rattle.rvstm_c.specs.Asked.{begin_asked, list_asked, with_bytes, with_name};
ghost use Rattle.rvstm_c.specs.Embedding.{IsAnswerCopied, IsCalled, IsClosed, IsOpened, OnSession, bytes_in};
ghost use Rattle.rvstm_c.specs.Refusals.{ArePartsOf};
ghost use Rattle.rvstm_c.specs.Settings.{settings_of, usual_settings};

pub use block::{EmbeddedBlock, Stage};
pub use block_handle::BlockHandle;
pub use block_handle::zeros::zeros as block_zeros;
use copying::copy_text;
pub use entries::{ChangeForC, EntriesForC, KeyForC, ReceiptForC, WriteForC};
pub use given::Given;
use given::{bytes_of, status_of};
pub use handle::Handle;
pub use handle::zeros::zeros;
use handle::{put_session, take_session};
pub use image::EmbeddedImage;
pub use image_handle::ImageHandle;
pub use image_handle::zeros::zeros as image_zeros;
pub use moving::handles_may_move;
pub use refusal::RefusalParts;
use refusal::{NO_PARTS, parts_of};
pub use session::EmbeddedSession;
use session_turns::Settings;
pub use settings::SettingsForC;
use settings::settings_of;
use status::{ALREADY_OPEN, BAD_SETTINGS, CLOSED, DONE, NO_MEMORY};
use std::alloc::{AllocFailed, Global};

/// The version: major * 1,000,000 + minor * 1,000 + patch.
const VERSION: u32 = 2_000;

/// The library's version: major * 1,000,000 + minor * 1,000 + patch.
#[unsafe(no_mangle)]
pub extern "C" fn rvstm_version() -> u32
    ensures { result ≡ 2000 }
{
    VERSION
}

/// Opens a session with the usual settings: frames of at most 64 MiB, gas without a bound, no digest, receipts with registers.
/// DONE; ALREADY_OPEN if the handle has one, which stays; NO_MEMORY, and then it has none.
#[unsafe(no_mangle)]
pub extern "C" fn rvstm_open(alloc: Global, handle: &mut Handle) -> u32
    ensures { IsOpened (Some usual_settings) handle.old.value result handle.new.value }
{
    match take_session(handle, alloc) {
        Some(session) => {
            put_session(handle, session);
            ALREADY_OPEN
        }
        None => open_new(alloc, handle, Settings::new()),
    }
}

/// Opens a session with settings. DONE; ALREADY_OPEN if the handle has one, which stays; BAD_SETTINGS if a number is too great,
/// or NO_MEMORY, and then it has none.
#[unsafe(no_mangle)]
pub extern "C" fn rvstm_open_with(
    alloc: Global,
    handle: &mut Handle,
    settings: &SettingsForC,
) -> u32
    ensures { IsOpened (settings_of settings.now) handle.old.value result handle.new.value }
{
    match take_session(handle, alloc) {
        Some(session) => {
            put_session(handle, session);
            ALREADY_OPEN
        }
        None => match settings_of(*settings) {
            Some(settings) => open_new(alloc, handle, settings),
            None => BAD_SETTINGS,
        },
    }
}

/// Opens a session if the handle has none. DONE, or NO_MEMORY.
fn open_new(alloc: Global, handle: &mut Handle, settings: Settings) -> u32
    requires { handle.old.value ≡ None }
    ensures { IsOpened (Some settings) None result handle.new.value }
{
    match Box::new(alloc, EmbeddedSession::new(alloc, settings)) {
        Ok(session) => {
            put_session(handle, session);
            DONE
        }
        Err(AllocFailed { .. }) => NO_MEMORY,
    }
}

/// Hands in a program: the bytes of its file. The answer is its name, the SHA-256 of the file in 64 digits, and a line feed.
/// DONE, also if it is here already; REFUSED if the file is no program or has more than 131,072 bytes; FAILED; CLOSED.
#[unsafe(no_mangle)]
pub extern "C" fn rvstm_program(alloc: Global, handle: &mut Handle, file: &[u8]) -> u32
    ensures { OnSession (IsCalled (with_bytes file.now (Program file.now))) handle.old.value result handle.new.value }
{
    let Some(mut session) = take_session(handle, alloc) else {
        return CLOSED;
    };
    let status = session.load_program(alloc, file);
    put_session(handle, session);
    status
}

/// Frees the program of a name, 64 lower-case hex digits. DONE; REFUSED if no program of that name is here, or if the name has
/// another form; CLOSED.
#[unsafe(no_mangle)]
pub extern "C" fn rvstm_forget(alloc: Global, handle: &mut Handle, name: &[u8]) -> u32
    ensures { OnSession (IsCalled (with_name Forget name.now)) handle.old.value result handle.new.value }
{
    let Some(mut session) = take_session(handle, alloc) else {
        return CLOSED;
    };
    let status = session.forget(alloc, name);
    put_session(handle, session);
    status
}

/// Lists the names of the programs, ascending, a line each. DONE; FAILED; CLOSED.
#[unsafe(no_mangle)]
pub extern "C" fn rvstm_programs(alloc: Global, handle: &mut Handle) -> u32
    ensures { OnSession (IsCalled (Some Programs)) handle.old.value result handle.new.value }
{
    let Some(mut session) = take_session(handle, alloc) else {
        return CLOSED;
    };
    let status = session.programs(alloc);
    put_session(handle, session);
    status
}

/// Runs a frame, the bytes of a block file, and keeps what it leaves. DONE; REFUSED or FAILED, and then storage, rules and
/// programs are as they were; CLOSED.
#[unsafe(no_mangle)]
pub extern "C" fn rvstm_frame(alloc: Global, handle: &mut Handle, block: &[u8]) -> u32
    ensures { OnSession (IsCalled (with_bytes block.now (Frame block.now))) handle.old.value result handle.new.value }
{
    let Some(mut session) = take_session(handle, alloc) else {
        return CLOSED;
    };
    let status = session.run_frame(alloc, block);
    put_session(handle, session);
    status
}

/// Runs a frame and keeps nothing of it. DONE; REFUSED; FAILED; CLOSED.
#[unsafe(no_mangle)]
pub extern "C" fn rvstm_try(alloc: Global, handle: &mut Handle, block: &[u8]) -> u32
    ensures { OnSession (IsCalled (with_bytes block.now (Try block.now))) handle.old.value result handle.new.value }
{
    let Some(mut session) = take_session(handle, alloc) else {
        return CLOSED;
    };
    let status = session.try_frame(alloc, block);
    put_session(handle, session);
    status
}

/// Repeats the answer to the last frame that counts. DONE; REFUSED if it was refused, or if none was answered yet; CLOSED.
#[unsafe(no_mangle)]
pub extern "C" fn rvstm_last(alloc: Global, handle: &mut Handle) -> u32
    ensures { OnSession (IsCalled (Some Last)) handle.old.value result handle.new.value }
{
    let Some(mut session) = take_session(handle, alloc) else {
        return CLOSED;
    };
    let status = session.tell_last(alloc);
    put_session(handle, session);
    status
}

/// Reports what the storage has at a key, 64 lower-case hex digits. DONE; REFUSED if the key has another form; FAILED; CLOSED.
#[unsafe(no_mangle)]
pub extern "C" fn rvstm_get(alloc: Global, handle: &mut Handle, key: &[u8]) -> u32
    ensures { OnSession (IsCalled (with_name Get key.now)) handle.old.value result handle.new.value }
{
    let Some(mut session) = take_session(handle, alloc) else {
        return CLOSED;
    };
    let status = session.get(alloc, key);
    put_session(handle, session);
    status
}

/// Lists the first entries from a key on, itself included: `count` at most, 1 to 1,024. DONE; REFUSED if the key has another form
/// or the count is out of range; FAILED; CLOSED.
#[unsafe(no_mangle)]
pub extern "C" fn rvstm_list(alloc: Global, handle: &mut Handle, from: &[u8], count: u64) -> u32
    ensures { OnSession (IsCalled (list_asked from.now count)) handle.old.value result handle.new.value }
{
    let Some(mut session) = take_session(handle, alloc) else {
        return CLOSED;
    };
    let status = session.list(alloc, from, count);
    put_session(handle, session);
    status
}

/// Dumps the whole storage, as a block file of the session's rules. DONE; FAILED; CLOSED.
#[unsafe(no_mangle)]
pub extern "C" fn rvstm_dump(alloc: Global, handle: &mut Handle) -> u32
    ensures { OnSession (IsCalled (Some Dump)) handle.old.value result handle.new.value }
{
    let Some(mut session) = take_session(handle, alloc) else {
        return CLOSED;
    };
    let status = session.dump(alloc);
    put_session(handle, session);
    status
}

/// Puts a storage, its rules, a height and a digest in the place of the session's: a block file without programs and calls, a
/// height of at most 9,999,999,999, and a digest in 64 digits, or `-` if none is kept. DONE; REFUSED; FAILED; CLOSED.
#[unsafe(no_mangle)]
pub extern "C" fn rvstm_begin(
    alloc: Global,
    handle: &mut Handle,
    height: u64,
    digest: &[u8],
    block: &[u8],
) -> u32
    ensures { OnSession (IsCalled (begin_asked height digest.now block.now)) handle.old.value result handle.new.value }
{
    let Some(mut session) = take_session(handle, alloc) else {
        return CLOSED;
    };
    let status = session.begin(alloc, height, digest, block);
    put_session(handle, session);
    status
}

/// Reports the session's counts and settings, a line each. DONE; FAILED; CLOSED.
#[unsafe(no_mangle)]
pub extern "C" fn rvstm_state(alloc: Global, handle: &mut Handle) -> u32
    ensures { OnSession (IsCalled (Some State)) handle.old.value result handle.new.value }
{
    let Some(mut session) = take_session(handle, alloc) else {
        return CLOSED;
    };
    let status = session.tell_state(alloc);
    put_session(handle, session);
    status
}

/// The length of the answer to the last request, in bytes after its line. It is 0 if there was no request, if it was refused or
/// failed, or if the handle has no session.
#[unsafe(no_mangle)]
pub extern "C" fn rvstm_answer_length(alloc: Global, handle: &mut Handle) -> usize
    ensures same { handle.new.value ≡ handle.old.value }
    ensures length { result ≡ length (bytes_in handle.old.value) }
{
    let Some(session) = take_session(handle, alloc) else {
        return 0;
    };
    let length = bytes_of(&session).len();
    put_session(handle, session);
    length
}

/// Copies the answer to the last request, the bytes after its line, to the beginning of a buffer. DONE; SHORT_BUFFER, and then
/// the buffer is as it was; CLOSED.
#[unsafe(no_mangle)]
pub extern "C" fn rvstm_answer(alloc: Global, handle: &mut Handle, buffer: &mut [u8]) -> u32
    ensures same { handle.new.value ≡ handle.old.value }
    ensures copied { IsAnswerCopied handle.old.value buffer.old result buffer.new }
{
    let Some(session) = take_session(handle, alloc) else {
        return CLOSED;
    };
    let status = copy_text(bytes_of(&session), buffer);
    put_session(handle, session);
    status
}

/// The parts of the refusal or failure that is the answer to the last request; zeros if it is neither. DONE, REFUSED, FAILED or
/// CLOSED.
#[unsafe(no_mangle)]
pub extern "C" fn rvstm_refusal(alloc: Global, handle: &mut Handle, parts: &mut RefusalParts) -> u32
    ensures same { handle.new.value ≡ handle.old.value }
    ensures parts { ArePartsOf handle.old.value result parts.new }
{
    let Some(session) = take_session(handle, alloc) else {
        *parts = NO_PARTS;
        return CLOSED;
    };
    *parts = parts_of(&session.state, &session.given);
    let status = status_of(&session.state, &session.given);
    put_session(handle, session);
    status
}

/// Closes a session, and frees what it has. DONE or CLOSED.
#[unsafe(no_mangle)]
pub extern "C" fn rvstm_close(alloc: Global, handle: &mut Handle) -> u32
    ensures left { handle.new.value ≡ None }
    ensures status { IsClosed handle.old.value result }
{
    match take_session(handle, alloc) {
        Some(session) => {
            drop(session);
            DONE
        }
        None => CLOSED,
    }
}
