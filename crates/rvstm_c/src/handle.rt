//! A handle, which owns a session.

pub(crate) mod zeros;

ghost use Rattle.std.specs.Prelude.{◌≡◌, IsSome, None, Option, Some, is_some};
ghost use Rattle.std.specs.Coded.{coded_option};
ghost use Rattle.std.specs.Option.{option_map};
ghost use Rattle.rvstm_c.specs.contracts.session.EmbeddedSession as session;
ghost use Rattle.rvstm_c.specs.declared.session.EmbeddedSession.{EmbeddedSession};

use crate::loose::Loose;
use crate::session::EmbeddedSession;
use std::alloc::Global;
use std::marker::Model;

/// A handle, which C keeps. All its bytes are zero before a session is opened.
#[repr(C)]
#[derive(Drop)]
pub struct Handle {
    at: *mut u8,
    full: bool,
    pub ghost value: { Option EmbeddedSession } by { coded_option (session.the_row).coded },
    ghost flagged: { full ≡ is_some value },
}

impl Model for Handle {
    ghost use Rattle.rvstm_c.specs.Held.{held, on_heap};
    ghost use Rattle.rvstm_c.specs.contracts.session.EmbeddedSession.{the_row};

    ghost also_owns = { λ h. held on_heap the_row h.at h.value };
}

// What it holds may go to another thread, and nothing else has its pointer.
unsafe impl Send for Handle {}

/// Whether a handle has a session.
fn is_full(handle: &mut Handle) -> bool
    ensures same { handle.new ≡ handle.old }
    ensures says { result ≡ is_some handle.old.value }
{
    handle.full
}

/// Takes the session out of a handle that has one.
fn take(handle: &mut Handle, alloc: Global) -> Loose<EmbeddedSession, Global>
    requires { IsSome handle.old.value }
    ensures taken { handle.old.value ≡ Some result.value }
    ensures left { handle.new.value ≡ None }
{
    handle.full = false;
    Loose {
        at: handle.at as *mut EmbeddedSession,
        alloc,
    }
}

/// Puts a session into a handle, which forgets what it had.
fn put(handle: &mut Handle, session: Loose<EmbeddedSession, Global>)
    ensures { handle.new.value ≡ Some session.value }
{
    let Loose { at, alloc: _ } = session;
    handle.at = at as *mut u8;
    handle.full = true;
}

/// Takes the session out of a handle, or returns None if it has none.
pub(crate) fn take_session(handle: &mut Handle, alloc: Global) -> Option<Box<EmbeddedSession>>
    ensures taken { option_map (λ session. session.value) result ≡ handle.old.value }
    ensures left { handle.new.value ≡ None }
{
    if !is_full(handle) {
        return None;
    }
    Some(take(handle, alloc).into_box())
}

/// Puts a session into a handle, which forgets what it had.
pub(crate) fn put_session(handle: &mut Handle, session: Box<EmbeddedSession>)
    ensures { handle.new.value ≡ Some session.value }
{
    put(handle, Loose::of(session));
}
