//! Files that are not opened as sessions, and what is left of them.

use crate::fake_stores::FakeStores;
use crate::session_files::{DONE, PUT_ONE, answer_in};
use session_disk::OpenFault;
use std::alloc::{AllocError, Global};
use std::process::Abort;
use std::sync::Wait;
use std::test::Fail;
use std::thread::Threads;

/// Why a file is not opened, and the line on standard error.
const FAULTS: &[(OpenFault, &str)] = &[
    (OpenFault::Busy, "rvstm: store Busy 1\n"),
    (OpenFault::HotJournal, "rvstm: store HotJournal 2\n"),
    (OpenFault::Unreadable, "rvstm: store Unreadable 3\n"),
    (OpenFault::NotASession, "rvstm: store NotASession 4\n"),
    (OpenFault::Full, "rvstm: store Full 8\n"),
    (OpenFault::Memory, "rvstm: store Memory 9\n"),
];

/// A log that is shorter than its header and the header of a frame holds no commit.
const FRAME_END: usize = 32 + 24;

/// Whether a session is refused with a line, nothing is printed, and the database file is as before. The log must be as before
/// too, except that it may get a header if it was empty.
fn is_unopened<R: Threads + Wait + Sync>(
    rt: &R,
    alloc: Global,
    stores: &mut FakeStores,
    line: &str,
) -> Result<bool, AllocError> {
    let before = stores.copy()?;
    let answer = answer_in(rt, alloc, stores, "", PUT_ONE.as_bytes())?;
    let is_same_log = stores.log.as_slice() == before.log.as_slice();
    let has_no_commit = before.log.is_empty() && stores.log.len() < FRAME_END;
    let is_same_db = stores.db.as_slice() == before.db.as_slice();
    Ok((is_same_log || has_no_commit) && is_same_db && answer.is(1, "", line))
}

/// The file of a session that was closed after a frame.
fn session_file<R: Threads + Wait + Sync>(rt: &R, alloc: Global) -> Result<FakeStores, AllocError> {
    let mut stores = FakeStores::new(alloc);
    answer_in(rt, alloc, &mut stores, "", PUT_ONE.as_bytes())?;
    Ok(stores)
}

#[test]
fn files_that_are_not_opened(rt: HostRuntime) -> Result<(), Fail> {
    let mut stores = session_file(&rt, rt.alloc())?;
    for (fault, line) in FAULTS {
        stores.fault = Some(*fault);
        let is_right = is_unopened(&rt, rt.alloc(), &mut stores, line)?;
        assert!(rt; is_right, "{line}");
    }
    stores.fault = None;
    let answer = answer_in(&rt, rt.alloc(), &mut stores, "", b"last\n")?;
    assert!(rt; answer.is(0, DONE, ""));
    Ok(())
}

#[test]
fn a_store_is_opened_and_closed_or_abandoned_once(rt: HostRuntime) -> Result<(), Fail> {
    let mut stores = FakeStores::new(rt.alloc());
    answer_in(&rt, rt.alloc(), &mut stores, "", PUT_ONE.as_bytes())?;
    answer_in(&rt, rt.alloc(), &mut stores, " --brief", b"")?;
    assert!(rt; stores.asked.as_str() == "open f\nclose\nopen f\nabandon\n");
    Ok(())
}
