//! Sessions one after another over one file: the second continues after a power cut ended the first.

use crate::fake_stores::FakeStores;
use crate::known_disk::{Answer, OneFile, answer_over};
use std::alloc::{AllocError, Global};
use std::sync::Wait;
use std::test::Fail;
use std::thread::Threads;

/// The answer to a frame that has no call.
pub const DONE: &str = "\
    ok 4\n\
    end\n";

/// A frame of one entry.
pub const PUT_ONE: &str = "\
    frame 84\n\
    rvblock 1\n\
    store 0000000000000000000000000000000000000000000000000000000000000009 0a\n";

/// The answer to a frame of no bytes.
const NO_HEADER: &str = "refused block 1 BadHeader 1\n";

/// The answer of a session with options over a file.
pub fn answer_in<R: Threads + Wait + Sync>(
    rt: &R,
    alloc: Global,
    stores: &mut FakeStores,
    options: &str,
    input: &[u8],
) -> Result<Answer, AllocError> {
    let line = format!(in alloc; "rvstm chain{options} --store f")?;
    let disk = OneFile {
        path: "",
        bytes: b"",
    };
    answer_over(rt, alloc, line.as_str(), disk, stores, input)
}

/// The requests of the next session over the file: the last answer, and the storage.
const NEXT: &[u8] = b"\
    last\n\
    list 0000000000000000000000000000000000000000000000000000000000000000 9\n";

/// What it answers after a frame of one entry and a frame of no bytes.
const KEPT: &str = "\
    refused block 1 BadHeader 1\n\
    ok 74\n\
    store 0000000000000000000000000000000000000000000000000000000000000009 0a\n";

/// Whether the next session over a file continues after two frames, if the first one ended by a power cut.
fn goes_on<R: Threads + Wait + Sync>(rt: &R, alloc: Global) -> Result<bool, AllocError> {
    let mut stores = FakeStores::new(alloc);
    let mut input = Vec::new(alloc);
    input.extend_from_slice(PUT_ONE.as_bytes())?;
    input.extend_from_slice(b"frame 0\n")?;
    let mut first = Vec::new(alloc);
    if !stores.answer_cut_off(input.as_slice(), &mut first) {
        return Ok(false);
    }
    let next = answer_in(rt, alloc, &mut stores, "", NEXT)?;
    Ok(first.as_slice().ends_with(NO_HEADER.as_bytes()) && next.is(0, KEPT, ""))
}

#[test]
fn a_session_continues_after_a_power_cut(rt: HostRuntime) -> Result<(), Fail> {
    assert!(rt; goes_on(&rt, rt.alloc())?);
    Ok(())
}
