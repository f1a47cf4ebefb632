//! The calls of block_file.

use crate::asserts::assert_right;
use block_file::*;
use rv_ledger::Key;
use std::alloc::{AllocError, Global};
use std::process::Abort;
use std::test::Fail;

/// A good file.
const GOOD_FILE: &str = "rvblock 1\n\
    program 0 a\n\
    program 1 b/~\n\
    store 0000000000000000000000000000000000000000000000000000000000000000 -\n\
    store 0000000000000000000000000000000000000000000000000000000000000001 0aff\n\
    call 1 10000000 00ff\n\
    call 0 1 -\n";

/// Whether two programs are at these paths.
fn are_paths(programs: &[String], paths: [&str; 2]) -> bool {
    match programs {
        [one, two] => one.as_str() == paths[0] && two.as_str() == paths[1],
        _ => false,
    }
}

/// Whether a block stores these bytes at the key of zeros with this last byte.
fn is_stored(block: &BlockText, last: u8, bytes: &[u8]) -> bool {
    let mut key = [0; 32];
    key[31] = last;
    match block.store.get(&Key::new(key)) {
        Some(value) => value.bytes() == bytes,
        None => false,
    }
}

/// Whether a call line says this.
fn is_call(call: &CallLine, program: usize, gas: u32, input: &[u8]) -> bool {
    call.program == program && call.gas == gas && call.input.as_slice() == input
}

/// Whether the calls are those of the good file.
fn are_good_calls(calls: &[CallLine]) -> bool {
    match calls {
        [first, second] => is_call(first, 1, 10_000_000, &[0, 255]) && is_call(second, 0, 1, &[]),
        _ => false,
    }
}

/// Asserts that a block is that of the good file.
fn assert_good(rt: &impl Abort, block: &BlockText) {
    let are_paths = are_paths(block.programs.as_slice(), ["a", "b/~"]);
    assert_right(rt, are_paths, "programs");
    let are_stored = is_stored(block, 0, &[]) && is_stored(block, 1, &[10, 255]);
    assert_right(rt, are_stored, "store");
    assert_right(rt, are_good_calls(block.calls.as_slice()), "calls");
}

#[test]
fn good_file(rt: HostRuntime) -> Result<(), Fail> {
    assert_good(&rt, &parse(rt.alloc(), GOOD_FILE.as_bytes())?);
    Ok(())
}

/// Whether a schedule file has these entries.
fn has_entries(alloc: Global, text: &[u8], entries: &[u16]) -> bool {
    match parse_schedule(alloc, text) {
        Ok(found) => found.as_slice() == entries,
        Err(_) => false,
    }
}

#[test]
fn schedules(rt: HostRuntime) {
    assert!(rt; has_entries(rt.alloc(), b"0\n1\n65535\n", &[0, 1, 65535]));
    assert!(rt; has_entries(rt.alloc(), b"", &[]));
}

/// A fault at line 3.
fn fault(cause: Cause) -> BlockFault {
    BlockFault { line: 3, cause }
}

#[test]
fn printed(rt: HostRuntime) -> Result<(), AllocError> {
    let (number, memory) = (fault(Cause::BadNumber), fault(Cause::Memory));
    let text = format!(in rt.alloc(); "{number}, {memory}")?;
    assert!(rt; text.as_str() == "3 BadNumber 3, Memory 8");
    Ok(())
}
