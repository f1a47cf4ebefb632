//! The calls of rv_program.

use rv_program::*;
use std::alloc::{AllocError, Global};
use std::test::Fail;

// The sizes of the sections of a program with this much text and data; None if it is refused.
fn sizes(
    alloc: Global,
    text_words: usize,
    data_bytes: usize,
) -> Result<Option<(usize, usize)>, AllocError> {
    let text = vec![in alloc; 0x0000_0073u32; text_words]?;
    let data = vec![in alloc; 7u8; data_bytes]?;
    Ok(match Program::new(text, data) {
        Some(program) => Some((program.text().len(), program.data().len())),
        None => None,
    })
}

#[test]
fn sections_within_their_limits(rt: HostRuntime) -> Result<(), Fail> {
    let alloc = rt.alloc();
    assert!(rt; sizes(alloc, 16_384, 61_440)? == Some((16_384, 61_440)));
    assert!(rt; sizes(alloc, 16_385, 0)? == None);
    assert!(rt; sizes(alloc, 0, 61_441)? == None);
    Ok(())
}
