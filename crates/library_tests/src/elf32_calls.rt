//! The calls of elf32.

use crate::program_file::ECHO;
use elf32::*;
use rv_mem::Memory;
use rv_program::Program;
use std::alloc::{AllocError, Global};
use std::process::Abort;
use std::test::Fail;

// `ECHO` with a second segment: 4,096 readable and writable bytes at 0x000ff000, none in the file.
const TWO_SEGMENTS: [u8; 124] = [
    0x7f, 0x45, 0x4c, 0x46, 1, 1, 1, 0, 0, 0, 0, 0, 0, 0, 0, 0, // e_ident
    2, 0, 0xf3, 0, 1, 0, 0, 0, 0, 0, 1, 0, 0x34, 0, 0, 0, // e_type to e_phoff
    0, 0, 0, 0, 0, 0, 0, 0, 0x34, 0, 0x20, 0, 2, 0, 0, 0, // e_shoff to e_shentsize
    0, 0, 0, 0, // e_shnum, e_shstrndx
    1, 0, 0, 0, 0x74, 0, 0, 0, 0, 0, 1, 0, 0, 0, 1, 0, // text: p_type to p_paddr
    8, 0, 0, 0, 8, 0, 0, 0, 5, 0, 0, 0, 4, 0, 0, 0, // p_filesz to p_align
    1, 0, 0, 0, 0x74, 0, 0, 0, 0, 0xf0, 0x0f, 0, 0, 0, 0, 0, // memory: p_type to p_paddr
    0, 0, 0, 0, 0, 0x10, 0, 0, 6, 0, 0, 0, 4, 0, 0, 0, // p_filesz to p_align
    0x93, 0x08, 0x30, 0, 0x73, 0, 0, 0, // text
];

// Whether a segment has this place and this size, and these bytes in the file.
fn is_segment(segment: &Segment, address: u32, size: u32, content: &[u8]) -> bool {
    segment.address == address && segment.size == size && segment.content.bytes() == content
}

// Whether these are the segments of `ECHO`, with their rights.
fn are_segments_of_echo(segments: &[Segment]) -> bool {
    let rights = Rights {
        readable: true,
        writable: false,
        executable: true,
    };
    match segments {
        [text] => is_segment(text, 65536, 8, &ECHO[84..]) && text.rights == rights,
        _ => false,
    }
}

const ECHO_WORDS: &[PlacedWord] = &[
    PlacedWord {
        address: 65536,
        word: 0x0030_0893,
    },
    PlacedWord {
        address: 65540,
        word: 0x0000_0073,
    },
];

// Whether the words of an image are these.
fn has_words(alloc: Global, image: &Image, words: &[PlacedWord]) -> bool {
    match image.words(alloc) {
        Ok(found) => found.as_slice() == words,
        Err(_) => false,
    }
}

// Whether an image is that of `ECHO`.
fn is_echo(alloc: Global, image: &Image) -> bool {
    image.entry() == 65536
        && are_segments_of_echo(image.segments())
        && has_words(alloc, image, ECHO_WORDS)
}

#[test]
fn echo_loads(rt: HostRuntime) -> Result<(), Fail> {
    let is_right = is_echo(rt.alloc(), &load(rt.alloc(), &ECHO)?);
    assert!(rt; is_right);
    Ok(())
}

// Whether the second of two segments is this one.
fn is_second(segments: &[Segment], address: u32, size: u32, content: &[u8]) -> bool {
    match segments {
        [_, second] => is_segment(second, address, size, content),
        _ => false,
    }
}

// The number of words of a program.
fn word_count(alloc: Global, image: &Image) -> Result<usize, AllocError> {
    Ok(image.words(alloc)?.len())
}

// Whether the 4,096 bytes of the second segment are zeros in the memory of the program.
fn is_zero(alloc: Global, image: &Image) -> Result<bool, AllocError> {
    let memory = Memory::of(alloc, image, &[])?;
    let mut bytes = [1; 4096];
    let is_copied = memory.copy_out(0x000f_f000, &mut bytes) == Ok(());
    Ok(is_copied && bytes == [0; 4096])
}

#[test]
fn memory_only_segment(rt: HostRuntime) -> Result<(), Fail> {
    let image = load(rt.alloc(), &TWO_SEGMENTS)?;
    assert!(rt; is_zero(rt.alloc(), &image)?);
    assert!(rt; is_second(image.segments(), 0x000f_f000, 4096, &[]));
    assert!(rt; word_count(rt.alloc(), &image)? == 2);
    Ok(())
}

// The program of these sections; fails if they are too large.
fn program(alloc: Global, text: &[u32], data: &[u8]) -> Result<Program, Fail> {
    let text = Vec::from_slice(alloc, text)?;
    match Program::new(text, Vec::from_slice(alloc, data)?) {
        Some(program) => Ok(program),
        None => Err(Fail::from("the sections are too large")),
    }
}

// The file of the program of these sections.
fn written(alloc: Global, text: &[u32], data: &[u8]) -> Result<Vec<u8>, Fail> {
    let program = program(alloc, text, data)?;
    Ok(write(alloc, &program)?)
}

#[test]
fn writes_echo(rt: HostRuntime) -> Result<(), Fail> {
    let file = written(rt.alloc(), &[0x0030_0893, 0x0000_0073], &[])?;
    assert!(rt; file.as_slice() == ECHO.as_slice());
    Ok(())
}

// The words of `li x1,buf` and `loop: bne x1,x0,loop`.
const FOUR_LINES: &[u32] = &[0x0002_00b7, 0x0000_8093, 0x0000_9063];

// The data of `buf: .word 7`.
const BUF: &[u8] = &[7, 0, 0, 0];

// The words, placed.
const FOUR_LINES_PLACED: &[PlacedWord] = &[
    PlacedWord {
        address: 0x0001_0000,
        word: 0x0002_00b7,
    },
    PlacedWord {
        address: 0x0001_0004,
        word: 0x0000_8093,
    },
    PlacedWord {
        address: 0x0001_0008,
        word: 0x0000_9063,
    },
];

// Whether an image is that of the four lines.
fn is_four_lines(alloc: Global, image: &Image) -> bool {
    image.entry() == 0x0001_0000
        && is_second(image.segments(), 0x0002_0000, 4, BUF)
        && has_words(alloc, image, FOUR_LINES_PLACED)
}

// Whether a file has 132 bytes, and loads as the four lines.
fn loads_four_lines(alloc: Global, file: &[u8]) -> Result<bool, Fail> {
    let image = load(alloc, file)?;
    Ok(file.len() == 132 && is_four_lines(alloc, &image))
}

#[test]
fn four_lines(rt: HostRuntime) -> Result<(), Fail> {
    let file = written(rt.alloc(), FOUR_LINES, BUF)?;
    assert!(rt; loads_four_lines(rt.alloc(), file.as_slice())?);
    Ok(())
}
