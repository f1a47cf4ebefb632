//! Block files and programs, and the result of counts of a key.

use std::alloc::{AllocError, Global};

/// The words of an ELF header and of one program header: a segment of this many bytes at 0x10000, to read and execute.
fn header_words(size: u32) -> [u32; 16] {
    [
        1,
        0x1_0000,
        52,
        0,
        0,
        0x0020_0034,
        1,
        0,
        1,
        84,
        0x1_0000,
        0x1_0000,
        size,
        size,
        5,
        4,
    ]
}

/// Appends words to a file, the lowest byte of each first.
fn push_words(file: &mut Vec<u8>, words: &[u32]) -> Result<(), AllocError> {
    for word in words {
        file.extend_from_slice(u32::to_le_bytes(*word).as_slice())?;
    }
    Ok(())
}

/// The ELF file of a program: a header, one segment to read and execute at 0x10000, and the words.
pub fn elf_of(alloc: Global, words: &[u32]) -> Result<Vec<u8>, AllocError> {
    let size = u32::try_from(words.len()).unwrap_or(0).wrapping_mul(4);
    let mut file = Vec::new(alloc);
    file.extend_from_slice(b"\x7fELF\x01\x01\x01\0\0\0\0\0\0\0\0\0\x02\0\xf3\0")?;
    push_words(&mut file, &header_words(size))?;
    push_words(&mut file, words)?;
    Ok(file)
}

/// Appends the line of a program whose path is its number.
fn push_program(alloc: Global, block: &mut String, number: usize) -> Result<(), AllocError> {
    let line = format!(in alloc; "program {number} {number}\n")?;
    block.push_str(line.as_str())
}

/// The block file of format 1 of some programs and further lines.
pub fn block_of(alloc: Global, programs: usize, lines: &str) -> Result<String, AllocError> {
    let mut block = String::from_str(alloc, "rvblock 1\n")?;
    for number in 0..programs {
        push_program(alloc, &mut block, number)?;
    }
    block.push_str(lines)?;
    Ok(block)
}

/// The call lines of this many counts of a key.
pub fn count_lines(alloc: Global, calls: usize) -> Result<String, AllocError> {
    let mut text = String::new(alloc);
    for _ in 0..calls {
        text.push_str(
            "call 0 1000 0000000000000000000000000000000000000000000000000000000000000001\n",
        )?;
    }
    Ok(text)
}

/// Appends the lines of a call that counts a key up: call i ends with x5 = i + 1, and writes that number.
fn push_count(alloc: Global, text: &mut String, call: u32) -> Result<(), AllocError> {
    let count = call.wrapping_add(1);
    let [low, high, _, _] = count.to_le_bytes();
    let lines = format!(in alloc;
        "call {call} returned gas 639 pc 00010034 out -\n\
        regs 00000000 00000000 00110000 00000000 00000000 {count:08x} 00000000 00000000 \
        00100000 00000000 00100000 00000000 00000004 00000000 00000000 00000000 \
        00000000 00000003 00000000 00000000 00000000 00000000 00000000 00000000 \
        00000000 00000000 00000000 00000000 00000000 00000000 00000000 00000000\n\
        write {call} 0000000000000000000000000000000000000000000000000000000000000001 \
        {low:02x}{high:02x}0000\n"
    )?;
    text.push_str(lines.as_str())
}

/// The result of this many counts of a key, fewer than 65,536.
pub fn result_of_counts(alloc: Global, calls: u32) -> Result<String, AllocError> {
    let mut text = String::new(alloc);
    for call in 0..calls {
        push_count(alloc, &mut text, call)?;
    }
    let [low, high, _, _] = calls.to_le_bytes();
    let end = format!(in alloc;
        "store 0000000000000000000000000000000000000000000000000000000000000001 \
        {low:02x}{high:02x}0000\nend\n"
    )?;
    text.push_str(end.as_str())?;
    Ok(text)
}
