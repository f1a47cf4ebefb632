//! The calls of rv_mem. What is where, and which rights pages have, is in tests/tables/memory_of_a_call.toml.

use crate::asserts::assert_right;
use rv_mem::{Fault, Memory};
use std::alloc::Global;
use std::test::Fail;

// A program of two segments: `ecall` at 0x00010000, which may be read and executed, and the word 7 at
// 0x00020000, which may be read and written.
const TWO_SEGMENTS: [u8; 124] = [
    0x7f, 0x45, 0x4c, 0x46, 1, 1, 1, 0, 0, 0, 0, 0, 0, 0, 0, 0, // e_ident
    2, 0, 0xf3, 0, 1, 0, 0, 0, 0, 0, 1, 0, 0x34, 0, 0, 0, // e_type to e_phoff
    0, 0, 0, 0, 0, 0, 0, 0, 0x34, 0, 0x20, 0, 2, 0, 0, 0, // e_shoff to e_shentsize
    0, 0, 0, 0, // e_shnum, e_shstrndx
    1, 0, 0, 0, 0x74, 0, 0, 0, 0, 0, 1, 0, 0, 0, 1, 0, // p_type to p_paddr of the text
    4, 0, 0, 0, 4, 0, 0, 0, 5, 0, 0, 0, 4, 0, 0, 0, // p_filesz to p_align
    1, 0, 0, 0, 0x78, 0, 0, 0, 0, 0, 2, 0, 0, 0, 2, 0, // p_type to p_paddr of the data
    4, 0, 0, 0, 4, 0, 0, 0, 6, 0, 0, 0, 4, 0, 0, 0, // p_filesz to p_align
    0x73, 0, 0, 0, // text
    7, 0, 0, 0, // data
];

// The memory of the program with this input.
fn memory(alloc: Global, input: &[u8; 3]) -> Result<Memory, Fail> {
    let image = elf32::load(alloc, &TWO_SEGMENTS)?;
    Ok(Memory::of(alloc, &image, input)?)
}

// Whether the memory holds the program's text and data, and the input 81 92 a3.
fn holds(memory: &Memory) -> bool {
    let input = 0x0010_0000;
    memory.fetch(0x0001_0000) == Ok(0x73)
        && memory.fetch(input) == Err(Fault::FetchFault)
        && memory.load32(0x0002_0000) == Ok(7)
        && memory.load16(input) == Ok(0x9281)
        && memory.load8(input) == Ok(0x81)
}

fn stores(memory: &mut Memory) -> bool {
    memory.store32(0x0002_0000, 0x0403_0201) == Ok(())
        && memory.store16(0x0002_0002, 0x0605) == Ok(())
        && memory.store8(0x0002_0001, 7) == Ok(())
        && memory.load32(0x0002_0000) == Ok(0x0605_0701)
}

// Whether bytes are copied over the ends of three pages and back, and none past the end of memory.
fn copies(memory: &mut Memory) -> bool {
    let mut out = [0; 0x2004];
    let mut expected = [5; 0x2004];
    expected[0] = 0;
    expected[0x2003] = 0;
    memory.copy_in(0x0003_0fff, &[5; 0x2002]) == Ok(())
        && memory.copy_out(0x0003_0ffe, &mut out) == Ok(())
        && out == expected
        && memory.copy_in(0x0010_ffff, &[1, 2]) == Err(Fault::MemoryFault)
        && memory.copy_out(0x0010_ffff, &mut out) == Err(Fault::MemoryFault)
        && out == expected
}

fn has_ranges(memory: &Memory) -> bool {
    memory.range_readable(0x0001_0000, 0x0010_0000)
        && !memory.range_readable(0x0001_0000, 0x0010_0001)
        && memory.range_writable(0x0001_1000, 0x2000)
        && !memory.range_writable(0x0001_0fff, 2)
        && memory.range_writable(0xffff_ffff, 0)
}

#[test]
fn holds_the_image_and_the_input(rt: HostRuntime) -> Result<(), Fail> {
    assert_right(
        &rt,
        holds(&memory(rt.alloc(), &[0x81, 0x92, 0xa3])?),
        "holds",
    );
    Ok(())
}

#[test]
fn stores_and_copies(rt: HostRuntime) -> Result<(), Fail> {
    let mut memory = memory(rt.alloc(), &[0; 3])?;
    assert_right(&rt, stores(&mut memory), "stores");
    assert_right(&rt, copies(&mut memory), "copies");
    assert_right(&rt, has_ranges(&memory), "ranges");
    Ok(())
}
