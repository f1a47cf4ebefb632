//! The fields of the ELF header and the program header table.

ghost use Rattle.std.specs.Prelude.{◌≡◌, ◌+◌, ◌≤◌, length};
ghost use Rattle.elf32.specs.Header.{half, word, header_from};

use byteorder::{ByteOrder, LittleEndian};

/// How many bytes the ELF header has.
pub(crate) const HEADER_SIZE: usize = 52;
/// How many bytes a program header has.
pub(crate) const PROGRAM_HEADER_SIZE: usize = 32;

/// The place of the type in the ELF header.
pub(crate) const E_TYPE: usize = 16;

/// The place of the machine in the ELF header.
pub(crate) const E_MACHINE: usize = 18;

/// The place of the version in the ELF header.
pub(crate) const E_VERSION: usize = 20;

/// The place of the entry in the ELF header.
pub(crate) const E_ENTRY: usize = 24;

/// The place of the offset of the program headers in the ELF header.
pub(crate) const E_PHOFF: usize = 28;

/// The place of the flags in the ELF header.
pub(crate) const E_FLAGS: usize = 36;

/// The place of the size of the ELF header in it.
pub(crate) const E_EHSIZE: usize = 40;

/// The place of the size of a program header in the ELF header.
pub(crate) const E_PHENTSIZE: usize = 42;

/// The place of the number of program headers in the ELF header.
pub(crate) const E_PHNUM: usize = 44;

/// The place of the type in a program header.
const P_TYPE: usize = 0;

/// The place of a segment's offset in the file, in a program header.
const P_OFFSET: usize = 4;

/// The place of a segment's address in a program header.
const P_VADDR: usize = 8;

/// The place of a segment's size in the file, in a program header.
const P_FILESZ: usize = 16;

/// The place of a segment's size in memory, in a program header.
const P_MEMSZ: usize = 20;

/// The place of a segment's flags in a program header.
const P_FLAGS: usize = 24;

/// A program header, without p_paddr and p_align.
#[derive(Clone, Copy, Debug, PartialEq, Eq)]
pub struct ProgramHeader {
    /// PT_NULL or PT_LOAD; any other number is BadType.
    pub p_type: u32,
    /// The place in the file at which the segment's bytes begin.
    pub p_offset: u32,
    /// The address at which they begin in memory.
    pub p_vaddr: u32,
    /// How many bytes of the segment are in the file.
    pub p_filesz: u32,
    /// How many bytes the segment has in memory.
    pub p_memsz: u32,
    /// PF_X, PF_W and PF_R; the other bits are ignored.
    pub p_flags: u32,
}

/// The little-endian number in the two bytes at a place.
#[tactic(auto, unfolding(crate::specs::Header::half))]
pub(crate) fn half_at(bytes: &[u8], at: usize) -> u16
    requires { at + 2 ≤ length bytes.now }
    ensures { result ≡ half bytes.now at }
{
    LittleEndian::read_u16(&bytes[at..])
}

/// The little-endian number in the four bytes at a place.
#[tactic(auto, unfolding(crate::specs::Header::word))]
pub(crate) fn word_at(bytes: &[u8], at: usize) -> u32
    requires { at + 4 ≤ length bytes.now }
    ensures { result ≡ word bytes.now at }
{
    LittleEndian::read_u32(&bytes[at..])
}

/// The program header at a place.
#[tactic(auto, unfolding(crate::specs::Header::header_from))]
pub(crate) fn header_from(bytes: &[u8], at: usize) -> ProgramHeader
    requires { at + 32 ≤ length bytes.now }
    ensures { result ≡ header_from bytes.now at }
{
    ProgramHeader {
        p_type: word_at(bytes, at + P_TYPE),
        p_offset: word_at(bytes, at + P_OFFSET),
        p_vaddr: word_at(bytes, at + P_VADDR),
        p_filesz: word_at(bytes, at + P_FILESZ),
        p_memsz: word_at(bytes, at + P_MEMSZ),
        p_flags: word_at(bytes, at + P_FLAGS),
    }
}
