//! The file of a program.

/// A program of two instructions, `li a7, 3` and `ecall`, in one segment at 0x00010000. The segment may be
/// read and executed, but not written.
pub const ECHO: [u8; 92] = [
    0x7f, 0x45, 0x4c, 0x46, 1, 1, 1, 0, 0, 0, 0, 0, 0, 0, 0, 0, // e_ident
    2, 0, 0xf3, 0, 1, 0, 0, 0, 0, 0, 1, 0, 0x34, 0, 0, 0, // e_type to e_phoff
    0, 0, 0, 0, 0, 0, 0, 0, 0x34, 0, 0x20, 0, 1, 0, 0, 0, // e_shoff to e_shentsize
    0, 0, 0, 0, // e_shnum, e_shstrndx
    1, 0, 0, 0, 0x54, 0, 0, 0, 0, 0, 1, 0, 0, 0, 1, 0, // p_type to p_paddr
    8, 0, 0, 0, 8, 0, 0, 0, 5, 0, 0, 0, 4, 0, 0, 0, // p_filesz to p_align
    0x93, 0x08, 0x30, 0, 0x73, 0, 0, 0, // text
];
