//! A program that returns its input, as its file and its listing.

/// Its ELF file: a header, one segment to read and execute at 0x10000, and two words.
pub const ECHO_FILE: &[u8] = b"\x7fELF\x01\x01\x01\0\0\0\0\0\0\0\0\0\x02\0\xf3\0\
    \x01\0\0\0\0\0\x01\0\x34\0\0\0\0\0\0\0\0\0\0\0\x34\0\x20\0\x01\0\0\0\0\0\0\0\
    \x01\0\0\0\x54\0\0\0\0\0\x01\0\0\0\x01\0\x08\0\0\0\x08\0\0\0\x05\0\0\0\x04\0\0\0\
    \x93\x08\x30\0\x73\0\0\0";

/// Its listing.
pub const ECHO_LISTING: &str = "00010000 00300893 addi x17,x0,3\n00010004 00000073 ecall\n";
