//! The addresses of memory, and its pages.

/// The first address of memory.
pub const FIRST_ADDRESS: u32 = 0x0001_0000;

/// The first address after memory.
pub const END_ADDRESS: u32 = 0x0011_0000;

/// The address of the input; segments end before it.
pub const INPUT_ADDRESS: u32 = 0x0010_0000;

/// The number of bytes of a page.
pub const PAGE_SIZE: usize = 4096;

/// The number of pages of memory.
pub(crate) const PAGE_COUNT: usize = 256;
