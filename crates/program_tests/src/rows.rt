//! Programs, by the words of their text.

/// Returns its input.
pub const ECHO: &[u32] = &[0x0030_0893, 0x0000_0073];

/// Counts a key up by one.
pub const COUNT: &[u32] = &[
    0xfc01_0593,
    0x0400_0613,
    0x0005_0413,
    0x0000_0073,
    0xfc01_2283,
    0x0012_8293,
    0xfc51_2023,
    0x0004_0513,
    0x0040_0613,
    0x0010_0893,
    0x0000_0073,
    0x0030_0893,
    0x0000_0593,
    0x0000_0073,
];
