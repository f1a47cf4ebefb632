//! The parts of the line that a refusal prints.

ghost use Rattle.std.specs.Prelude.{◌≤◌, length};

/// The parts of the line that a refusal prints.
#[derive(Clone, Copy, Debug)]
pub struct LineParts {
    /// What refuses: at most 8 bytes.
    pub area: &'static str,
    /// The number of the line that has a fault, from 1; None if the refusal is of no line.
    pub line: Option<usize>,
    /// The name: at most 16 bytes.
    pub name: &'static str,
    /// The number within the area, from 1.
    pub number: u8,
    ghost short_area: { length area.now ≤ 8 },
    ghost short_name: { length name.now ≤ 16 },
}
