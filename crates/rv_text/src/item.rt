//! The statements of the text section.

ghost use Rattle.std.specs.Prelude.{◌≡◌};
ghost use Rattle.rv_text.specs.Assembly.{text_bytes_of};

use rv_names::Statement;

/// A statement of the text section.
#[derive(Clone, Copy, Drop)]
pub struct Item<'a> {
    /// Its line, counted from 1.
    pub line: usize,
    /// The address of its first byte.
    pub address: u32,
    /// What it says.
    pub statement: Statement,
    /// The label that it refers to.
    pub target: Option<&'a [u8]>,
}

/// How many bytes a statement of the text section takes.
pub fn text_bytes(statement: Statement) -> usize
    ensures { result ≡ text_bytes_of statement }
{
    match statement {
        Statement::Pair(..) | Statement::AddressOf { .. } => 8,
        _ => 4,
    }
}
