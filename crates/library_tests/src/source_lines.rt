//! Lines of source.

use rv_isa::encode;
use rv_names::{Section, Statement, read_line};

/// The word of a line of one instruction or one `.word`; None for any other line.
pub fn word(section: Section, text: &str) -> Option<u32> {
    match read_line(section, text.as_bytes()) {
        Ok(line) => match line.statement {
            Statement::Plain(instr) => Some(encode(&instr)),
            Statement::WordValue(word) => Some(word),
            _ => None,
        },
        Err(_) => None,
    }
}
