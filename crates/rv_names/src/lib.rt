//! The names of registers and instructions in assembly: what a line of source says, and the text of an
//! instruction.
#![tactic(auto)]

mod keywords;
mod lines;
mod mnemonics;
mod numbers;
mod operands;
mod ranges;
mod reading;
mod registers;
mod statements;
mod target;
mod texts;

pub use keywords::{Keyword, keyword_of};
pub use lines::{Line, LineCause, Section, Statement};
pub use mnemonics::mnemonic;
pub use numbers::number;
pub use operands::trimmed;
pub use ranges::{branch_offset, jump_offset, load_number};
pub use reading::read_line;
pub use registers::{register, x_name};
pub use texts::{disassembly, instruction_text};
