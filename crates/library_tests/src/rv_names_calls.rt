//! Worked words and lines.

use crate::asserts::assert_right;
use crate::source_lines::word;
use rv_isa::{Reg, decode, encode};
use rv_names::{
    LineCause, Section, Statement, branch_offset, instruction_text, jump_offset, keyword_of,
    load_number, mnemonic, number, read_line, register, trimmed, x_name,
};
use std::alloc::Global;
use std::test::Fail;

/// The words of a line of two instructions; None for any other line.
fn pair(text: &str) -> Option<(u32, u32)> {
    match read_line(Section::Text, text.as_bytes()) {
        Ok(line) => match line.statement {
            Statement::Pair(first, second) => Some((encode(&first), encode(&second))),
            _ => None,
        },
        Err(_) => None,
    }
}

/// The cause of a faulty line.
fn cause(section: Section, text: &str) -> Option<LineCause> {
    match read_line(section, text.as_bytes()) {
        Ok(_) => None,
        Err(cause) => Some(cause),
    }
}

const PAIRS: &[(&str, (u32, u32))] = &[
    ("li x1,0x12345fff", (0x1234_60b7, 0xfff0_8093)),
    ("li x1,-1", (0x0000_00b7, 0xfff0_8093)),
];

const WORDS: &[(Section, &str, u32)] = &[
    (Section::Text, "nop", 0x0000_0013),
    (Section::Text, "mv a0, sp", 0x0001_0513),
    (Section::Text, "ret", 0x0000_8067),
    (Section::Text, "j 8", 0x0080_006f),
    (
        Section::Text,
        "\t addi\tfp , zero ,\t0xA # five",
        0x00a0_0413,
    ),
    (Section::Data, "x:.word -1", 0xffff_ffff),
];

#[test]
fn pseudo_instructions(rt: HostRuntime) {
    for (text, words) in PAIRS {
        assert_right(&rt, pair(text) == Some(*words), text);
    }
    for (section, text, want) in WORDS {
        assert_right(&rt, word(*section, text) == Some(*want), text);
    }
}

const CAUSES: &[(Section, &str, LineCause)] = &[
    (Section::Data, "addi x1,x0,1", LineCause::BadOperand),
    (Section::Text, "addi x1,x0,2048", LineCause::ImmediateRange),
    (Section::Text, "foo", LineCause::UnknownMnemonic),
    (Section::Text, "a : nop", LineCause::BadOperand),
    (Section::Text, "1a: foo", LineCause::UnknownMnemonic),
    (Section::Text, "1a:", LineCause::BadOperand),
    (Section::Text, "a: a: nop", LineCause::UnknownMnemonic),
    (Section::Text, "nop\r", LineCause::UnknownMnemonic),
    (Section::Text, "NOP", LineCause::UnknownMnemonic),
    (Section::Text, "addi x1,x0,-0x1", LineCause::BadOperand),
    (Section::Text, "addi x1,x0,0X1", LineCause::BadOperand),
    (
        Section::Text,
        "addi x1,x0,00000000001",
        LineCause::BadOperand,
    ),
    (Section::Text, "beq x0,x0,3", LineCause::ImmediateRange),
    (Section::Text, "beq x0,x0,4096", LineCause::ImmediateRange),
    (Section::Text, "j 1048576", LineCause::ImmediateRange),
    (Section::Text, ".text ,", LineCause::BadOperand),
    (Section::Text, "nop x1", LineCause::BadOperand),
    (Section::Text, "lw x1,4 (x2)", LineCause::BadOperand),
    (Section::Text, "lw x1,5000(x32)", LineCause::BadOperand),
    (Section::Text, "slli x1,x1,32", LineCause::ImmediateRange),
    (Section::Text, "lui x1,1048576", LineCause::ImmediateRange),
    (Section::Text, ".byte 1", LineCause::BadOperand),
    (Section::Data, ".byte 256", LineCause::ImmediateRange),
    (Section::Data, ".zero 65537", LineCause::ImmediateRange),
    (Section::Text, "li x1,4294967296", LineCause::ImmediateRange),
    (Section::Text, "j", LineCause::BadOperand),
];

#[test]
fn causes(rt: HostRuntime) {
    for (section, text, want) in CAUSES {
        assert_right(&rt, cause(*section, text) == Some(*want), text);
    }
    let zero = "addi x1,x0,-0";
    assert!(rt; word(Section::Text, zero) == Some(0x0000_0093));
}

/// The label and the target of a line that is right.
fn names_in(text: &str) -> Option<(Option<&[u8]>, Option<&[u8]>)> {
    match read_line(Section::Text, text.as_bytes()) {
        Ok(line) => Some((line.label, line.target)),
        Err(_) => None,
    }
}

/// The statement of a line that is right.
fn statement(text: &str) -> Option<Statement> {
    match read_line(Section::Text, text.as_bytes()) {
        Ok(line) => Some(line.statement),
        Err(_) => None,
    }
}

const LABELS: &[(&str, Option<&[u8]>, Option<&[u8]>)] = &[
    ("x: .data", Some(b"x"), None),
    ("  _l1:  # here", Some(b"_l1"), None),
    ("j x1", None, Some(b"x1")),
    ("li a0,buf", None, Some(b"buf")),
];

#[test]
fn labels(rt: HostRuntime) {
    for (text, label, target) in LABELS {
        assert_right(&rt, names_in(text) == Some((*label, *target)), text);
    }
    let entered = Statement::Enter(Section::Data);
    assert!(rt; statement("x: .data") == Some(entered));
    assert!(rt; statement("  _l1:  # here") == Some(Statement::Empty));
    let jump = Statement::JumpTo {
        rd: Reg { number: 0 },
    };
    assert!(rt; statement("j x1") == Some(jump));
    let address = Statement::AddressOf {
        rd: Reg { number: 10 },
    };
    assert!(rt; statement("li a0,buf") == Some(address));
}

/// The x name of a register.
fn x_name_of(name: &[u8]) -> Option<&'static str> {
    Some(x_name(register(name)?))
}

/// The mnemonic that a name is read as.
fn mnemonic_of(name: &[u8]) -> Option<&'static str> {
    Some(mnemonic(keyword_of(name)?))
}

/// The first word of the two that load a number into a register.
fn load_word(name: &[u8], number: u32) -> Option<u32> {
    let (first, _) = load_number(register(name)?, number);
    Some(encode(&first))
}

/// The text of a word's instruction.
fn text_of(alloc: Global, word: u32) -> Result<String, Fail> {
    let instr = decode(word).ok_or("illegal")?;
    Ok(instruction_text(alloc, &instr)?)
}

#[test]
fn names(rt: HostRuntime) -> Result<(), Fail> {
    assert!(rt; x_name_of(b"t6") == Some("x31"));
    assert!(rt; mnemonic_of(b"lhu") == Some("lhu"));
    assert!(rt; number(b"4294967295") == Some(4294967295));
    assert!(rt; trimmed(b" \ta b\t") == b"a b".as_slice());
    assert!(rt; branch_offset(4094).is_some());
    assert!(rt; jump_offset(-1048576).is_some());
    assert!(rt; load_word(b"t6", 0x800) == Some(0x0000_1fb7));
    let text = text_of(rt.alloc(), 0x0050_0093)?;
    assert!(rt; text.as_str() == "addi x1,x0,5");
    Ok(())
}
