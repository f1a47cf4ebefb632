//! The calls of rv_isa.

use rv_isa::{
    BranchOffset, Condition, Immediate, ImmediateOperation, Instr, JumpOffset, Operation, Reg,
    Regs, Shift, ShiftAmount, StoreKind, Upper, decode, encode,
};
use std::process::Abort;

// Each of these macros takes its operands in the order of the assembler's text.

macro_rules! compute {
    ($operation:ident, $rd:literal, $left:literal, $right:literal) => {
        Instr::Compute {
            operation: Operation::$operation,
            rd: Reg { number: $rd },
            left: Reg { number: $left },
            right: Reg { number: $right },
        }
    };
}

macro_rules! compute_immediate {
    ($operation:ident, $rd:literal, $source:literal, $immediate:expr) => {
        Instr::ComputeImmediate {
            operation: ImmediateOperation::$operation,
            rd: Reg { number: $rd },
            source: Reg { number: $source },
            immediate: Immediate { value: $immediate },
        }
    };
}

macro_rules! shift {
    ($shift:ident, $rd:literal, $source:literal, $amount:literal) => {
        Instr::ShiftImmediate {
            shift: Shift::$shift,
            rd: Reg { number: $rd },
            source: Reg { number: $source },
            amount: ShiftAmount { value: $amount },
        }
    };
}

macro_rules! store {
    ($kind:ident, $source:literal, $offset:expr, $base:literal) => {
        Instr::Store {
            kind: StoreKind::$kind,
            source: Reg { number: $source },
            base: Reg { number: $base },
            offset: Immediate { value: $offset },
        }
    };
}

macro_rules! branch {
    ($condition:ident, $left:literal, $right:literal, $offset:expr) => {
        Instr::Branch {
            condition: Condition::$condition,
            left: Reg { number: $left },
            right: Reg { number: $right },
            offset: BranchOffset { value: $offset },
        }
    };
}

macro_rules! lui {
    ($rd:literal, $immediate:literal) => {
        Instr::Lui {
            rd: Reg { number: $rd },
            immediate: Upper { value: $immediate },
        }
    };
}

macro_rules! jal {
    ($rd:literal, $offset:literal) => {
        Instr::Jal {
            rd: Reg { number: $rd },
            offset: JumpOffset { value: $offset },
        }
    };
}

// A fence with these fields rd and rs1, and with bits 31 to 20 as a signed number.
macro_rules! fence {
    ($rd:literal, $source:literal, $immediate:expr) => {
        Instr::Fence {
            rd: Reg { number: $rd },
            source: Reg { number: $source },
            immediate: Immediate { value: $immediate },
        }
    };
}

/// Whether a word decodes to an instruction, and the instruction encodes to the word.
fn stands_for(word: u32, instr: &Instr) -> bool {
    decode(word) == Some(*instr) && encode(instr) == word
}

/// Checks each word against the instruction of its row.
fn stand_for(rt: &impl Abort, rows: &[(u32, Instr)]) {
    for (word, instr) in rows {
        assert!(rt; stands_for(*word, instr), "{word:#010x}");
    }
}

const FIVE_WORDS: [(u32, Instr); 5] = [
    // addi x1,x0,5
    (0x0050_0093, compute_immediate!(Addi, 1, 0, 5)),
    // add x3,x1,x2
    (0x0020_81b3, compute!(Add, 3, 1, 2)),
    // beq x0,x0,-4
    (0xfe00_0ee3, branch!(Beq, 0, 0, -4)),
    // sw x2,-4(x1)
    (0xfe20_ae23, store!(Sw, 2, -4, 1)),
    // srai x1,x1,31
    (0x41f0_d093, shift!(Srai, 1, 1, 31)),
];

#[test]
fn five_words(rt: HostRuntime) {
    stand_for(&rt, &FIVE_WORDS);
}

const MORE_WORDS: [(u32, Instr); 7] = [
    // fence iorw,iorw
    (0x0ff0_000f, fence!(0, 0, 0xff)),
    (0x0000_000f, fence!(0, 0, 0)),
    // jal x0,4096
    (0x0000_106f, jal!(0, 4096)),
    // bne x1,x0,0
    (0x0000_9063, branch!(Bne, 1, 0, 0)),
    // lui x1,0x20
    (0x0002_00b7, lui!(1, 0x20)),
    (0x0000_0073, Instr::Ecall),
    (0x0010_0073, Instr::Ebreak),
];

#[test]
fn more_words(rt: HostRuntime) {
    stand_for(&rt, &MORE_WORDS);
}

const ILLEGAL_WORDS: &[u32] = &[
    0x0000_0000,
    // slli x1,x1,32
    0x0200_9093,
];

#[test]
fn illegal_words(rt: HostRuntime) {
    for word in ILLEGAL_WORDS {
        assert!(rt; decode(*word) == None, "{word:#010x}");
    }
}

/// Whether registers keep what is written to them, except the first, which stays zero.
fn keep_what_is_written() -> bool {
    let mut regs = Regs::zero();
    regs.set(Reg { number: 0 }, 5);
    regs.set(Reg { number: 31 }, 6);
    regs.set(Reg::a0(), 7);
    regs.get(Reg { number: 0 }) == 0 && regs.get(Reg { number: 31 }) == 6 && regs.values()[10] == 7
}

#[test]
fn registers_keep_what_is_written(rt: HostRuntime) {
    assert!(rt; keep_what_is_written());
    assert!(rt; numbers() == [2, 10, 11, 12, 17]);
}

/// The numbers of the registers that have names.
fn numbers() -> [u32; 5] {
    [
        Reg::sp().number,
        Reg::a0().number,
        Reg::a1().number,
        Reg::a2().number,
        Reg::a7().number,
    ]
}
