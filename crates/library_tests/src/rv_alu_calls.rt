//! The calls of rv_alu. What each instruction computes is in tests/tables/results_of_instructions.toml.

use rv_alu::{address, execute, extended};
use rv_isa::{Immediate, Instr, LoadKind, Operation, Reg, Regs};
use std::process::Abort;

/// Runs an operation at 0x10000, on `left` in a1 and `right` in a2. Returns the next pc and what a0 holds then.
fn computed(operation: Operation, left: u32, right: u32) -> (Option<u32>, u32) {
    let mut registers = Regs::zero();
    registers.set(Reg::a1(), left);
    registers.set(Reg::a2(), right);
    let instr = Instr::Compute {
        operation,
        rd: Reg::a0(),
        left: Reg::a1(),
        right: Reg::a2(),
    };
    let next = execute(&instr, &mut registers, 0x10000);
    (next, registers.get(Reg::a0()))
}

/// Checks rows of an operation, its two operands and what it computes.
fn compute(rt: &impl Abort, rows: &[(Operation, u32, u32, u32)]) {
    for (operation, left, right, want) in rows {
        assert!(rt;
            computed(*operation, *left, *right) == (Some(0x10004), *want),
            "{operation:?} {left} {right}"
        );
    }
}

const DIVISIONS: &[(Operation, u32, u32, u32)] = &[
    (Operation::Div, 0x8000_0000, 0xffff_ffff, 0x8000_0000),
    (Operation::Rem, 0x8000_0000, 0xffff_ffff, 0),
    (Operation::Div, 7, 0, 0xffff_ffff),
    (Operation::Rem, 7, 0, 7),
    (Operation::Div, 0xffff_fff9, 2, 0xffff_fffd),
    (Operation::Rem, 0xffff_fff9, 2, 0xffff_ffff),
];

#[test]
fn division(rt: HostRuntime) {
    compute(&rt, DIVISIONS);
}

const PRODUCTS: &[(Operation, u32, u32, u32)] = &[
    (Operation::Mulhu, 0xffff_ffff, 0xffff_ffff, 0xffff_fffe),
    (Operation::Mulh, 0xffff_ffff, 0xffff_ffff, 0),
    (Operation::Mulhsu, 0xffff_ffff, 2, 0xffff_ffff),
    (Operation::Mulhsu, 2, 0xffff_ffff, 1),
];

#[test]
fn high_products(rt: HostRuntime) {
    compute(&rt, PRODUCTS);
}

#[test]
fn loads(rt: HostRuntime) {
    assert!(rt; address(0x10, Immediate { value: -0x20 }) == 0xffff_fff0);
    assert!(rt; extended(LoadKind::Lb, 0x80) == 0xffff_ff80);
}
