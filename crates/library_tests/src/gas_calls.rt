//! The calls of gas.

use gas::{Meter, cost};
use rv_isa::{Immediate, Instr, LoadKind, Operation, Reg, StoreKind};

/// The gas that an operation on two registers costs.
fn cost_of_operation(operation: Operation) -> u32 {
    let (rd, left, right) = (Reg::a0(), Reg::a1(), Reg::a2());
    cost(&Instr::Compute {
        operation,
        rd,
        left,
        right,
    })
}

/// The gas that a load costs.
fn cost_of_load() -> u32 {
    let (rd, base) = (Reg::a0(), Reg::a1());
    let offset = Immediate { value: 0 };
    cost(&Instr::Load {
        kind: LoadKind::Lhu,
        rd,
        base,
        offset,
    })
}

/// The gas that a store costs.
fn cost_of_store() -> u32 {
    let (source, base) = (Reg::a0(), Reg::a1());
    let offset = Immediate { value: 0 };
    cost(&Instr::Store {
        kind: StoreKind::Sb,
        source,
        base,
        offset,
    })
}

/// The gas that a fence costs.
fn cost_of_fence() -> u32 {
    let (rd, source) = (Reg::a0(), Reg::a1());
    let immediate = Immediate { value: 0 };
    cost(&Instr::Fence {
        rd,
        source,
        immediate,
    })
}

#[test]
fn costs_by_kind(rt: HostRuntime) {
    assert!(rt; cost_of_operation(Operation::Remu) == 16);
    assert!(rt; cost_of_operation(Operation::Mulhsu) == 4);
    assert!(rt; cost_of_operation(Operation::Xor) == 1);
    assert!(rt; cost_of_load() == 2);
    assert!(rt; cost_of_store() == 2);
    assert!(rt; cost_of_fence() == 1);
    assert!(rt; cost(&Instr::Ebreak) == 1);
    assert!(rt; cost(&Instr::Ecall) == 0);
}

#[test]
fn charges_and_ends(rt: HostRuntime) {
    let mut meter = Meter::new(20);
    assert!(rt; (meter.charge(16), meter.left()) == (true, 4));
    assert!(rt; (meter.charge(5), meter.left()) == (false, 4));
    assert!(rt; (meter.charge(4), meter) == (true, Meter::new(0)));
    meter = Meter::new(7);
    meter.spend_all();
    assert!(rt; meter.left() == 0);
}
