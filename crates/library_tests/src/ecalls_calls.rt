//! The calls of ecalls. Charges and traps are in tests/tables/charges_and_traps_of_storage_calls.toml.

use crate::program_file::ECHO;
use ecalls::*;
use rv_isa::{Reg, Regs};
use rv_ledger::{Change, Output, Value};
use rv_mem::Memory;
use std::alloc::Global;
use std::process::Abort;
use std::test::Fail;

// The registers of an ECALL.
fn registers(a7: u32, a0: u32, a1: u32, a2: u32) -> Regs {
    let mut registers = Regs::zero();
    registers.set(Reg::a7(), a7);
    registers.set(Reg::a0(), a0);
    registers.set(Reg::a1(), a1);
    registers.set(Reg::a2(), a2);
    registers
}

#[test]
fn charges(rt: HostRuntime) {
    assert!(rt; ecall_charge(&registers(1, 0, 9, 64), Rules::One) == Ok(656));
    assert!(rt; ecall_charge(&registers(1, 0, 9, 65), Rules::One) == Err(Trap::BadLength));
}

// A READ pays for the bytes that it copies under rules two and three.
#[test]
fn late_charges(rt: HostRuntime) {
    assert!(rt; late_charge(Rules::One, 64) == 0);
    assert!(rt; late_charge(Rules::Two, 64) == 64);
}

// A memory whose input, at 0x00100000, is 32 bytes 7 (a key) and then the bytes 1 and 2.
fn memory(alloc: Global) -> Result<Memory, Fail> {
    let mut input = [7; 34];
    input[32] = 1;
    input[33] = 2;
    Ok(Memory::of(alloc, &elf32::load(alloc, &ECHO)?, &input)?)
}

// Whether it is the change that the storage call of this number asks for: the bytes 7, 1 and 2 or a removal.
fn is_asked_change(change: &Change<Value>, call: u32) -> bool {
    match change {
        Change::Value(value) => call == 1 && value.bytes() == [7, 1, 2].as_slice(),
        Change::Gone => call == 2,
        Change::Sum(_) => false,
    }
}

// Whether it is what the storage call of this number asks for: the key of `memory`, and its bytes 7, 1 and 2 as
// value or output.
fn is_asked(request: &StorageRequest, call: u32) -> bool {
    let output = Output::of(&[7, 1, 2]);
    match request {
        StorageRequest::Read(key) => call == 0 && *key.bytes() == [7; 32],
        StorageRequest::Write(write) => {
            *write.key.bytes() == [7; 32] && is_asked_change(&write.change, call)
        }
        StorageRequest::Add(key, amount) => {
            call == 5 && *key.bytes() == [7; 32] && *amount == 0x0000_0002_0000_0003
        }
        StorageRequest::Return(out) => call == 3 && Some(out) == output.as_ref(),
        StorageRequest::Revert(out) => call == 4 && Some(out) == output.as_ref(),
    }
}

// What the storage call of a number asks for.
fn requested(memory: &Memory, call: u32) -> Result<StorageRequest, Trap> {
    let (a0, a1, a2) = match call {
        0..=2 => (0x0010_0000, 0x0010_001f, 3),
        5 => (0x0010_0000, 3, 2),
        _ => (0x0010_001f, 3, 0),
    };
    request(&registers(call, a0, a1, a2), memory, Rules::Three)
}

#[test]
fn requests_of_the_six_calls(rt: HostRuntime) -> Result<(), Fail> {
    let memory = memory(rt.alloc())?;
    for call in 0..6 {
        let request = requested(&memory, call)?;
        assert!(rt; is_asked(&request, call), "call {call}");
    }
    Ok(())
}
