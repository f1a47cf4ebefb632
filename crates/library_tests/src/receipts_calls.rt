//! The text, compared with one that was written by hand.

use crate::asserts::assert_right;
use receipts::{end_name, one_text_of, result_text, write_outcome};
use rv_isa::{Reg, Regs};
use rv_ledger::{
    Change, End, InlineBytes, Job, Key, Outcome, Receipt, Store, StoredOutput, Trap, Value,
    Write as WriteTo, Writes,
};
use std::alloc::Global;
use std::process::Abort;
use std::test::Fail;

/// The text of a result of two calls: one that writes nothing, and one that changes four keys.
const TEXT: &str = "\
    call 0 returned gas 13 pc 00010004 out 0102\n\
    regs \
    00000000 00000000 00110000 00000000 00000000 00000000 00000000 00000000 \
    00000000 00000000 00100000 00000002 00000000 00000000 00000000 00000000 \
    00000000 00000003 00000000 00000000 00000000 00000000 00000000 00000000 \
    00000000 00000000 00000000 00000000 00000000 00000000 00000000 00000000\n\
    call 1 returned gas 4294967295 pc fedcba98 out -\n\
    regs \
    00000000 00000000 00000000 00000000 00000000 00000000 00000000 00000000 \
    00000000 00000000 00000000 00000000 00000000 00000000 00000000 00000000 \
    00000000 00000000 00000000 00000000 00000000 00000000 00000000 00000000 \
    00000000 00000000 00000000 00000000 00000000 00000000 00000000 00000000\n\
    write 1 \
    0000000000000000000000000000000000000000000000000000000000000000 gone\n\
    write 1 \
    0a0a0a0a0a0a0a0a0a0a0a0a0a0a0a0a0a0a0a0a0a0a0a0a0a0a0a0a0a0a0a0a -\n\
    write 1 \
    0b0b0b0b0b0b0b0b0b0b0b0b0b0b0b0b0b0b0b0b0b0b0b0b0b0b0b0b0b0b0b0b add 18446744073709551615\n\
    write 1 \
    ffffffffffffffffffffffffffffffffffffffffffffffffffffffffffffffff 00ab09\n\
    store \
    0a0a0a0a0a0a0a0a0a0a0a0a0a0a0a0a0a0a0a0a0a0a0a0a0a0a0a0a0a0a0a0a -\n\
    store \
    ffffffffffffffffffffffffffffffffffffffffffffffffffffffffffffffff 01\n\
    end\n";

/// The outcome whose text that is.
fn outcome(alloc: Global) -> Result<Outcome, Fail> {
    let mut outcome = Outcome {
        job: Job::new(Vec::new(alloc), Store::new(alloc))?,
        receipts: Vec::new(alloc),
        store: Store::new(alloc),
        counts: Vec::new(alloc),
    };
    fill(alloc, &mut outcome)?;
    Ok(outcome)
}

/// Puts the receipts and the values of that outcome into an empty one.
fn fill(alloc: Global, outcome: &mut Outcome) -> Result<(), Fail> {
    outcome.receipts.push(echo(alloc)?)?;
    outcome.receipts.push(writer(alloc)?)?;
    outcome.store.insert(Key::new([0xff; 32]), value(&[1])?)?;
    outcome
        .store
        .insert(Key::new([10; 32]), InlineBytes::empty())?;
    Ok(())
}

/// The receipt of a call that returned two bytes.
fn echo(alloc: Global) -> Result<Receipt, Fail> {
    let mut regs = Regs::zero();
    regs.set(Reg::sp(), 0x0011_0000);
    regs.set(Reg::a0(), 0x0010_0000);
    regs.set(Reg::a1(), 2);
    regs.set(Reg::a7(), 3);
    Ok(Receipt {
        end: End::Returned,
        gas: 13,
        pc: 0x0001_0004,
        out: StoredOutput::of(alloc, value(&[1, 2])?.lend())?,
        regs,
        writes: Writes::new(alloc),
    })
}

/// The receipt of a call that removed a key, wrote no bytes to a second and three to a third.
fn writer(alloc: Global) -> Result<Receipt, Fail> {
    let mut writes = Writes::new(alloc);
    write(
        &mut writes,
        [0xff; 32],
        Change::Value(value(&[0, 0xab, 9])?),
    )?;
    write(&mut writes, [10; 32], Change::Value(InlineBytes::empty()))?;
    write(&mut writes, [11; 32], Change::Sum(u64::MAX))?;
    write(&mut writes, [0; 32], Change::Gone)?;
    Ok(Receipt {
        end: End::Returned,
        gas: u32::MAX,
        pc: 0xfedc_ba98,
        out: StoredOutput::empty(alloc),
        regs: Regs::zero(),
        writes,
    })
}

fn value(bytes: &[u8]) -> Result<Value, Fail> {
    Ok(Value::of(bytes).ok_or("long")?)
}

fn write(writes: &mut Writes, key: [u8; 32], change: Change<Value>) -> Result<(), Fail> {
    let key = Key::new(key);
    if writes.has_room(&key) {
        writes.insert(WriteTo { key, change })?;
    }
    Ok(())
}

/// Whether an outcome's result is written after what an output already holds.
fn is_written(alloc: Global, outcome: &Outcome) -> Result<bool, Fail> {
    let mut out = Vec::new(alloc);
    out.push(7)?;
    write_outcome(alloc, outcome, &mut out)?;
    Ok(match out.as_slice() {
        [7, rest @ ..] => rest == TEXT.as_bytes(),
        _ => false,
    })
}

/// Whether the result of the outcome is written so.
fn is_outcome_written(alloc: Global) -> Result<bool, Fail> {
    let outcome = outcome(alloc)?;
    one_text_of(&outcome, &outcome);
    is_written(alloc, &outcome)
}

/// Whether the result of no call has only its end.
fn is_empty_ended(alloc: Global) -> Result<bool, Fail> {
    let text = result_text(alloc, &[], &Store::new(alloc))?;
    Ok(text.as_slice() == b"end\n".as_slice())
}

#[test]
fn writes_a_result(rt: HostRuntime) -> Result<(), Fail> {
    assert!(rt; is_outcome_written(rt.alloc())?);
    assert!(rt; is_empty_ended(rt.alloc())?);
    Ok(())
}

/// Each end with its name.
const NAMES: &[(End, &str)] = &[
    (End::Returned, "returned"),
    (End::Reverted, "reverted"),
    (End::OutOfGas, "out-of-gas"),
    (End::Trapped(Trap::Illegal), "illegal"),
    (End::Trapped(Trap::Misaligned), "misaligned"),
    (End::Trapped(Trap::MemoryFault), "memory-fault"),
    (End::Trapped(Trap::FetchFault), "fetch-fault"),
    (End::Trapped(Trap::Breakpoint), "breakpoint"),
    (End::Trapped(Trap::UnknownCall), "unknown-call"),
    (End::Trapped(Trap::BadLength), "bad-length"),
    (End::Trapped(Trap::TooManyWrites), "too-many-writes"),
];

#[test]
fn names_ends(rt: HostRuntime) {
    for (end, name) in NAMES {
        assert_right(&rt, end_name(*end) == *name, name);
    }
}
