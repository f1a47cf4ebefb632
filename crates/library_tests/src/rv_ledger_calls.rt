//! The calls of rv_ledger.

use crate::program_file::ECHO;
use elf32::Image;
use rv_isa::Regs;
use rv_ledger::*;
use std::alloc::{AllocError, Global};
use std::process::Abort;
use std::sync::Arc;
use std::test::Fail;

// The key with this first and this last byte, and zeros between them.
fn key(first: u8, last: u8) -> Key {
    let mut bytes = [0; 32];
    bytes[0] = first;
    bytes[31] = last;
    Key::new(bytes)
}

// The value of one byte.
fn value(byte: u8) -> Value {
    Value::of(&[byte]).unwrap_or(Value::empty())
}

// The program of `ECHO`, as calls share it.
fn image(alloc: Global) -> Result<Arc<Image>, Fail> {
    Ok(Arc::new(alloc, elf32::load(alloc, &ECHO)?)?)
}

// Whether there is a value of these bytes, and whether there is an output of them.
fn fits(bytes: &[u8]) -> (bool, bool) {
    (Value::of(bytes).is_some(), Output::of(bytes).is_some())
}

// Why a call of a program with this gas limit and this length of input is refused, if it is.
fn refusal(
    alloc: Global,
    image: &Arc<Image>,
    gas: u32,
    len: usize,
) -> Result<Option<CallFault>, Fail> {
    let input = vec![in alloc; 0; len]?;
    match Call::new(Arc::try_clone(image)?, gas, input) {
        Ok(_) => Ok(None),
        Err(fault) => Ok(Some(fault)),
    }
}

// Rows of a gas limit, a length of the input, and why the call is refused.
const CALLS: &[(u32, usize, Option<CallFault>)] = &[
    (0, 0, Some(CallFault::BadGas)),
    (1, 0, None),
    (10_000_000, 4096, None),
    (10_000_001, 4097, Some(CallFault::BadGas)),
    (1, 4097, Some(CallFault::InputTooLong)),
];

#[test]
fn limits(rt: HostRuntime) -> Result<(), Fail> {
    let bytes = [7; 257];
    assert!(rt; fits(&bytes[..256]) == (true, true) && fits(&bytes) == (false, false));
    let image = image(rt.alloc())?;
    for (gas, len, expected) in CALLS {
        let fault = refusal(rt.alloc(), &image, *gas, *len)?;
        assert!(rt; fault == *expected, "gas {gas}, input {len}");
    }
    Ok(())
}

// A call of the program of `ECHO`.
fn call(alloc: Global) -> Result<Call, Fail> {
    let input = Vec::from_slice(alloc, &[5])?;
    Ok(Call::new(image(alloc)?, 1000, input)?)
}

// Calls that differ only in their rules are not equal.
#[test]
fn rules_of_calls(rt: HostRuntime) -> Result<(), Fail> {
    let alloc = rt.alloc();
    let first = call(alloc)?;
    let input = Vec::from_slice(alloc, &[5])?;
    let second = Call::under(Rules::Two, image(alloc)?, 1000, input)?;
    assert!(rt; first.rules() == Rules::One && second.rules() == Rules::Two);
    assert!(rt; same_call(&first, &first.copy()?) && !same_call(&first, &second));
    Ok(())
}

// The call, `count` times.
fn calls(alloc: Global, call: &Call, count: usize) -> Result<Vec<Call>, AllocError> {
    let mut calls = Vec::new(alloc);
    for _ in 0..count {
        calls.push(call.copy()?)?;
    }
    Ok(calls)
}

// The number of calls in a copy of a job.
fn copied_size(job: &Job) -> Result<usize, AllocError> {
    Ok(job.copy()?.block.calls().len())
}

// The number of calls in a copy of the job of a call, `count` times, or why the job is refused.
fn job_size(
    alloc: Global,
    call: &Call,
    count: usize,
) -> Result<Result<usize, JobFault>, AllocError> {
    match Job::new(calls(alloc, call, count)?, Store::new(alloc)) {
        Ok(job) => Ok(Ok(copied_size(&job)?)),
        Err(fault) => Ok(Err(fault)),
    }
}

// Rows of a number of calls, and the number of calls of the job or why it is refused.
const JOBS: &[(usize, Result<usize, JobFault>)] = &[
    (0, Ok(0)),
    (1024, Ok(1024)),
    (1025, Err(JobFault::TooManyCalls)),
];

// Asserts the sizes of the jobs of a call.
fn assert_jobs(rt: &impl Abort, alloc: Global, call: &Call) -> Result<(), Fail> {
    for (count, expected) in JOBS {
        let size = job_size(alloc, call, *count)?;
        assert!(rt; size == *expected, "{count} calls");
    }
    Ok(())
}

#[test]
fn jobs(rt: HostRuntime) -> Result<(), Fail> {
    assert_jobs(&rt, rt.alloc(), &call(rt.alloc())?)
}

// The first and the last byte of keys, and the byte of the value that is stored there.
const STORED: &[(u8, u8, u8)] = &[(1, 0, 1), (0, 9, 2), (0, 8, 3), (1, 0, 4)];

// Stores those values.
fn insert_values(store: &mut Store) -> Result<(), AllocError> {
    for (first, last, byte) in STORED {
        store.insert(key(*first, *last), value(*byte))?;
    }
    Ok(())
}

// A storage of two keys. One of them had another value before, and a third key was removed.
fn store(alloc: Global) -> Result<Store, AllocError> {
    let mut store = Store::new(alloc);
    insert_values(&mut store)?;
    store.remove(&key(0, 8));
    store.remove(&key(5, 5));
    Ok(store)
}

// The entries of a storage.
fn entries(alloc: Global, store: &Store) -> Result<Vec<(Key, Value)>, AllocError> {
    let mut entries = Vec::new(alloc);
    for (key, value) in store.iter() {
        entries.push((*key, value.value()))?;
    }
    Ok(entries)
}

// Whether these are the entries of `store`, in the order of their keys.
fn are_entries(entries: &[(Key, Value)]) -> bool {
    let expected = [(key(0, 9), value(2)), (key(1, 0), value(4))];
    entries == expected.as_slice()
}

// Checks a storage and its copy. The key that was removed is absent.
#[test]
fn storages(rt: HostRuntime) -> Result<(), Fail> {
    let store = store(rt.alloc())?;
    assert!(rt; store.get(&key(0, 8)).is_none() && store.get(&key(0, 9)).is_some());
    let copy = store.copy()?;
    let entries = entries(rt.alloc(), &copy)?;
    assert!(rt; are_entries(entries.as_slice()));
    Ok(())
}

// As many removals of keys as a call may write; fewer if there is no room.
fn writes(alloc: Global) -> Result<Writes, AllocError> {
    let mut writes = Writes::new(alloc);
    for first in 0..=255 {
        let key = key(first, 0);
        if writes.has_room(&key) {
            let change = Change::Gone;
            writes.insert(Write { key, change })?;
        }
    }
    Ok(writes)
}

// A receipt with these writes and no output.
fn receipt(alloc: Global, writes: Writes) -> Receipt {
    Receipt {
        end: End::Returned,
        gas: 10,
        pc: 0x0001_0004,
        out: StoredOutput::empty(alloc),
        regs: Regs::zero(),
        writes,
    }
}

// Whether the writes have room only for a key that they have, and for another key once they are cleared.
fn are_full(writes: &mut Writes) -> bool {
    let is_full = writes.has_room(&key(9, 0))
        && !writes.has_room(&key(9, 1))
        && writes.get(&key(9, 0)).is_some()
        && writes.as_slice().len() == 256;
    writes.clear();
    is_full && writes.has_room(&key(9, 1))
}

// Checks a receipt and its copy.
#[test]
fn written_keys(rt: HostRuntime) -> Result<(), Fail> {
    let mut receipt = receipt(rt.alloc(), writes(rt.alloc())?);
    let mut copy = receipt.copy()?;
    assert!(rt; are_full(&mut receipt.writes) && are_full(&mut copy.writes));
    Ok(())
}
