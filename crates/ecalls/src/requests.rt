//! What an ECALL asks for.

ghost use Rattle.std.specs.Prelude.{◌≡◌, ◌≤◌, Err, Ok, if◌then◌else◌};
ghost use Rattle.rv_ledger.specs.declared.end.Trap.TheVariants.{MemoryFault};
ghost use Rattle.rv_mem.specs.Space.{bytes_at};
ghost use Rattle.ecalls.specs.StorageCalls.{a0, a1, a2, is_readable, length_of, request_by, request_of};
ghost use Rattle.ecalls.specs.declared.storage_call.StorageCall.TheVariants as call;

use crate::copies::{bytes_at, key_at};
use crate::request_kind::StorageRequest;
use crate::storage_call::{StorageCall, added_amount, requested_call};
use rv_isa::{Reg, Regs};
use rv_ledger::{Change, Output, Rules, Trap, Write};
use rv_mem::Memory;

/// What the ECALL asks for, or the first trap that it meets: UnknownCall, BadLength, or MemoryFault if a byte of its key,
/// buffer, value or output lacks the right that it needs.
#[tactic(auto, unfolding(crate::specs::StorageCalls::request_of))]
pub fn request(registers: &Regs, memory: &Memory, rules: Rules) -> Result<StorageRequest, Trap>
    ensures { result ≡ request_of registers.now memory.now rules }
{
    request_by(requested_call(registers, rules)?, registers, memory)
}

/// What a storage call asks for, or MemoryFault if a byte of its key, buffer, value or output lacks the right that it
/// needs. The length of the call must be at most 256 bytes; no limit is above this.
fn request_by(call: StorageCall, registers: &Regs, memory: &Memory) -> Result<StorageRequest, Trap>
    requires { length_of call registers.now ≤ 256 }
    ensures { result ≡ request_by call registers.now memory.now }
{
    match call {
        StorageCall::Read => read(registers, memory),
        StorageCall::Write => write(registers, memory),
        StorageCall::Remove => remove(registers, memory),
        StorageCall::Return => Ok(StorageRequest::Return(output(registers, memory)?)),
        StorageCall::Revert => Ok(StorageRequest::Revert(output(registers, memory)?)),
        StorageCall::Add => add(registers, memory),
    }
}

/// What a READ asks for; MemoryFault unless its key may be read and its buffer may be written.
fn read(registers: &Regs, memory: &Memory) -> Result<StorageRequest, Trap>
    ensures { result ≡ request_by call.Read registers.now memory.now }
{
    let key = key_at(memory, registers.get(Reg::a0())).ok_or(Trap::MemoryFault)?;
    if !memory.range_writable(registers.get(Reg::a1()), registers.get(Reg::a2())) {
        return Err(Trap::MemoryFault);
    }
    Ok(StorageRequest::Read(key))
}

/// What a WRITE asks for; MemoryFault unless its key and its value may be read.
fn write(registers: &Regs, memory: &Memory) -> Result<StorageRequest, Trap>
    requires { a2 registers.now ≤ 256 }
    ensures { result ≡ request_by call.Write registers.now memory.now }
{
    let key = key_at(memory, registers.get(Reg::a0())).ok_or(Trap::MemoryFault)?;
    let value = bytes_at(memory, registers.get(Reg::a1()), registers.get(Reg::a2())).ok_or(
        Trap::MemoryFault,
    )?;
    Ok(StorageRequest::Write(Write {
        key,
        change: Change::Value(value),
    }))
}

/// What a REMOVE asks for; MemoryFault unless its key may be read.
fn remove(registers: &Regs, memory: &Memory) -> Result<StorageRequest, Trap>
    ensures { result ≡ request_by call.Remove registers.now memory.now }
{
    let key = key_at(memory, registers.get(Reg::a0())).ok_or(Trap::MemoryFault)?;
    Ok(StorageRequest::Write(Write {
        key,
        change: Change::Gone,
    }))
}

/// What an ADD asks for; MemoryFault unless its key may be read.
fn add(registers: &Regs, memory: &Memory) -> Result<StorageRequest, Trap>
    ensures { result ≡ request_by call.Add registers.now memory.now }
{
    let key = key_at(memory, registers.get(Reg::a0())).ok_or(Trap::MemoryFault)?;
    Ok(StorageRequest::Add(key, added_amount(registers)))
}

/// The output of a RETURN or a REVERT; MemoryFault unless each of its bytes may be read.
fn output(registers: &Regs, memory: &Memory) -> Result<Output, Trap>
    requires { a1 registers.now ≤ 256 }
    ensures { result ≡ (if is_readable memory.now (a0 registers.now) (a1 registers.now) then Ok (bytes_at memory.now (a0 registers.now) (a1 registers.now)) else Err MemoryFault) }
{
    bytes_at(memory, registers.get(Reg::a0()), registers.get(Reg::a1())).ok_or(Trap::MemoryFault)
}
