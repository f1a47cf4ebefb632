//! The storage calls, their lengths and their charges.

ghost use Rattle.std.specs.Prelude.{◌≡◌, ◌≤◌, IfOk};
ghost use Rattle.ecalls.specs.StorageCalls.{add_under, added_amount, requested_call, numbered_call, number_of, charge_of, ecall_charge, late_charge, length_of, longest};

use rv_isa::{Reg, Regs};
use rv_ledger::{OUTPUT_LIMIT, Rules, Trap};

/// The gas of a READ, apart from the gas of the bytes that it copies.
pub const READ_CHARGE: u32 = 200;

/// A storage call, by its number in a7.
#[derive(Clone, Copy, Debug, PartialEq, Eq)]
pub enum StorageCall {
    /// Reads the value of a key into a buffer.
    Read = 0,
    /// Writes a value to a key.
    Write = 1,
    /// Removes a key.
    Remove = 2,
    /// Ends the call with an output; its writes are kept.
    Return = 3,
    /// Ends the call with an output; its writes are dropped.
    Revert = 4,
    /// Adds an amount to the number at a key without reading it; only rules three know it.
    Add = 5,
}

// The number of each call, as a pattern.
const READ: u32 = StorageCall::Read as u32;

const WRITE: u32 = StorageCall::Write as u32;

const REMOVE: u32 = StorageCall::Remove as u32;

const RETURN: u32 = StorageCall::Return as u32;

const REVERT: u32 = StorageCall::Revert as u32;

const ADD: u32 = StorageCall::Add as u32;

impl StorageCall {
    /// The number in a7.
    pub fn number(self) -> u32
        ensures { result ≡ number_of self }
    {
        self as u32
    }

    /// The storage call that has a number under some rules, or None if none has it.
    fn of(rules: Rules, number: u32) -> Option<StorageCall>
        ensures { result ≡ numbered_call rules number }
    {
        match number {
            READ => Some(StorageCall::Read),
            WRITE => Some(StorageCall::Write),
            REMOVE => Some(StorageCall::Remove),
            RETURN => Some(StorageCall::Return),
            REVERT => Some(StorageCall::Revert),
            ADD => StorageCall::add_under(rules),
            _ => None,
        }
    }

    /// ADD, or None if the rules do not know it.
    fn add_under(rules: Rules) -> Option<StorageCall>
        ensures { result ≡ add_under rules }
    {
        match rules {
            Rules::One | Rules::Two => None,
            Rules::Three => Some(StorageCall::Add),
        }
    }

    /// The length that the registers give for the call, in bytes; 0 for a removal and for an ADD.
    fn length(self, registers: &Regs) -> u32
        ensures { result ≡ length_of self registers.now }
    {
        match self {
            StorageCall::Read | StorageCall::Write => registers.get(Reg::a2()),
            StorageCall::Remove | StorageCall::Add => 0,
            StorageCall::Return | StorageCall::Revert => registers.get(Reg::a1()),
        }
    }

    /// The greatest length that the call may have, in bytes.
    fn longest(self, rules: Rules) -> u32
        ensures value { result ≡ longest self rules }
        ensures small { result ≤ 256 }
    {
        match self {
            StorageCall::Read | StorageCall::Write => rules.longest_value() as u32,
            StorageCall::Remove | StorageCall::Add => 0,
            StorageCall::Return | StorageCall::Revert => OUTPUT_LIMIT as u32,
        }
    }

    /// The gas of the call before it acts, 10 to 1,424. Its length must be at most 256 bytes; no limit is above this.
    pub fn charge(self, registers: &Regs) -> u32
        requires { length_of self registers.now ≤ 256 }
        ensures { result ≡ charge_of self registers.now }
    {
        match self {
            StorageCall::Read => READ_CHARGE,
            StorageCall::Write => 400 + 4 * registers.get(Reg::a2()),
            StorageCall::Remove | StorageCall::Add => 300,
            StorageCall::Return | StorageCall::Revert => 10 + registers.get(Reg::a1()),
        }
    }
}

/// The storage call whose number is in a7. Traps UnknownCall if no call has that number under the rules; otherwise
/// BadLength if its length is above the limit. That is a2 above the rules' longest value for READ and WRITE, and a1 above
/// 256 for RETURN and REVERT.
#[tactic(auto, unfolding(crate::specs::StorageCalls::requested_call))]
pub fn requested_call(registers: &Regs, rules: Rules) -> Result<StorageCall, Trap>
    ensures call { result ≡ requested_call registers.now rules }
    ensures short { IfOk result (λ call. length_of call registers.now ≤ 256) }
{
    let Some(call) = StorageCall::of(rules, registers.get(Reg::a7())) else {
        return Err(Trap::UnknownCall);
    };
    if call.length(registers) > call.longest(rules) {
        return Err(Trap::BadLength);
    }
    Ok(call)
}

/// The charge of an ECALL in gas before it acts, 10 to 1,424. Traps UnknownCall, or otherwise BadLength; these two traps
/// cost nothing.
pub fn ecall_charge(registers: &Regs, rules: Rules) -> Result<u32, Trap>
    ensures { result ≡ ecall_charge registers.now rules }
{
    let call = requested_call(registers, rules)?;
    Ok(call.charge(registers))
}

/// The further gas of a READ that copies a value of `len` bytes: none under rules one, and one for each
/// byte under rules two and three.
pub fn late_charge(rules: Rules, len: u32) -> u32
    ensures { result ≡ late_charge rules len }
{
    match rules {
        Rules::One => 0,
        Rules::Two | Rules::Three => len,
    }
}

/// The amount that an ADD adds: its low half is in a1 and its high half in a2.
pub fn added_amount(registers: &Regs) -> u64
    ensures { result ≡ added_amount registers.now }
{
    u64::from(registers.get(Reg::a1())) + (u64::from(registers.get(Reg::a2())) << 32)
}
