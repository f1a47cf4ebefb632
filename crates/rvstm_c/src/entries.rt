//! The entries of a block's result, as C gets them.

ghost use Rattle.std.specs.Prelude.{◌≡◌, Option};
ghost use Rattle.std.specs.Option.{option_copied};
ghost use Rattle.rvstm_c.specs.Blocks.{IsGiven};
ghost use Rattle.rvstm_c.specs.Entries.{change_for_c, end_number, receipt_for_c, write_for_c};

use crate::padding::padded;
use crate::status::{DONE, NO_ENTRY, WRONG_STAGE};
use rv_ledger::{Change, End, Key, Receipt, StoredValue, Trap};

/// The bytes of a value, and zeros after them.
const VALUE_ROOM: usize = 256;

/// A key.
#[repr(C)]
#[derive(Clone, Copy)]
pub struct KeyForC {
    /// Its bytes.
    pub bytes: [u8; 32],
}

/// What one call did.
#[repr(C)]
#[derive(Clone, Copy)]
pub struct ReceiptForC {
    /// How it ended: 0 returned, 1 reverted, 2 out of gas, 3 to 10 trapped.
    pub end: u32,
    /// The gas that it used.
    pub gas: u32,
    /// The address of the instruction that ended it.
    pub pc: u32,
    /// The registers at its end.
    pub registers: [u32; 32],
    /// The length of its output.
    pub output_length: u32,
    /// How many keys it wrote.
    pub writes: u32,
}

/// One write of a call.
#[repr(C)]
#[derive(Clone, Copy)]
pub struct WriteForC {
    /// The amount of a sum; otherwise 0.
    pub amount: u64,
    /// 0 for a value, 1 for a removal, 2 for a sum.
    pub kind: u32,
    /// The length of a value; otherwise 0.
    pub length: u32,
    /// The key.
    pub key: [u8; 32],
    /// The value, and zeros after it.
    pub value: [u8; VALUE_ROOM],
}

/// What a block leaves at one key.
#[repr(C)]
#[derive(Clone, Copy)]
pub struct ChangeForC {
    /// The length of the value; 0 if the key is removed.
    pub length: u32,
    /// Whether the key has a value.
    pub present: bool,
    /// The key.
    pub key: [u8; 32],
    /// The value, and zeros after it.
    pub value: [u8; VALUE_ROOM],
}

/// How many entries a result has.
#[repr(C)]
#[derive(Clone, Copy)]
pub struct EntriesForC {
    /// The number of calls.
    pub receipts: usize,
    /// The number of keys that they wrote.
    pub changes: usize,
}

/// Copies an entry to the caller's place. DONE; WRONG_STAGE if there is no result, or NO_ENTRY if it has no such entry, and then
/// the place stays.
pub(crate) fn give<T: Copy + Drop>(entry: Option<Option<T>>, place: &mut T) -> u32
    ensures { IsGiven entry place.old result place.new }
{
    match entry {
        None => WRONG_STAGE,
        Some(None) => NO_ENTRY,
        Some(Some(entry)) => {
            *place = entry;
            DONE
        }
    }
}

/// A key.
pub(crate) fn key_for_c(key: Key) -> KeyForC
    ensures { result.bytes ≡ key }
{
    KeyForC {
        bytes: *key.bytes(),
    }
}

/// What a call did.
pub(crate) fn receipt_for_c(receipt: &Receipt) -> ReceiptForC
    ensures { result ≡ receipt_for_c receipt.now }
{
    receipt.writes.holds();
    ReceiptForC {
        end: end_number(receipt.end),
        gas: receipt.gas,
        pc: receipt.pc,
        registers: *receipt.regs.values(),
        output_length: receipt.out.bytes().len() as u32,
        writes: receipt.writes.len() as u32,
    }
}

/// The number of an end.
fn end_number(end: End) -> u32
    ensures { result ≡ end_number end }
{
    match end {
        End::Returned => 0,
        End::Reverted => 1,
        End::OutOfGas => 2,
        End::Trapped(Trap::Illegal) => 3,
        End::Trapped(Trap::Misaligned) => 4,
        End::Trapped(Trap::MemoryFault) => 5,
        End::Trapped(Trap::FetchFault) => 6,
        End::Trapped(Trap::Breakpoint) => 7,
        End::Trapped(Trap::UnknownCall) => 8,
        End::Trapped(Trap::BadLength) => 9,
        End::Trapped(Trap::TooManyWrites) => 10,
    }
}

/// A write of a call.
pub(crate) fn write_for_c(key: &Key, change: &Change<StoredValue>) -> WriteForC
    ensures { result ≡ write_for_c (key.now, change.now) }
{
    let none = WriteForC {
        amount: 0,
        kind: 0,
        length: 0,
        key: *key.bytes(),
        value: [0; VALUE_ROOM],
    };
    match change {
        Change::Value(value) => WriteForC {
            length: value.bytes().len() as u32,
            value: padded(value.bytes()),
            ..none
        },
        Change::Gone => WriteForC { kind: 1, ..none },
        Change::Sum(amount) => WriteForC {
            kind: 2,
            amount: *amount,
            ..none
        },
    }
}

/// A change of a block.
pub(crate) fn change_for_c(key: &Key, content: &Option<StoredValue>) -> ChangeForC
    ensures { result ≡ change_for_c (key.now, content.now) }
{
    match content {
        Some(value) => ChangeForC {
            length: value.bytes().len() as u32,
            present: true,
            key: *key.bytes(),
            value: padded(value.bytes()),
        },
        None => ChangeForC {
            length: 0,
            present: false,
            key: *key.bytes(),
            value: [0; VALUE_ROOM],
        },
    }
}
