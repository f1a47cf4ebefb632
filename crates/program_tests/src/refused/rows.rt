//! Blocks with the steps of their workers, and the right outcome of each.

use crate::refused::images::{COND, GET, PUT, SEEN};
use rv_ledger::{Change, End, Key, Outcome, Receipt, StoredValue};

/// The key of LATE_WRITER.
const K: &[u8] = b"\0\0\0\0\0\0\0\0\0\0\0\0\0\0\0\0\0\0\0\0\0\0\0\0\0\0\0\0\0\0\0\x01";

/// That key and the byte 1.
pub const K_1: &[u8] = b"\0\0\0\0\0\0\0\0\0\0\0\0\0\0\0\0\0\0\0\0\0\0\0\0\0\0\0\0\0\0\0\x01\x01";

/// That key and the byte 2.
const K_2: &[u8] = b"\0\0\0\0\0\0\0\0\0\0\0\0\0\0\0\0\0\0\0\0\0\0\0\0\0\0\0\0\0\0\0\x01\x02";

/// The first key of WITHDRAWN_WRITE and the byte 1.
const A_1: &[u8] = b"\0\0\0\0\0\0\0\0\0\0\0\0\0\0\0\0\0\0\0\0\0\0\0\0\0\0\0\0\0\0\0\xaa\x01";

/// Its second key.
const B: &[u8] = b"\0\0\0\0\0\0\0\0\0\0\0\0\0\0\0\0\0\0\0\0\0\0\0\0\0\0\0\0\0\0\0\xbb";

/// Both keys.
const A_B: &[u8] = b"\0\0\0\0\0\0\0\0\0\0\0\0\0\0\0\0\0\0\0\0\0\0\0\0\0\0\0\0\0\0\0\xaa\
    \0\0\0\0\0\0\0\0\0\0\0\0\0\0\0\0\0\0\0\0\0\0\0\0\0\0\0\0\0\0\0\xbb";

/// A block, the steps of its workers, and its result.
pub struct Row {
    /// The source and the input of each call.
    pub calls: &'static [(&'static str, &'static [u8])],
    /// The number of workers.
    pub workers: usize,
    /// The worker of each step.
    pub schedule: &'static [u16],
    /// The text of the result.
    pub text: &'static [u8],
}

/// Two writers of a key and a reader of it. The reader first reads what the first call wrote, and is aborted then.
pub const LATE_WRITER: Row = Row {
    calls: &[(PUT, K_1), (PUT, K_2), (GET, K)],
    workers: 3,
    schedule: &[
        0, 0, 0, 0, 1, 1, 1, 2, 2, 2, 2, 2, 2, 2, 2, 1, 1, 1, 1, 1, 1, 1, 1, 1, 1, 1, 1, 1, 1,
    ],
    text: b"\
        call 0 returned gas 419 pc 00010018 out -\n\
        regs 00000000 00000000 00110000 00000000 00000000 00000000 00000000 00000000 \
        00000000 00000000 00100000 00000000 00000001 00000000 00000000 00000000 \
        00000000 00000003 00000000 00000000 00000000 00000000 00000000 00000000 \
        00000000 00000000 00000000 00000000 00000000 00000000 00000000 00000000\n\
        write 0 0000000000000000000000000000000000000000000000000000000000000001 01\n\
        call 1 returned gas 419 pc 00010018 out -\n\
        regs 00000000 00000000 00110000 00000000 00000000 00000000 00000000 00000000 \
        00000000 00000000 00100000 00000000 00000001 00000000 00000000 00000000 \
        00000000 00000003 00000000 00000000 00000000 00000000 00000000 00000000 \
        00000000 00000000 00000000 00000000 00000000 00000000 00000000 00000000\n\
        write 1 0000000000000000000000000000000000000000000000000000000000000001 02\n\
        call 2 returned gas 216 pc 00010018 out 02\n\
        regs 00000000 00000000 00110000 00000000 00000000 00000000 00000000 00000000 \
        00000000 00000000 0010ffc0 00000001 00000040 00000000 00000000 00000000 \
        00000000 00000003 00000000 00000000 00000000 00000000 00000000 00000000 \
        00000000 00000000 00000000 00000000 00000000 00000000 00000000 00000000\n\
        store 0000000000000000000000000000000000000000000000000000000000000001 02\n\
        end\n",
};

/// A writer of a key, a call that writes another key if the first has no value, and a reader of the other key. The write of the
/// second call is made, and then withdrawn.
pub const WITHDRAWN_WRITE: Row = Row {
    calls: &[(PUT, A_1), (COND, A_B), (SEEN, B)],
    workers: 2,
    schedule: &[
        0, 1, 1, 1, 1, 1, 1, 1, 1, 1, 1, 1, 1, 1, 1, 1, 1, 0, 0, 0, 0, 0, 0, 0, 0, 0, 0, 0, 0, 0,
        0, 0, 0, 0, 0, 0, 0, 0, 0, 0, 0, 0,
    ],
    text: b"\
        call 0 returned gas 419 pc 00010018 out -\n\
        regs 00000000 00000000 00110000 00000000 00000000 00000000 00000000 00000000 \
        00000000 00000000 00100000 00000000 00000001 00000000 00000000 00000000 \
        00000000 00000003 00000000 00000000 00000000 00000000 00000000 00000000 \
        00000000 00000000 00000000 00000000 00000000 00000000 00000000 00000000\n\
        write 0 00000000000000000000000000000000000000000000000000000000000000aa 01\n\
        call 1 returned gas 215 pc 00010024 out -\n\
        regs 00000000 00000000 00110000 00000000 00000000 ffffffff 00000000 00000000 \
        00100020 00000000 fffffffe 00000000 00000000 00000000 00000000 00000000 \
        00000000 00000003 00000000 00000000 00000000 00000000 00000000 00000000 \
        00000000 00000000 00000000 00000000 00000000 00000000 00000000 00000000\n\
        call 2 reverted gas 215 pc 00010018 out -\n\
        regs 00000000 00000000 00110000 00000000 00000000 ffffffff 00000000 00000000 \
        00000000 00000000 ffffffff 00000000 00000000 00000000 00000000 00000000 \
        00000000 00000004 00000000 00000000 00000000 00000000 00000000 00000000 \
        00000000 00000000 00000000 00000000 00000000 00000000 00000000 00000000\n\
        store 00000000000000000000000000000000000000000000000000000000000000aa 01\n\
        end\n",
};

/// An input of ECHO.
pub const ECHOED: &[u8] = b"\x01\x02";

/// The result of a block of one call of ECHO with that input.
pub const ECHO_TEXT: &[u8] = b"\
    call 0 returned gas 13 pc 00010004 out 0102\n\
    regs 00000000 00000000 00110000 00000000 00000000 00000000 00000000 00000000 \
    00000000 00000000 00100000 00000002 00000000 00000000 00000000 00000000 \
    00000000 00000003 00000000 00000000 00000000 00000000 00000000 00000000 \
    00000000 00000000 00000000 00000000 00000000 00000000 00000000 00000000\n\
    end\n";

/// Whether the calls of COUNT ended as they must: each counts the key up by one, and the storage has no other key.
pub fn are_counts(outcome: &Outcome, calls: u32) -> bool {
    let key = Key::new([0x28; 32]);
    let mut count = 0_u32;
    for receipt in &outcome.receipts {
        count = count.wrapping_add(1);
        if !is_count(receipt, &key, count) {
            return false;
        }
    }
    let mut entries = outcome.store.iter();
    let Some((found, value)) = entries.next() else {
        return false;
    };
    count == calls && *found == key && is_number(value, count) && entries.next().is_none()
}

/// Whether this is the receipt of a call of COUNT that counts a key up to this number.
fn is_count(receipt: &Receipt, key: &Key, count: u32) -> bool {
    let Some(Change::Value(value)) = receipt.writes.get(key) else {
        return false;
    };
    receipt.end == End::Returned
        && receipt.gas == 639
        && receipt.pc == 0x0001_0034
        && receipt.out.bytes().is_empty()
        && receipt.regs.values()[5] == count
        && is_number(value, count)
}

/// Whether a value is a number in four bytes, the lowest first.
fn is_number(value: &StoredValue, number: u32) -> bool {
    value.bytes() == number.to_le_bytes().as_slice()
}
