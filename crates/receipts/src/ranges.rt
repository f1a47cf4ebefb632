//! The ranges of the numbers in a result, which its types keep.

ghost use Rattle.std.specs.Prelude.{All};
ghost use Rattle.std.specs.FinMap.{entries};
ghost use Rattle.receipts.specs.Ranges.{AreBytes, AreInRange, AreWords, IsChangeInRange, IsEntryInRange, IsReceiptInRange, IsWriteInRange};

use rv_ledger::{Change, Key, Receipt, Store, StoredValue, Writes};

/// The numbers of a byte slice are bytes.
fn are_bytes(_bytes: &[u8])
    ensures { AreBytes _bytes.now }
{}

/// The numbers of a slice of words have 32 bits.
fn are_words(_words: &[u32])
    ensures { AreWords _words.now }
{}

/// A change's value is bytes, and its amount has 64 bits.
fn is_change_in_range(change: &Change<StoredValue>)
    ensures { IsChangeInRange change.now }
{
    match change {
        Change::Value(value) => are_bytes(value.bytes()),
        Change::Gone => {}
        Change::Sum(amount) => {
            let _amount = *amount;
        }
    }
}

/// A write's key is bytes, and its change is in range.
fn is_write_in_range(key: &Key, change: &Change<StoredValue>)
    ensures { IsWriteInRange (key.now, change.now) }
{
    are_bytes(key.bytes().as_slice());
    is_change_in_range(change);
}

/// The keys and changes of all writes of a call are in range.
fn are_writes_in_range(writes: &Writes)
    ensures { All IsWriteInRange (entries writes.now) }
{
    for (key, change) in writes.as_slice() {
        is_write_in_range(key, change);
    }
}

/// The numbers of a receipt are in their ranges.
fn is_in_range(receipt: &Receipt)
    ensures { IsReceiptInRange receipt.now }
{
    let _gas = receipt.gas;
    let _pc = receipt.pc;
    are_bytes(receipt.out.bytes());
    are_words(receipt.regs.values().as_slice());
    are_writes_in_range(&receipt.writes);
}

/// A key and a value of the storage are bytes.
fn is_entry_in_range(key: &Key, value: &StoredValue)
    ensures { IsEntryInRange (key.now, value.now) }
{
    are_bytes(key.bytes().as_slice());
    are_bytes(value.bytes());
}

/// All keys and values of the storage are bytes.
fn are_entries_in_range(store: &Store)
    ensures { All IsEntryInRange (entries store.now) }
{
    for (key, value) in store.iter() {
        is_entry_in_range(key, value);
    }
}

/// The numbers of all receipts are in their ranges.
fn all_in_range(receipts: &[Receipt])
    ensures { All IsReceiptInRange receipts.now }
{
    for receipt in receipts {
        is_in_range(receipt);
    }
}

/// The numbers of a result are in their ranges.
pub(crate) fn are_in_range(receipts: &[Receipt], store: &Store)
    ensures { AreInRange receipts.now store.now }
{
    all_in_range(receipts);
    are_entries_in_range(store);
}
