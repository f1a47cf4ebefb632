//! The calls on the result of a block.

ghost use Rattle.std.specs.Prelude.{◌≡◌};
ghost use Rattle.std.specs.Option.{option_map};
ghost use Rattle.rvstm_c.specs.Blocks.{GivesEntry, block_view, result_at};
ghost use Rattle.rvstm_c.specs.Results.{IsOutputCopied, IsOutputCopiedAt, entries_of, given_receipt, given_change, given_write};

use crate::block::EmbeddedBlock;
use crate::block_handle::{BlockHandle, put_block, take_block};
use crate::copying::copy_text;
use crate::entries::{
    ChangeForC, EntriesForC, ReceiptForC, WriteForC, change_for_c, give, receipt_for_c, write_for_c,
};
use crate::status::{CLOSED, NO_ENTRY, WRONG_STAGE};
use std::alloc::Global;

/// Copies how many entries the result has. DONE; WRONG_STAGE or CLOSED, and then `entries` stays.
#[unsafe(no_mangle)]
pub extern "C" fn rvstm_result_counts(
    alloc: Global,
    handle: &mut BlockHandle,
    entries: &mut EntriesForC,
) -> u32
    ensures same { handle.new.value ≡ handle.old.value }
    ensures given { GivesEntry entries_of handle.old.value entries.old result entries.new }
{
    let Some(block) = take_block(handle, alloc) else {
        return CLOSED;
    };
    let status = give(entries_in(&block), entries);
    put_block(handle, block);
    status
}

/// Copies what a call did. DONE; NO_ENTRY, WRONG_STAGE or CLOSED, and then `receipt` stays.
#[unsafe(no_mangle)]
pub extern "C" fn rvstm_result_receipt(
    alloc: Global,
    handle: &mut BlockHandle,
    call: usize,
    receipt: &mut ReceiptForC,
) -> u32
    ensures same { handle.new.value ≡ handle.old.value }
    ensures given { GivesEntry (given_receipt call) handle.old.value receipt.old result receipt.new }
{
    let Some(block) = take_block(handle, alloc) else {
        return CLOSED;
    };
    let status = give(receipt_in(&block, call), receipt);
    put_block(handle, block);
    status
}

/// Copies what a call returned or reverted with to the beginning of a buffer. DONE; SHORT_BUFFER, NO_ENTRY, WRONG_STAGE or CLOSED,
/// and then the buffer stays.
#[unsafe(no_mangle)]
pub extern "C" fn rvstm_result_output(
    alloc: Global,
    handle: &mut BlockHandle,
    call: usize,
    buffer: &mut [u8],
) -> u32
    ensures same { handle.new.value ≡ handle.old.value }
    ensures copied { IsOutputCopied call handle.old.value buffer.old result buffer.new }
{
    let Some(block) = take_block(handle, alloc) else {
        return CLOSED;
    };
    let status = copy_output(&block, call, buffer);
    put_block(handle, block);
    status
}

/// Copies a write of a call. DONE; NO_ENTRY, WRONG_STAGE or CLOSED, and then `write` stays.
#[unsafe(no_mangle)]
pub extern "C" fn rvstm_result_write(
    alloc: Global,
    handle: &mut BlockHandle,
    call: usize,
    index: usize,
    write: &mut WriteForC,
) -> u32
    ensures same { handle.new.value ≡ handle.old.value }
    ensures given { GivesEntry (given_write call index) handle.old.value write.old result write.new }
{
    let Some(block) = take_block(handle, alloc) else {
        return CLOSED;
    };
    let status = give(write_in(&block, call, index), write);
    put_block(handle, block);
    status
}

/// Copies a change of the block. DONE; NO_ENTRY, WRONG_STAGE or CLOSED, and then `change` stays.
#[unsafe(no_mangle)]
pub extern "C" fn rvstm_result_change(
    alloc: Global,
    handle: &mut BlockHandle,
    index: usize,
    change: &mut ChangeForC,
) -> u32
    ensures same { handle.new.value ≡ handle.old.value }
    ensures given { GivesEntry (given_change index) handle.old.value change.old result change.new }
{
    let Some(block) = take_block(handle, alloc) else {
        return CLOSED;
    };
    let status = give(change_in(&block, index), change);
    put_block(handle, block);
    status
}

/// How many entries a block's result has; None if it has no result.
fn entries_in(block: &EmbeddedBlock) -> Option<Option<EntriesForC>>
    ensures { result ≡ option_map entries_of (result_at (block_view block.now).stage) }
{
    let result = block.result()?;
    Some(Some(EntriesForC {
        receipts: result.receipts.len(),
        changes: result.changes.len(),
    }))
}

/// What a call of a block did, if there is such a call; None if the block has no result.
fn receipt_in(block: &EmbeddedBlock, call: usize) -> Option<Option<ReceiptForC>>
    ensures { result ≡ option_map (given_receipt call) (result_at (block_view block.now).stage) }
{
    let result = block.result()?;
    match result.receipts.get(call) {
        Some(receipt) => Some(Some(receipt_for_c(receipt))),
        None => Some(None),
    }
}

/// A write of a call of a block, if there is one; None if the block has no result.
fn write_in(block: &EmbeddedBlock, call: usize, index: usize) -> Option<Option<WriteForC>>
    ensures { result ≡ option_map (given_write call index) (result_at (block_view block.now).stage) }
{
    let result = block.result()?;
    let Some(receipt) = result.receipts.get(call) else {
        return Some(None);
    };
    match receipt.writes.as_slice().get(index) {
        Some((key, change)) => Some(Some(write_for_c(key, change))),
        None => Some(None),
    }
}

/// A change of a block, if there is one; None if the block has no result.
fn change_in(block: &EmbeddedBlock, index: usize) -> Option<Option<ChangeForC>>
    ensures { result ≡ option_map (given_change index) (result_at (block_view block.now).stage) }
{
    let result = block.result()?;
    match result.changes.get(index) {
        Some((key, content)) => Some(Some(change_for_c(key, content))),
        None => Some(None),
    }
}

/// Copies the output of a call of a block. Returns the status.
fn copy_output(block: &EmbeddedBlock, call: usize, buffer: &mut [u8]) -> u32
    ensures { IsOutputCopiedAt call (result_at (block_view block.now).stage) buffer.old result buffer.new }
{
    let Some(result) = block.result() else {
        return WRONG_STAGE;
    };
    match result.receipts.get(call) {
        Some(receipt) => copy_text(receipt.out.bytes(), buffer),
        None => NO_ENTRY,
    }
}
