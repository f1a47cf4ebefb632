//! The calls on a block before its result.

ghost use Rattle.std.specs.Prelude.{◌≡◌, None, Some};
ghost use Rattle.rvstm_c.specs.Blocks.{AddsCallOf, RunsOn, IsBased, IsBlockClosed, IsBlockOpened, OnBlock, block_view, rules_numbered};
ghost use Rattle.rvstm_c.specs.Entries.{program_in};
ghost use Rattle.rvstm_c.specs.Statuses.{closed};

use crate::block::{EmbeddedBlock, Stage, rules_of};
use crate::block_handle::{BlockHandle, put_block, take_block};
use crate::entries::{KeyForC, key_for_c};
use crate::image_handle::{ImageHandle, put_image, take_image};
use crate::status::{ALREADY_OPEN, BAD_RULES, CLOSED, DONE, ENDED, KEY, NO_MEMORY, PAUSED};
use rv_ledger::Rules;
use std::alloc::{AllocError, AllocFailed, Global};

/// Opens a block without calls, under rules 1, 2 or 3. DONE; ALREADY_OPEN if the handle has a block, which stays; BAD_RULES, or
/// NO_MEMORY, and then it has none.
#[unsafe(no_mangle)]
pub extern "C" fn rvstm_block_open(alloc: Global, handle: &mut BlockHandle, rules: u32) -> u32
    ensures { IsBlockOpened (rules_numbered rules) handle.old.value result handle.new.value }
{
    match take_block(handle, alloc) {
        Some(block) => {
            put_block(handle, block);
            ALREADY_OPEN
        }
        None => match rules_of(rules) {
            Some(rules) => open_new(alloc, handle, rules),
            None => BAD_RULES,
        },
    }
}

/// Opens a block if the handle has none. DONE, or NO_MEMORY.
fn open_new(alloc: Global, handle: &mut BlockHandle, rules: Rules) -> u32
    requires { handle.old.value ≡ None }
    ensures { IsBlockOpened (Some rules) None result handle.new.value }
{
    let block = EmbeddedBlock {
        rules,
        stage: Stage::Calls(Vec::new(alloc)),
    };
    match Box::new(alloc, block) {
        Ok(block) => {
            put_block(handle, block);
            DONE
        }
        Err(AllocFailed { .. }) => NO_MEMORY,
    }
}

/// Adds a call of an image's program after the others. DONE; CLOSED if a handle has nothing; WRONG_STAGE; TOO_MANY_CALLS; BAD_GAS;
/// LONG_INPUT; FAILED. The image stays.
#[unsafe(no_mangle)]
pub extern "C" fn rvstm_calls_add(
    alloc: Global,
    handle: &mut BlockHandle,
    image: &mut ImageHandle,
    gas: u32,
    input: &[u8],
) -> u32
    ensures image { image.new.value ≡ image.old.value }
    ensures added { OnBlock (AddsCallOf (program_in image.old.value) gas input.now) handle.old.value result handle.new.value }
{
    let Some(mut block) = take_block(handle, alloc) else {
        return CLOSED;
    };
    let status = add_call(alloc, &mut block, image, gas, input);
    put_block(handle, block);
    status
}

/// Adds a call of an image's program, if the image is open. Returns the status.
fn add_call(
    alloc: Global,
    block: &mut EmbeddedBlock,
    image: &mut ImageHandle,
    gas: u32,
    input: &[u8],
) -> u32
    ensures image { image.new.value ≡ image.old.value }
    ensures added { AddsCallOf (program_in image.old.value) gas input.now (block_view block.old) result (block_view block.new) }
{
    let Some(own) = take_image(image, alloc) else {
        return CLOSED;
    };
    let status = block.add_call(alloc, &own.program, gas, input);
    put_image(image, own);
    status
}

/// Begins the run, or continues it, until a call asks for a key that is not known, or until all calls have ended. KEY, and then
/// `key` has it; ENDED, and each later call returns it again and changes nothing; PAUSED if memory ran out; CLOSED.
#[unsafe(no_mangle)]
pub extern "C" fn rvstm_run_go(alloc: Global, handle: &mut BlockHandle, key: &mut KeyForC) -> u32
    ensures gone { OnBlock (RunsOn key.old.bytes key.new.bytes) handle.old.value result handle.new.value }
    ensures stays { result ≡ closed → key.new ≡ key.old }
{
    let Some(mut block) = take_block(handle, alloc) else {
        return CLOSED;
    };
    let status = go(alloc, &mut block, key);
    put_block(handle, block);
    status
}

/// Continues a block's run. Returns the status.
fn go(alloc: Global, block: &mut EmbeddedBlock, key: &mut KeyForC) -> u32
    ensures { RunsOn key.old.bytes key.new.bytes (block_view block.old) result (block_view block.new) }
{
    match block.go(alloc) {
        Ok(Some(wanted)) => {
            *key = key_for_c(wanted);
            KEY
        }
        Ok(None) => {
            let _result = block.result();
            ENDED
        }
        Err(AllocError) => PAUSED,
    }
}

/// Answers the key that the run asks for: a value, or absence if `present` is false. DONE; NOT_ASKED; LONG_VALUE; FAILED; CLOSED.
#[unsafe(no_mangle)]
pub extern "C" fn rvstm_run_base(
    alloc: Global,
    handle: &mut BlockHandle,
    present: bool,
    value: &[u8],
) -> u32
    ensures { OnBlock (IsBased present value.now) handle.old.value result handle.new.value }
{
    let Some(mut block) = take_block(handle, alloc) else {
        return CLOSED;
    };
    let status = block.answer(present, value);
    put_block(handle, block);
    status
}

/// Closes a block at any stage, and frees its memory. DONE or CLOSED.
#[unsafe(no_mangle)]
pub extern "C" fn rvstm_block_close(alloc: Global, handle: &mut BlockHandle) -> u32
    ensures left { handle.new.value ≡ None }
    ensures status { IsBlockClosed handle.old.value result }
{
    match take_block(handle, alloc) {
        Some(block) => {
            drop(block);
            DONE
        }
        None => CLOSED,
    }
}
