//! A handle, which owns block.

pub(crate) mod zeros;

ghost use Rattle.std.specs.Prelude.{◌≡◌, IsSome, None, Option, Some, is_some};
ghost use Rattle.std.specs.Coded.{coded_option};
ghost use Rattle.std.specs.Option.{option_map};
ghost use Rattle.rvstm_c.specs.contracts.block.EmbeddedBlock as block;
ghost use Rattle.rvstm_c.specs.declared.block.EmbeddedBlock.{EmbeddedBlock};

use crate::block::EmbeddedBlock;
use crate::loose::Loose;
use std::alloc::Global;
use std::marker::Model;

/// A handle, which C keeps. All its bytes are zero before a block is opened.
#[repr(C)]
#[derive(Drop)]
pub struct BlockHandle {
    at: *mut u8,
    full: bool,
    pub ghost value: { Option EmbeddedBlock } by { coded_option (block.the_row).coded },
    ghost flagged: { full ≡ is_some value },
}

impl Model for BlockHandle {
    ghost use Rattle.rvstm_c.specs.Held.{held, on_heap};
    ghost use Rattle.rvstm_c.specs.contracts.block.EmbeddedBlock.{the_row};

    ghost also_owns = { λ h. held on_heap the_row h.at h.value };
}

// What it holds may go to another thread, and nothing else has its pointer.
unsafe impl Send for BlockHandle {}

/// Whether a handle has a block.
fn is_full(handle: &mut BlockHandle) -> bool
    ensures same { handle.new ≡ handle.old }
    ensures says { result ≡ is_some handle.old.value }
{
    handle.full
}

/// Takes the block out of a handle that has one.
fn take(handle: &mut BlockHandle, alloc: Global) -> Loose<EmbeddedBlock, Global>
    requires { IsSome handle.old.value }
    ensures taken { handle.old.value ≡ Some result.value }
    ensures left { handle.new.value ≡ None }
{
    handle.full = false;
    Loose {
        at: handle.at as *mut EmbeddedBlock,
        alloc,
    }
}

/// Puts a block into a handle, which forgets what it had.
fn put(handle: &mut BlockHandle, block: Loose<EmbeddedBlock, Global>)
    ensures { handle.new.value ≡ Some block.value }
{
    let Loose { at, alloc: _ } = block;
    handle.at = at as *mut u8;
    handle.full = true;
}

/// Takes the block out of a handle, or returns None if it has none.
pub(crate) fn take_block(handle: &mut BlockHandle, alloc: Global) -> Option<Box<EmbeddedBlock>>
    ensures taken { option_map (λ block. block.value) result ≡ handle.old.value }
    ensures left { handle.new.value ≡ None }
{
    if !is_full(handle) {
        return None;
    }
    Some(take(handle, alloc).into_box())
}

/// Puts a block into a handle, which forgets what it had.
pub(crate) fn put_block(handle: &mut BlockHandle, block: Box<EmbeddedBlock>)
    ensures { handle.new.value ≡ Some block.value }
{
    put(handle, Loose::of(block));
}
