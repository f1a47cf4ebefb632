//! Bytes copied out of memory.

ghost use Rattle.std.specs.Prelude.{◌≡◌, ◌≤◌, Some, None, if◌then◌else◌};
ghost use Rattle.rv_mem.specs.Space.{bytes_at};
ghost use Rattle.ecalls.specs.StorageCalls.{is_readable};

use rv_ledger::{InlineBytes, Key};
use rv_mem::Memory;

/// The key at an address, or None if a byte of it may not be read.
#[inline(always)]
pub fn key_at(memory: &Memory, address: u32) -> Option<Key>
    ensures { result ≡ (if is_readable memory.now address 32 then Some (bytes_at memory.now address 32) else None) }
{
    let mut bytes = [0; 32];
    memory.copy_out(address, &mut bytes).ok()?;
    Some(Key::new(bytes))
}

/// The `len` bytes at an address, or None if one of them may not be read.
#[inline(always)]
pub fn bytes_at<const LIMIT: usize>(
    memory: &Memory,
    address: u32,
    len: u32,
) -> Option<InlineBytes<LIMIT>>
    requires { len ≤ LIMIT }
    ensures { result ≡ (if is_readable memory.now address len then Some (bytes_at memory.now address len) else None) }
{
    let mut room = [0; LIMIT];
    memory.copy_out(address, &mut room[..len as usize]).ok()?;
    Some(InlineBytes::of_room(&room, len as usize))
}
