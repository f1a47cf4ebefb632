//! Loads and stores by their width.

ghost use Rattle.std.specs.Prelude.{◌≡◌, ◌<◌, ◌*◌, ◌^◌, IfOk};
ghost use Rattle.rv_alu.specs.Accesses.{store_width, width_of};
ghost use Rattle.rv_mem.specs.Space.{LeavesMemory, as_answer, loaded, stored};
ghost use Rattle.rv_mem.specs.declared.access.Access.TheVariants as access;

use rv_isa::{LoadKind, StoreKind};
use rv_mem::{Fault, Memory};

/// The number that a load reads, before it is extended to 32 bits. Refused as Misaligned if the address is not a multiple of
/// the width, otherwise as MemoryFault if a byte may not be read.
#[inline(always)]
pub fn number_at(memory: &Memory, kind: LoadKind, address: u32) -> Result<u32, Fault>
    ensures value { result ≡ as_answer (loaded (width_of kind) access.Read memory.now address) }
    ensures small { IfOk result (λ n. n < 2 ^ (8 * width_of kind)) }
{
    match kind {
        LoadKind::Lb | LoadKind::Lbu => Ok(u32::from(memory.load8(address)?)),
        LoadKind::Lh | LoadKind::Lhu => Ok(u32::from(memory.load16(address)?)),
        LoadKind::Lw => memory.load32(address),
    }
}

/// Stores the low bytes of a number. Refused as Misaligned, as MemoryFault if a byte may not be written, or as Memory if memory
/// ran out. A refusal changes nothing.
#[inline(always)]
pub fn store_number(
    memory: &mut Memory,
    kind: StoreKind,
    address: u32,
    value: u32,
) -> Result<(), Fault>
    ensures { LeavesMemory result (stored (store_width kind) memory.old address value) memory.old memory.new }
{
    match kind {
        StoreKind::Sb => memory.store8(address, (value & 0xff) as u8),
        StoreKind::Sh => memory.store16(address, (value & 0xffff) as u16),
        StoreKind::Sw => memory.store32(address, value),
    }
}
