//! The addresses of loads and stores, and the extension of what is loaded.

ghost use Rattle.std.specs.Prelude.{◌≡◌, ◌*◌, ◌^◌, ◌<◌};
ghost use Rattle.rv_alu.specs.Accesses.{address_from, extended_of, width_of};

use rv_isa::{Immediate, LoadKind};

/// The address of a load or a store: `base`, the value of rs1, plus `offset`, modulo 2^32.
#[inline(always)]
pub fn address(base: u32, offset: Immediate) -> u32
    ensures { result ≡ address_from base offset }
{
    base.wrapping_add_signed(offset.value)
}

/// What a load writes to rd when it reads `number`, which is below 2^8 for LB and LBU and below 2^16 for
/// LH and LHU. LB and LH sign-extend it, LBU and LHU zero-extend it.
#[inline(always)]
pub fn extended(kind: LoadKind, number: u32) -> u32
    requires { number < 2 ^ (8 * width_of kind) }
    ensures { result ≡ extended_of kind number }
{
    match kind {
        LoadKind::Lb => i32::from((number as u8).cast_signed()).cast_unsigned(),
        LoadKind::Lh => i32::from((number as u16).cast_signed()).cast_unsigned(),
        LoadKind::Lw | LoadKind::Lbu | LoadKind::Lhu => number,
    }
}
