//! The upper halves of products of 64 bits.

ghost use Rattle.std.specs.Prelude.{◌≡◌, pos, ◌*ℤ◌, ◌*◌, ◌/◌, ◌^◌};
ghost use Rattle.rv_isa.specs.Number.{signed, wrapped};
ghost use Rattle.rv_alu.specs.Operations.{value_of, floor};
ghost use Rattle.rv_isa.specs.declared.instruction.Operation.TheVariants as operation;

/// The upper 32 bits of the product of two signed numbers.
pub(crate) fn high_signed(left: u32, right: u32) -> u32
    ensures { result ≡ wrapped (value_of operation.Mulh left right) }
{
    high(i64::from(left.cast_signed()) * i64::from(right.cast_signed()))
}

/// The upper 32 bits of the product of `left`, signed, and `right`, unsigned.
pub(crate) fn high_mixed(left: u32, right: u32) -> u32
    ensures { result ≡ wrapped (value_of operation.Mulhsu left right) }
{
    high(i64::from(left.cast_signed()) * i64::from(right))
}

/// The upper 32 bits of the product of two unsigned numbers.
pub(crate) fn high_unsigned(left: u32, right: u32) -> u32
    ensures { result ≡ wrapped (value_of operation.Mulhu left right) }
{
    (u64::from(left) * u64::from(right) >> 32) as u32
}

/// The upper 32 bits of a product.
fn high(product: i64) -> u32
    ensures { result ≡ wrapped (floor product (2 ^ 32)) }
{
    ((product >> 32) as i32).cast_unsigned()
}
