//! The names of the registers.

ghost use Rattle.std.specs.Prelude.{◌≡◌, ◌<◌, IfSome, get_or, map, []};
ghost use Rattle.std.specs.List.{position};
ghost use Rattle.std.specs.Str.{bytes_eq};
ghost use Rattle.rv_isa.specs.Decoding.{register_at};
ghost use Rattle.rv_names.specs.Registers.{x_names, abi_names, place_in, register_number, register_of, x_name};

use rv_isa::Reg;

/// The x names of the registers, in the order of their numbers.
const X_NAMES: [&str; 32] = [
    "x0", "x1", "x2", "x3", "x4", "x5", "x6", "x7", "x8", "x9", "x10", "x11", "x12", "x13", "x14",
    "x15", "x16", "x17", "x18", "x19", "x20", "x21", "x22", "x23", "x24", "x25", "x26", "x27",
    "x28", "x29", "x30", "x31",
];

/// The names of the registers in the calling convention, in the order of their numbers.
const ABI_NAMES: [&str; 32] = [
    "zero", "ra", "sp", "gp", "tp", "t0", "t1", "t2", "s0", "s1", "a0", "a1", "a2", "a3", "a4",
    "a5", "a6", "a7", "s2", "s3", "s4", "s5", "s6", "s7", "s8", "s9", "s10", "s11", "t3", "t4",
    "t5", "t6",
];

/// The place of a text in a table of names; `None` if the table does not have it.
fn place_in(names: &[&str; 32], text: &[u8]) -> Option<usize>
    ensures place { result ≡ position (λ name. bytes_eq name.now text.now) names.now }
    ensures within { IfSome result (λ place. place < 32) }
{
    names.iter().position(|name| name.as_bytes() == text)
}

/// The number of the register that a text names; `None` if it names none.
fn register_number(text: &[u8]) -> Option<usize>
    ensures number { result ≡ register_number text.now }
    ensures within { IfSome result (λ number. number < 32) }
{
    if b"fp".as_slice() == text {
        return Some(8);
    }
    match place_in(&X_NAMES, text) {
        Some(number) => Some(number),
        None => place_in(&ABI_NAMES, text),
    }
}

/// The register of a number below 32.
#[tactic(auto, using(rv_isa::proofs::Same::same_register))]
fn numbered(number: usize) -> Reg
    requires { number < 32 }
    ensures { result ≡ register_at number }
{
    Reg {
        number: number as u32,
    }
}

/// The register that a text names: `x0` to `x31`, or a name of the calling convention. `fp` is x8. `None`
/// for any other text.
#[tactic(auto, unfolding(crate::specs::Registers::register_of))]
pub fn register(text: &[u8]) -> Option<Reg>
    ensures { result ≡ register_of text.now }
{
    Some(numbered(register_number(text)?))
}

/// The name at a place of a table.
fn name_at<'a>(names: &[&'a str; 32], place: usize) -> &'a str
    requires { place < 32 }
    ensures { result.now ≡ get_or (map (λ name. name.now) names.now) place [] }
{
    names[place]
}

/// The x name of a register, `x0` to `x31`.
#[tactic(auto, unfolding(crate::specs::Registers::x_name))]
pub fn x_name(register: Reg) -> &'static str
    ensures { result.now ≡ x_name register }
{
    name_at(&X_NAMES, register.number as usize)
}
