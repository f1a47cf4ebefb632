//! The faults of the ELF header, one function each.

ghost use Rattle.std.specs.Prelude.{◌≡◌, ◌≤◌, false, length};
ghost use Rattle.elf32.specs.Faults.{has_bad_class_or_data, has_bad_count, has_bad_flags, has_bad_header_size, has_bad_magic, has_bad_version, is_not_exec, is_not_riscv, is_truncated};
ghost use Rattle.elf32.specs.Readable.{IsReadable};

use crate::header::{
    E_EHSIZE, E_FLAGS, E_MACHINE, E_PHENTSIZE, E_PHNUM, E_PHOFF, E_TYPE, E_VERSION, HEADER_SIZE,
    PROGRAM_HEADER_SIZE, half_at, word_at,
};
use crate::table::MAX_COUNT;

/// The first bytes of an ELF file.
pub(crate) const MAGIC: [u8; 4] = [0x7f, b'E', b'L', b'F'];

/// The class of 32-bit files.
pub(crate) const ELFCLASS32: u8 = 1;

/// The data encoding with the lowest byte first.
pub(crate) const ELFDATA2LSB: u8 = 1;

/// The one version of the format.
pub(crate) const EV_CURRENT: u8 = 1;

/// An executable file.
pub(crate) const ET_EXEC: u16 = 2;

/// The machine RISC-V.
pub(crate) const EM_RISCV: u16 = 243;

/// Whether the file has fewer than 52 bytes, or has 1 to 8 program headers and ends before their end.
#[tactic(auto, unfolding(crate::specs::Faults::is_truncated, crate::specs::Faults::has_bad_count))]
pub(crate) fn is_truncated(bytes: &[u8]) -> bool
    ensures value { result ≡ is_truncated bytes.now }
    ensures header { result ≡ false → 52 ≤ length bytes.now }
    ensures table { result ≡ false → has_bad_count bytes.now ≡ false → IsReadable bytes.now }
{
    if bytes.len() < HEADER_SIZE {
        return true;
    }
    let start = word_at(bytes, E_PHOFF) as usize;
    let count = half_at(bytes, E_PHNUM) as usize;
    !has_bad_count(bytes) && bytes.len() < start + PROGRAM_HEADER_SIZE * count
}

/// Whether bytes 0 to 3 are not `MAGIC`.
#[tactic(auto, unfolding(crate::specs::Faults::has_bad_magic))]
pub(crate) fn has_bad_magic(bytes: &[u8]) -> bool
    requires { 52 ≤ length bytes.now }
    ensures { result ≡ has_bad_magic bytes.now }
{
    !bytes.starts_with(&MAGIC)
}

/// Whether the file is not a 32-bit one, or not little-endian.
#[tactic(auto, unfolding(crate::specs::Faults::has_bad_class_or_data))]
pub(crate) fn has_bad_class_or_data(bytes: &[u8]) -> bool
    requires { 52 ≤ length bytes.now }
    ensures { result ≡ has_bad_class_or_data bytes.now }
{
    bytes[4] != ELFCLASS32 || bytes[5] != ELFDATA2LSB
}

/// Whether byte 6 or e_version is not 1.
#[tactic(auto, unfolding(crate::specs::Faults::has_bad_version))]
pub(crate) fn has_bad_version(bytes: &[u8]) -> bool
    requires { 52 ≤ length bytes.now }
    ensures { result ≡ has_bad_version bytes.now }
{
    bytes[6] != EV_CURRENT || word_at(bytes, E_VERSION) != u32::from(EV_CURRENT)
}

/// Whether e_type is not ET_EXEC.
#[tactic(auto, unfolding(crate::specs::Faults::is_not_exec))]
pub(crate) fn is_not_exec(bytes: &[u8]) -> bool
    requires { 52 ≤ length bytes.now }
    ensures { result ≡ is_not_exec bytes.now }
{
    half_at(bytes, E_TYPE) != ET_EXEC
}

/// Whether e_machine is not EM_RISCV.
#[tactic(auto, unfolding(crate::specs::Faults::is_not_riscv))]
pub(crate) fn is_not_riscv(bytes: &[u8]) -> bool
    requires { 52 ≤ length bytes.now }
    ensures { result ≡ is_not_riscv bytes.now }
{
    half_at(bytes, E_MACHINE) != EM_RISCV
}

/// Whether e_flags is not 0.
#[tactic(auto, unfolding(crate::specs::Faults::has_bad_flags))]
pub(crate) fn has_bad_flags(bytes: &[u8]) -> bool
    requires { 52 ≤ length bytes.now }
    ensures { result ≡ has_bad_flags bytes.now }
{
    word_at(bytes, E_FLAGS) != 0
}

/// Whether e_ehsize is not 52 or e_phentsize is not 32.
#[tactic(auto, unfolding(crate::specs::Faults::has_bad_header_size))]
pub(crate) fn has_bad_header_size(bytes: &[u8]) -> bool
    requires { 52 ≤ length bytes.now }
    ensures { result ≡ has_bad_header_size bytes.now }
{
    half_at(bytes, E_EHSIZE) as usize != HEADER_SIZE
        || half_at(bytes, E_PHENTSIZE) as usize != PROGRAM_HEADER_SIZE
}

/// Whether e_phnum, the number of program headers, is not 1 to 8.
#[tactic(auto, unfolding(crate::specs::Faults::has_bad_count))]
pub(crate) fn has_bad_count(bytes: &[u8]) -> bool
    requires { 52 ≤ length bytes.now }
    ensures { result ≡ has_bad_count bytes.now }
{
    let count = half_at(bytes, E_PHNUM) as usize;
    count == 0 || MAX_COUNT < count
}
