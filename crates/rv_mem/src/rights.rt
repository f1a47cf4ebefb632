//! Tests of the rights of pages.

ghost use Rattle.std.specs.Prelude.{◌≡◌, ◌+◌, ◌%◌, ◌≤◌, ◌<◌, ◌-◌, ◌/◌, ◌==◌, ◌||◌, List, length, IfOk, IfSome, IsTrue, Ok};
ghost use Rattle.elf32.specs.declared.segment.Rights.{Rights};
ghost use Rattle.rv_mem.specs.declared.access.Access.{Access};
ghost use Rattle.elf32.specs.Extent.{end_address, first_address, memory_size, page_count, page_size};
ghost use Rattle.rv_mem.specs.Paged.{AreAllowed, IsAllowed, is_open};
ghost use Rattle.rv_mem.specs.Space.{allows_range, as_answer, place_of};

use crate::access::Access;
use crate::fault::Fault;
use elf32::Rights;
use elf32::extent::{END_ADDRESS, FIRST_ADDRESS, PAGE_SIZE};

/// The number of bytes of a page, of the type of an address.
const PAGE: u32 = PAGE_SIZE as u32;

/// The number of bytes of memory.
const MEMORY_SIZE: u32 = END_ADDRESS - FIRST_ADDRESS;

/// Whether each of the `len` bytes from the address on lies in memory and its page allows the access.
/// Addresses do not wrap. For `len` 0 it is true at any address.
pub fn range_has(rights: &[Rights], access: Access, address: u32, len: u32) -> bool
    requires { length rights.now ≡ page_count }
    ensures value { result ≡ allows_range access rights.now address len }
    ensures room { IsTrue result → 0 < len → (first_address ≤ address) × (address + len ≤ end_address) }
    ensures pages { IsTrue result → 0 < len → AreAllowed access rights.now ((address - first_address) / page_size) ((address - first_address + len - 1) / page_size + 1) }
{
    if len == 0 {
        return true;
    }
    if address < FIRST_ADDRESS {
        return false;
    }
    if len > END_ADDRESS.saturating_sub(address) {
        return false;
    }
    let first = (address - FIRST_ADDRESS) / PAGE;
    let last = (address - FIRST_ADDRESS + (len - 1)) / PAGE;
    for page in first..last + 1 {
        if !access.is_allowed_by(rights[page as usize]) {
            return false;
        }
    }
    true
}

/// Whether a place in memory is a multiple of `size`, and its page allows the access. The range and the alignment are
/// tested first, since the compiler makes one test of both.
#[inline(always)]
fn is_open(rights: &[Rights], access: Access, at: u32, size: u32) -> bool
    requires pages { length rights.now ≡ page_count }
    requires size { 0 < size }
    ensures { result ≡ is_open access rights.now at size }
{
    at < MEMORY_SIZE && at % size == 0 && access.is_allowed_by(rights[(at / PAGE) as usize])
}

/// The place, from the start of memory, of the number of `size` bytes at the address. Refused with Misaligned if the address is
/// not a multiple of `size`. Otherwise refused with the fault of the access if a byte is outside memory or its page does not
/// allow the access.
#[inline(always)]
pub fn place(rights: &[Rights], access: Access, address: u32, size: u32) -> Result<usize, Fault>
    requires pages { length rights.now ≡ page_count }
    requires size { IsTrue (size == 1 || size == 2 || size == 4) }
    ensures value { result ≡ as_answer (place_of size access rights.now address) }
    ensures room { IfOk result (λ k. k + size ≤ memory_size) }
    ensures page { IfOk result (λ k. k % page_size + size ≤ page_size) }
    ensures allowed { IfOk result (λ k. IsAllowed access rights.now (k / page_size)) }
{
    let at = address.wrapping_sub(FIRST_ADDRESS);
    if is_open(rights, access, at, size) {
        return Ok(at as usize);
    }
    if address % size != 0 {
        return Err(Fault::Misaligned);
    }
    Err(access.fault())
}

/// The place, from the start of memory, of an aligned number of `size` bytes at the address, whatever the rights of its page.
/// None if the address is not aligned or not in memory.
#[inline(always)]
pub fn aligned_place(address: u32, size: u32) -> Option<usize>
    requires size { IsTrue (size == 1 || size == 2 || size == 4) }
    ensures room { IfSome result (λ k. k + size ≤ memory_size) }
    ensures page { IfSome result (λ k. k % page_size + size ≤ page_size) }
    ensures place { (access : Access) (rights : List Rights) → IfSome result (λ k. IsAllowed access rights (k / page_size) → place_of size access rights address ≡ Ok k) }
{
    let at = address.wrapping_sub(FIRST_ADDRESS);
    if at < MEMORY_SIZE && at % size == 0 {
        return Some(at as usize);
    }
    None
}
