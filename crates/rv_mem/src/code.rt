//! The pages of instructions.

ghost use Rattle.std.specs.Prelude.{◌≡◌, ◌≤◌, ◌+◌, length, IfSome};
ghost use Rattle.rv_mem.specs.Code.{HasCode, HasPlaces, IsCode, page_of, word_in};
ghost use Rattle.rv_mem.specs.Space.{Space};

use byteorder::{ByteOrder, LittleEndian};
use elf32::extent::{FIRST_ADDRESS, INPUT_ADDRESS, PAGE_SIZE};
use elf32::{BasePages, Page};

/// The number of bytes from the first address of memory to the input.
const BEFORE_INPUT: u32 = INPUT_ADDRESS - FIRST_ADDRESS;

/// The page of the address among the pages of a program, if a call's instructions can be taken from there as long as the call
/// runs. That is so if the page lies before the input, and may be executed and not stored to. Otherwise None.
#[inline(always)]
pub fn code_page(program: &BasePages, address: u32) -> Option<&Page>
    requires { HasPlaces program.now }
    ensures { (memory : Space) → HasCode memory program.now → IfSome result (λ page. IsCode memory (page_of address) page.now) }
{
    let at = address.wrapping_sub(FIRST_ADDRESS);
    if at >= BEFORE_INPUT {
        return None;
    }
    let number = at as usize / PAGE_SIZE;
    let rights = program.rights[number];
    if !rights.executable || rights.writable {
        return None;
    }
    Some(&program.pages[program.index[number].in_program()])
}

/// The word at a place in a page.
#[inline(always)]
pub fn word_in(page: &[u8], offset: usize) -> u32
    requires { offset + 4 ≤ length page.now }
    ensures { result ≡ word_in page.now offset }
{
    LittleEndian::read_u32(&page[offset..])
}
