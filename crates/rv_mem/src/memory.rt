//! The memory of one call.

ghost use Rattle.std.specs.Prelude.{◌≡◌, ◌<◌, ◌≤◌, ◌+◌, ◌-◌, ◌^◌, ◌↔◌, ◌==◌, ◌||◌, true, false, IsTrue, length, Ok, IfOk, OnOk, IsOk, IfErr};
ghost use Rattle.elf32.specs.Extent.{end_address, first_address, input_address};
ghost use Rattle.rv_mem.specs.Paged.{IsWritable, input_page};
ghost use Rattle.rv_mem.specs.Space.{as_answer, bytes_at, allows_range, from_place, loaded, place_of, stored, copied, written, LeavesMemory};
ghost use Rattle.rv_mem.specs.Start.{start_space};
ghost use Rattle.rv_mem.specs.declared.access.Access.TheVariants.{Read, Write, Execute};
ghost use Rattle.rv_mem.specs.declared.fault.Fault.TheVariants.{MemoryFault};

use crate::access::Access;
use crate::fault::Fault;
use crate::pages::{
    Pages, begin, byte_at, halfword_at, own_place, program_pages, put_own, read, rights, word_at,
    write, write_in_page,
};
use crate::rights::{aligned_place, place, range_has};
use byteorder::{ByteOrder, LittleEndian};
use elf32::Image;
use elf32::extent::{FIRST_ADDRESS, INPUT_ADDRESS};
use std::alloc::{AllocError, Global};
use std::marker::Model;

/// The place of the input, in bytes from the first address of memory.
const INPUT: usize = (INPUT_ADDRESS - FIRST_ADDRESS) as usize;

/// Writes the input at its address; refused if memory ran out.
fn put_input(pages: &mut Pages, input: &[u8]) -> Result<(), AllocError>
    requires input { length input.now ≤ 4096 }
    requires writable { IsWritable pages.old.space.rights input_page }
    ensures { OnOk result (pages.new.space ≡ written pages.old.space input.now (input_address - first_address)) }
{
    if input.is_empty() {
        return Ok(());
    }
    write_in_page(pages, INPUT, input)
}

/// The bytes at the addresses 0x00010000 up to 0x00110000, and the rights of their pages of 4,096
/// bytes each.
#[derive(Drop)]
pub struct Memory {
    pages: Pages,
}

impl Model for Memory {
    ghost use Rattle.rv_mem.specs.Space.{Space};

    ghost Value = { Space };

    ghost view = { λ m. m.pages.space };
}

impl Memory {
    /// The memory of a call before its first instruction: the image's segments, and the input, of at most 4,096 bytes, from
    /// 0x00100000 on. Refused if memory ran out. The pages of the image are shared, and its pages of zeros take no bytes. An
    /// input that is not empty gets a page of its own.
    pub fn of(alloc: Global, image: &Image, input: &[u8]) -> Result<Memory, AllocError>
        requires { length input.now ≤ 4096 }
        ensures { IfOk result (λ m. m ≡ start_space image.now input.now) }
    {
        let mut pages = program_pages(alloc, image)?;
        put_input(&mut pages, input)?;
        Ok(Memory { pages })
    }

    /// Makes it the memory of another call before its first instruction, as `of` does, in its own room. Refused if memory ran
    /// out; then it must be dropped or begun again.
    pub fn begin(&mut self, image: &Image, input: &[u8]) -> Result<(), AllocError>
        requires { length input.now ≤ 4096 }
        ensures { OnOk result (self.new ≡ start_space image.now input.now) }
    {
        begin(&mut self.pages, image)?;
        put_input(&mut self.pages, input)
    }

    /// The instruction word at the address. Refused with Misaligned if the address is not a multiple of 4, otherwise with
    /// FetchFault if one of the word's bytes may not be executed.
    #[inline(always)]
    pub fn fetch(&self, address: u32) -> Result<u32, Fault>
        ensures { result ≡ as_answer (loaded 4 Execute self.now address) }
    {
        let at = place(rights(&self.pages), Access::Execute, address, 4)?;
        Ok(word_at(&self.pages, at))
    }

    /// The byte at the address, or MemoryFault if it may not be loaded.
    #[inline(always)]
    pub fn load8(&self, address: u32) -> Result<u8, Fault>
        ensures { result ≡ as_answer (loaded 1 Read self.now address) }
    {
        let at = place(rights(&self.pages), Access::Read, address, 1)?;
        Ok(byte_at(&self.pages, at))
    }

    /// The halfword at the address. Refused with Misaligned if the address is odd, otherwise with MemoryFault if one of its
    /// bytes may not be loaded.
    #[inline(always)]
    pub fn load16(&self, address: u32) -> Result<u16, Fault>
        ensures { result ≡ as_answer (loaded 2 Read self.now address) }
    {
        let at = place(rights(&self.pages), Access::Read, address, 2)?;
        Ok(halfword_at(&self.pages, at))
    }

    /// The word at the address. Refused with Misaligned if the address is not a multiple of 4, otherwise with MemoryFault if
    /// one of its bytes may not be loaded.
    #[inline(always)]
    pub fn load32(&self, address: u32) -> Result<u32, Fault>
        ensures { result ≡ as_answer (loaded 4 Read self.now address) }
    {
        let at = place(rights(&self.pages), Access::Read, address, 4)?;
        Ok(word_at(&self.pages, at))
    }

    /// Writes a byte at the address, or refuses with MemoryFault or Memory and changes nothing.
    #[inline(always)]
    pub fn store8(&mut self, address: u32, value: u8) -> Result<(), Fault>
        ensures { LeavesMemory result (stored 1 self.old address value) self.old self.new }
    {
        if self.put_in_own(address, &[value]) {
            return Ok(());
        }
        self.store_byte(address, value)
    }

    /// Writes a halfword at the address, or refuses with Misaligned, MemoryFault or Memory and
    /// changes nothing.
    #[inline(always)]
    pub fn store16(&mut self, address: u32, value: u16) -> Result<(), Fault>
        ensures { LeavesMemory result (stored 2 self.old address value) self.old self.new }
    {
        let mut halfword = [0; 2];
        LittleEndian::write_u16(&mut halfword, value);
        if self.put_in_own(address, &halfword) {
            return Ok(());
        }
        self.store_halfword(address, value)
    }

    /// Writes a word at the address, or refuses with Misaligned, MemoryFault or Memory and changes
    /// nothing.
    #[inline(always)]
    pub fn store32(&mut self, address: u32, value: u32) -> Result<(), Fault>
        ensures { LeavesMemory result (stored 4 self.old address value) self.old self.new }
    {
        let mut word = [0; 4];
        LittleEndian::write_u32(&mut word, value);
        if self.put_in_own(address, &word) {
            return Ok(());
        }
        self.store_word(address, value)
    }

    /// Writes one, two or four bytes at the address if they are aligned and in a page of the call's own; the rights of such a
    /// page need no test. Returns false if they are not; then nothing changes.
    #[inline(always)]
    fn put_in_own(&mut self, address: u32, bytes: &[u8]) -> bool
        requires { IsTrue (length bytes.now == 1 || length bytes.now == 2 || length bytes.now == 4) }
        ensures put { IsTrue result → from_place (written self.old bytes.now) (place_of (length bytes.now) Write self.old.rights address) ≡ Ok self.new }
        ensures same { result ≡ false → self.new ≡ self.old }
    {
        let Some(at) = aligned_place(address, bytes.len() as u32) else {
            return false;
        };
        let Some(own) = own_place(&self.pages, at) else {
            return false;
        };
        put_own(&mut self.pages, own, at, bytes);
        true
    }

    /// Writes a byte as `store8` does, with a test of the page's rights; a page of the program is copied first.
    #[cold]
    #[inline(never)]
    fn store_byte(&mut self, address: u32, value: u8) -> Result<(), Fault>
        ensures { LeavesMemory result (stored 1 self.old address value) self.old self.new }
    {
        let at = place(rights(&self.pages), Access::Write, address, 1)?;
        write_in_page(&mut self.pages, at, &[value]).map_err(|_: AllocError| Fault::Memory)
    }

    /// The same for a halfword, as `store16` writes it.
    #[cold]
    #[inline(never)]
    fn store_halfword(&mut self, address: u32, value: u16) -> Result<(), Fault>
        ensures { LeavesMemory result (stored 2 self.old address value) self.old self.new }
    {
        let at = place(rights(&self.pages), Access::Write, address, 2)?;
        let mut halfword = [0; 2];
        LittleEndian::write_u16(&mut halfword, value);
        write_in_page(&mut self.pages, at, &halfword).map_err(|_: AllocError| Fault::Memory)
    }

    /// The same for a word, as `store32` writes it.
    #[cold]
    #[inline(never)]
    fn store_word(&mut self, address: u32, value: u32) -> Result<(), Fault>
        ensures { LeavesMemory result (stored 4 self.old address value) self.old self.new }
    {
        let at = place(rights(&self.pages), Access::Write, address, 4)?;
        let mut word = [0; 4];
        LittleEndian::write_u32(&mut word, value);
        write_in_page(&mut self.pages, at, &word).map_err(|_: AllocError| Fault::Memory)
    }

    /// Whether each of the `len` bytes from the address on may be loaded. Addresses do not wrap.
    pub fn range_readable(&self, address: u32, len: u32) -> bool
        ensures { result ≡ allows_range Read self.now.rights address len }
    {
        range_has(rights(&self.pages), Access::Read, address, len)
    }

    /// Whether each of the `len` bytes from the address on may be stored to. Addresses do not wrap.
    pub fn range_writable(&self, address: u32, len: u32) -> bool
        ensures { result ≡ allows_range Write self.now.rights address len }
    {
        range_has(rights(&self.pages), Access::Write, address, len)
    }

    /// Fills `out` with the bytes from the address on, at any alignment. If one of them may not be loaded, it returns
    /// MemoryFault and leaves `out` as it was. `out` has less than 2^32 bytes.
    pub fn copy_out(&self, address: u32, out: &mut [u8]) -> Result<(), Fault>
        requires { length out.old < 2 ^ 32 }
        ensures copied { OnOk result (out.new ≡ bytes_at self.now address (length out.old)) }
        ensures ok { IsOk result ↔ (allows_range Read self.now.rights address (length out.old) ≡ true) }
        ensures err { IfErr result (λ e. (e ≡ MemoryFault) × (out.new ≡ out.old)) }
    {
        if !range_has(rights(&self.pages), Access::Read, address, out.len() as u32) {
            return Err(Fault::MemoryFault);
        }
        if !out.is_empty() {
            read(&self.pages, (address - FIRST_ADDRESS) as usize, out);
        }
        Ok(())
    }

    /// Fills `out` with the bytes from the address on, whatever the rights of their pages. All of the bytes
    /// lie in memory. This is for a debugger, which looks at the memory of a call from outside.
    pub fn inspect(&self, address: u32, out: &mut [u8])
        requires first { first_address ≤ address }
        requires last { address + length out.old ≤ end_address }
        ensures { out.new ≡ bytes_at self.now address (length out.old) }
    {
        if !out.is_empty() {
            read(&self.pages, (address - FIRST_ADDRESS) as usize, out);
        }
    }

    /// Writes the bytes from the address on, at any alignment, or refuses with MemoryFault or Memory and
    /// changes nothing. They are less than 2^32 bytes.
    #[tactic(auto, using(crate::proofs::Copied::copied_nothing))]
    pub fn copy_in(&mut self, address: u32, bytes: &[u8]) -> Result<(), Fault>
        requires { length bytes.now < 2 ^ 32 }
        ensures { LeavesMemory result (copied self.old address bytes.now) self.old self.new }
    {
        if !range_has(
            rights(&self.pages),
            Access::Write,
            address,
            bytes.len() as u32,
        ) {
            return Err(Fault::MemoryFault);
        }
        if bytes.is_empty() {
            return Ok(());
        }
        let at = (address - FIRST_ADDRESS) as usize;
        write(&mut self.pages, at, bytes).map_err(|_: AllocError| Fault::Memory)
    }
}
