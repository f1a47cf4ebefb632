//! The faults of program headers, one function each.

ghost use Rattle.std.specs.Prelude.{◌≡◌, ◌+◌, ◌%◌, ◌==◌, ◌&&◌, ◌||◌, not};
ghost use Rattle.std.specs.List.{list_any};
ghost use Rattle.elf32.specs.Faults.{has_execute, has_read, has_write, is_below, is_load, is_null, is_out_of_range, may_execute_at, share_a_page, some_pair};

use crate::extent::{self, FIRST_ADDRESS, INPUT_ADDRESS};
use crate::header::ProgramHeader;
use crate::table::{PT_LOAD, PT_NULL};

/// The size of a page in bytes, of the type of a segment's end.
const PAGE_SIZE: u64 = extent::PAGE_SIZE as u64;

/// The flag of an executable segment.
pub(crate) const PF_X: u32 = 1;

/// The flag of a writable segment.
pub(crate) const PF_W: u32 = 2;

/// The flag of a readable segment.
pub(crate) const PF_R: u32 = 4;

impl ProgramHeader {
    /// Whether it has PF_X: the segment may be executed.
    pub(crate) fn has_execute(&self) -> bool
        ensures { result ≡ has_execute self.now }
    {
        self.p_flags & PF_X != 0
    }

    /// Whether it has PF_W: the segment may be written.
    #[tactic(auto, using(crate::proofs::Flags::second_bit))]
    pub(crate) fn has_write(&self) -> bool
        ensures { result ≡ has_write self.now }
    {
        self.p_flags & PF_W != 0
    }

    /// Whether it has PF_R: the segment may be read.
    #[tactic(auto, using(crate::proofs::Flags::third_bit))]
    pub(crate) fn has_read(&self) -> bool
        ensures { result ≡ has_read self.now }
    {
        self.p_flags & PF_R != 0
    }

    /// The first address after the segment.
    fn end(&self) -> u64
        ensures { result ≡ self.now.p_vaddr + self.now.p_memsz }
    {
        u64::from(self.p_vaddr) + u64::from(self.p_memsz)
    }

    /// Whether p_filesz is above p_memsz, the file bytes pass the end of the file, p_vaddr is below the first
    /// address of memory, or the segment passes the address of the input.
    fn is_out_of_range(&self, len: usize) -> bool
        ensures { result ≡ is_out_of_range len self.now }
    {
        self.p_memsz < self.p_filesz
            || len < self.p_offset as usize + self.p_filesz as usize
            || self.p_vaddr < FIRST_ADDRESS
            || u64::from(INPUT_ADDRESS) < self.end()
    }

    /// Whether two segments have addresses in one page. A segment with p_memsz 0 has no address.
    fn shares_page(&self, other: &ProgramHeader) -> bool
        ensures { result ≡ share_a_page self.now other.now }
    {
        0 < self.p_memsz
            && 0 < other.p_memsz
            && u64::from(self.p_vaddr) / PAGE_SIZE <= (other.end() - 1) / PAGE_SIZE
            && u64::from(other.p_vaddr) / PAGE_SIZE <= (self.end() - 1) / PAGE_SIZE
    }

    /// Whether an address is in an executable segment.
    fn may_execute_at(&self, address: u32) -> bool
        ensures { result ≡ may_execute_at address self.now }
    {
        self.has_execute() && self.p_vaddr <= address && u64::from(address) < self.end()
    }
}

/// Whether a program header is neither PT_LOAD nor PT_NULL.
pub(crate) fn has_bad_type(headers: &[ProgramHeader]) -> bool
    ensures { result ≡ list_any (λ p. not (is_load p || is_null p)) headers.now }
{
    headers
        .iter()
        .any(|p| p.p_type != PT_LOAD && p.p_type != PT_NULL)
}

/// Whether a segment is out of its range.
pub(crate) fn has_bad_range(loads: &[ProgramHeader], len: usize) -> bool
    ensures { result ≡ list_any (is_out_of_range len) loads.now }
{
    loads.iter().any(|p| p.is_out_of_range(len))
}

/// Whether one of the later segments has a p_vaddr below that of `before`.
fn any_is_below(later: &[ProgramHeader], before: &ProgramHeader) -> bool
    ensures { result ≡ list_any (is_below before.now) later.now }
{
    later.iter().any(|p| p.p_vaddr < before.p_vaddr)
}

/// Whether a segment has a p_vaddr below that of one before it.
pub(crate) fn is_out_of_order(loads: &[ProgramHeader]) -> bool
    ensures { result ≡ some_pair is_below loads.now }
{
    match loads {
        [] => false,
        [first, later @ ..] => any_is_below(later, first) || is_out_of_order(later),
    }
}

/// Whether one of the later segments has an address in a page of `before`.
fn any_shares_page(later: &[ProgramHeader], before: &ProgramHeader) -> bool
    ensures { result ≡ list_any (share_a_page before.now) later.now }
{
    later.iter().any(|p| before.shares_page(p))
}

/// Whether two of the segments have addresses in one page.
pub(crate) fn shares_page(loads: &[ProgramHeader]) -> bool
    ensures { result ≡ some_pair share_a_page loads.now }
{
    match loads {
        [] => false,
        [first, later @ ..] => any_shares_page(later, first) || shares_page(later),
    }
}

/// Whether a segment may be both written and executed.
pub(crate) fn is_write_execute(loads: &[ProgramHeader]) -> bool
    ensures { result ≡ list_any (λ p. has_write p && has_execute p) loads.now }
{
    loads.iter().any(|p| p.has_write() && p.has_execute())
}

/// Whether an address is in some executable segment.
fn is_executable(loads: &[ProgramHeader], address: u32) -> bool
    ensures { result ≡ list_any (may_execute_at address) loads.now }
{
    loads.iter().any(|p| p.may_execute_at(address))
}

/// Whether the entry is not a multiple of 4, or is in no executable segment.
pub(crate) fn has_bad_entry(loads: &[ProgramHeader], entry: u32) -> bool
    ensures { result ≡ (not (entry % 4 == 0) || not (list_any (may_execute_at entry) loads.now)) }
{
    entry % 4 != 0 || !is_executable(loads, entry)
}
