//! The place of a page of memory.

ghost use Rattle.std.specs.Prelude.{◌≡◌, ◌<◌, ◌≤◌, ◌+◌, ◌-◌, nat_lt};
ghost use Rattle.elf32.specs.Extent.{page_count};
ghost use Rattle.elf32.specs.Places.{first_own};

use std::marker::Model;

/// The number of the first of a call's own pages. Those below are pages of the program.
const FIRST_OWN: usize = 512;

/// The place of a page of memory: among the pages of the program, which its calls share, or among the call's own. Both kinds of
/// place are packed into one number of two bytes. An enum of the two places would take four bytes. The places of the 256 pages
/// are copied at the start of each call: that copy would have 512 bytes more.
#[derive(Clone, Copy, Debug, PartialEq, Eq)]
pub struct PagePlace {
    number: u16,
}

impl Model for PagePlace {
    ghost use Rattle.std.specs.Prelude.{ℕ};

    ghost Value = { ℕ };

    ghost view = { λ p. p.number };

    ghost inverse = { λ n. record { number = n } };
}

impl PagePlace {
    /// The page at this place among those of the program.
    #[inline(always)]
    pub(crate) fn of_program(place: usize) -> PagePlace
        requires { place < first_own }
        ensures { result ≡ place }
    {
        PagePlace {
            number: place as u16,
        }
    }

    /// The page at this place among the call's own. A call has at most one for each page of memory.
    #[inline(always)]
    pub fn of_own(place: usize) -> PagePlace
        requires { place < page_count }
        ensures { result ≡ first_own + place }
    {
        PagePlace {
            number: (FIRST_OWN + place) as u16,
        }
    }

    /// Whether the page is the program's.
    #[inline(always)]
    pub fn is_shared(self) -> bool
        ensures { result ≡ nat_lt self first_own }
    {
        (self.number as usize) < FIRST_OWN
    }

    /// The place of a page of the program, among those of the program.
    #[inline(always)]
    pub fn in_program(self) -> usize
        requires { self < first_own }
        ensures { result ≡ self }
    {
        self.number as usize
    }

    /// The place of one of the call's own pages, among those.
    #[inline(always)]
    pub fn in_own(self) -> usize
        requires { first_own ≤ self }
        ensures { result ≡ self - first_own }
    {
        self.number as usize - FIRST_OWN
    }
}
