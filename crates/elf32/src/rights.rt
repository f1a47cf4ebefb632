//! The rights of the pages of a program.

ghost use Rattle.std.specs.Prelude.{◌≡◌, ◌≤◌, ◌<◌, length, All};
ghost use Rattle.elf32.specs.Extent.{page_count};
ghost use Rattle.elf32.specs.Layout.{IsPlaced};
ghost use Rattle.elf32.specs.Pages.{has_page, rights_of_page, page_rights};

use crate::extent::{FIRST_ADDRESS, PAGE_SIZE};
use crate::segment::{Rights, Segment};

/// The rights of a page that has no address of a segment.
const DATA_RIGHTS: Rights = Rights {
    readable: true,
    writable: true,
    executable: false,
};

/// Whether the page has an address of the segment.
fn has_page(segment: &Segment, page: usize) -> bool
    requires page { page < page_count }
    requires placed { IsPlaced segment.now }
    ensures { result ≡ has_page page segment.now }
{
    let first = FIRST_ADDRESS + (page * PAGE_SIZE) as u32;
    segment.address.max(first) < (segment.address + segment.size).min(first + PAGE_SIZE as u32)
}

/// The rights of a page: those of the first segment with an address in it, or `DATA_RIGHTS` if there is none.
fn rights_of_page(segments: &[Segment], page: usize) -> Rights
    requires page { page < page_count }
    requires placed { All IsPlaced segments.now }
    ensures { result ≡ rights_of_page segments.now page }
{
    for segment in segments {
        if has_page(segment, page) {
            return segment.rights;
        }
    }
    DATA_RIGHTS
}

/// The rights of the first N pages.
#[tactic(auto, unfolding(crate::specs::Pages::page_rights))]
pub(crate) fn page_rights<const N: usize>(segments: &[Segment]) -> [Rights; N]
    requires count { N ≤ page_count }
    requires placed { All IsPlaced segments.now }
    ensures value { result ≡ page_rights N segments.now }
    ensures len { length result ≡ N }
{
    let mut rights = [DATA_RIGHTS; N];
    for page in 0..N {
        rights[page] = rights_of_page(segments, page);
    }
    rights
}
