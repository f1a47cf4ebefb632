//! The pages of a program.

ghost use Rattle.std.specs.Prelude.{◌≡◌, ◌<◌, ◌≤◌, ◌*◌, ◌+◌, ◌-◌, ℕ, List, false, length, max, min, All, IfOk};
ghost use Rattle.elf32.specs.Extent.{first_address, memory_size, page_count, page_size};
ghost use Rattle.elf32.specs.Layout.{IsPlaced};
ghost use Rattle.elf32.specs.Pages.{HoldSegments, bytes_of_page, segment_bytes, with_segment, zeros};

use crate::bytes::put;
use crate::extent::{FIRST_ADDRESS, PAGE_COUNT, PAGE_SIZE};
use crate::page_place::PagePlace;
use crate::rights::page_rights;
use crate::segment::{Rights, Segment};
use std::alloc::{AllocError, Global};

/// The bytes of one page.
pub type Page = [u8; PAGE_SIZE];

/// The pages of a program, which its runs share.
#[derive(Drop)]
pub struct BasePages {
    /// A page of zeros, and then the pages with a byte of a file, those at lower addresses first.
    pub pages: Vec<Page>,
    /// The place in `pages` of each of the 256 pages of memory, in order. Page k begins at the address
    /// 0x00010000 + 4096 k.
    pub index: [PagePlace; PAGE_COUNT],
    /// The rights of the 256 pages of memory, in order.
    pub rights: [Rights; PAGE_COUNT],
}

/// The part of the page that has file bytes of the segment: its first place in memory, and the first place after it. It is
/// empty if the second is not above the first.
fn part_in_page(segment: &Segment, page: usize) -> (usize, usize)
    requires page { page < page_count }
    requires placed { IsPlaced segment.now }
    ensures first { result.0 ≡ max (segment.now.address - first_address) (page * page_size) }
    ensures end { result.1 ≡ min (segment.now.address - first_address + length segment.now.content) (page * page_size + page_size) }
{
    let first = (segment.address - FIRST_ADDRESS) as usize;
    let start = page * PAGE_SIZE;
    (
        first.max(start),
        (first + segment.content.bytes().len()).min(start + PAGE_SIZE),
    )
}

/// Writes the file bytes of the segment that lie in the page with this number.
fn put_part(bytes: &mut [u8], page: usize, segment: &Segment)
    requires size { length bytes.old ≡ page_size }
    requires page { page < page_count }
    requires placed { IsPlaced segment.now }
    ensures value { (memory : List ℕ) → length memory ≡ memory_size → bytes.old ≡ bytes_of_page page memory → bytes.new ≡ bytes_of_page page (with_segment memory segment.now) }
    ensures size { length bytes.new ≡ page_size }
{
    let (from, to) = part_in_page(segment, page);
    if from < to {
        let first = (segment.address - FIRST_ADDRESS) as usize;
        let part = &segment.content.bytes()[from - first..to - first];
        put(bytes, from - page * PAGE_SIZE, part);
    }
}

/// Whether a segment has file bytes in the page.
fn has_bytes(segments: &[Segment], page: usize) -> bool
    requires page { page < page_count }
    requires placed { All IsPlaced segments.now }
    ensures { result ≡ false → bytes_of_page page (segment_bytes segments.now) ≡ zeros page_size }
{
    for segment in segments {
        let (from, to) = part_in_page(segment, page);
        if from < to {
            return true;
        }
    }
    false
}

/// The page with the file bytes of the segments in it.
fn page_with(segments: &[Segment], page: usize) -> Page
    requires page { page < page_count }
    requires placed { All IsPlaced segments.now }
    ensures value { result ≡ bytes_of_page page (segment_bytes segments.now) }
    ensures size { length result ≡ page_size }
{
    let mut bytes = [0; PAGE_SIZE];
    for segment in segments {
        put_part(&mut bytes, page, segment);
    }
    bytes
}

/// The pages of the segments; refused if memory ran out.
pub(crate) fn base_pages(alloc: Global, segments: &[Segment]) -> Result<BasePages, AllocError>
    requires { All IsPlaced segments.now }
    ensures { IfOk result (λ base. HoldSegments base segments.now) }
{
    let mut pages = Vec::with_capacity(alloc, 4)?;
    pages.push([0; PAGE_SIZE])?;
    let mut index = [PagePlace::of_program(0); PAGE_COUNT];
    for page in 0..PAGE_COUNT {
        if has_bytes(segments, page) {
            index[page] = PagePlace::of_program(pages.len());
            pages.push(page_with(segments, page))?;
        }
    }
    Ok(BasePages {
        pages,
        index,
        rights: page_rights(segments),
    })
}
