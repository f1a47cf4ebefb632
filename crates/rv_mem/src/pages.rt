//! Reads and writes of bytes that are kept in pages. A page is shared with the program until it is written.

ghost use Rattle.std.specs.Prelude.{◌≡◌, ◌+◌, ◌/◌, ◌%◌, ◌-◌, ◌^◌, ◌≤◌, ◌<◌, ◌++◌, ℕ, length, take, drop, slice_index, OnOk, OnErr, IfOk, IfSome, None};
ghost use Rattle.byteorder.specs.Endian.{little_number};
ghost use Rattle.elf32.specs.Extent.{memory_size, page_count, page_size};
ghost use Rattle.elf32.specs.Pages.{page_at, page_rights, segment_bytes};
ghost use Rattle.elf32.specs.Places.{first_own};
ghost use Rattle.rv_mem.specs.declared.access.Access.TheVariants.{Write};
ghost use Rattle.rv_mem.specs.Paged.{IsWritable, AreAllowed, AreOwn, input_page};
ghost use Rattle.rv_mem.specs.Space.{written};

use byteorder::{ByteOrder, LittleEndian};
use elf32::bytes::put;
use elf32::extent::PAGE_SIZE;
use elf32::{BasePages, Image, Page, PagePlace, Rights};
use std::alloc::{AllocError, Global};
use std::marker::Model;
use std::slice::from_ref;
use std::sync::Arc;

/// How many pages of its own a call has room for at its start: that of its input, and that of its stack or data.
const OWN_ROOM: usize = 2;

/// The pages of one call.
#[derive(Drop)]
pub struct Pages {
    /// The pages of the program.
    base: Arc<BasePages>,
    /// For each of the 256 pages of memory its place, in `base` or in `own`.
    index: Vec<PagePlace>,
    /// The pages that the call has written. Each is one page of memory.
    own: Vec<Page>,
}

impl Model for Pages {
    ghost use Rattle.rv_mem.specs.PagedSpace.{PagedSpace};

    ghost Value = { PagedSpace };

    ghost use Rattle.rv_mem.specs.Paged.{IsPaged, space_of};

    ghost view = { λ p. record { space = space_of p; places = p.index.items } };

    ghost invariant = { IsPaged };
}

/// The rights of the pages.
#[inline(always)]
pub fn rights(pages: &Pages) -> &[Rights]
    ensures value { result.now ≡ pages.now.space.rights }
    ensures len { length result.now ≡ page_count }
{
    &pages.base.rights
}

/// The pages of a program before its first instruction; refused if memory ran out.
pub fn program_pages(alloc: Global, image: &Image) -> Result<Pages, AllocError>
    ensures bytes { IfOk result (λ p. p.space.bytes ≡ segment_bytes image.now.segments) }
    ensures rights { IfOk result (λ p. p.space.rights ≡ page_rights page_count image.now.segments) }
    ensures input { IfOk result (λ p. IsWritable p.space.rights input_page) }
{
    // For the proof alone: the segments end before the page of the input.
    let _ = image.segments();
    let base = Arc::try_clone(image.base())?;
    let mut index = Vec::new(alloc);
    index.extend_from_slice(&base.index)?;
    let own = Vec::with_capacity(alloc, OWN_ROOM)?;
    Ok(Pages { base, index, own })
}

/// Makes them the pages of a program before its first instruction, in their own room; refused if memory ran out, and then
/// nothing changes.
pub fn begin(pages: &mut Pages, image: &Image) -> Result<(), AllocError>
    ensures bytes { OnOk result (pages.new.space.bytes ≡ segment_bytes image.now.segments) }
    ensures rights { OnOk result (pages.new.space.rights ≡ page_rights page_count image.now.segments) }
    ensures input { OnOk result (IsWritable pages.new.space.rights input_page) }
{
    // For the proof alone: the segments end before the page of the input.
    let _ = image.segments();
    let base = Arc::try_clone(image.base())?;
    pages.index.as_mut_slice().copy_from_slice(&base.index);
    pages.own.clear();
    pages.base = base;
    Ok(())
}

/// The page at a place, among the program's or the call's own.
#[inline(always)]
fn page_at<'a>(base: &'a [Page], own: &'a [Page], place: PagePlace) -> &'a Page
    requires shared { place < first_own → place < length base.now }
    requires own { place < first_own + length own.now }
    requires few { length own.now ≤ first_own }
    ensures shared { place < first_own → result.now ≡ page_at base.now place }
    ensures own { first_own ≤ place → result.now ≡ page_at own.now (place - first_own) }
{
    if place.is_shared() {
        return &base[place.in_program()];
    }
    &own[place.in_own()]
}

/// Makes a page the call's own; refused if memory ran out, and then nothing changes. Returns the place of the page among the
/// call's own.
#[cold]
#[inline(never)]
fn copy_page(pages: &mut Pages, page: usize) -> Result<usize, AllocError>
    requires page { page < page_count }
    requires shared { slice_index pages.old.places page < first_own }
    requires writable { IsWritable pages.old.space.rights page }
    ensures space { pages.new.space ≡ pages.old.space }
    ensures place { IfOk result (λ k. slice_index pages.new.places page ≡ first_own + k) }
    ensures kept { (k : ℕ) → first_own ≤ slice_index pages.old.places k → first_own ≤ slice_index pages.new.places k }
{
    let shared = &pages.base.pages;
    let place = pages.own.len();
    pages
        .own
        .extend_from_slice(from_ref(&shared[pages.index[page].in_program()]))?;
    pages.index[page] = PagePlace::of_own(place);
    Ok(place)
}

/// Writes the bytes, which lie in one page, at a place in memory. The page is the call's own, at this place
/// among its own.
#[inline(always)]
pub fn put_own(pages: &mut Pages, place: usize, at: usize, new: &[u8])
    requires first { at < memory_size }
    requires room { at % page_size + length new.now ≤ page_size }
    requires place { slice_index pages.old.places (at / page_size) ≡ first_own + place }
    ensures places { pages.new.places ≡ pages.old.places }
    ensures space { pages.new.space ≡ written pages.old.space new.now at }
{
    put(&mut pages.own[place], at % PAGE_SIZE, new);
}

/// Makes the page at a place in memory the call's own, and writes the bytes, which lie in the page, at the place. Refused if
/// memory ran out, and then nothing changes.
#[cold]
#[inline(never)]
fn copy_and_write(pages: &mut Pages, at: usize, new: &[u8]) -> Result<(), AllocError>
    requires first { at < memory_size }
    requires room { at % page_size + length new.now ≤ page_size }
    requires shared { slice_index pages.old.places (at / page_size) < first_own }
    requires writable { IsWritable pages.old.space.rights (at / page_size) }
    ensures ok { OnOk result (pages.new.space ≡ written pages.old.space new.now at) }
    ensures err { OnErr result (pages.new.space ≡ pages.old.space) }
{
    let place = copy_page(pages, at / PAGE_SIZE)?;
    put_own(pages, place, at, new);
    Ok(())
}

/// The page of a place in memory, as a place among the call's own pages; None if the page is not the call's own.
#[inline(always)]
pub fn own_place(pages: &Pages, at: usize) -> Option<usize>
    requires first { at < memory_size }
    ensures place { IfSome result (λ place. slice_index pages.now.places (at / page_size) ≡ first_own + place) }
    ensures writable { IfSome result (λ _. IsWritable pages.now.space.rights (at / page_size)) }
    ensures shared { result ≡ None → slice_index pages.now.places (at / page_size) < first_own }
{
    let place = pages.index[at / PAGE_SIZE];
    if place.is_shared() {
        return None;
    }
    Some(place.in_own())
}

/// Writes the bytes, which lie in one page, at a place in memory; refused if memory ran out, and then nothing changes.
pub fn write_in_page(pages: &mut Pages, at: usize, new: &[u8]) -> Result<(), AllocError>
    requires first { at < memory_size }
    requires room { at % page_size + length new.now ≤ page_size }
    requires writable { IsWritable pages.old.space.rights (at / page_size) }
    ensures ok { OnOk result (pages.new.space ≡ written pages.old.space new.now at) }
    ensures err { OnErr result (pages.new.space ≡ pages.old.space) }
{
    match own_place(pages, at) {
        Some(place) => {
            put_own(pages, place, at, new);
            Ok(())
        }
        None => copy_and_write(pages, at, new),
    }
}

/// Makes the pages from the first to the last the call's own; refused if memory ran out. No byte of memory changes.
fn own_pages(pages: &mut Pages, first: usize, last: usize) -> Result<(), AllocError>
    requires last { last < page_count }
    requires writable { AreAllowed Write pages.old.space.rights first (last + 1) }
    ensures space { pages.new.space ≡ pages.old.space }
    ensures own { OnOk result (AreOwn pages.new.places first (last + 1)) }
{
    for page in first..last + 1 {
        if pages.index[page].is_shared() {
            copy_page(pages, page)?;
        }
    }
    Ok(())
}

/// Writes the bytes from a place in memory on. Their pages are the call's own.
fn put_in_pages(pages: &mut Pages, at: usize, new: &[u8])
    requires some { 0 < length new.now }
    requires room { at + length new.now ≤ memory_size }
    requires own { AreOwn pages.old.places (at / page_size) ((at + length new.now - 1) / page_size + 1) }
    ensures places { pages.new.places ≡ pages.old.places }
    ensures space { pages.new.space ≡ written pages.old.space new.now at }
{
    let place = pages.index[at / PAGE_SIZE].in_own();
    let room = PAGE_SIZE - at % PAGE_SIZE;
    if new.len() <= room {
        put_own(pages, place, at, new);
        return;
    }
    let (here, later) = new.split_at(room);
    put_in_pages(pages, at + room, later);
    put_own(pages, place, at, here);
}

/// Writes the bytes from a place in memory on; refused if memory ran out, and then nothing changes. For this, all of the pages
/// become the call's own before a byte is written.
pub fn write(pages: &mut Pages, at: usize, new: &[u8]) -> Result<(), AllocError>
    requires some { 0 < length new.now }
    requires room { at + length new.now ≤ memory_size }
    requires writable { AreAllowed Write pages.old.space.rights (at / page_size) ((at + length new.now - 1) / page_size + 1) }
    ensures ok { OnOk result (pages.new.space ≡ written pages.old.space new.now at) }
    ensures err { OnErr result (pages.new.space ≡ pages.old.space) }
{
    own_pages(pages, at / PAGE_SIZE, (at + (new.len() - 1)) / PAGE_SIZE)?;
    put_in_pages(pages, at, new);
    Ok(())
}

/// The bytes from a place in memory to the end of its page.
#[inline(always)]
fn rest_of_page(pages: &Pages, at: usize) -> &[u8]
    requires first { at < memory_size }
    ensures value { result.now ≡ take (page_size - at % page_size) (drop at pages.now.space.bytes) }
    ensures len { length result.now ≡ page_size - at % page_size }
{
    let place = pages.index[at / PAGE_SIZE];
    &page_at(&pages.base.pages, &pages.own, place)[at % PAGE_SIZE..]
}

/// The byte at a place in memory.
#[inline(always)]
pub fn byte_at(pages: &Pages, at: usize) -> u8
    requires first { at < memory_size }
    ensures { result ≡ little_number 1 (drop at pages.now.space.bytes) }
{
    rest_of_page(pages, at)[0]
}

/// The halfword at a place in memory, in one page.
#[inline(always)]
pub fn halfword_at(pages: &Pages, at: usize) -> u16
    requires first { at < memory_size }
    requires room { at % page_size + 2 ≤ page_size }
    ensures { result ≡ little_number 2 (drop at pages.now.space.bytes) }
{
    LittleEndian::read_u16(rest_of_page(pages, at))
}

/// The word at a place in memory, in one page.
#[inline(always)]
pub fn word_at(pages: &Pages, at: usize) -> u32
    requires first { at < memory_size }
    requires room { at % page_size + 4 ≤ page_size }
    ensures { result ≡ little_number 4 (drop at pages.now.space.bytes) }
{
    LittleEndian::read_u32(rest_of_page(pages, at))
}

/// Fills `out` with the bytes from a place in memory on.
pub fn read(pages: &Pages, at: usize, out: &mut [u8])
    requires first { at < memory_size }
    requires room { at + length out.old ≤ memory_size }
    ensures { out.new ≡ take (length out.old) (drop at pages.now.space.bytes) }
{
    let page = rest_of_page(pages, at);
    if out.len() <= page.len() {
        out.copy_from_slice(&page[..out.len()]);
        return;
    }
    let (here, later) = out.split_at_mut(page.len());
    here.copy_from_slice(page);
    read(pages, at + page.len(), later);
}
