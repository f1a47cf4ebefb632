//! Reading a file into a program.

ghost use Rattle.std.specs.Prelude.{◌≡◌, ◌≢◌, false, All, length, map, IfNone, IfOk, IfSome};
ghost use Rattle.elf32.specs.declared.error.ElfError.TheVariants.{Memory};
ghost use Rattle.elf32.specs.Faults.{least_fault, has_bad_range, loads, segment_fault};
ghost use Rattle.elf32.specs.Image.{Gives, image_of, layout_of, segment_of};
ghost use Rattle.elf32.specs.Layout.{IsPlaced};
ghost use Rattle.elf32.specs.Readable.{IsInRange, IsReadable};

use crate::error::ElfError;
use crate::header::{E_ENTRY, ProgramHeader, word_at};
use crate::header_faults::{
    has_bad_class_or_data, has_bad_count, has_bad_flags, has_bad_header_size, has_bad_magic,
    has_bad_version, is_not_exec, is_not_riscv, is_truncated,
};
use crate::image::Image;
use crate::segment::{Content, Rights, Segment};
use crate::segment_faults::{
    has_bad_entry, has_bad_range, has_bad_type, is_out_of_order, is_write_execute, shares_page,
};
use crate::table::program_headers;
use std::alloc::{AllocError, Global};

/// The least-numbered fault from BadType on, or None if none of them holds.
#[tactic(auto, unfolding(crate::specs::Faults::loads, crate::specs::Faults::has_bad_type, crate::specs::Faults::has_bad_range, crate::specs::Faults::is_out_of_order, crate::specs::Faults::shares_page, crate::specs::Faults::is_write_execute, crate::specs::Faults::has_bad_entry))]
fn segment_fault(bytes: &[u8]) -> Option<ElfError>
    requires { IsReadable bytes.now }
    ensures value { result ≡ segment_fault bytes.now }
    ensures fault { IfSome result (λ e. e ≢ Memory) }
    ensures in_range { IfNone result (has_bad_range bytes.now ≡ false) }
{
    let headers = program_headers(bytes);
    let loads = headers.loads();
    if has_bad_type(headers.as_slice()) {
        Some(ElfError::BadType)
    } else if has_bad_range(loads.as_slice(), bytes.len()) {
        Some(ElfError::SegmentRange)
    } else if is_out_of_order(loads.as_slice()) {
        Some(ElfError::SegmentOrder)
    } else if shares_page(loads.as_slice()) {
        Some(ElfError::PageShared)
    } else if is_write_execute(loads.as_slice()) {
        Some(ElfError::WriteExecute)
    } else if has_bad_entry(loads.as_slice(), word_at(bytes, E_ENTRY)) {
        Some(ElfError::BadEntry)
    } else {
        None
    }
}

/// The least-numbered fault of a file, or None if it has none.
#[tactic(auto, unfolding(crate::specs::Faults::least_fault))]
fn fault(bytes: &[u8]) -> Option<ElfError>
    ensures value { result ≡ least_fault bytes.now }
    ensures fault { IfSome result (λ e. e ≢ Memory) }
    ensures readable { IfNone result (IsReadable bytes.now) }
    ensures in_range { IfNone result (has_bad_range bytes.now ≡ false) }
{
    if is_truncated(bytes) {
        Some(ElfError::Truncated)
    } else if has_bad_magic(bytes) {
        Some(ElfError::BadMagic)
    } else if has_bad_class_or_data(bytes) {
        Some(ElfError::BadClassOrData)
    } else if has_bad_version(bytes) {
        Some(ElfError::BadVersion)
    } else if is_not_exec(bytes) {
        Some(ElfError::NotExec)
    } else if is_not_riscv(bytes) {
        Some(ElfError::NotRiscv)
    } else if has_bad_flags(bytes) {
        Some(ElfError::BadFlags)
    } else if has_bad_header_size(bytes) {
        Some(ElfError::BadHeaderSize)
    } else if has_bad_count(bytes) {
        Some(ElfError::BadCount)
    } else {
        segment_fault(bytes)
    }
}

/// The segment of a PT_LOAD; refused if memory ran out.
fn segment(alloc: Global, bytes: &[u8], load: &ProgramHeader) -> Result<Segment, AllocError>
    requires { IsInRange (length bytes.now) load.now }
    ensures { IfOk result (λ s. s ≡ segment_of bytes.now load.now) }
{
    let start = load.p_offset as usize;
    let end = start + load.p_filesz as usize;
    Ok(Segment {
        address: load.p_vaddr,
        size: load.p_memsz,
        rights: Rights {
            readable: load.has_read(),
            writable: load.has_write(),
            executable: load.has_execute(),
        },
        content: Content::from_slice(alloc, &bytes[start..end])?,
    })
}

/// The segments of the PT_LOADs, in order; refused if memory ran out.
fn segments(
    alloc: Global,
    bytes: &[u8],
    loads: &[ProgramHeader],
) -> Result<Vec<Segment>, AllocError>
    requires { All (IsInRange (length bytes.now)) loads.now }
    ensures { IfOk result (λ v. v.items ≡ map (segment_of bytes.now) loads.now) }
{
    let mut segments = Vec::with_capacity(alloc, loads.len())?;
    for load in loads {
        segments.push(segment(alloc, bytes, load)?)?;
    }
    Ok(segments)
}

/// The program that a file without a fault stands for; refused if memory ran out.
#[tactic(auto, unfolding(crate::specs::Faults::loads))]
fn image(alloc: Global, bytes: &[u8]) -> Result<Image, AllocError>
    requires readable { IsReadable bytes.now }
    requires in_range { has_bad_range bytes.now ≡ false }
    ensures { IfOk result (λ i. i ≡ layout_of bytes.now) }
{
    let loads = program_headers(bytes).loads();
    let segments = segments(alloc, bytes, loads.as_slice())?;
    Image::new(alloc, word_at(bytes, E_ENTRY), segments)
}

/// The program that an ELF32 file stands for, or the least-numbered fault in it. Running out of memory comes last: `Memory` is
/// returned only for a file without a fault. A PT_LOAD with p_memsz 0 gives a segment of size 0.
#[tactic(auto, unfolding(crate::specs::Image::image_of))]
pub fn load(alloc: Global, bytes: &[u8]) -> Result<Image, ElfError>
    ensures { Gives result (image_of bytes.now) }
{
    if let Some(fault) = fault(bytes) {
        return Err(fault);
    }
    match image(alloc, bytes) {
        Ok(image) => Ok(image),
        Err(AllocError) => Err(ElfError::Memory),
    }
}
