//! Writing an assembled program as a file.

ghost use Rattle.std.specs.Prelude.{◌≡◌, ◌≢◌, ◌≤◌, ◌++◌, ◌↔◌, ◌⊎◌, [], flat_map, IfErr, IfOk, OnOk, Err, Ok};
ghost use Rattle.elf32.specs.declared.error.ElfError.TheVariants.{BadEntry, Memory};
ghost use Rattle.elf32.specs.Image.{image_of};
ghost use Rattle.elf32.specs.Written.{data_header, e_ident, elf_header, file_of, half_bytes, header_count, headers_of, kind_fields, program_header_bytes, program_layout, sections_offset, table_fields, text_bytes, text_header, word_bytes};
ghost use Rattle.rv_program.specs.Sections.{IsSized, Sections};

use crate::error::ElfError;
use crate::header::{HEADER_SIZE, PROGRAM_HEADER_SIZE, ProgramHeader};
use crate::header_faults::{ELFCLASS32, ELFDATA2LSB, EM_RISCV, ET_EXEC, EV_CURRENT, MAGIC};
use crate::segment_faults::{PF_R, PF_W, PF_X};
use crate::table::PT_LOAD;
use byteorder::{ByteOrder, LittleEndian};
use rv_program::{DATA_START, Program, TEXT_START};
use std::alloc::{AllocError, Global};

/// The alignment of a segment, in bytes.
const P_ALIGN: u32 = 4;

/// Appends a number of two bytes.
#[tactic(auto, unfolding(crate::specs::Written::half_bytes))]
fn put_half(file: &mut Vec<u8>, half: u16) -> Result<(), AllocError>
    ensures { OnOk result (file.new.items ≡ file.old.items ++ half_bytes half) }
{
    let mut bytes = [0; 2];
    LittleEndian::write_u16(&mut bytes, half);
    file.extend_from_slice(&bytes)
}

/// Appends a number of four bytes.
#[tactic(auto, unfolding(crate::specs::Written::word_bytes))]
fn put_word(file: &mut Vec<u8>, word: u32) -> Result<(), AllocError>
    ensures { OnOk result (file.new.items ≡ file.old.items ++ word_bytes word) }
{
    let mut bytes = [0; 4];
    LittleEndian::write_u32(&mut bytes, word);
    file.extend_from_slice(&bytes)
}

/// Appends magic, class, data, version and padding.
fn put_ident(file: &mut Vec<u8>) -> Result<(), AllocError>
    ensures { OnOk result (file.new.items ≡ file.old.items ++ e_ident) }
{
    file.extend_from_slice(&MAGIC)?;
    file.extend_from_slice(&[ELFCLASS32, ELFDATA2LSB, EV_CURRENT])?;
    file.extend_from_slice(&[0; 9])
}

/// Appends e_type to e_entry.
fn put_kind(file: &mut Vec<u8>) -> Result<(), AllocError>
    ensures { OnOk result (file.new.items ≡ file.old.items ++ kind_fields) }
{
    put_half(file, ET_EXEC)?;
    put_half(file, EM_RISCV)?;
    put_word(file, u32::from(EV_CURRENT))?;
    put_word(file, TEXT_START)
}

/// Appends e_phoff to e_shstrndx for `count` program headers.
fn put_table(file: &mut Vec<u8>, count: u16) -> Result<(), AllocError>
    ensures { OnOk result (file.new.items ≡ file.old.items ++ table_fields count) }
{
    put_word(file, HEADER_SIZE as u32)?;
    put_word(file, 0)?;
    put_word(file, 0)?;
    put_half(file, HEADER_SIZE as u16)?;
    put_half(file, PROGRAM_HEADER_SIZE as u16)?;
    put_half(file, count)?;
    put_half(file, 0)?;
    put_half(file, 0)?;
    put_half(file, 0)
}

/// Appends the ELF header of a file with `count` program headers.
#[tactic(auto, unfolding(crate::specs::Written::elf_header))]
fn put_header(file: &mut Vec<u8>, count: u16) -> Result<(), AllocError>
    ensures { OnOk result (file.new.items ≡ file.old.items ++ elf_header count) }
{
    put_ident(file)?;
    put_kind(file)?;
    put_table(file, count)
}

/// Appends a program header; p_paddr is p_vaddr.
#[tactic(auto, unfolding(crate::specs::Written::program_header_bytes))]
fn put_program_header(file: &mut Vec<u8>, header: &ProgramHeader) -> Result<(), AllocError>
    ensures { OnOk result (file.new.items ≡ file.old.items ++ program_header_bytes header.now) }
{
    put_word(file, header.p_type)?;
    put_word(file, header.p_offset)?;
    put_word(file, header.p_vaddr)?;
    put_word(file, header.p_vaddr)?;
    put_word(file, header.p_filesz)?;
    put_word(file, header.p_memsz)?;
    put_word(file, header.p_flags)?;
    put_word(file, P_ALIGN)
}

/// Appends text, the low byte of each word first.
#[tactic(auto, unfolding(crate::specs::Written::text_bytes))]
fn put_text(file: &mut Vec<u8>, text: &[u32]) -> Result<(), AllocError>
    ensures { OnOk result (file.new.items ≡ file.old.items ++ text_bytes text.now) }
{
    for word in text {
        put_word(file, *word)?;
    }
    Ok(())
}

/// The number of program headers: one for text, and one for data if there are any.
fn header_count(program: &Program) -> u16
    ensures value { result ≡ header_count program.now }
    ensures few { result ≤ 2 }
{
    if program.data().is_empty() { 1 } else { 2 }
}

/// The place in the file at which the text begins; the data follow it.
fn sections_offset(program: &Program) -> u32
    ensures value { result ≡ sections_offset (header_count program.now) }
    ensures few { result ≤ 116 }
{
    HEADER_SIZE as u32 + PROGRAM_HEADER_SIZE as u32 * u32::from(header_count(program))
}

/// The program header of text.
fn text_header(program: &Program) -> ProgramHeader
    ensures { result ≡ text_header program.now }
{
    let size = 4 * program.text().len() as u32;
    ProgramHeader {
        p_type: PT_LOAD,
        p_offset: sections_offset(program),
        p_vaddr: TEXT_START,
        p_filesz: size,
        p_memsz: size,
        p_flags: PF_R | PF_X,
    }
}

/// The program header of data.
fn data_header(program: &Program) -> ProgramHeader
    ensures { result ≡ data_header program.now }
{
    let size = program.data().len() as u32;
    ProgramHeader {
        p_type: PT_LOAD,
        p_offset: sections_offset(program) + 4 * program.text().len() as u32,
        p_vaddr: DATA_START,
        p_filesz: size,
        p_memsz: size,
        p_flags: PF_R | PF_W,
    }
}

/// Appends the program headers.
fn put_program_headers(file: &mut Vec<u8>, program: &Program) -> Result<(), AllocError>
    ensures { OnOk result (file.new.items ≡ file.old.items ++ flat_map program_header_bytes (headers_of program.now)) }
{
    put_program_header(file, &text_header(program))?;
    if program.data().is_empty() {
        return Ok(());
    }
    put_program_header(file, &data_header(program))
}

/// The file of a program; refused if memory ran out.
#[tactic(auto, unfolding(crate::specs::Written::file_of))]
fn file(alloc: Global, program: &Program) -> Result<Vec<u8>, AllocError>
    ensures { IfOk result (λ file. file.items ≡ file_of program.now) }
{
    let mut file = Vec::new(alloc);
    put_header(&mut file, header_count(program))?;
    put_program_headers(&mut file, program)?;
    put_text(&mut file, program.text())?;
    file.extend_from_slice(program.data())?;
    Ok(file)
}

/// The ELF32 file of an assembled program. Its entry is the first text word. Refused with `BadEntry` if the program has no text
/// words, and with `Memory` if memory ran out. The law `file_loads` says that the file loads as the program.
pub fn write(alloc: Global, program: &Program) -> Result<Vec<u8>, ElfError>
    ensures file { IfOk result (λ file. file.items ≡ file_of program.now) }
    ensures loads { IfOk result (λ file. image_of file.items ≡ Ok (program_layout program.now)) }
    ensures no_text { result ≡ Err BadEntry ↔ program.now.text ≡ [] }
    ensures refusals { IfErr result (λ e. (e ≡ BadEntry) ⊎ (e ≡ Memory)) }
{
    if program.text().is_empty() {
        return Err(ElfError::BadEntry);
    }
    match file(alloc, program) {
        Ok(file) => Ok(file),
        Err(AllocError) => Err(ElfError::Memory),
    }
}

/// A law, and no code: the file of an assembled program with text words loads as the program.
pub fn file_loads()
    ensures { (p : Sections) → IsSized p → p.text ≢ [] → image_of (file_of p) ≡ Ok (program_layout p) }
{}
