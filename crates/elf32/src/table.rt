//! The program headers of one file.

ghost use Rattle.std.specs.Prelude.{◌≡◌, ◌<◌, ◌≤◌, [], ◌∷◌, ◌++◌, length, filter};
ghost use Rattle.elf32.specs.Header.{program_headers};
ghost use Rattle.elf32.specs.Faults.{is_load};
ghost use Rattle.elf32.specs.Readable.{IsReadable};

use crate::header::{
    E_PHNUM, E_PHOFF, PROGRAM_HEADER_SIZE, ProgramHeader, half_at, header_from, word_at,
};
use std::marker::Model;

/// p_type of a program header that is ignored.
pub(crate) const PT_NULL: u32 = 0;
/// p_type of a segment.
pub(crate) const PT_LOAD: u32 = 1;
/// How many program headers a file may have.
pub(crate) const MAX_COUNT: usize = 8;

/// At most eight program headers, in order.
#[derive(Drop)]
pub(crate) struct Table {
    items: [ProgramHeader; MAX_COUNT],
    count: usize,
}

impl Model for Table {
    ghost use Rattle.std.specs.Prelude.{List, take, ◌≤◌};
    ghost use Rattle.elf32.specs.declared.header.ProgramHeader.{ProgramHeader};

    ghost Value = { List ProgramHeader };

    ghost view = { λ t. take t.count t.items };

    ghost invariant = { λ t. t.count ≤ 8 };
}

impl Table {
    /// No program headers.
    fn new() -> Self
        ensures { result ≡ [] }
    {
        let unused = ProgramHeader {
            p_type: PT_NULL,
            p_offset: 0,
            p_vaddr: 0,
            p_filesz: 0,
            p_memsz: 0,
            p_flags: 0,
        };
        Table {
            items: [unused; MAX_COUNT],
            count: 0,
        }
    }

    /// Adds one at the end.
    fn push(&mut self, header: ProgramHeader)
        requires { length self.old < 8 }
        ensures { self.new ≡ self.old ++ header ∷ [] }
    {
        self.items[self.count] = header;
        self.count += 1;
    }

    /// The program headers in order, at most eight.
    pub(crate) fn as_slice(&self) -> &[ProgramHeader]
        ensures value { result.now ≡ self.now }
        ensures few { length result.now ≤ 8 }
    {
        &self.items[..self.count]
    }

    /// The PT_LOADs among them, in order.
    pub(crate) fn loads(&self) -> Table
        ensures { result ≡ filter is_load self.now }
    {
        let mut loads = Table::new();
        for header in self.as_slice() {
            if header.p_type == PT_LOAD {
                loads.push(*header);
            }
        }
        loads
    }
}

/// All program headers of the file: e_phnum of them, from e_phoff on.
#[tactic(auto, unfolding(crate::specs::Header::program_headers))]
pub(crate) fn program_headers(bytes: &[u8]) -> Table
    requires { IsReadable bytes.now }
    ensures { result ≡ program_headers bytes.now }
{
    let start = word_at(bytes, E_PHOFF) as usize;
    let count = half_at(bytes, E_PHNUM) as usize;
    let mut table = Table::new();
    for n in 0..count {
        table.push(header_from(bytes, start + PROGRAM_HEADER_SIZE * n));
    }
    table
}
