//! The programs of a session's file, loaded as their rows are read.

ghost use Rattle.std.specs.Prelude.{◌≡◌, false, IfErr, IfOk, IfSome, None, Some};
ghost use Rattle.std.specs.Arc.{arc_value};
ghost use Rattle.elf32.specs.Layout.{Layout};
ghost use Rattle.session_states.specs.States.{AreLoadedAs, IsLoadedFrom};

use elf32::{ElfError, Image};
use programs::load_image;
use rv_ledger::Key;
use session_file::Entries;
use session_turns::ProgramTable;
use sha2::{Digest, Sha256};
use std::alloc::{AllocError, Global};
use std::marker::Model;
use std::sync::Arc;

/// Programs that were loaded from their files, which it does not keep. Contracts see the programs, or None after a file with a
/// fault or with another SHA-256 than its name.
#[derive(Drop)]
pub struct ProgramLoader {
    alloc: Global,
    programs: Option<ProgramTable>,
}

impl Model for ProgramLoader {
    ghost use Rattle.std.specs.Prelude.{Option};
    ghost use Rattle.std.specs.Coded.{coded_option};
    ghost use Rattle.session_turns.specs.Programs.{ProgramsByName};
    ghost use Rattle.session_turns.specs.contracts.program_table.ProgramTable as table;

    ghost Value = { Option ProgramsByName };

    ghost coded = { coded_option (table.the_row.coded) };

    ghost view = { λ l. l.programs };
}

impl ProgramLoader {
    ghost use Rattle.std.specs.Prelude.{◌≡◌, ◌≢◌, false, IsTrue, Some};
    ghost use Rattle.std.specs.FinMap.{empty};

    /// No programs.
    pub fn new(alloc: Global) -> ProgramLoader
        ensures { result ≡ Some empty }
    {
        ProgramLoader {
            alloc,
            programs: Some(ProgramTable::new(alloc)),
        }
    }

    /// The programs.
    pub(crate) fn into_programs(self) -> Option<ProgramTable>
        ensures { result ≡ self }
    {
        let ProgramLoader { alloc: _, programs } = self;
        programs
    }

    /// Whether it took no file.
    pub(crate) fn is_empty(&self) -> bool
        ensures same { IsTrue result → self.now ≡ Some empty }
        ensures other { result ≡ false → self.now ≢ Some empty }
    {
        match &self.programs {
            Some(programs) => programs.len() == 0,
            None => false,
        }
    }
}

impl Entries for ProgramLoader {
    ghost is_made_of = { λ l files. AreLoadedAs files l };

    ghost fits = { λ _. Unit {0} };

    fn take(&mut self, key: Key, value: &[u8]) -> Result<bool, AllocError> {
        if let Some(programs) = &mut self.programs {
            match load_program(self.alloc, &key, value)? {
                Some(image) => programs.insert(key, image)?,
                None => self.programs = None,
            }
        }
        Ok(true)
    }
}

/// Loads a program whose name is the SHA-256 of its file, or returns None if the file has a fault or another SHA-256. Refused if
/// the file is a program of its name and memory for it ran out.
fn load_program(alloc: Global, name: &Key, file: &[u8]) -> Result<Option<Arc<Image>>, AllocError>
    ensures some { IfOk result (λ loaded. IfSome loaded (λ image. IsLoadedFrom name.now (Some file.now) (Some (arc_value image)))) }
    ensures none { IfOk result (λ loaded. loaded ≡ None → (image : Layout) → ¬ IsLoadedFrom name.now (Some file.now) (Some image)) }
    ensures memory { IfErr result (λ _. (image : Layout) × IsLoadedFrom name.now (Some file.now) (Some image)) }
{
    if Key::new(Sha256::digest(file)) != *name {
        return Ok(None);
    }
    match load_image(alloc, file) {
        Ok(image) => Ok(Some(image)),
        Err(ElfError::Memory) => Err(AllocError),
        Err(_) => Ok(None),
    }
}
