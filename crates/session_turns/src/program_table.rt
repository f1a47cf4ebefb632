//! The programs that were handed in.

use elf32::Image;
use rv_ledger::Key;
use std::alloc::{AllocError, Global};
use std::collections::BTreeMap;
use std::collections::btree_map::Iter;
use std::marker::Model;
use std::sync::Arc;

/// A program that a table and calls share.
#[derive(Drop)]
pub struct SharedImage {
    image: Arc<Image>,
}

impl Model for SharedImage {
    ghost use Rattle.std.specs.Arc.{arc_value};
    ghost use Rattle.elf32.specs.Layout.{Layout};

    ghost Value = { Layout };

    ghost view = { λ s. arc_value s.image };
}

/// Programs, each under its name of 32 bytes.
#[derive(Drop)]
pub struct ProgramTable {
    entries: BTreeMap<Key, SharedImage>,
}

impl Model for ProgramTable {
    ghost use Rattle.std.specs.Coded.{coded_list, coded_ℕ};
    ghost use Rattle.std.specs.FinMap as map;
    ghost use Rattle.session_turns.specs.Programs.{ProgramsByName};
    ghost use Rattle.session_turns.specs.contracts.program_table.SharedImage as shared;

    ghost Value = { ProgramsByName };

    ghost coded = { map.code (coded_list coded_ℕ) (shared.the_row.coded) };

    ghost view = { λ t. map.from_entries t.entries.entries };
}

impl ProgramTable {
    ghost use Rattle.std.specs.Prelude.{◌≡◌, IfOk, None, OnErr, OnOk};
    ghost use Rattle.std.specs.Arc.{arc_value};
    ghost use Rattle.std.specs.FinMap as map;
    ghost use Rattle.std.specs.Option.{option_copied, option_map};

    /// No programs.
    pub fn new(alloc: Global) -> ProgramTable
        ensures { result ≡ map.empty }
    {
        ProgramTable {
            entries: BTreeMap::new(alloc),
        }
    }

    /// The program under a name, if there is one.
    pub fn get(&self, name: &Key) -> Option<&Arc<Image>>
        ensures { option_map (λ image. arc_value image.now) result ≡ map.get self.now name.now }
    {
        match self.entries.get(name) {
            Some(shared) => Some(&shared.image),
            None => None,
        }
    }

    /// Puts a program under a name. Refused if memory ran out, and then nothing changes.
    pub fn insert(&mut self, name: Key, image: Arc<Image>) -> Result<(), AllocError>
        ensures ok { OnOk result (self.new ≡ map.insert self.old name (arc_value image)) }
        ensures err { OnErr result (self.new ≡ self.old) }
    {
        self.entries.insert(name, SharedImage { image })?;
        Ok(())
    }

    /// Frees the program under a name. Nothing changes if there is none.
    pub(crate) fn remove(&mut self, name: &Key)
        ensures { self.new ≡ map.remove self.old name.now }
    {
        let _ = self.entries.remove(name);
    }

    /// The names, ascending, each with its program.
    pub fn iter(&self) -> Iter<'_, Key, SharedImage>
        ensures { result ≡ map.entries self.now }
    {
        self.entries.iter()
    }

    /// The number of programs.
    pub fn len(&self) -> usize
        ensures { result ≡ map.len self.now }
    {
        self.entries.len()
    }
}
