//! The programs in files.

ghost use Rattle.std.specs.Prelude.{◌≡◌, IfErr, IfOk, IfSome};
ghost use Rattle.std.specs.Option.{option_map};
ghost use Rattle.engines.specs.Engine.{IsFileFault, programs_in};
ghost use Rattle.engines.specs.Opened.{AsksForFile};
ghost use Rattle.programs.specs.Programs.{program_of_file};

use crate::program_source::Programs;
use crate::reading::read_program;
use elf32::Image;
use programs::{Loader, ProgramFault, load_file};
use std::alloc::Global;
use std::io;
use std::sync::Arc;

/// What loads programs from their files.
#[derive(Drop)]
pub(crate) struct FileLoader<'a, P: Programs> {
    /// The allocator of what it loads.
    pub alloc: Global,
    /// The programs' files.
    pub programs: &'a mut P,
}

impl<'a, P: Programs> Loader for FileLoader<'a, P> {
    ghost program_at = { λ l. programs_in (P.content l.programs.now) };

    #[tactic(auto, using(crate::proofs::ProgramFiles::file_program, crate::proofs::ProgramFiles::file_fault))]
    fn load(&mut self, path: &str) -> Result<Arc<Image>, ProgramFault> {
        let bytes = read_file(self.alloc, self.programs, path)?;
        load_file(self.alloc, bytes.as_slice())
    }
}

/// The bytes of the program at a path. Its file is closed again, even if the read is refused.
fn read_file<P: Programs>(
    alloc: Global,
    programs: &mut P,
    path: &str,
) -> Result<Vec<u8>, ProgramFault>
    ensures ok { IfOk result (λ v. IfSome (P.content programs.old path.now) (λ bytes. v.items ≡ bytes)) }
    ensures err { IfErr result (λ fault. IsFileFault (P.content programs.old path.now ≡ None) (option_map program_of_file (P.content programs.old path.now)) fault) }
    ensures closed { AsksForFile (P.asked programs.old) (P.asked programs.new) path.now }
    ensures same { P.content programs.new ≡ P.content programs.old }
{
    let mut file = match programs.open(path) {
        Ok(file) => file,
        Err(io::Error { .. }) => return Err(ProgramFault::Unreadable),
    };
    let read = read_program(alloc, &mut file);
    programs.close(file);
    read
}
