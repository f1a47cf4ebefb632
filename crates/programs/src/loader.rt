//! The loader that gets a program by its path.

ghost use Rattle.std.specs.Prelude.{◌≡◌, ℕ, List, Option, Result, Ok, IfErr, IfOk, IfSome};
ghost use Rattle.std.specs.Arc.{arc_value};
ghost use Rattle.elf32.specs.Layout.{Layout};
ghost use Rattle.programs.specs.Programs.{IsProgramFault};
ghost use Rattle.programs.specs.declared.fault.ProgramFault.{ProgramFault};

use crate::fault::ProgramFault;
use elf32::Image;
use std::sync::Arc;

/// What loads programs.
pub trait Loader {
    /// The program of the file at a path, or its fault. None if the bytes of the file are not known, or something may
    /// keep them from being read.
    ghost program_at: { Self → List ℕ → Option (Result Layout ProgramFault) };

    /// Opens the file at a path, reads it and loads its program.
    fn load(&mut self, path: &str) -> Result<Arc<Image>, ProgramFault>
        ensures ok { IfOk result (λ image. IfSome (program_at self.old path.now) (λ wanted. wanted ≡ Ok (arc_value image))) }
        ensures err { IfErr result (λ fault. IsProgramFault (program_at self.old path.now) fault) }
        ensures same { program_at self.new ≡ program_at self.old };
}
