//! The programs that a frame names.

ghost use Rattle.std.specs.Prelude.{◌≡◌, ◌⊎◌, ◌++◌, ◌∷◌, [], length, map, vec_len, IfErr, IfOk, OnOk, Err, Ok};
ghost use Rattle.std.specs.Arc.{arc_value};
ghost use Rattle.std.specs.Option.{ok_or, option_map};
ghost use Rattle.std.specs.String.{string_bytes};
ghost use Rattle.session_turns.specs.Programs.{IsFirstNamed, frame_programs, program_named};

use crate::program_table::ProgramTable;
use crate::refusal::{Failure, FrameRefusal};
use crate::stages::Stop;
use block_file::fields;
use elf32::Image;
use std::alloc::{AllocError, Global};
use std::sync::Arc;

/// The programs under these names. Refused at the first name under which no program is here. Takes memory only for programs that
/// are here, and fails if it runs out.
#[tactic(auto, using(crate::proofs::Named::first_named))]
pub(crate) fn frame_programs(
    alloc: Global,
    programs: &ProgramTable,
    names: &[String],
) -> Result<Vec<Arc<Image>>, Stop>
    ensures all { IfOk result (λ images. vec_len images ≡ length names.now) }
    ensures ok { IfOk result (λ images. frame_programs programs.now (map string_bytes names.now) ≡ Ok (map arc_value images.items)) }
    ensures err { IfErr result (λ stop. ((stop ≡ Stop.Failed Failure.Program) × IsFirstNamed programs.now (map string_bytes names.now)) ⊎ (frame_programs programs.now (map string_bytes names.now) ≡ Err FrameRefusal.NoProgram × (stop ≡ Stop.Refused FrameRefusal.NoProgram))) }
{
    let mut images = Vec::new(alloc);
    for name in names {
        let found = program_named(programs, name.as_bytes());
        let image = found.ok_or(Stop::Refused(FrameRefusal::NoProgram))?;
        push_shared(&mut images, image).map_err(|_: AllocError| Stop::Failed(Failure::Program))?;
    }
    Ok(images)
}

/// The program that a name of 64 digits names, if it is here.
fn program_named<'a>(programs: &'a ProgramTable, name: &[u8]) -> Option<&'a Arc<Image>>
    ensures { program_named programs.now name.now ≡ ok_or (option_map (λ image. arc_value image.now) result) FrameRefusal.NoProgram }
{
    match fields::key(name) {
        Ok(name) => programs.get(&name),
        Err(_) => None,
    }
}

/// Puts a program after others, and shares it. Refused if memory ran out.
fn push_shared(images: &mut Vec<Arc<Image>>, image: &Arc<Image>) -> Result<(), AllocError>
    ensures { OnOk result (map arc_value images.new.items ≡ map arc_value images.old.items ++ arc_value image.now ∷ []) }
{
    images.push(Arc::try_clone(image)?)?;
    Ok(())
}
