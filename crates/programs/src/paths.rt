//! The programs at paths.

ghost use Rattle.std.specs.Prelude.{◌≡◌, length, map, vec_len, IfErr, IfOk, IfSome, Ok};
ghost use Rattle.std.specs.Arc.{arc_value};
ghost use Rattle.std.specs.String.{string_bytes};
ghost use Rattle.programs.specs.Programs.{IsProgramFault, programs_of};

use crate::fault::ProgramFault;
use crate::loader::Loader;
use elf32::Image;
use std::alloc::Global;
use std::sync::Arc;

/// The programs at some paths, loaded in order up to the first that is refused. Refused as that one is, and as Memory
/// if memory ran out.
pub fn programs_at<L: Loader>(
    alloc: Global,
    loader: &mut L,
    paths: &[String],
) -> Result<Vec<Arc<Image>>, ProgramFault>
    ensures all { IfOk result (λ v. vec_len v ≡ length paths.now) }
    ensures ok { IfOk result (λ v. IfSome (programs_of (L.program_at loader.old) (map string_bytes paths.now)) (λ wanted.
        wanted ≡ Ok (map arc_value v.items))) }
    ensures err { IfErr result (λ fault. IsProgramFault (programs_of (L.program_at loader.old) (map string_bytes paths.now)) fault) }
    ensures same { L.program_at loader.new ≡ L.program_at loader.old }
{
    let mut images = Vec::new(alloc);
    for path in paths {
        // Not by `?`: the proof answers this arm.
        let image = match loader.load(path.as_str()) {
            Ok(image) => image,
            Err(fault) => return Err(fault),
        };
        images.push(image)?;
    }
    Ok(images)
}
