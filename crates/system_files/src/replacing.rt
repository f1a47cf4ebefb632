//! How a file is put in the place of another.

ghost use Rattle.std.specs.Prelude.{◌≡◌, ◌⊎◌, ◌<◌, ℕ, List, [], ◌∷◌, Option, Some, IfErr, IfOk, IfSome, OnErr, OnOk};
ghost use Rattle.std.specs.String.{string_bytes};
ghost use Rattle.system_files.specs.Entries.{IsBeside, IsNewPath, IsPut, KeepsBut, Ordinary, Other, Stays};
ghost use Rattle.system_files.specs.Orders.{Asks, Clears, Follow, LeavesNoFile, MakesLast, Remove, Rename, Replaces, Sync, SyncsAndRenames, Write};

use crate::fault::ReplaceFault;
use crate::output_disk::OutputDisk;
use std::alloc::{AllocError, Global};
use std::io;
use std::io::Write;

/// The number of names that are tried for a new file.
const NAME_LIMIT: usize = 100;

/// The beginning of the name of a new file; its number comes after it.
const NEW_NAME: &str = ".rvstm.new";

/// Puts bytes at a path. An ordinary file there is replaced in one step, by a file that was written in full beside
/// it. If this is refused, the file stays as it was, and the last order to the disk is to remove the new file, if one
/// was made. Bytes for a device are written into the device itself. Refused as Memory if memory ran out, and as
/// Unwritable if a file can't be made, written or renamed.
pub fn replace<D: OutputDisk>(
    alloc: Global,
    disk: &mut D,
    path: &str,
    bytes: &[u8],
) -> Result<(), ReplaceFault>
    ensures put { OnOk result (IsPut (D.entries disk.old) (D.entries disk.new) (D.leads disk.old path.now) bytes.now) }
    ensures stays { OnErr result (Stays (D.entries disk.old) (D.entries disk.new) (D.leads disk.old path.now)) }
    ensures others { KeepsBut (λ p. IsNewPath (D.leads disk.old path.now) p ⊎ (p ≡ D.leads disk.old path.now)) (D.entries disk.old) (D.entries disk.new) }
    ensures ordered { OnOk result (IfSome (D.entries disk.old) (λ entries. ((entries (D.leads disk.old path.now) ≡ Other) × Asks (D.asked disk.old) (D.asked disk.new) (Write path.now bytes.now ∷ []))
        ⊎ Follow (Replaces (Some bytes.now) (D.leads disk.old path.now)) (D.asked disk.old) (D.asked disk.new))) }
    ensures undone { OnErr result (Follow LeavesNoFile (D.asked disk.old) (D.asked disk.new) ⊎ Asks (D.asked disk.old) (D.asked disk.new) (Write path.now bytes.now ∷ [])) }
{
    match disk.file_path(alloc, path)? {
        Some(path) => replace_file(alloc, disk, path.as_str(), bytes),
        None => Ok(disk.write_into(path, bytes)?),
    }
}

/// Writes bytes to a new file beside a path, and renames it to that path. If a step is refused, the new file is
/// removed, and what is at the path stays as it was.
fn replace_file<D: OutputDisk>(
    alloc: Global,
    disk: &mut D,
    path: &str,
    bytes: &[u8],
) -> Result<(), ReplaceFault>
    ensures put { OnOk result (IfSome (D.entries disk.old) (λ _. IfSome (D.entries disk.new) (λ new. new path.now ≡ Ordinary bytes.now))) }
    ensures stays { OnErr result (KeepsBut (IsBeside path.now) (D.entries disk.old) (D.entries disk.new)) }
    ensures others { KeepsBut (λ p. IsNewPath path.now p ⊎ (p ≡ path.now)) (D.entries disk.old) (D.entries disk.new) }
    ensures ordered { OnOk result (IfSome (D.entries disk.old) (λ _. Follow (Replaces (Some bytes.now) path.now) (D.asked disk.old) (D.asked disk.new))) }
    ensures undone { OnErr result (Follow LeavesNoFile (D.asked disk.old) (D.asked disk.new)) }
{
    let (name, mut file) = new_beside(alloc, disk, path)?;
    let outcome = put(disk, &mut file, name.as_str(), path, bytes);
    clear_up(disk, &file, name.as_str(), outcome)
}

/// Writes bytes to a new file, and renames it. The file is still open then, so that nobody takes it for one that was
/// left over.
fn put<D: OutputDisk>(
    disk: &mut D,
    file: &mut D::NewFile,
    name: &str,
    path: &str,
    bytes: &[u8],
) -> Result<(), ReplaceFault>
    ensures renamed { OnOk result (D.NewFile.contents file.old ≡ Some [] → IfSome (D.entries disk.new) (λ new. new path.now ≡ Ordinary bytes.now)) }
    ensures others { KeepsBut (λ p. (p ≡ name.now) ⊎ (p ≡ path.now)) (D.entries disk.old) (D.entries disk.new) }
    ensures stays { OnErr result (KeepsBut (λ p. p ≡ name.now) (D.entries disk.old) (D.entries disk.new)) }
    ensures ordered { OnOk result (D.NewFile.contents file.old ≡ Some [] → Asks (D.asked disk.old) (D.asked disk.new) (Sync (Some bytes.now) ∷ Rename (Some bytes.now) name.now path.now ∷ [])) }
    ensures undone { OnErr result (Follow SyncsAndRenames (D.asked disk.old) (D.asked disk.new)) }
{
    file.write_all(bytes)?;
    disk.sync(file)?;
    disk.rename(file, name, path)?;
    Ok(())
}

/// Asks the disk to remove a new file if it was refused to put it in place, and returns that outcome. The file is
/// still open then, so that no other file is removed that somebody made under its name.
fn clear_up<D: OutputDisk>(
    disk: &mut D,
    file: &D::NewFile,
    name: &str,
    outcome: Result<(), ReplaceFault>,
) -> Result<(), ReplaceFault>
    ensures told { result ≡ outcome }
    ensures untouched { OnOk outcome (disk.new ≡ disk.old) }
    ensures others { KeepsBut (λ p. p ≡ name.now) (D.entries disk.old) (D.entries disk.new) }
    ensures asks { OnErr outcome (Asks (D.asked disk.old) (D.asked disk.new) (Remove name.now ∷ [])) }
{
    if outcome.is_err() {
        let _ = disk.remove(file, name);
    }
    outcome
}

/// Makes a file in the folder of a path, and returns its path and the file. Its name is `.rvstm.new0` to
/// `.rvstm.new99`: the first other than the path itself that is free, or was left over. Refused as Unwritable if
/// there is none or the file can't be made, and as Memory if memory ran out.
fn new_beside<D: OutputDisk>(
    alloc: Global,
    disk: &mut D,
    path: &str,
) -> Result<(String, D::NewFile), ReplaceFault>
    ensures beside { IfOk result (λ made. IsBeside path.now (string_bytes made.0)) }
    ensures empty { IfOk result (λ made. IfSome (D.entries disk.old) (λ _. D.NewFile.contents made.1 ≡ Some [])) }
    ensures others { KeepsBut (IsBeside path.now) (D.entries disk.old) (D.entries disk.new) }
    ensures makes { IfOk result (λ made. Follow (MakesLast (string_bytes made.0)) (D.asked disk.old) (D.asked disk.new)) }
    ensures makes_none { OnErr result (Follow Clears (D.asked disk.old) (D.asked disk.new)) }
{
    for number in 0..NAME_LIMIT {
        let name = new_path(alloc, path, number)?;
        if name.as_str() != path {
            match new_file(disk, name.as_str()) {
                Ok(file) => return Ok((name, file)),
                Err(error) if error.kind() == io::ErrorKind::AlreadyExists => {}
                Err(error) => return Err(ReplaceFault::from(error)),
            }
        }
    }
    Err(ReplaceFault::Unwritable)
}

/// The path of a new file in the folder of a path; refused if memory ran out.
fn new_path(alloc: Global, path: &str, number: usize) -> Result<String, AllocError>
    requires { number < 100 }
    ensures { IfOk result (λ name. IsNewPath path.now (string_bytes name)) }
{
    match path.rsplit_once('/') {
        Some((folder, _)) => format!(in alloc; "{folder}/{NEW_NAME}{number}"),
        None => format!(in alloc; "{NEW_NAME}{number}"),
    }
}

/// Makes a file. One that was left over at the path is removed first.
fn new_file<D: OutputDisk>(disk: &mut D, path: &str) -> io::Result<D::NewFile>
    ensures empty { IfOk result (λ file. IfSome (D.entries disk.old) (λ _. D.NewFile.contents file ≡ Some [])) }
    ensures others { KeepsBut (λ p. p ≡ path.now) (D.entries disk.old) (D.entries disk.new) }
    ensures makes { OnOk result (Follow (MakesLast path.now) (D.asked disk.old) (D.asked disk.new)) }
    ensures makes_none { OnErr result (Follow Clears (D.asked disk.old) (D.asked disk.new)) }
{
    match disk.create_new(path) {
        Err(error) if error.kind() == io::ErrorKind::AlreadyExists => {
            if disk.remove_left_over(path).is_err() {
                return Err(error);
            }
            disk.create_new(path)
        }
        made => made,
    }
}
