//! The disk on which files are made and replaced.

ghost use Rattle.std.specs.Prelude.{◌≡◌, ◌⊎◌, ℕ, false, List, [], ◌∷◌, Option, Some, IfOk, IfSome, OnErr, OnOk};
ghost use Rattle.std.specs.Option.{option_map};
ghost use Rattle.std.specs.String.{string_bytes};
ghost use Rattle.system_files.specs.Entries.{AreApart, Entries, IsPathOf, KeepsBut, Ordinary};
ghost use Rattle.system_files.specs.Orders.{Asks, Make, Order, RefusedSync, Remove, RemoveLeftOver, Rename, Sync, Write};

use std::alloc::Global;
use std::io;
use std::io::Write;

/// A disk on which files are made and replaced, by their paths.
pub trait OutputDisk {
    /// A file that is open to be written.
    type NewFile: Write + Drop;

    /// What is at each path, links aside, if that is known.
    ghost entries: { Self → Option Entries };

    /// What was asked of the disk so far, the last order last, if that is known. A file that could not be made was
    /// not asked for; each other order counts even if it was refused. A refused sync is an order of its own: a second
    /// sync does not repair it, since a system may have dropped the bytes.
    ghost asked: { Self → Option (List Order) };

    /// The path that a path leads to, with links followed.
    ghost leads: { Self → List ℕ → List ℕ };

    /// Makes a file to write it, and keeps it for this process as long as it is open; refused as AlreadyExists if
    /// something is at the path.
    fn create_new(&mut self, path: &str) -> io::Result<Self::NewFile>
        ensures empty { IfOk result (λ file. IfSome (entries self.old) (λ _. Self.NewFile.contents file ≡ Some [])) }
        ensures others { KeepsBut (λ p. p ≡ path.now) (entries self.old) (entries self.new) }
        ensures asks { OnOk result (Asks (asked self.old) (asked self.new) (Make path.now ∷ [])) }
        ensures asks_nothing { OnErr result (asked self.new ≡ asked self.old) };

    /// Removes the file at a path, which a process that has ended made by `create_new`; refused if something other
    /// than this file is there, or the file is still kept.
    fn remove_left_over(&mut self, path: &str) -> io::Result<()>
        ensures others { KeepsBut (λ p. p ≡ path.now) (entries self.old) (entries self.new) }
        ensures asks { Asks (asked self.old) (asked self.new) (RemoveLeftOver path.now ∷ []) };

    /// Whether two paths name one ordinary file; false if nothing is at one of them. Refused if that can't be found
    /// out.
    fn is_one_file(&self, left: &str, right: &str) -> io::Result<bool>
        ensures apart { IfOk result (λ is_one. is_one ≡ false → AreApart (entries self.now) (leads self.now left.now) (leads self.now right.now)) };

    /// Opens what is at a path, and writes bytes into it from its start.
    fn write_into(&mut self, path: &str, bytes: &[u8]) -> io::Result<()>
        ensures others { KeepsBut (λ p. p ≡ leads self.old path.now) (entries self.old) (entries self.new) }
        ensures asks { Asks (asked self.old) (asked self.new) (Write path.now bytes.now ∷ []) };

    /// The path of the ordinary file that a path names, with links followed; the path itself if nothing is there yet.
    /// `None` if something other than an ordinary file is there, such as a device or a link to nothing. Refused if
    /// that can't be found out, or the file may not be written.
    fn file_path(&self, alloc: Global, path: &str) -> io::Result<Option<String>>
        ensures { IfOk result (λ found. IsPathOf (entries self.now) (leads self.now path.now) (option_map string_bytes found)) };

    /// Makes sure that what was written to a file is on the disk.
    fn sync(&mut self, file: &Self::NewFile) -> io::Result<()>
        ensures same { KeepsBut (λ _. ⊥) (entries self.old) (entries self.new) }
        ensures asks { OnOk result (Asks (asked self.old) (asked self.new) (Sync (Self.NewFile.contents file.now) ∷ [])) }
        ensures asks_in_vain { OnErr result (Asks (asked self.old) (asked self.new) (RefusedSync ∷ [])) };

    /// Renames a file that is open. It replaces the file that has the new name, if any. Refused if the old name is
    /// not this file's.
    fn rename(&mut self, file: &Self::NewFile, from: &str, to: &str) -> io::Result<()>
        ensures renamed { OnOk result (IfSome (Self.NewFile.contents file.now) (λ bytes. IfSome (entries self.new) (λ new. new to.now ≡ Ordinary bytes))) }
        ensures others { KeepsBut (λ p. (p ≡ from.now) ⊎ (p ≡ to.now)) (entries self.old) (entries self.new) }
        ensures stays { OnErr result (KeepsBut (λ p. p ≡ from.now) (entries self.old) (entries self.new)) }
        ensures asks { Asks (asked self.old) (asked self.new) (Rename (Self.NewFile.contents file.now) from.now to.now ∷ []) };

    /// Removes a file that is open. Refused if the path is not this file's.
    fn remove(&mut self, file: &Self::NewFile, path: &str) -> io::Result<()>
        ensures others { KeepsBut (λ p. p ≡ path.now) (entries self.old) (entries self.new) }
        ensures asks { Asks (asked self.old) (asked self.new) (Remove path.now ∷ []) };
}
