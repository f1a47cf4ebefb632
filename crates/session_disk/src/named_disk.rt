//! A file of a session, as a disk whose syncs look at the names of both files, and which has no room past the limit of a file.

ghost use Rattle.std.specs.Prelude.{◌≡◌, ◌+◌, ◌&&◌, not, ℕ, List, IfErr, IfOk, MatchBool, is_ok, IsErr, IsTrue, OnErr, OnOk};
ghost use Rattle.std_io.specs.declared.io.kind.ErrorKind.TheVariants.{FileTooLarge};
ghost use Rattle.std_io.specs.IoError.{error_kind};
ghost use Rattle.sqlite_disk.specs.Disk.{CountsFault, MoreFaults, Only, StaysFrozen};
ghost use Rattle.sqlite_disk.specs.Refusal.{finds_no_room};
ghost use Rattle.sqlite_disk.specs.Tally.{CountsRefusal};
ghost use Rattle.session_disk.specs.Looks.{Misses, Sees};
ghost use Rattle.session_disk.specs.Named.{IsNamedBy, with_limit};
ghost use Rattle.session_disk.specs.Names.{all_there, view_of};

use crate::log_folder::LogFolder;
use crate::names::Names;
use sqlite_disk::{Disk, Tally};
use std::alloc::Global;
use std::io;

/// A file of a session. After each sync it looks at the names of both files: if one leads to another file, or to none, the sync
/// is refused, and the file may not be used any more. A write past the limit of a file's size (EFBIG) is refused as one to a full
/// disk.
#[derive(Drop)]
pub struct NamedDisk<D, F> {
    inner: D,
    folder: F,
    names: Names,
    missed: u64,
    too_large: u64,
    is_lost: bool,
}

impl<D: Disk, F: LogFolder + Copy> NamedDisk<D, F> {
    /// One of the two files at a path, which were just opened, with the names of both as they are in a folder. The file is
    /// returned if `Names::look_at` refuses.
    pub(crate) fn at(
        alloc: Global,
        folder: F,
        path: &str,
        inner: D,
    ) -> Result<NamedDisk<D, F>, (io::Error, D)>
        ensures named { IfOk result (λ named. IsNamedBy F.LogFolder.view folder path.now D.Disk inner named) }
        ensures back { IfErr result (λ e. e.1 ≡ inner) }
    {
        let mut folder = folder;
        match Names::look_at(alloc, &mut folder, path, &inner) {
            Ok(names) => Ok(NamedDisk {
                inner,
                folder,
                names,
                missed: 0,
                too_large: 0,
                is_lost: false,
            }),
            Err(error) => Err((error, inner)),
        }
    }

    /// The file without its names.
    pub(crate) fn into_inner(self) -> D
        ensures { result ≡ self.inner }
    {
        self.inner
    }
}

/// The answer of a write or of a change of the length. If the file would be larger than the system allows, that is counted, and
/// the answer is that of a full disk.
fn full_if_too_large(answer: io::Result<()>, too_large: &mut u64) -> io::Result<()>
    ensures ok { is_ok result ≡ is_ok answer }
    ensures err { IsErr answer → IsErr result }
    ensures limit { IfErr answer (λ e. error_kind e ≡ FileTooLarge → IsTrue (finds_no_room result)) }
    ensures counted { MatchBool (finds_no_room result && not (finds_no_room answer)) (MoreFaults too_large.old too_large.new) (too_large.new ≡ too_large.old) }
    ensures full { IsTrue (finds_no_room answer) → IsTrue (finds_no_room result) }
{
    match answer {
        Err(error) if error.kind() == io::ErrorKind::FileTooLarge => {
            *too_large = too_large.saturating_add(1);
            Err(io::ErrorKind::StorageFull.into())
        }
        other => other,
    }
}

impl<D: Disk, F: LogFolder> Disk for NamedDisk<D, F> {
    ghost seen = { λ f. D.Disk.seen f.inner };

    ghost may_leave = { λ f. D.Disk.may_leave f.inner };

    ghost is_usable = { λ f. D.Disk.is_usable f.inner && not f.is_lost };

    ghost faults = { λ f. D.Disk.faults f.inner + f.missed };

    ghost tally_of = { λ f. with_limit (D.Disk.tally_of f.inner) f.too_large };

    ghost is_rotten = { λ f. D.Disk.is_rotten f.inner };

    ghost key_of = { λ f. D.Disk.key_of f.inner };

    ghost is_frozen = { λ f. D.Disk.is_frozen f.inner };

    ghost is_clean = { λ f. D.Disk.is_clean f.inner };

    ghost is_fair = { λ f. D.Disk.is_fair f.inner };

    ghost fair_if_clean = { λ f. D.Disk.fair_if_clean f.inner };

    ghost seen_may_stay = { λ f. D.Disk.seen_may_stay f.inner };

    ghost is_mixing = { λ f. D.Disk.is_mixing f.inner };

    fn mixes(&self) -> bool {
        self.inner.mixes()
    }

    fn key(&self) -> u64 {
        self.inner.key()
    }

    fn tally(&self) -> Tally {
        let Tally { caught, refused } = self.inner.tally();
        Tally {
            caught,
            refused: refused.saturating_add(self.too_large),
        }
    }

    fn may_be_used(&self) -> bool {
        self.inner.may_be_used() && !self.is_lost
    }

    fn len(&mut self) -> io::Result<usize> {
        self.inner.len()
    }

    fn read_at(&mut self, at: usize, buf: &mut [u8]) -> io::Result<()> {
        self.inner.read_at(at, buf)
    }

    fn read_checked(&mut self, key: u64, want: u64, at: usize, buf: &mut [u8]) -> io::Result<()> {
        self.inner.read_checked(key, want, at, buf)
    }

    fn write_at(&mut self, at: usize, bytes: &[u8]) -> io::Result<()> {
        let answer = self.inner.write_at(at, bytes);
        full_if_too_large(answer, &mut self.too_large)
    }

    fn set_len(&mut self, len: usize) -> io::Result<()> {
        let answer = self.inner.set_len(len);
        full_if_too_large(answer, &mut self.too_large)
    }

    fn sync(&mut self) -> io::Result<()>
        requires { IsTrue (D.Disk.is_usable self.old.inner && not self.old.is_lost) }
        ensures durable { OnOk result (Only (D.Disk.seen self.old.inner) (D.Disk.may_leave self.new.inner)) }
        ensures faults { CountsFault result (D.Disk.faults self.old.inner + self.old.missed) (D.Disk.faults self.new.inner + self.new.missed) }
        ensures clean { IsTrue (D.Disk.is_clean self.new.inner) → IsTrue (D.Disk.is_clean self.old.inner) }
        ensures calm { D.Disk.is_clean self.new.inner ≡ D.Disk.is_clean self.old.inner }
        ensures fair { D.Disk.is_fair self.new.inner ≡ D.Disk.is_fair self.old.inner }
        ensures frozen { IsTrue (D.Disk.is_frozen self.old.inner) → IsErr result × StaysFrozen D.Disk.seen D.Disk.may_leave D.Disk.is_clean D.Disk.is_frozen self.old.inner self.new.inner }
        ensures seen { D.Disk.seen self.new.inner ≡ D.Disk.seen self.old.inner }
        ensures tally { CountsRefusal result (with_limit (D.Disk.tally_of self.old.inner) self.old.too_large) (with_limit (D.Disk.tally_of self.new.inner) self.new.too_large) }
        ensures key { D.Disk.key_of self.new.inner ≡ D.Disk.key_of self.old.inner }
        ensures rot { D.Disk.is_rotten self.new.inner ≡ D.Disk.is_rotten self.old.inner }
        ensures usable { (D.Disk.is_usable self.new.inner && not self.new.is_lost) ≡ is_ok result }
        ensures crash { (c : List ℕ) → D.Disk.may_leave self.new.inner c → D.Disk.may_leave self.old.inner c }
        ensures there { OnOk result (Sees (F.LogFolder.view self.old.folder) (F.LogFolder.view self.new.folder) (all_there (view_of self.old.names))) }
        ensures gone { OnErr result (IsTrue (D.Disk.is_usable self.new.inner) → Misses (F.LogFolder.view self.old.folder) (F.LogFolder.view self.new.folder) (all_there (view_of self.old.names))) }
        ensures names { view_of self.new.names ≡ view_of self.old.names }
    {
        self.inner.sync()?;
        if self.names.lead_there(&mut self.folder, &self.inner) {
            return Ok(());
        }
        self.is_lost = true;
        self.missed = self.missed.saturating_add(1);
        Err(io::Error::other("a file of the session was taken away from its name"))
    }
}
