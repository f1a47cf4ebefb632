//! What the program does for each request, over any files, input and writers.

ghost use Rattle.std.specs.Prelude.{◌≡◌, ◌⊎◌, option_map, false, true, Err, IfErr, IfOk, IfSome, None, Ok, OnErr, OnOk, Some};
ghost use Rattle.block_file.specs.Migrate.{migrated};
ghost use Rattle.cmdline.specs.Line.{AsmOf, ConflictsOf, DebugOf, DisOf, DriveOf, MigrateOf, RunOf, SeqOf, asked_by_request};
ghost use Rattle.engines.specs.Dis.{IsSourceFault, file_of_source};
ghost use Rattle.engines.specs.Engine.{IsBlockFault};
ghost use Rattle.engines.specs.Named.{bytes_left, may_fail_of};
ghost use Rattle.engines.specs.Program.{AreCountsAsked, AsksAsRefused, AsksStores, ClosesStore, IsRefusedAs, IsRefusedSession, KeepsDisk, KeepsSessionAt, KeepsSessions, Prints, PrintsSession, PutsFile, PutsNothing, chain_settings};
ghost use Rattle.engines.specs.Stores.{AreClosed, AsksAsTold, AsksForSession, AsksInVain};
ghost use Rattle.system_files.specs.Entries.{AreApart, IsPut, KeepsFile, Stays};

use crate::asm::{SOURCE_MEMORY, file_of_source};
use crate::by_threads::ByThreads;
use crate::conflicts_command::conflicts_to;
use crate::counts::RunCounts;
use crate::debug::debug_block_to;
use crate::dis::dis_to;
use crate::disk::{Disk, NamedFile, ProgramFiles};
use crate::drive::drive_to;
use crate::fault::{FileFault, Refusal};
use crate::loading::BLOCK_MEMORY;
use crate::migrate::migrated_file;
use crate::run::run_to;
use crate::seq::seq_to;
use crate::sessions::chain;
use crate::stores::SessionStores;
use byte_streams::{Destination, Source};
use cmdline::Request;
use session_turns::{InOrder, Settings};
use std::alloc::Global;
use std::sync::Wait;
use std::thread::Threads;
use system_files::{OutputDisk, ReplaceFault, replace};

/// Does a request, and returns what the workers did, if that must be printed.
pub(crate) fn answer<
    T: Threads + Wait + Sync,
    D: Disk,
    K: SessionStores,
    I: Source,
    W: Destination,
>(
    threads: &T,
    alloc: Global,
    request: Request<'_>,
    disk: &mut D,
    stores: &mut K,
    input: &mut I,
    out: &mut W,
) -> Result<Option<RunCounts>, Refusal>
    ensures printed { OnOk result (Prints (D.content disk.old) (I.remaining input.old) (W.contents out.old) (W.contents out.new) (asked_by_request request.entry)) }
    ensures counted { IfOk result (AreCountsAsked (D.content disk.old) (asked_by_request request.entry)) }
    ensures put { OnOk result (PutsFile (D.content disk.old) (D.leads disk.old) (D.entries disk.old) (D.entries disk.new) (asked_by_request request.entry)) }
    ensures stored { OnOk result (AsksStores (K.asked stores.old) (K.asked stores.new) (asked_by_request request.entry)) }
    ensures closed { OnOk result (ClosesStore K.are_folded (asked_by_request request.entry)) }
    ensures kept { OnOk result (KeepsSessions (I.remaining input.old) (K.trees_at stores.old) (K.trees_at stores.new) (W.contents out.old) (W.contents out.new) (asked_by_request request.entry)) }
    ensures refused { IfErr result (IsRefusedAs (D.content disk.old) (I.may_fail input.old) (I.remaining input.old) (W.may_refuse out.old) (W.contents out.old) (W.contents out.new) (asked_by_request request.entry)) }
    ensures vain { IfErr result (AsksAsRefused (I.remaining input.old) (K.asked stores.old) (K.asked stores.new) (asked_by_request request.entry)) }
    ensures stays { OnErr result (PutsNothing (D.leads disk.old) (D.entries disk.old) (D.entries disk.new) (asked_by_request request.entry)) }
    ensures keeps { KeepsDisk (D.leads disk.old) D.entries disk.old disk.new (asked_by_request request.entry) }
{
    match request {
        Request::Run {
            file,
            workers,
            counts,
        } => run(threads, alloc, disk, file, workers, counts, out),
        Request::Seq { file } => uncounted(seq(alloc, disk, file, out)),
        Request::Conflicts { file } => uncounted(conflicts(alloc, disk, file, out)),
        Request::Drive {
            file,
            workers,
            schedule,
            counts,
        } => drive(alloc, disk, file, workers, schedule, counts, out),
        Request::Asm { file, out } => uncounted(asm(alloc, disk, file, out)),
        Request::Dis { file } => uncounted(dis(alloc, disk, file, out)),
        Request::Migrate { file, out } => uncounted(migrate(alloc, disk, file, out)),
        Request::Debug { file, call, more } => {
            uncounted(debug(alloc, disk, file, call, more, input, out))
        }
        Request::Chain {
            workers,
            frame_limit,
            frame_gas,
            digest,
            brief,
            store,
        } => {
            let settings = settings_of(frame_limit, frame_gas, digest, brief);
            uncounted(session(threads, alloc, stores, store, workers, settings, input, out))
        }
    }
}

/// The answer to a request whose counts are not printed.
fn uncounted(done: Result<(), Refusal>) -> Result<Option<RunCounts>, Refusal>
    ensures done { OnOk done (result ≡ Ok None) }
    ensures refused { IfErr done (λ e. result ≡ Err e) }
{
    match done {
        Ok(()) => Ok(None),
        Err(refusal) => Err(refusal),
    }
}

/// The answer to a request whose counts are printed if that is asked for.
fn if_counted(counts: bool, done: Result<RunCounts, Refusal>) -> Result<Option<RunCounts>, Refusal>
    ensures counted { counts ≡ true → IfOk done (λ found. result ≡ Ok (Some found)) }
    ensures uncounted { counts ≡ false → OnOk done (result ≡ Ok None) }
    ensures refused { IfErr done (λ e. result ≡ Err e) }
{
    match done {
        Ok(found) if counts => Ok(Some(found)),
        Ok(_) => Ok(None),
        Err(refusal) => Err(refusal),
    }
}

/// Answers the requests of the input in one session, whose calls are run by this many workers, or in order.
fn session<T: Threads + Wait + Sync, K: SessionStores, I: Source, W: Destination>(
    threads: &T,
    alloc: Global,
    stores: &mut K,
    store: Option<&str>,
    workers: Option<usize>,
    settings: Settings,
    input: &mut I,
    out: &mut W,
) -> Result<(), Refusal>
    ensures printed { OnOk result (IfSome (I.remaining input.old) (PrintsSession settings (option_map (λ file. file.now) store.entry) (W.contents out.old) (W.contents out.new))) }
    ensures closed { OnOk result (IfSome store.entry (λ _. AreClosed K.are_folded)) }
    ensures kept { OnOk result (IfSome store.entry (λ path. KeepsSessionAt (record settings { keeps_digest = true }) (K.trees_at stores.old) (K.trees_at stores.new) path.now (I.remaining input.old) (W.contents out.old) (W.contents out.new))) }
    ensures same { store.entry ≡ None → K.trees_at stores.new ≡ K.trees_at stores.old }
    ensures refused { IfErr result (λ e. IfSome (I.remaining input.old) (λ bytes. IsRefusedSession settings (option_map (λ file. file.now) store.entry) (W.contents out.old) (W.contents out.new) bytes e)) }
    ensures none { store.entry ≡ None → K.asked stores.new ≡ K.asked stores.old }
    ensures stored { OnOk result (IfSome store.entry (λ path. AsksForSession (K.asked stores.old) (K.asked stores.new) path.now)) }
    ensures err { OnErr result (IfSome store.entry (λ path. AsksInVain (K.asked stores.old) (K.asked stores.new) path.now)) }
    ensures told { IfErr result (λ e. IfSome store.entry (λ path. IfSome (I.remaining input.old) (λ _. AsksAsTold (K.asked stores.old) (K.asked stores.new) path.now e))) }
{
    match workers {
        None => chain(alloc, stores, store, &mut InOrder, settings, input, out),
        Some(workers) => {
            let mut runner = ByThreads::new(threads, alloc, workers);
            chain(alloc, stores, store, &mut runner, settings, input, out)
        }
    }
}

/// Runs the calls of a block file on workers, each on a thread of its own, and prints the result. Returns what the workers did,
/// if that is asked for.
fn run<T: Threads + Wait + Sync, D: Disk, W: Destination>(
    threads: &T,
    alloc: Global,
    disk: &D,
    file: &str,
    workers: usize,
    counts: bool,
    out: &mut W,
) -> Result<Option<RunCounts>, Refusal>
    ensures printed { OnOk result (Prints (D.content disk.now) None (W.contents out.old) (W.contents out.new) (RunOf file.now workers counts)) }
    ensures counted { IfOk result (AreCountsAsked (D.content disk.now) (RunOf file.now workers counts)) }
    ensures refused { IfErr result (IsRefusedAs (D.content disk.now) ⊥ None (W.may_refuse out.old) (W.contents out.old) (W.contents out.new) (RunOf file.now workers counts)) }
{
    let mut block = NamedFile::new(disk, file);
    let mut programs = ProgramFiles { disk };
    if_counted(
        counts,
        run_to(threads, alloc, &mut block, &mut programs, workers, out),
    )
}

/// Runs the calls of a block file in order and prints the result.
fn seq<D: Disk, W: Destination>(
    alloc: Global,
    disk: &D,
    file: &str,
    out: &mut W,
) -> Result<(), Refusal>
    ensures printed { OnOk result (Prints (D.content disk.now) None (W.contents out.old) (W.contents out.new) (SeqOf file.now)) }
    ensures refused { IfErr result (IsRefusedAs (D.content disk.now) ⊥ None (W.may_refuse out.old) (W.contents out.old) (W.contents out.new) (SeqOf file.now)) }
{
    let mut block = NamedFile::new(disk, file);
    seq_to(alloc, &mut block, &mut ProgramFiles { disk }, out)
}

/// Runs the calls of a block file in order and prints which of them wait for which.
fn conflicts<D: Disk, W: Destination>(
    alloc: Global,
    disk: &D,
    file: &str,
    out: &mut W,
) -> Result<(), Refusal>
    ensures printed { OnOk result (Prints (D.content disk.now) None (W.contents out.old) (W.contents out.new) (ConflictsOf file.now)) }
    ensures refused { IfErr result (IsRefusedAs (D.content disk.now) ⊥ None (W.may_refuse out.old) (W.contents out.old) (W.contents out.new) (ConflictsOf file.now)) }
{
    let mut block = NamedFile::new(disk, file);
    conflicts_to(alloc, &mut block, &mut ProgramFiles { disk }, out)
}

/// Runs the calls of a block file along a schedule, and prints the result. Returns what the workers did, if that is asked for.
/// The schedule file is opened after the files of the programs.
fn drive<D: Disk, W: Destination>(
    alloc: Global,
    disk: &D,
    file: &str,
    workers: usize,
    schedule: &str,
    counts: bool,
    out: &mut W,
) -> Result<Option<RunCounts>, Refusal>
    ensures printed { OnOk result (Prints (D.content disk.now) None (W.contents out.old) (W.contents out.new) (DriveOf file.now workers schedule.now counts)) }
    ensures counted { IfOk result (AreCountsAsked (D.content disk.now) (DriveOf file.now workers schedule.now counts)) }
    ensures refused { IfErr result (IsRefusedAs (D.content disk.now) ⊥ None (W.may_refuse out.old) (W.contents out.old) (W.contents out.new) (DriveOf file.now workers schedule.now counts)) }
{
    let mut block = NamedFile::new(disk, file);
    let mut list = NamedFile::new(disk, schedule);
    let mut programs = ProgramFiles { disk };
    if_counted(
        counts,
        drive_to(alloc, &mut block, &mut programs, &mut list, workers, out),
    )
}

/// Assembles a source and puts its ELF file at a path. If this is refused, an ordinary file at the path stays as it was.
/// Refused as Unreadable if the source can't be opened; then as Unwritable if both paths name one file, since the source would
/// be lost; then for a fault of the source.
fn asm<D: Disk>(alloc: Global, disk: &mut D, file: &str, out: &str) -> Result<(), Refusal>
    ensures put { OnOk result (PutsFile (D.content disk.old) (D.leads disk.old) (D.entries disk.old) (D.entries disk.new) (AsmOf file.now out.now)) }
    ensures stays { OnErr result (Stays (D.entries disk.old) (D.entries disk.new) (D.leads disk.old out.now)) }
    ensures keeps { KeepsFile (D.entries disk.old) (D.entries disk.new) (D.leads disk.old file.now) (D.leads disk.old out.now) }
    ensures refused { IfErr result (λ e. (e ≡ Refusal.File FileFault.Unwritable) ⊎ IfSome (D.content disk.old file.now) (λ bytes. IsSourceFault (D.content disk.old file.now ≡ None) bytes e)) }
{
    let bytes = assembled(alloc, disk, file, out)?;
    put(
        alloc,
        disk,
        file,
        out,
        bytes.as_slice(),
        Refusal::Asm(SOURCE_MEMORY),
    )
}

/// The ELF file of a source, which is not the file at `out`.
fn assembled<D: Disk>(alloc: Global, disk: &D, file: &str, out: &str) -> Result<Vec<u8>, Refusal>
    ensures ok { IfOk result (λ made. IfSome (D.content disk.now file.now) (λ bytes. file_of_source bytes ≡ Ok made.items)) }
    ensures apart { OnOk result (AreApart (D.entries disk.now) (D.leads disk.now file.now) (D.leads disk.now out.now)) }
    ensures err { IfErr result (λ e. (e ≡ Refusal.File FileFault.Unwritable) ⊎ IfSome (D.content disk.now file.now) (λ bytes. IsSourceFault (D.content disk.now file.now ≡ None) bytes e)) }
{
    // Not by `?`: the proof answers this arm.
    let mut source = match open_apart(disk, file, out, Refusal::Asm(SOURCE_MEMORY)) {
        Ok(source) => source,
        Err(refusal) => return Err(refusal),
    };
    file_of_source(alloc, &mut source)
}

/// Rewrites a block file of format 1 as format 2 and puts it at a path. If this is refused, an ordinary file at the path stays
/// as it was. Refused as `asm` is, and then for a fault of the block file.
fn migrate<D: Disk>(alloc: Global, disk: &mut D, file: &str, out: &str) -> Result<(), Refusal>
    ensures put { OnOk result (PutsFile (D.content disk.old) (D.leads disk.old) (D.entries disk.old) (D.entries disk.new) (MigrateOf file.now out.now)) }
    ensures stays { OnErr result (Stays (D.entries disk.old) (D.entries disk.new) (D.leads disk.old out.now)) }
    ensures keeps { KeepsFile (D.entries disk.old) (D.entries disk.new) (D.leads disk.old file.now) (D.leads disk.old out.now) }
    ensures refused { IfErr result (λ e. (e ≡ Refusal.File FileFault.Unwritable) ⊎ IfSome (D.content disk.old file.now) (λ bytes. IsBlockFault (D.content disk.old file.now ≡ None) (migrated bytes) e)) }
{
    let bytes = rewritten(alloc, disk, file, out)?;
    put(
        alloc,
        disk,
        file,
        out,
        bytes.as_slice(),
        Refusal::Block(BLOCK_MEMORY),
    )
}

/// The file of format 2 of a block file, which is not the file at `out`.
fn rewritten<D: Disk>(alloc: Global, disk: &D, file: &str, out: &str) -> Result<Vec<u8>, Refusal>
    ensures ok { IfOk result (λ made. IfSome (D.content disk.now file.now) (λ bytes. migrated bytes ≡ Ok made.items)) }
    ensures apart { OnOk result (AreApart (D.entries disk.now) (D.leads disk.now file.now) (D.leads disk.now out.now)) }
    ensures err { IfErr result (λ e. (e ≡ Refusal.File FileFault.Unwritable) ⊎ IfSome (D.content disk.now file.now) (λ bytes. IsBlockFault (D.content disk.now file.now ≡ None) (migrated bytes) e)) }
{
    // Not by `?`: the proof answers this arm.
    let mut block = match open_apart(disk, file, out, Refusal::Block(BLOCK_MEMORY)) {
        Ok(block) => block,
        Err(refusal) => return Err(refusal),
    };
    migrated_file(alloc, &mut block)
}

/// Opens a file, which must not be the one at `out`, and reads nothing of it. Refused as Unreadable if it can't be opened; then
/// as Unwritable if both paths name one file or if that can't be found out, and as `memory` if memory ran out.
fn open_apart<'a, D: Disk>(
    disk: &'a D,
    file: &'a str,
    out: &str,
    memory: Refusal,
) -> Result<NamedFile<'a, D>, Refusal>
    ensures bytes { IfOk result (λ f. IfSome (D.content disk.now file.now) (λ bytes. bytes_left D.File.remaining (D.content f.disk.now f.path.now) f.file ≡ Some bytes)) }
    ensures readable { IfOk result (λ f. may_fail_of D.File.may_fail (D.content f.disk.now f.path.now) f.file → D.content disk.now file.now ≡ None) }
    ensures apart { OnOk result (AreApart (D.entries disk.now) (D.leads disk.now file.now) (D.leads disk.now out.now)) }
    ensures err { IfErr result (λ e. (e ≡ Refusal.File FileFault.Unwritable) ⊎ (e ≡ memory) ⊎ ((e ≡ Refusal.File FileFault.Unreadable) × (D.content disk.now file.now ≡ None))) }
{
    let mut found = NamedFile::new(disk, file);
    if found.open_file().is_err() {
        return Err(Refusal::File(FileFault::Unreadable));
    }
    match disk.is_one_file(file, out) {
        Ok(false) => Ok(found),
        Ok(true) => Err(Refusal::File(FileFault::Unwritable)),
        Err(error) => Err(refusal_of(ReplaceFault::from(error), memory)),
    }
}

/// Puts bytes at a path, as `replace` does; `file` is another file. Refused as Unwritable if a file can't be made, written or
/// renamed, and as `memory` if memory ran out.
#[tactic(auto, using(crate::proofs::Kept::keeps_file))]
fn put<D: OutputDisk>(
    alloc: Global,
    disk: &mut D,
    file: &str,
    path: &str,
    bytes: &[u8],
    memory: Refusal,
) -> Result<(), Refusal>
    requires apart { AreApart (D.entries disk.old) (D.leads disk.old file.now) (D.leads disk.old path.now) }
    ensures put { OnOk result (IsPut (D.entries disk.old) (D.entries disk.new) (D.leads disk.old path.now) bytes.now) }
    ensures stays { OnErr result (Stays (D.entries disk.old) (D.entries disk.new) (D.leads disk.old path.now)) }
    ensures keeps { KeepsFile (D.entries disk.old) (D.entries disk.new) (D.leads disk.old file.now) (D.leads disk.old path.now) }
    ensures refused { IfErr result (λ e. (e ≡ Refusal.File FileFault.Unwritable) ⊎ (e ≡ memory)) }
{
    match replace(alloc, disk, path, bytes) {
        Ok(()) => Ok(()),
        Err(fault) => Err(refusal_of(fault, memory)),
    }
}

/// The refusal of a command whose file is not put at its path: `memory` if memory ran out.
fn refusal_of(fault: ReplaceFault, memory: Refusal) -> Refusal
    ensures unwritable { fault ≡ ReplaceFault.Unwritable → result ≡ Refusal.File FileFault.Unwritable }
    ensures memory { fault ≡ ReplaceFault.Memory → result ≡ memory }
{
    match fault {
        ReplaceFault::Unwritable => Refusal::File(FileFault::Unwritable),
        ReplaceFault::Memory => memory,
    }
}

/// Prints the instructions of an ELF file.
fn dis<D: Disk, W: Destination>(
    alloc: Global,
    disk: &D,
    file: &str,
    out: &mut W,
) -> Result<(), Refusal>
    ensures printed { OnOk result (Prints (D.content disk.now) None (W.contents out.old) (W.contents out.new) (DisOf file.now)) }
    ensures refused { IfErr result (IsRefusedAs (D.content disk.now) ⊥ None (W.may_refuse out.old) (W.contents out.old) (W.contents out.new) (DisOf file.now)) }
{
    let mut program = NamedFile::new(disk, file);
    dis_to(alloc, &mut program, out)
}

/// Replays a call of a block file along the lines of the input.
fn debug<D: Disk, I: Source, W: Destination>(
    alloc: Global,
    disk: &D,
    file: &str,
    call: usize,
    has_more: bool,
    input: &mut I,
    out: &mut W,
) -> Result<(), Refusal>
    ensures printed { OnOk result (Prints (D.content disk.now) (I.remaining input.old) (W.contents out.old) (W.contents out.new) (DebugOf file.now call has_more)) }
    ensures refused { IfErr result (IsRefusedAs (D.content disk.now) (I.may_fail input.old) (I.remaining input.old) (W.may_refuse out.old) (W.contents out.old) (W.contents out.new) (DebugOf file.now call has_more)) }
{
    let mut block = NamedFile::new(disk, file);
    let mut programs = ProgramFiles { disk };
    // Not as it is: the proof answers this arm.
    match debug_block_to(alloc, has_more, &mut block, &mut programs, call, input, out) {
        Ok(()) => Ok(()),
        Err(refusal) => Err(refusal),
    }
}

/// The settings of a session, by the options of `chain`.
fn settings_of(
    frame_limit: Option<usize>,
    frame_gas: Option<usize>,
    digest: bool,
    brief: bool,
) -> Settings
    ensures { result ≡ chain_settings frame_limit frame_gas digest brief }
{
    let mut settings = Settings::new();
    if let Some(most) = frame_limit {
        settings.frame_limit = most as u64;
    }
    if let Some(most) = frame_gas {
        settings.frame_gas = Some(most as u64);
    }
    settings.keeps_digest = digest;
    settings.is_brief = brief;
    settings
}
