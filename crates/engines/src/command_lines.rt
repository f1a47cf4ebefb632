//! The program over any files, input and writers: the words of a line, its request, and what is printed about it.

ghost use Rattle.std.specs.Prelude.{◌≡◌, ◌≢◌, ◌≤◌, ◌⊎◌, map, IfErr, IfOk, IfSome, None, OnErr, OnOk, Some};
ghost use Rattle.std.specs.Io.KnownBytes.{Appends};
ghost use Rattle.std.specs.String.{string_bytes};
ghost use Rattle.byte_streams.specs.Written.{AppendsPart};
ghost use Rattle.clap.specs.Words.{kind_of};
ghost use Rattle.clap.specs.declared.error.kind.ErrorKind.TheVariants as kind;
ghost use Rattle.cmdline.specs.Line.{asked_by_request};
ghost use Rattle.engines.specs.Counts.{counts_text};
ghost use Rattle.engines.specs.Headline.{PrintsAtMost};
ghost use Rattle.engines.specs.Program.{AreCountsAsked, AsksAsRefused, AsksStores, ClosesStore, CutsCounts, IsRefusedAs, IsShown, IsTold, KeepsDisk, KeepsSessions, Prints, PutsFile, PutsNothing, TellsAsked, TellsText, asked_on, no_memory_line};

use crate::commands::answer;
use crate::counts::{RunCounts, write_counts};
use crate::disk::Disk;
use crate::fault::Refusal;
use crate::reporting::report;
use crate::stores::SessionStores;
use byte_streams::{Destination, FallibleReader, FallibleWriter, Source, WriteFault, write_whole};
use cmdline::{Request, request_of};
use std::alloc::Global;
use std::fs::File;
use std::io::{Read, Stderr, Stdin, Stdout, Write};
use std::process::ExitCode;
use std::rt::{Env, Files};
use std::sync::Wait;
use std::thread::Threads;
use std::{env, io};
use system_files::SystemDisk;

/// The exit status of a wrong command line.
const WRONG_LINE: u8 = 2;

/// Does what a runtime's command line asks for, over its files and the standard streams, and returns the exit
/// code, as `status` does.
pub fn exit_code<R, K>(
    rt: &R,
    stores: &mut K,
    mut input: Stdin,
    mut out: Stdout,
    mut errors: Stderr,
) -> ExitCode
where
    R: Env + Files<File = File> + AllocGlobal + Threads + Wait + Sync,
    K: SessionStores,
{
    let mut disk = SystemDisk { rt };
    ExitCode::from(status(rt, rt, &mut disk, stores, &mut input, &mut out, &mut errors))
}

/// Does what the command line asks for, and returns the exit status: 0 if it is done, 1 if it is refused, 2 if the line is
/// wrong. The lines of `debug` and the requests of `chain` are read from `input`. Results, answers, help and the version are
/// written to `out`. Refusals, what is wrong with the line, and counts are written to `errors`.
pub fn status<R, T, D, K, I, W, E>(
    rt: &R,
    threads: &T,
    disk: &mut D,
    stores: &mut K,
    input: &mut I,
    out: &mut W,
    errors: &mut E,
) -> u8
where
    R: Env + AllocGlobal,
    T: Threads + Wait + Sync,
    D: Disk,
    K: SessionStores,
    I: Read,
    W: Write,
    E: Write,
{
    let mut input = FallibleReader { reader: input };
    let mut out = FallibleWriter { writer: out };
    let mut errors = FallibleWriter { writer: errors };
    match words_of(rt) {
        Ok(words) => answer_words(
            threads,
            rt.alloc(),
            words.as_slice(),
            disk,
            stores,
            &mut input,
            &mut out,
            &mut errors,
        ),
        Err(error) => refuse_line(error_text(&error), &mut errors),
    }
}

/// Does what a command line of these words asks for, the program's name first, and returns the exit status, as `status`
/// does.
pub fn answer_words<
    T: Threads + Wait + Sync,
    D: Disk,
    K: SessionStores,
    I: Source,
    W: Destination,
    E: Destination,
>(
    threads: &T,
    alloc: Global,
    words: &[String],
    disk: &mut D,
    stores: &mut K,
    input: &mut I,
    out: &mut W,
    errors: &mut E,
) -> u8
    ensures status { result ≤ 2 }
    // done: what was asked for was printed, put into files and asked of the stores
    ensures printed { result ≡ 0 → IfSome (asked_on (map string_bytes words.now)) (Prints (D.content disk.old) (I.remaining input.old) (W.contents out.old) (W.contents out.new)) }
    ensures counted { result ≡ 0 → IfSome (asked_on (map string_bytes words.now)) (λ asked. TellsAsked (AreCountsAsked (D.content disk.old) asked) (E.contents errors.old) (E.contents errors.new)) }
    ensures put { result ≡ 0 → IfSome (asked_on (map string_bytes words.now)) (PutsFile (D.content disk.old) (D.leads disk.old) (D.entries disk.old) (D.entries disk.new)) }
    ensures stored { result ≡ 0 → IfSome (asked_on (map string_bytes words.now)) (AsksStores (K.asked stores.old) (K.asked stores.new)) }
    ensures closed { result ≡ 0 → IfSome (asked_on (map string_bytes words.now)) (ClosesStore K.are_folded) }
    ensures kept { result ≡ 0 → IfSome (asked_on (map string_bytes words.now)) (KeepsSessions (I.remaining input.old) (K.trees_at stores.old) (K.trees_at stores.new) (W.contents out.old) (W.contents out.new)) }
    // refused: as its engine is, and the refusal is printed; or done, and its counts could not all be printed
    ensures refused { result ≡ 1 → IfSome (asked_on (map string_bytes words.now)) (λ asked. IsTold (E.may_refuse errors.old)
        (λ e. IsRefusedAs (D.content disk.old) (I.may_fail input.old) (I.remaining input.old) (W.may_refuse out.old) (W.contents out.old) (W.contents out.new) asked e
        × AsksAsRefused (I.remaining input.old) (K.asked stores.old) (K.asked stores.new) asked e)
        (Prints (D.content disk.old) (I.remaining input.old) (W.contents out.old) (W.contents out.new) asked × AsksStores (K.asked stores.old) (K.asked stores.new) asked)
        (AreCountsAsked (D.content disk.old) asked) (E.contents errors.old) (E.contents errors.new)) }
    ensures at_most { result ≡ 1 → IfSome (asked_on (map string_bytes words.now)) (PrintsAtMost (D.content disk.old) (I.remaining input.old) (W.may_refuse out.old) (W.contents out.old) (W.contents out.new)) }
    ensures stays { result ≡ 1 → IfSome (asked_on (map string_bytes words.now)) (PutsNothing (D.leads disk.old) (D.entries disk.old) (D.entries disk.new)) }
    // either way: what is not asked for stays; if the line asks for nothing, the whole disk and the stores stay
    ensures keeps { result ≢ 2 → IfSome (asked_on (map string_bytes words.now)) (KeepsDisk (D.leads disk.old) D.entries disk.old disk.new) }
    ensures help { asked_on (map string_bytes words.now) ≡ None → (disk.new ≡ disk.old) × (stores.new ≡ stores.old) }
    // status 2: nothing is done; if the line asks for something, memory ran out, and that is printed. A line that asks for
    // nothing and has another status asks for help or the version
    ensures wrong { result ≡ 2 → (out.new ≡ out.old) × (disk.new ≡ disk.old) × (stores.new ≡ stores.old) }
    ensures right { result ≡ 2 → IfSome (asked_on (map string_bytes words.now)) (λ _. TellsText (E.may_refuse errors.old) (E.contents errors.old) (E.contents errors.new) no_memory_line) }
    ensures shown { result ≢ 2 → asked_on (map string_bytes words.now) ≡ None → IsShown (map string_bytes words.now) }
{
    match read_request(alloc, words, out, errors) {
        Ok(request) => do_request(threads, alloc, request, disk, stores, input, out, errors),
        Err(status) => status,
    }
}

/// Does a request, prints what came of it, and returns the exit status.
fn do_request<
    T: Threads + Wait + Sync,
    D: Disk,
    K: SessionStores,
    I: Source,
    W: Destination,
    E: Destination,
>(
    threads: &T,
    alloc: Global,
    request: Request<'_>,
    disk: &mut D,
    stores: &mut K,
    input: &mut I,
    out: &mut W,
    errors: &mut E,
) -> u8
    ensures status { result ≤ 1 }
    ensures printed { result ≡ 0 → Prints (D.content disk.old) (I.remaining input.old) (W.contents out.old) (W.contents out.new) (asked_by_request request.entry) }
    ensures counted { result ≡ 0 → TellsAsked (AreCountsAsked (D.content disk.old) (asked_by_request request.entry)) (E.contents errors.old) (E.contents errors.new) }
    ensures put { result ≡ 0 → PutsFile (D.content disk.old) (D.leads disk.old) (D.entries disk.old) (D.entries disk.new) (asked_by_request request.entry) }
    ensures stored { result ≡ 0 → AsksStores (K.asked stores.old) (K.asked stores.new) (asked_by_request request.entry) }
    ensures closed { result ≡ 0 → ClosesStore K.are_folded (asked_by_request request.entry) }
    ensures kept { result ≡ 0 → KeepsSessions (I.remaining input.old) (K.trees_at stores.old) (K.trees_at stores.new) (W.contents out.old) (W.contents out.new) (asked_by_request request.entry) }
    ensures refused { result ≡ 1 → IsTold (E.may_refuse errors.old)
        (λ e. IsRefusedAs (D.content disk.old) (I.may_fail input.old) (I.remaining input.old) (W.may_refuse out.old) (W.contents out.old) (W.contents out.new) (asked_by_request request.entry) e
        × AsksAsRefused (I.remaining input.old) (K.asked stores.old) (K.asked stores.new) (asked_by_request request.entry) e)
        (Prints (D.content disk.old) (I.remaining input.old) (W.contents out.old) (W.contents out.new) (asked_by_request request.entry) × AsksStores (K.asked stores.old) (K.asked stores.new) (asked_by_request request.entry))
        (AreCountsAsked (D.content disk.old) (asked_by_request request.entry)) (E.contents errors.old) (E.contents errors.new) }
    ensures at_most { result ≡ 1 → PrintsAtMost (D.content disk.old) (I.remaining input.old) (W.may_refuse out.old) (W.contents out.old) (W.contents out.new) (asked_by_request request.entry) }
    ensures stays { result ≡ 1 → PutsNothing (D.leads disk.old) (D.entries disk.old) (D.entries disk.new) (asked_by_request request.entry) }
    ensures keeps { KeepsDisk (D.leads disk.old) D.entries disk.old disk.new (asked_by_request request.entry) }
{
    match answer(threads, alloc, request, disk, stores, input, out) {
        Ok(None) => 0,
        Ok(Some(counts)) => tell_counts(alloc, &counts, errors),
        Err(refusal) => report(&refusal, errors),
    }
}

/// Prints what the workers of a run did, and returns the exit status.
fn tell_counts<E: Destination>(alloc: Global, counts: &RunCounts, errors: &mut E) -> u8
    ensures status { result ≤ 1 }
    ensures done { result ≡ 0 → Appends (E.contents errors.old) (E.contents errors.new) (counts_text counts.now) }
    ensures refused { result ≡ 1 → CutsCounts (E.contents errors.old) (E.contents errors.new) counts.now }
{
    match write_counts(alloc, counts, errors) {
        Ok(()) => 0,
        Err(fault) => report(&Refusal::Output(fault), errors),
    }
}

/// What is printed if clap accepts a line that asks for nothing.
const NO_REQUEST: &str = "error: a value is missing, or a number has a sign or a leading zero\n";

/// The request of a command line. If there is none, prints why, and refuses with the exit status.
#[tactic(auto, using(crate::proofs::Lines::right_line, crate::proofs::Lines::shown_line, crate::proofs::Lines::no_line, crate::proofs::Lines::right_memory, crate::proofs::Lines::no_request))]
fn read_request<'a, W: Destination, E: Destination>(
    alloc: Global,
    words: &'a [String],
    out: &mut W,
    errors: &mut E,
) -> Result<Request<'a>, u8>
    ensures ok { IfOk result (λ request. asked_on (map string_bytes words.now) ≡ Some (asked_by_request request)) }
    ensures quiet { OnOk result ((out.new ≡ out.old) × (errors.new ≡ errors.old)) }
    ensures status { IfErr result (λ status. status ≤ 2) }
    ensures wrong { IfErr result (λ status. status ≡ 2 → out.new ≡ out.old) }
    ensures right { IfErr result (λ status. status ≡ 2 → IfSome (asked_on (map string_bytes words.now)) (λ _. TellsText (E.may_refuse errors.old) (E.contents errors.old) (E.contents errors.new) no_memory_line)) }
    ensures none { IfErr result (λ status. status ≢ 2 → asked_on (map string_bytes words.now) ≡ None) }
    ensures shown { IfErr result (λ status. status ≢ 2 → IsShown (map string_bytes words.now)) }
{
    match request_of(alloc, words) {
        Ok(Some(request)) => Ok(request),
        Ok(None) => Err(refuse_line(NO_REQUEST, errors)),
        Err(error) => Err(print_error(alloc, &error, out, errors)),
    }
}

/// Prints the help or the version to `out`, or what is wrong with a line to `errors`, and returns the exit
/// status.
fn print_error<W: Destination, E: Destination>(
    alloc: Global,
    error: &clap::Error,
    out: &mut W,
    errors: &mut E,
) -> u8
    ensures status { result ≤ 2 }
    ensures wrong { result ≡ 2 → out.new ≡ out.old }
    ensures memory { kind_of error.now ≡ kind.OutOfMemory → TellsText (E.may_refuse errors.old) (E.contents errors.old) (E.contents errors.new) no_memory_line }
    ensures shown { result ≢ 2 → (kind_of error.now ≡ kind.DisplayHelp) ⊎ (kind_of error.now ≡ kind.DisplayVersion) }
{
    match error.kind() {
        clap::error::ErrorKind::DisplayHelp | clap::error::ErrorKind::DisplayVersion => {
            match print_help(alloc, error, out) {
                Ok(()) => 0,
                Err(fault) => report(&Refusal::Output(fault), errors),
            }
        }
        clap::error::ErrorKind::OutOfMemory => refuse_line("error: out of memory\n", errors),
        _ => {
            let _ = write!(errors, "{error}");
            WRONG_LINE
        }
    }
}

/// Prints the help or the version. Refused as Memory before anything is written, or as `write_whole` is.
fn print_help<W: Destination>(
    alloc: Global,
    help: &clap::Error,
    out: &mut W,
) -> Result<(), WriteFault> {
    let Ok(text) = format!(in alloc; "{help}") else {
        return Err(WriteFault::Memory);
    };
    write_whole(text.as_str().as_bytes(), out)
}

/// Prints what is wrong with a command line, and returns the exit status.
fn refuse_line<E: Destination>(message: &str, errors: &mut E) -> u8
    ensures status { result ≡ 2 }
    ensures told { TellsText (E.may_refuse errors.old) (E.contents errors.old) (E.contents errors.new) message.now }
{
    let _ = write_text(message, errors);
    WRONG_LINE
}

/// Writes a text. Refused as `write_whole` is.
fn write_text<W: Destination>(text: &str, out: &mut W) -> Result<(), WriteFault>
    ensures written { OnOk result (Appends (W.contents out.old) (W.contents out.new) text.now) }
    ensures cut { OnErr result (AppendsPart (W.contents out.old) (W.contents out.new) text.now) }
    ensures cause { IfErr result (W.may_refuse out.old) }
    ensures room { IfErr result (λ e. e ≢ WriteFault.Memory) }
{
    write_whole(text.as_bytes(), out)
}

/// The words of the command line, the program's name first.
fn words_of<R: Env + AllocGlobal>(rt: &R) -> io::Result<Vec<String>> {
    let words = env::args(rt)?;
    Ok(words.collect::<Vec<String>>(rt.alloc())?)
}

/// The message for a command line that can't be read.
fn error_text(error: &io::Error) -> &'static str {
    match error.kind() {
        io::ErrorKind::InvalidData => "error: a word of the command line is not UTF-8\n",
        _ => "error: out of memory\n",
    }
}
