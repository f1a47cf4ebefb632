//! The command line of the program `rvstm`.
#![tactic(auto)]

mod commands;
mod requests;

ghost use Rattle.std.specs.Prelude.{◌≡◌, ◌∷◌, IfErr, IfOk, true, map, option_map};
ghost use Rattle.std.specs.String.{string_bytes};
ghost use Rattle.clap.specs.Words.{FailsBy, HasMatchesOf, Text, fault_of, kind_of, takes};
ghost use Rattle.clap.specs.declared.error.ErrorKind.TheVariants as kind;
ghost use Rattle.cmdline.specs.Line.{AnswersUnlessMemory, asked_by_request, requested, rvstm_app};
ghost use Rattle.cmdline.specs.Typed.{TypedLine, asked_by_line, has_right_words, typed_words};

use crate::commands::rvstm;
use crate::requests::request_in;
use clap::{ArgMatches, Error};
use std::alloc::Global;

/// What a command line asks for.
#[derive(Clone, Copy, Debug, PartialEq, Eq)]
pub enum Request<'a> {
    /// Run the calls of a block file on several workers at the same time, and print the result.
    Run {
        /// The path of the block file.
        file: &'a str,
        /// The number of workers, 1 to 32.
        workers: usize,
        /// Whether to print what each worker did, too.
        counts: bool,
    },
    /// Run the calls of a block file in order, and print the result.
    Seq {
        /// The path of the block file.
        file: &'a str,
    },
    /// Run the calls of a block file in order, and print which of them wait for which.
    Conflicts {
        /// The path of the block file.
        file: &'a str,
    },
    /// Run the calls of a block file on simulated workers, which make their steps in the order of a
    /// schedule, and print the result.
    Drive {
        /// The path of the block file.
        file: &'a str,
        /// The number of workers, 1 to 32.
        workers: usize,
        /// The path of the schedule file.
        schedule: &'a str,
        /// Whether to print what each worker did, too.
        counts: bool,
    },
    /// Assemble a source and write its ELF file.
    Asm {
        /// The path of the source.
        file: &'a str,
        /// The path of the ELF file.
        out: &'a str,
    },
    /// Print the instructions of an ELF file.
    Dis {
        /// The path of the ELF file.
        file: &'a str,
    },
    /// Replay one call of a block file along the lines of the standard input.
    Debug {
        /// The path of the block file.
        file: &'a str,
        /// The number of the call, 0 to 1023; the first call of the block has 0.
        call: usize,
        /// Whether to accept more lines, and to run no call after this one.
        more: bool,
    },
    /// Rewrite a block file of format 1 as one of format 2.
    Migrate {
        /// The path of the block file.
        file: &'a str,
        /// The path of the new block file.
        out: &'a str,
    },
    /// Answer the requests of the standard input in one session, whose frames run on one storage.
    Chain {
        /// The number of workers, 1 to 32, if the calls of a block may run on several at the same time.
        workers: Option<usize>,
        /// The greatest length of a frame in bytes, 0 to 9,999,999,999, if one is given.
        frame_limit: Option<usize>,
        /// The greatest sum of the gas limits of a frame's calls, 0 to 9,999,999,999, if one is given.
        frame_gas: Option<usize>,
        /// Whether to keep a digest of the answers; always so if a store is given.
        digest: bool,
        /// Whether receipts have no `regs` lines.
        brief: bool,
        /// The path of the file that keeps the session, if one is given; it is not empty.
        store: Option<&'a str>,
    },
}

/// Reads a command line, whose first word is the program's name. Refused if the subcommand is missing or unknown, a
/// word is missing or surplus, an option is unknown or repeated, the number of workers is not 1 to 32, the number of
/// the call is not 0 to 1023, a number of `--frame-limit` or `--frame-gas` is not 0 to 9,999,999,999, the path of
/// `--store` is empty, or memory ran out. Help and the version are errors too; for them `use_stderr` is false. `None`
/// if clap accepts a line, but such a number has a sign or a zero before another digit, or clap gives no value that
/// it requires.
pub fn request_of<'a>(alloc: Global, words: &'a [String]) -> Result<Option<Request<'a>>, Error>
    // an accepted line asks for exactly this
    ensures answer { IfOk result (λ r.
        option_map asked_by_request r ≡ requested (map string_bytes words.now)) }
    // a line with a fault is never accepted; the error is of the fault's kind, or memory ran out
    ensures refused { FailsBy (fault_of rvstm_app (map string_bytes words.now)) result }
    // a line of `typed_words` with right words is accepted, unless memory runs out, and asks for what it says
    ensures accepted { (program : Text) (line : TypedLine)
        → map string_bytes words.now ≡ program ∷ typed_words line → has_right_words line ≡ true
        → AnswersUnlessMemory result (asked_by_line line) }
{
    let matches = matches_of(alloc, words)?;
    Ok(request_in(&matches))
}

/// What clap finds on a command line; refused if `request_of` is.
fn matches_of<'a>(alloc: Global, words: &'a [String]) -> Result<ArgMatches<'a>, Error>
    ensures found { IfOk result (HasMatchesOf rvstm_app (map string_bytes words.now)) }
    ensures passes { takes rvstm_app (map string_bytes words.now) ≡ true
        → IfErr result (λ e. kind_of e ≡ kind.OutOfMemory) }
    ensures refused { FailsBy (fault_of rvstm_app (map string_bytes words.now)) result }
{
    rvstm(alloc)?.try_get_matches_from(words)
}
