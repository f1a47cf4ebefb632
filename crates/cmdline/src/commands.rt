//! The command of `rvstm` and its subcommands, as they are built for clap.

ghost use Rattle.std.specs.Prelude.{◌≡◌, IfOk, Some, codes, false, true};
ghost use Rattle.clap.specs.Words.{App, app_of, new_app, rule_of, with_rule, with_subcommand};
ghost use Rattle.cmdline.specs.Line.{asm_app, brief_rule, call_rule, chain_app, conflicts_app, counts_rule, debug_app, digest_rule, dis_app, drive_app, file_rule, frame_gas_rule, frame_limit_rule, migrate_app, more_rule, out_rule, run_app, rvstm_app, schedule_rule, seq_app, store_rule, top_app, workers_rule};

use clap::builder::ValueParser;
use clap::{Arg, ArgAction, Command, value_parser};
use std::alloc::{AllocError, Global};

/// The largest number of workers.
const WORKER_LIMIT: i64 = 32;

/// The largest number of calls in a block.
const CALL_LIMIT: i64 = 1024;

/// The largest number of a setting of `chain`.
const SETTING_LIMIT: i64 = 9_999_999_999;

/// The requests of a session, as `chain --help` prints them.
const REQUESTS: &str = "\
Requests, one a line. LENGTH bytes follow the lines of program, frame, try and begin:
  program LENGTH              Load a program file; the answer is its NAME
  forget NAME                 Free a program
  programs                    Print the names of all programs
  frame LENGTH                Run a block file, and keep what it leaves
  try LENGTH                  Run a block file, and keep nothing
  last                        Print the answer to the last frame again
  get KEY                     Print the value of a key
  list FROM COUNT             Print COUNT keys, 1 to 1024, from FROM on, with their values
  dump                        Print the storage as a block file
  begin HEIGHT DIGEST LENGTH  Begin from the storage of a block file
  state                       Print rules, height, keys, programs, settings and digest
  q                           End the session

Each answer is a line: ok LENGTH, with LENGTH bytes after it, or refused or failed with the reason. An example:
  printf 'frame 84\\nrvblock 1\\nstore %064x 2a\\nget %064x\\nq\\n' 1 1 | rvstm chain";

/// The whole command, with a subcommand for each request; refused if memory ran out.
pub(crate) fn rvstm<'a>(alloc: Global) -> Result<Command<'a>, AllocError>
    ensures { IfOk result (λ c. app_of c ≡ rvstm_app) }
{
    let command = add(runner(alloc), asm(alloc));
    let command = add(command, dis(alloc));
    let command = add(command, debug(alloc));
    let command = add(command, migrate(alloc));
    add(command, chain(alloc))
}

/// The command with the subcommands that run a block file; refused if memory ran out.
fn runner<'a>(alloc: Global) -> Result<Command<'a>, AllocError>
    ensures { IfOk result (λ c. app_of c ≡ with_subcommand (with_subcommand (with_subcommand
        (with_subcommand top_app run_app.top) seq_app.top) conflicts_app.top) drive_app.top) }
{
    let command = add(Ok(program(alloc)), run(alloc));
    let command = add(command, seq(alloc));
    let command = add(command, conflicts(alloc));
    add(command, drive(alloc))
}

/// Adds a subcommand to a command; refused if either was refused or memory ran out.
fn add<'a>(
    command: Result<Command<'a>, AllocError>,
    subcommand: Result<Command<'a>, AllocError>,
) -> Result<Command<'a>, AllocError>
    ensures { (a b : App) → IfOk command.entry (λ c. app_of c ≡ a) → IfOk subcommand.entry (λ c. app_of c ≡ b)
        → b.top.is_plain ≡ true → IfOk result (λ c. app_of c ≡ with_subcommand a b.top) }
{
    command?.subcommand(subcommand?)
}

/// The command, which requires a subcommand, before its subcommands are added.
fn program<'a>(alloc: Global) -> Command<'a>
    ensures { app_of result ≡ top_app }
{
    Command::new(alloc, "rvstm")
        .about("Executes blocks of RV32IM contract calls")
        .version("0.2.0")
        .subcommand_required(true)
}

/// `run FILE --workers N --counts`
fn run<'a>(alloc: Global) -> Result<Command<'a>, AllocError>
    ensures { IfOk result (λ c. app_of c ≡ run_app) }
{
    let about =
        "Runs the calls of a block file on several workers at the same time, and prints the result";
    option_command(
        alloc,
        "run",
        about,
        "The block file that the workers run",
        workers(alloc),
    )?
    .arg(counts(alloc))
}

/// `seq FILE`
fn seq<'a>(alloc: Global) -> Result<Command<'a>, AllocError>
    ensures { IfOk result (λ c. app_of c ≡ seq_app) }
{
    let about = "Runs the calls of a block file in order, and prints the result";
    file_command(alloc, "seq", about, "The block file")
}

/// `conflicts FILE`
fn conflicts<'a>(alloc: Global) -> Result<Command<'a>, AllocError>
    ensures { IfOk result (λ c. app_of c ≡ conflicts_app) }
{
    let about = "Prints which calls of a block file wait for which, and at which keys";
    file_command(alloc, "conflicts", about, "The block file")
}

/// `drive FILE --workers N --schedule FILE --counts`
fn drive<'a>(alloc: Global) -> Result<Command<'a>, AllocError>
    ensures { IfOk result (λ c. app_of c ≡ drive_app) }
{
    let about = "Runs the calls of a block file in the steps of a schedule, and prints the result";
    let help = "The block file that is run";
    option_command(alloc, "drive", about, help, workers(alloc))?
        .arg(schedule(alloc))?
        .arg(counts(alloc))
}

/// `asm FILE --out FILE`
fn asm<'a>(alloc: Global) -> Result<Command<'a>, AllocError>
    ensures { IfOk result (λ c. app_of c ≡ asm_app) }
{
    let about = "Assembles a source, and writes its ELF file";
    let option = out(alloc, "The ELF file that is written");
    option_command(alloc, "asm", about, "The source", option)
}

/// `dis FILE`
fn dis<'a>(alloc: Global) -> Result<Command<'a>, AllocError>
    ensures { IfOk result (λ c. app_of c ≡ dis_app) }
{
    let about = "Prints the instructions of an ELF file";
    file_command(alloc, "dis", about, "The ELF file")
}

/// `debug FILE --call N --more`
fn debug<'a>(alloc: Global) -> Result<Command<'a>, AllocError>
    ensures { IfOk result (λ c. app_of c ≡ debug_app) }
{
    let about = "Replays one call of a block file along the lines of the standard input";
    option_command(
        alloc,
        "debug",
        about,
        "The block file of the call",
        call(alloc),
    )?
    .arg(more(alloc))
}

/// `migrate FILE --out FILE`
fn migrate<'a>(alloc: Global) -> Result<Command<'a>, AllocError>
    ensures { IfOk result (λ c. app_of c ≡ migrate_app) }
{
    let about = "Rewrites a block file of format 1 as one of format 2, under the same rules";
    let option = out(alloc, "The block file that is written");
    option_command(alloc, "migrate", about, "The block file", option)
}

/// `chain --workers N --frame-limit BYTES --frame-gas N --digest --brief --store FILE`
fn chain<'a>(alloc: Global) -> Result<Command<'a>, AllocError>
    ensures { IfOk result (λ c. app_of c ≡ chain_app) }
{
    chain_of_numbers(alloc)?
        .arg(digest(alloc))?
        .arg(brief(alloc))?
        .arg(store(alloc))
}

/// `chain --workers N --frame-limit BYTES --frame-gas N`
fn chain_of_numbers<'a>(alloc: Global) -> Result<Command<'a>, AllocError>
    ensures { IfOk result (λ c. app_of c ≡ with_rule (with_rule (with_rule (new_app (codes "chain"))
        (record workers_rule { required = false })) frame_limit_rule) frame_gas_rule) }
{
    let about =
        "Answers the requests of the standard input in one session, whose frames run on one storage";
    let help =
        "Number of threads for blocks that gain by them, 1 to 32; without it, calls run in order";
    Command::new(alloc, "chain")
        .about(about)
        .after_help(REQUESTS)
        .arg(workers(alloc).help(help).required(false))?
        .arg(frame_limit(alloc))?
        .arg(frame_gas(alloc))
}

/// The subcommand `NAME FILE` with one option.
fn option_command<'a>(
    alloc: Global,
    name: &'a str,
    about: &'a str,
    help: &'a str,
    option: Arg<'a>,
) -> Result<Command<'a>, AllocError>
    requires { option.global ≡ false }
    ensures { IfOk result (λ c.
        app_of c ≡ with_rule (with_rule (new_app name.now) file_rule) (rule_of option.entry)) }
{
    file_command(alloc, name, about, help)?.arg(option)
}

/// The subcommand `NAME FILE`.
fn file_command<'a>(
    alloc: Global,
    name: &'a str,
    about: &'a str,
    help: &'a str,
) -> Result<Command<'a>, AllocError>
    ensures { IfOk result (λ c. app_of c ≡ with_rule (new_app name.now) file_rule) }
{
    Command::new(alloc, name)
        .about(about)
        .arg(value(alloc, "file", "FILE", help))
}

/// The option `--workers N`.
fn workers<'a>(alloc: Global) -> Arg<'a>
    ensures rule { rule_of result ≡ workers_rule }
    ensures local { result.global ≡ false }
{
    option(alloc, "workers", "N", "Number of threads, 1 to 32").value_parser(value_parser!(
        usize
    ).range(1..=WORKER_LIMIT))
}

/// The option `--call N`.
fn call<'a>(alloc: Global) -> Arg<'a>
    ensures rule { rule_of result ≡ call_rule }
    ensures local { result.global ≡ false }
{
    let help = "The number of the call, 0 to 1023; the first call has 0";
    option(alloc, "call", "N", help).value_parser(value_parser!(usize).range(0..=CALL_LIMIT - 1))
}

/// The option `--schedule FILE`.
fn schedule<'a>(alloc: Global) -> Arg<'a>
    ensures rule { rule_of result ≡ schedule_rule }
    ensures local { result.global ≡ false }
{
    let help = "The schedule file: the number of the worker of each step, one a line";
    option(alloc, "schedule", "FILE", help)
}

/// The option `--counts`.
fn counts<'a>(alloc: Global) -> Arg<'a>
    ensures rule { rule_of result ≡ counts_rule }
    ensures local { result.global ≡ false }
{
    flag(
        alloc,
        "counts",
        "Print on standard error what each worker did",
    )
}

/// The option `--more`.
fn more<'a>(alloc: Global) -> Arg<'a>
    ensures rule { rule_of result ≡ more_rule }
    ensures local { result.global ≡ false }
{
    flag(
        alloc,
        "more",
        "Accept more lines, which h prints, and run no call after N",
    )
}

/// The option `--frame-limit BYTES`.
fn frame_limit<'a>(alloc: Global) -> Arg<'a>
    ensures rule { rule_of result ≡ frame_limit_rule }
    ensures local { result.global ≡ false }
{
    let help = "The most bytes of a frame, 0 to 9999999999; 67108864 if not given";
    setting(alloc, "frame-limit", "BYTES", help)
}

/// The option `--frame-gas N`.
fn frame_gas<'a>(alloc: Global) -> Arg<'a>
    ensures rule { rule_of result ≡ frame_gas_rule }
    ensures local { result.global ≡ false }
{
    let help =
        "The most gas that the calls of a frame may have together, 0 to 9999999999; without a bound if not given";
    setting(alloc, "frame-gas", "N", help)
}

/// The option `--digest`.
fn digest<'a>(alloc: Global) -> Arg<'a>
    ensures rule { rule_of result ≡ digest_rule }
    ensures local { result.global ≡ false }
{
    flag(alloc, "digest", "Keep a digest of the answers")
}

/// The option `--brief`.
fn brief<'a>(alloc: Global) -> Arg<'a>
    ensures rule { rule_of result ≡ brief_rule }
    ensures local { result.global ≡ false }
{
    flag(
        alloc,
        "brief",
        "Print receipts without the lines of registers",
    )
}

/// The option `--store FILE`.
fn store<'a>(alloc: Global) -> Arg<'a>
    ensures rule { rule_of result ≡ store_rule }
    ensures local { result.global ≡ false }
{
    let help = "The file that keeps the session, an SQLite database; with it a digest is kept";
    option(alloc, "store", "FILE", help)
        .required(false)
        .value_parser(ValueParser::NonEmptyString)
}

/// The optional option `--NAME VALUE`, whose value is a number of 0 to 9,999,999,999.
fn setting<'a>(alloc: Global, name: &'a str, value_name: &'a str, help: &'a str) -> Arg<'a>
    ensures rule { rule_of result ≡ record frame_limit_rule { id = name.now; long = Some name.now } }
    ensures local { result.global ≡ false }
{
    option(alloc, name, value_name, help)
        .required(false)
        .value_parser(value_parser!(usize).range(0..=SETTING_LIMIT))
}

/// The option `--NAME`, a word that may be given or not.
fn flag<'a>(alloc: Global, name: &'a str, help: &'a str) -> Arg<'a>
    ensures rule { rule_of result ≡ record counts_rule { id = name.now; long = Some name.now } }
    ensures local { result.global ≡ false }
{
    Arg::new(alloc, name)
        .long(name)
        .help(help)
        .action(ArgAction::SetTrue)
}

/// The option `--out FILE`.
fn out<'a>(alloc: Global, help: &'a str) -> Arg<'a>
    ensures rule { rule_of result ≡ out_rule }
    ensures local { result.global ≡ false }
{
    option(alloc, "out", "FILE", help)
}

/// The option `--NAME VALUE`, which is required.
fn option<'a>(alloc: Global, name: &'a str, value_name: &'a str, help: &'a str) -> Arg<'a>
    ensures rule { rule_of result ≡ record file_rule { id = name.now; long = Some name.now } }
    ensures local { result.global ≡ false }
{
    value(alloc, name, value_name, help).long(name)
}

/// An argument with one value, which is required.
fn value<'a>(alloc: Global, name: &'a str, value_name: &'a str, help: &'a str) -> Arg<'a>
    ensures rule { rule_of result ≡ record file_rule { id = name.now } }
    ensures local { result.global ≡ false }
{
    Arg::new(alloc, name)
        .value_name(value_name)
        .help(help)
        .required(true)
        .action(ArgAction::Set)
}
