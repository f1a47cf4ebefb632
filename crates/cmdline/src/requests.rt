//! The request of a line that clap accepted, from what clap found.

ghost use Rattle.std.specs.Prelude.{◌≡◌, option_and_then, option_map, codes};
ghost use Rattle.clap.specs.Words.{Text, first_of, found_of, rows_of, subcommand_rows_of};
ghost use Rattle.cmdline.specs.Line.{AsmOf, Asked, ConflictsOf, DisOf, MigrateOf, SeqOf, asked_by_request, asked_in, chain_of, debug_of, drive_asked, flag_at, is_decimal, is_decimal_at, number_at, run_of, written_of};

use crate::Request;
use clap::ArgMatches;

/// The request of a line that clap accepted; `None` if a value that it needs is missing.
pub(crate) fn request_in<'a>(matches: &ArgMatches<'a>) -> Option<Request<'a>>
    ensures { option_map asked_by_request result
        ≡ option_and_then asked_in (subcommand_rows_of matches.now) }
{
    match matches.subcommand()? {
        ("run", found) => run_in(found),
        ("seq", found) => Some(Request::Seq {
            file: text_found(found, "file")?,
        }),
        ("conflicts", found) => Some(Request::Conflicts {
            file: text_found(found, "file")?,
        }),
        ("drive", found) => drive_in(found),
        ("asm", found) => asm_in(found),
        ("dis", found) => Some(Request::Dis {
            file: text_found(found, "file")?,
        }),
        ("debug", found) => debug_in(found),
        ("migrate", found) => migrate_in(found),
        ("chain", found) => chain_in(found),
        _ => None,
    }
}

/// The request of what clap found for `run`.
#[tactic(auto, using(crate::proofs::Lines::first_in_rows))]
fn run_in<'a>(found: &ArgMatches<'a>) -> Option<Request<'a>>
    ensures { option_map asked_by_request result ≡ run_of (rows_of (found_of found.now)) }
{
    let file = found.get_str("file")?;
    let workers = number_found(found, "workers")?;
    let counts = flag_found(found, "counts");
    Some(Request::Run {
        file,
        workers,
        counts,
    })
}

/// The request of what clap found for `drive`.
#[tactic(auto, using(crate::proofs::Lines::first_in_rows))]
fn drive_in<'a>(found: &ArgMatches<'a>) -> Option<Request<'a>>
    ensures { option_map asked_by_request result ≡ drive_asked (rows_of (found_of found.now)) }
{
    let file = found.get_str("file")?;
    let workers = number_found(found, "workers")?;
    let schedule = found.get_str("schedule")?;
    let counts = flag_found(found, "counts");
    Some(Request::Drive {
        file,
        workers,
        schedule,
        counts,
    })
}

/// The request of what clap found for `asm`.
fn asm_in<'a>(found: &ArgMatches<'a>) -> Option<Request<'a>>
    ensures { option_map asked_by_request result ≡ written_of AsmOf (rows_of (found_of found.now)) }
{
    let (file, out) = files_in(found)?;
    Some(Request::Asm { file, out })
}

/// The request of what clap found for `debug`.
#[tactic(auto, using(crate::proofs::Lines::first_in_rows))]
fn debug_in<'a>(found: &ArgMatches<'a>) -> Option<Request<'a>>
    ensures { option_map asked_by_request result ≡ debug_of (rows_of (found_of found.now)) }
{
    let file = found.get_str("file")?;
    let call = number_found(found, "call")?;
    let more = flag_found(found, "more");
    Some(Request::Debug { file, call, more })
}

/// The request of what clap found for `migrate`.
fn migrate_in<'a>(found: &ArgMatches<'a>) -> Option<Request<'a>>
    ensures { option_map asked_by_request result ≡ written_of MigrateOf (rows_of (found_of found.now)) }
{
    let (file, out) = files_in(found)?;
    Some(Request::Migrate { file, out })
}

/// The request of what clap found for `chain`; `None` if a number of a setting is no decimal.
fn chain_in<'a>(found: &ArgMatches<'a>) -> Option<Request<'a>>
    ensures { option_map asked_by_request result ≡ chain_of (rows_of (found_of found.now)) }
{
    let is_decimal = is_decimal_found(found, "frame-limit") && is_decimal_found(found, "frame-gas");
    if !is_decimal {
        return None;
    }
    let store = text_found(found, "store");
    Some(Request::Chain {
        workers: number_found(found, "workers"),
        frame_limit: number_found(found, "frame-limit"),
        frame_gas: number_found(found, "frame-gas"),
        digest: flag_found(found, "digest") || store.is_some(),
        brief: flag_found(found, "brief"),
        store,
    })
}

/// The FILE and the FILE of `--out` that clap found.
#[tactic(auto, using(crate::proofs::Lines::first_in_rows))]
fn files_in<'a>(found: &ArgMatches<'a>) -> Option<(&'a str, &'a str)>
    ensures { (ask : Text → Text → Asked)
        → option_map (λ files. ask files.0.now files.1.now) result ≡ written_of ask (rows_of (found_of found.now)) }
{
    let file = found.get_str("file")?;
    let out = found.get_str("out")?;
    Some((file, out))
}

/// The text that clap found for an option.
#[tactic(auto, using(crate::proofs::Lines::first_in_rows))]
fn text_found<'a>(found: &ArgMatches<'a>, option: &str) -> Option<&'a str>
    ensures { option_map (λ text. text.now) result ≡ first_of option.now (rows_of (found_of found.now)) }
{
    found.get_str(option)
}

/// Whether clap found a word such as `--counts`.
#[tactic(auto, using(crate::proofs::Lines::first_in_rows))]
fn flag_found(found: &ArgMatches<'_>, flag: &str) -> bool
    ensures { result ≡ flag_at flag.now (rows_of (found_of found.now)) }
{
    match found.get_str(flag) {
        Some(text) => text == "true",
        None => false,
    }
}

/// Whether the word that clap found for an option, if it found one, is a decimal.
#[tactic(auto, using(crate::proofs::Lines::first_in_rows))]
fn is_decimal_found(found: &ArgMatches<'_>, option: &str) -> bool
    ensures { result ≡ is_decimal_at option.now (rows_of (found_of found.now)) }
{
    match found.get_str(option) {
        Some(word) => is_decimal_word(word.as_bytes()),
        None => true,
    }
}

/// Whether a word that clap takes for a number has no sign, and no zero before another digit.
fn is_decimal_word(word: &[u8]) -> bool
    ensures { result ≡ is_decimal word.now }
{
    match word {
        [] => false,
        [_] => true,
        [first, ..] => *first != b'+' && *first != b'0',
    }
}

/// The number that clap found for an option.
fn number_found(found: &ArgMatches<'_>, option: &str) -> Option<usize>
    ensures { result ≡ number_at option.now (rows_of (found_of found.now)) }
{
    found.get_one::<usize>(option)
}
