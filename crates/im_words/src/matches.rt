//! What the matches of a command line ask for.
ghost use Rattle.std.specs.Prelude.{◌≡◌, IsSome, Some};
ghost use Rattle.clap.specs.Words.{found_of, rows_of, subcommand_rows_of};
ghost use Rattle.im_words.specs.Meaning.{asked_of, gen_of, link_of, link_of_text, logs_of, run_of};

use crate::{Link, Request};
use clap::ArgMatches;

// The number of logs of a run.
fn logs(run: &ArgMatches) -> u8
    requires { IsSome (logs_of (rows_of (found_of run.now))) }
    ensures { logs_of (rows_of (found_of run.now)) ≡ Some result }
{
    run.get_one::<u8>("logs").unwrap_or(1)
}

// The link that a text names.
fn named(text: &str) -> Link
    requires { IsSome (link_of_text text.now) }
    ensures { link_of_text text.now ≡ Some result }
{
    if text == "auto" {
        Link::Auto
    } else {
        Link::Manual
    }
}

// The link of a run.
fn link(run: &ArgMatches) -> Link
    requires { IsSome (link_of (rows_of (found_of run.now))) }
    ensures { link_of (rows_of (found_of run.now)) ≡ Some result }
{
    match run.get_str("link") {
        Some(text) => named(text),
        None => Link::Auto,
    }
}

// The run that the matches of `run` ask for.
fn run(matches: &ArgMatches) -> Request
    requires { IsSome (run_of (rows_of (found_of matches.now))) }
    ensures { run_of (rows_of (found_of matches.now)) ≡ Some result }
{
    Request::Run {
        logs: logs(matches),
        link: link(matches),
    }
}

// The script that the matches of `gen` ask for.
fn generate(matches: &ArgMatches) -> Request
    requires { IsSome (gen_of (rows_of (found_of matches.now))) }
    ensures { gen_of (rows_of (found_of matches.now)) ≡ Some result }
{
    Request::Gen {
        lines: matches.get_one::<u32>("lines").unwrap_or(0),
    }
}

// What the matches ask for.
pub(crate) fn asked(matches: &ArgMatches) -> Request
    requires { IsSome (asked_of (subcommand_rows_of matches.now)) }
    ensures { asked_of (subcommand_rows_of matches.now) ≡ Some result }
{
    match matches.subcommand() {
        Some(("run", matches)) => run(matches),
        Some(("verify", _)) => Request::Verify,
        Some(("show", _)) => Request::Show,
        Some(("gen", matches)) => generate(matches),
        _ => unreachable!(),
    }
}
