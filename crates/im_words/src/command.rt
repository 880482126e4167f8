//! The command line as `clap` reads it.
ghost use Rattle.std.specs.Prelude.{◌≡◌, IfOk, false};
ghost use Rattle.clap.specs.Words.{app_of, rule_of, shape_of};
ghost use Rattle.clap.specs.declared.builder.command.Command.TheViews.{out-Command};
ghost use Rattle.im_words.specs.Command.{IsMadeOfNames, gen_shape, im_at, im_before, lines_rule, link_rule, logs_rule, run_shape, show_shape, verify_shape};

use clap::{Arg, Command, value_parser};
use std::alloc::{AllocError, Global};

// The names of `--link`.
const LINKS: [&str; 2] = ["auto", "manual"];

// The option `--logs`.
fn logs<'a>(alloc: Global) -> Arg<'a>
    ensures rule { rule_of result ≡ logs_rule }
    ensures local { result.global ≡ false }
{
    Arg::new(alloc, "logs")
        .long("logs")
        .value_parser(value_parser!(u8).range(1..=4))
}

// The option `--link`.
fn link<'a>(alloc: Global) -> Arg<'a>
    ensures rule { IsMadeOfNames link_rule (rule_of result) }
    ensures local { result.global ≡ false }
{
    Arg::new(alloc, "link")
        .long("link")
        .value_parser(LINKS.as_slice())
}

// The subcommand `run`.
fn run<'a>(alloc: Global) -> Result<Command<'a>, AllocError>
    ensures shape { IfOk result (λ c. IsMadeOfNames run_shape (shape_of c)) }
    ensures local { IfOk result (λ c. (out-Command c).has_globals ≡ false) }
{
    Command::new(alloc, "run")
        .arg(logs(alloc))?
        .arg(link(alloc))
}

// The subcommand `verify`.
fn verify<'a>(alloc: Global) -> Command<'a>
    ensures shape { shape_of result ≡ verify_shape }
    ensures local { (out-Command result).has_globals ≡ false }
{
    Command::new(alloc, "verify")
}

// The subcommand `show`.
fn show<'a>(alloc: Global) -> Command<'a>
    ensures shape { shape_of result ≡ show_shape }
    ensures local { (out-Command result).has_globals ≡ false }
{
    Command::new(alloc, "show")
}

// The number of lines of `gen`.
fn lines<'a>(alloc: Global) -> Arg<'a>
    ensures rule { rule_of result ≡ lines_rule }
    ensures local { result.global ≡ false }
{
    Arg::new(alloc, "lines")
        .required(true)
        .value_parser(value_parser!(u32).range(0..=100_000))
}

// The subcommand `gen`.
fn generate<'a>(alloc: Global) -> Result<Command<'a>, AllocError>
    ensures shape { IfOk result (λ c. shape_of c ≡ gen_shape) }
    ensures local { IfOk result (λ c. (out-Command c).has_globals ≡ false) }
{
    Command::new(alloc, "gen").arg(lines(alloc))
}

// The command line without `gen`: a subcommand is required, and there is no help and no version.
fn without_gen<'a>(alloc: Global) -> Result<Command<'a>, AllocError>
    ensures { IfOk result (λ c. IsMadeOfNames im_before (app_of c)) }
{
    let run = run(alloc)?;
    Command::new(alloc, "im")
        .disable_help_flag(true)
        .disable_help_subcommand(true)
        .subcommand_required(true)
        .subcommand(run)?
        .subcommand(verify(alloc))?
        .subcommand(show(alloc))
}

// The whole command line.
pub(crate) fn im_command<'a>(alloc: Global) -> Result<Command<'a>, AllocError>
    ensures { IfOk result (λ c. IsMadeOfNames im_at (app_of c)) }
{
    let command = without_gen(alloc)?;
    command.subcommand(generate(alloc)?)
}
