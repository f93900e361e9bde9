//! The one simple command by which the words are read.

ghost use Rattle.std.specs.Prelude.{◌≡◌, true, false, IfOk, Err};
ghost use Rattle.clap.specs.Words.{app_of, found_of, matches_of, rows_of, rule_of, with_rule};
ghost use Rattle.hb_jobs.specs.CommandLine.{bare_app, command_rule, has_matches, hbird_app, number_rule, option_rule, trace_rule};
ghost use Rattle.hb_jobs.specs.Given.{texts};

use clap::error::ErrorKind;
use clap::{Arg, ArgAction, ArgMatches, Command};
use std::alloc::{AllocError, Global};

/// Why the words have no matches.
#[derive(Clone, Copy, Debug, PartialEq, Eq)]
pub enum WordsFail {
    /// The command's matches for the words do not exist.
    Refused,
    NoMemory,
}

// The positional that names the command.
fn command_argument<'a>(alloc: Global) -> Arg<'a>
    ensures rule { rule_of result ≡ command_rule }
    ensures local { result.global ≡ false }
{
    Arg::new(alloc, "command").required(true)
}

// The positional with a number.
fn number_argument<'a>(alloc: Global) -> Arg<'a>
    ensures rule { rule_of result ≡ number_rule }
    ensures local { result.global ≡ false }
{
    Arg::new(alloc, "n")
}

// An option with a value.
fn valued<'a>(alloc: Global, name: &'a str) -> Arg<'a>
    ensures rule { rule_of result ≡ option_rule name.entry.now }
    ensures local { result.global ≡ false }
{
    Arg::new(alloc, name).long(name)
}

// The option that asks for the trace.
fn trace_flag<'a>(alloc: Global) -> Arg<'a>
    ensures rule { rule_of result ≡ trace_rule }
    ensures local { result.global ≡ false }
{
    Arg::new(alloc, "trace")
        .long("trace")
        .action(ArgAction::SetTrue)
}

// A command without arguments, help and version.
fn bare_command<'a>(alloc: Global) -> Command<'a>
    ensures { app_of result ≡ bare_app }
{
    Command::new(alloc, "hbird")
        .no_binary_name(true)
        .disable_help_flag(true)
        .disable_version_flag(true)
}

// The command with one argument more.
fn with_argument<'a>(command: Command<'a>, argument: Arg<'a>) -> Result<Command<'a>, AllocError>
    requires { argument.global ≡ false }
    ensures { IfOk result (λ c. app_of c ≡ with_rule (app_of command.entry) (rule_of argument.entry)) }
{
    command.arg(argument)
}

// The command: its name, a number, and the options of a run.
fn command<'a>(alloc: Global) -> Result<Command<'a>, AllocError>
    ensures { IfOk result (λ c. app_of c ≡ hbird_app) }
{
    let command = with_argument(bare_command(alloc), command_argument(alloc))?;
    let command = with_argument(command, number_argument(alloc))?;
    let command = with_argument(command, valued(alloc, "steps"))?;
    let command = with_argument(command, valued(alloc, "versions"))?;
    let command = with_argument(command, valued(alloc, "order"))?;
    with_argument(command, trace_flag(alloc))
}

/// The command's matches for the words.
pub fn matches_for<'a>(alloc: Global, words: &'a [&'a str]) -> Result<ArgMatches<'a>, WordsFail>
    ensures exist { IfOk result (λ m. has_matches (texts words.entry.now) ≡ true) }
    ensures rows { IfOk result (λ m. rows_of (found_of m) ≡ matches_of hbird_app (texts words.entry.now)) }
    ensures refused { result ≡ Err WordsFail.Refused → has_matches (texts words.entry.now) ≡ false }
{
    let command = match command(alloc) {
        Ok(command) => command,
        Err(_) => return Err(WordsFail::NoMemory),
    };
    match command.try_get_matches_from(words) {
        Ok(matches) => Ok(matches),
        Err(error) if error.kind() == ErrorKind::OutOfMemory => Err(WordsFail::NoMemory),
        Err(_) => Err(WordsFail::Refused),
    }
}
