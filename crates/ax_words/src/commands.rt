//! The commands as `clap` knows them, and the texts that they read.
ghost use Rattle.std.specs.Prelude.{◌≡◌, ◌≢◌, ◌⊎◌, [], IfOk, IfErr, map, string_bytes, codes, option_map, true};
ghost use Rattle.clap.specs.Words.{app_of, fault_of, first_of, found_of, is_simple, is_simple_and_free, rows_of, matches_of, new_app, with_rule};
ghost use Rattle.ax_words.specs.Commands.{place, option, repair_app, check_app, run_app, rank_app, gen_app, prove_app, IsSimpleApp, Reads};
ghost use Rattle.ax_words.specs.declared.order.WordFault.TheVariants.{Memory, Refused};

use crate::WordFault;
use clap::error::ErrorKind;
use clap::{Arg, ArgAction, ArgMatches, Command};
use std::alloc::{AllocError, Global};

// Adds a required text that is told by its place.
fn with_place<'a>(
    alloc: Global,
    command: Command<'a>,
    name: &'a str,
) -> Result<Command<'a>, AllocError>
    ensures { IfOk result (λ c. app_of c ≡ with_rule (app_of command.entry) (place name.entry.now)) }
{
    let text = Arg::new(alloc, name).required(true).action(ArgAction::Set);
    let more = command.arg(text)?;
    Ok(more)
}

// Adds a text that is told by its name, after two dashes.
fn with_option<'a>(
    alloc: Global,
    command: Command<'a>,
    name: &'a str,
) -> Result<Command<'a>, AllocError>
    ensures { IfOk result (λ c. app_of c ≡ with_rule (app_of command.entry) (option name.entry.now)) }
{
    let text = Arg::new(alloc, name).long(name).action(ArgAction::Set);
    let more = command.arg(text)?;
    Ok(more)
}

/// What a simple command reads of the words.
pub fn matched<'a>(command: Command<'a>, words: &'a [String]) -> Result<ArgMatches<'a>, WordFault>
    requires { IsSimpleApp (app_of command) }
    ensures { Reads (app_of command.entry) (map string_bytes words.entry.now) result }
{
    match command.try_get_matches_from(words) {
        Ok(matches) => Ok(matches),
        Err(error) => if matches!(error.kind(), ErrorKind::OutOfMemory) {
            Err(WordFault::Memory)
        } else {
            Err(WordFault::Refused)
        },
    }
}

/// The text that was read under a name.
pub fn text_of<'a>(matches: &ArgMatches<'a>, id: &str) -> Option<&'a str>
    ensures { option_map (λ s. s.now) result ≡ first_of id.now (rows_of (found_of matches.now)) }
{
    matches.get_str(id)
}

/// The command `repair`.
pub fn repair_command<'a>(alloc: Global) -> Result<Command<'a>, AllocError>
    ensures { IfOk result (λ c. app_of c ≡ repair_app) }
{
    let command = Command::new(alloc, "repair");
    let command = with_place(alloc, command, "SOURCE")?;
    let command = with_place(alloc, command, "TESTS")?;
    let command = with_place(alloc, command, "OUT")?;
    let command = with_place(alloc, command, "CERT")?;
    let command = with_option(alloc, command, "top")?;
    let command = with_option(alloc, command, "pick")?;
    let command = with_option(alloc, command, "formula")?;
    let command = with_option(alloc, command, "with")?;
    let command = with_option(alloc, command, "grow")?;
    let command = with_option(alloc, command, "steps")?;
    let command = with_option(alloc, command, "evals")?;
    let command = with_option(alloc, command, "paths")?;
    let command = with_option(alloc, command, "budget")?;
    Ok(command)
}

/// The command `check`.
pub fn check_command<'a>(alloc: Global) -> Result<Command<'a>, AllocError>
    ensures { IfOk result (λ c. app_of c ≡ check_app) }
{
    let command = Command::new(alloc, "check");
    let command = with_place(alloc, command, "SOURCE")?;
    let command = with_place(alloc, command, "TESTS")?;
    let command = with_place(alloc, command, "PATCHED")?;
    let command = with_place(alloc, command, "CERT")?;
    Ok(command)
}

/// The command `run`.
pub fn run_command<'a>(alloc: Global) -> Result<Command<'a>, AllocError>
    ensures { IfOk result (λ c. app_of c ≡ run_app) }
{
    let command = Command::new(alloc, "run");
    let command = with_place(alloc, command, "SOURCE")?;
    let command = with_place(alloc, command, "TESTS")?;
    let command = with_option(alloc, command, "steps")?;
    Ok(command)
}

/// The command `rank`.
pub fn rank_command<'a>(alloc: Global) -> Result<Command<'a>, AllocError>
    ensures { IfOk result (λ c. app_of c ≡ rank_app) }
{
    let command = Command::new(alloc, "rank");
    let command = with_place(alloc, command, "SOURCE")?;
    let command = with_place(alloc, command, "TESTS")?;
    let command = with_option(alloc, command, "formula")?;
    let command = with_option(alloc, command, "steps")?;
    Ok(command)
}

/// The command `gen`.
pub fn gen_command<'a>(alloc: Global) -> Result<Command<'a>, AllocError>
    ensures { IfOk result (λ c. app_of c ≡ gen_app) }
{
    let command = Command::new(alloc, "gen");
    let command = with_place(alloc, command, "N")?;
    Ok(command)
}

/// The command `prove`.
pub fn prove_command<'a>(alloc: Global) -> Result<Command<'a>, AllocError>
    ensures { IfOk result (λ c. app_of c ≡ prove_app) }
{
    let command = Command::new(alloc, "prove");
    let command = with_place(alloc, command, "CNF")?;
    let command = with_place(alloc, command, "PROOF")?;
    let command = with_option(alloc, command, "budget")?;
    Ok(command)
}
