//! The words of a command, taken apart by `clap`.
ghost use Rattle.std.specs.Prelude.{◌≡◌, Some, IfErr, IfOk, bytes_eq, false};
ghost use Rattle.std.specs.Prelude.{map, nat_eq, option_and_then, option_map, string_bytes, true};
ghost use Rattle.std.specs.Option.{option_eq};
ghost use Rattle.clap.specs.Words.{app_of, kind_of, rule_of, subcommand_of, subcommand_rows_of};
ghost use Rattle.clap.specs.Words.{takes};
ghost use Rattle.command_line.specs.Program.{bare_app, dump_app, found_in, has_globals};
ghost use Rattle.command_line.specs.Program.{option_rule, place_rule, program_app, replay_app};
ghost use Rattle.command_line.specs.Program.{selftest_app, twin_app, with_numbers};
ghost use Rattle.command_line.specs.Program as spec;
ghost use Rattle.command_line.specs.Plain.{plain_command};
ghost use Rattle.command_line.specs.Words.{TakesMemory, command_of};

use crate::commands::Command;
use crate::numbers::seed as seed_of;
use crate::options::{batch_of, checkpoint_of, start_of};
use clap::error::ErrorKind;
use clap::{Arg, ArgAction, ArgMatches, Error};
use std::alloc::{AllocError, Global};

/// Whether `clap` reads the same from the words. Want of memory alone stands against it, and not
/// at the usage line, which is asked for without `clap`.
pub fn confirms(alloc: Global, words: &[String], command: Command<'_>) -> bool
    requires { command_of (map string_bytes words.now) ≡ Some (plain_command command) }
    ensures { result ≡ false → TakesMemory (plain_command command.entry) }
{
    match command {
        Command::Help => true,
        Command::Replay { .. }
        | Command::Twin { .. }
        | Command::Dump { .. }
        | Command::Selftest { .. } => reads(alloc, words, command).unwrap_or(false),
    }
}

// Whether `clap` reads this command from the words: it does, or refuses them for want of memory.
fn reads(alloc: Global, words: &[String], command: Command<'_>) -> Result<bool, Error>
    requires value { command_of (map string_bytes words.now) ≡ Some (plain_command command) }
    requires memory { TakesMemory (plain_command command) }
    ensures finds { spec.is_found (plain_command command.entry)
        (subcommand_of program_app (map string_bytes words.now)) ≡ true }
    ensures same { IfOk result (λ same. same ≡ true) }
    ensures refused { IfErr result (λ why. kind_of why ≡ ErrorKind.OutOfMemory) }
{
    match matches_of(alloc, words) {
        Ok(matches) => Ok(is_found(&matches, command)),
        Err(why) => Err(why),
    }
}

fn is_found(matches: &ArgMatches<'_>, command: Command<'_>) -> bool
    ensures { result
        ≡ spec.is_found (plain_command command.entry) (subcommand_rows_of matches.now) }
{
    match command {
        Command::Help => false,
        Command::Replay {
            list,
            store,
            batch,
            checkpoint,
            start,
        } => {
            is_same(value_of(matches, "replay", "list"), Some(list))
                && is_same(value_of(matches, "replay", "store"), store)
                && has_numbers(matches, "replay", batch, checkpoint, start)
        }
        Command::Twin {
            site,
            list,
            batch,
            checkpoint,
            start,
        } => {
            is_same(value_of(matches, "twin", "site"), Some(site))
                && is_same(value_of(matches, "twin", "list"), Some(list))
                && has_numbers(matches, "twin", batch, checkpoint, start)
        }
        Command::Dump { list, store } => {
            is_same(value_of(matches, "dump", "list"), Some(list))
                && is_same(value_of(matches, "dump", "store"), Some(store))
        }
        Command::Selftest { seed } => {
            value_of(matches, "selftest", "seed").and_then(seed_of) == Some(seed)
        }
    }
}

fn has_numbers(
    matches: &ArgMatches<'_>,
    command: &str,
    batch: u16,
    checkpoint: u32,
    start: u64,
) -> bool
    ensures { result ≡ spec.has_numbers command.now batch checkpoint start
        (subcommand_rows_of matches.now) }
{
    batch_of(value_of(matches, command, "batch")) == batch
        && checkpoint_of(value_of(matches, command, "checkpoint")) == checkpoint
        && start_of(value_of(matches, command, "start")) == start
}

fn is_same(found: Option<&str>, text: Option<&str>) -> bool
    ensures { result ≡ option_eq bytes_eq (option_map (λ t. t.now) found.entry)
        (option_map (λ t. t.now) text.entry) }
{
    match (found, text) {
        (Some(found), Some(text)) => found == text,
        (None, None) => true,
        _ => false,
    }
}

fn value_of<'a>(matches: &ArgMatches<'a>, command: &str, name: &str) -> Option<&'a str>
    ensures { option_map (λ text. text.now) result
        ≡ found_in command.now name.now (subcommand_rows_of matches.now) }
{
    match matches.subcommand() {
        Some((met, inner)) if met == command => inner.get_str(name),
        _ => None,
    }
}

fn matches_of<'a>(alloc: Global, words: &'a [String]) -> Result<ArgMatches<'a>, Error>
    ensures found { IfOk result
        (λ m. subcommand_rows_of m ≡ subcommand_of program_app (map string_bytes words.now)) }
    ensures refused { IfErr result (λ why. takes program_app (map string_bytes words.now) ≡ true
        → kind_of why ≡ ErrorKind.OutOfMemory) }
{
    program(alloc)?.try_get_matches_from(words)
}

fn program<'a>(alloc: Global) -> Result<clap::Command<'a>, AllocError>
    ensures { IfOk result (λ program. app_of program ≡ program_app) }
{
    let replay = replay(alloc)?;
    let twin = twin(alloc)?;
    let dump = dump(alloc)?;
    let selftest = selftest(alloc)?;
    bare(alloc)
        .subcommand(replay)?
        .subcommand(twin)?
        .subcommand(dump)?
        .subcommand(selftest)
}

// The program before its commands.
fn bare<'a>(alloc: Global) -> clap::Command<'a>
    ensures { app_of result ≡ bare_app }
{
    clap::Command::new(alloc, "cuvandil")
        .no_binary_name(true)
        .disable_help_flag(true)
        .disable_help_subcommand(true)
}

fn replay<'a>(alloc: Global) -> Result<clap::Command<'a>, AllocError>
    ensures shape { IfOk result (λ command. app_of command ≡ replay_app) }
    ensures own { IfOk result (λ command. has_globals command ≡ false) }
{
    let command = clap::Command::new(alloc, "replay")
        .arg(place(alloc, "list"))?
        .arg(option(alloc, "store"))?;
    with_numbers(alloc, command)
}

// The command with the options of a run that are numbers.
fn with_numbers<'a>(
    alloc: Global,
    command: clap::Command<'a>,
) -> Result<clap::Command<'a>, AllocError>
    ensures shape { IfOk result (λ more. app_of more ≡ with_numbers (app_of command.entry)) }
    ensures own { IfOk result (λ more. has_globals more ≡ has_globals command.entry) }
{
    command
        .arg(option(alloc, "batch"))?
        .arg(option(alloc, "checkpoint"))?
        .arg(option(alloc, "start"))
}

fn twin<'a>(alloc: Global) -> Result<clap::Command<'a>, AllocError>
    ensures shape { IfOk result (λ command. app_of command ≡ twin_app) }
    ensures own { IfOk result (λ command. has_globals command ≡ false) }
{
    let command = clap::Command::new(alloc, "twin")
        .arg(place(alloc, "site"))?
        .arg(place(alloc, "list"))?;
    with_numbers(alloc, command)
}

fn dump<'a>(alloc: Global) -> Result<clap::Command<'a>, AllocError>
    ensures shape { IfOk result (λ command. app_of command ≡ dump_app) }
    ensures own { IfOk result (λ command. has_globals command ≡ false) }
{
    clap::Command::new(alloc, "dump")
        .arg(place(alloc, "list"))?
        .arg(place(alloc, "store"))
}

fn selftest<'a>(alloc: Global) -> Result<clap::Command<'a>, AllocError>
    ensures shape { IfOk result (λ command. app_of command ≡ selftest_app) }
    ensures own { IfOk result (λ command. has_globals command ≡ false) }
{
    clap::Command::new(alloc, "selftest").arg(place(alloc, "seed"))
}

fn place<'a>(alloc: Global, name: &'a str) -> Arg<'a>
    ensures rule { rule_of result ≡ place_rule name.entry.now }
    ensures own { result.global ≡ false }
{
    Arg::new(alloc, name).required(true).action(ArgAction::Set)
}

fn option<'a>(alloc: Global, name: &'a str) -> Arg<'a>
    ensures rule { rule_of result ≡ option_rule name.entry.now }
    ensures own { result.global ≡ false }
{
    Arg::new(alloc, name).long(name).action(ArgAction::Set)
}
