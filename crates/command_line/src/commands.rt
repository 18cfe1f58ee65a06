//! Commands.
ghost use Rattle.std.specs.Prelude.{◌≡◌, ◌∷◌, [], IfOk, IfSome, IsSome, OnErr};
ghost use Rattle.std.specs.Prelude.{map, option_map, string_bytes};
ghost use Rattle.command_line.specs.Options.{storeless_of};
ghost use Rattle.command_line.specs.Plain.{plain_command};
ghost use Rattle.command_line.specs.Words as spec;

use crate::matches::confirms;
use crate::numbers::seed;
use crate::options::{Numbers, are_options, numbers_of, value_named};
use crate::paths::is_path;
use agent_base::NoMemory;
use std::alloc::Global;

/// What the words ask for.
#[derive(Debug, Clone, Copy, PartialEq, Eq)]
pub enum Command<'a> {
    /// The usage line.
    Help,
    /// A run of a script.
    Replay {
        /// The path of the suffix list.
        list: &'a str,
        /// The path of the store, where the run is not over an empty one in memory.
        store: Option<&'a str>,
        /// How many lines make a batch, whose replies wait until its changes are in the store.
        batch: u16,
        /// After how many durable changes a checkpoint is made; 0 is never.
        checkpoint: u32,
        /// Where the clock begins, in seconds since 1970.
        start: u64,
    },
    /// Whether two scripts give a site the same.
    Twin {
        /// The text of the site. Whether it is one is not looked at here.
        site: &'a str,
        /// The path of the suffix list.
        list: &'a str,
        /// How many lines make a batch.
        batch: u16,
        /// After how many durable changes a checkpoint is made; 0 is never.
        checkpoint: u32,
        /// Where the clock begins, in seconds since 1970.
        start: u64,
    },
    /// The rows of a store.
    Dump {
        /// The path of the suffix list.
        list: &'a str,
        /// The path of the store.
        store: &'a str,
    },
    /// The self-test of a seed.
    Selftest {
        seed: u32,
    },
}

/// The command that words are, without the program's name; and `None` where they are none.
///
/// Words of any other command than the usage line are taken apart by the crate `clap` besides,
/// which reads the same from them, and refuses them only for want of memory.
pub fn read_words<'a>(alloc: Global, words: &'a [String]) -> Result<Option<Command<'a>>, NoMemory>
    ensures value { IfOk result
        (λ c. option_map plain_command c ≡ spec.command_of (map string_bytes words.now)) }
    ensures range { IfOk result (λ c. IfSome (option_map plain_command c) spec.IsInRange) }
    ensures refused { OnErr result
        (IfSome (spec.command_of (map string_bytes words.now)) spec.TakesMemory) }
    ensures command { OnErr result (IsSome (spec.command_of (map string_bytes words.now))) }
{
    match command_in(words) {
        Some(command) if confirms(alloc, words, command) => Ok(Some(command)),
        Some(_) => Err(NoMemory),
        None => Ok(None),
    }
}

fn command_in(words: &[String]) -> Option<Command<'_>>
    ensures { option_map plain_command result ≡ spec.command_of (map string_bytes words.now) }
{
    match words {
        [] => None,
        [word] => help(word),
        [word, next, rest @ ..] => command_behind(word, next, rest),
    }
}

fn help<'a>(word: &str) -> Option<Command<'a>>
    ensures { option_map plain_command result ≡ spec.command_of (word.now ∷ []) }
{
    if word == "--help" {
        Some(Command::Help)
    } else {
        None
    }
}

// The command of a word, with the words behind it.
fn command_behind<'a>(word: &str, next: &'a str, rest: &'a [String]) -> Option<Command<'a>>
    ensures { option_map plain_command result
        ≡ spec.command_of (word.now ∷ next.now ∷ map string_bytes rest.now) }
{
    if word == "replay" {
        return replay(next, rest);
    }
    if word == "twin" {
        return twin(next, rest);
    }
    if word == "dump" {
        return dump(next, rest);
    }
    if word == "selftest" {
        return selftest(next, rest);
    }
    None
}

fn replay<'a>(list: &'a str, rest: &'a [String]) -> Option<Command<'a>>
    ensures { option_map plain_command result
        ≡ spec.replay_of list.now (map string_bytes rest.now) }
{
    if !is_path(list) || !are_options(rest) {
        return None;
    }
    let Numbers {
        batch,
        checkpoint,
        start,
    } = numbers_of(rest);
    Some(Command::Replay {
        list,
        store: value_named(rest, "--store"),
        batch,
        checkpoint,
        start,
    })
}

/// The comparison of a site's word and the words behind it.
pub fn twin<'a>(site: &'a str, rest: &'a [String]) -> Option<Command<'a>>
    ensures { option_map plain_command result ≡ spec.twin_of site.now (map string_bytes rest.now) }
{
    match rest {
        [list, rest @ ..] if is_path(site) && is_path(list) => comparison(site, list, rest),
        _ => None,
    }
}

fn comparison<'a>(site: &'a str, list: &'a str, rest: &'a [String]) -> Option<Command<'a>>
    ensures { option_map plain_command result ≡ option_map (spec.comparison_of site.now list.now)
        (storeless_of (map string_bytes rest.now)) }
{
    if !are_options(rest) || value_named(rest, "--store").is_some() {
        return None;
    }
    let Numbers {
        batch,
        checkpoint,
        start,
    } = numbers_of(rest);
    Some(Command::Twin {
        site,
        list,
        batch,
        checkpoint,
        start,
    })
}

fn dump<'a>(list: &'a str, rest: &'a [String]) -> Option<Command<'a>>
    ensures { option_map plain_command result ≡ spec.dump_of list.now (map string_bytes rest.now) }
{
    match rest {
        [store] if is_path(list) && is_path(store) => Some(Command::Dump { list, store }),
        _ => None,
    }
}

fn selftest<'a>(word: &'a str, rest: &'a [String]) -> Option<Command<'a>>
    ensures { option_map plain_command result
        ≡ spec.selftest_of word.now (map string_bytes rest.now) }
{
    match (seed(word), rest) {
        (Some(seed), []) => Some(Command::Selftest { seed }),
        _ => None,
    }
}
