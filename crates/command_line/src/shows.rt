//! Commands of the program that shows what scripts give a site.
ghost use Rattle.std.specs.Prelude.{◌≡◌, ◌∷◌, [], IfSome, map, option_map, string_bytes};
ghost use Rattle.command_line.specs.PlainShows.{plain_show};
ghost use Rattle.command_line.specs.Shows as spec;

use crate::commands::{Command, twin};

/// What is shown of a site.
#[derive(Debug, Clone, Copy, PartialEq, Eq)]
pub enum Shown {
    /// The local script that one script gives it.
    Script,
    /// Where those differ that two scripts give it.
    Difference,
}

/// What the words ask for.
#[derive(Debug, Clone, Copy, PartialEq, Eq)]
pub enum Show<'a> {
    /// The usage line.
    Help,
    /// What is shown of a site.
    Shows {
        what: Shown,
        /// The text of the site. Whether it is one is not looked at here.
        site: &'a str,
        /// The path of the suffix list.
        list: &'a str,
        /// How many lines make a batch.
        batch: u16,
        /// After how many durable changes a checkpoint is made; 0 is never.
        checkpoint: u32,
        /// Where the clock begins, in seconds since 1970.
        start: u64,
    },
}

/// The command that words are, without the program's name; and `None` where they are none. Takes no
/// memory.
pub fn read_show_words(words: &[String]) -> Option<Show<'_>>
    ensures value { option_map plain_show result ≡ spec.show_of (map string_bytes words.now) }
    ensures range { IfSome (option_map plain_show result) spec.IsShowInRange }
{
    show_in(words)
}

fn show_in(words: &[String]) -> Option<Show<'_>>
    ensures { option_map plain_show result ≡ spec.show_of (map string_bytes words.now) }
{
    match words {
        [] => None,
        [word] => help(word),
        [word, next, rest @ ..] => shows_behind(word, next, rest),
    }
}

fn help<'a>(word: &str) -> Option<Show<'a>>
    ensures { option_map plain_show result ≡ spec.show_of (word.now ∷ []) }
{
    if word == "--help" {
        Some(Show::Help)
    } else {
        None
    }
}

// The command of a word, with the words behind it.
fn shows_behind<'a>(word: &str, next: &'a str, rest: &'a [String]) -> Option<Show<'a>>
    ensures { option_map plain_show result
        ≡ spec.show_of (word.now ∷ next.now ∷ map string_bytes rest.now) }
{
    if word == "show" {
        return shown_behind(Shown::Script, next, rest);
    }
    if word == "differ" {
        return shown_behind(Shown::Difference, next, rest);
    }
    None
}

// What is shown by a site's word and the words behind it.
fn shown_behind<'a>(what: Shown, site: &'a str, rest: &'a [String]) -> Option<Show<'a>>
    ensures { option_map plain_show result
        ≡ spec.shown_of what site.now (map string_bytes rest.now) }
{
    match twin(site, rest) {
        Some(
            Command::Twin {
                site,
                list,
                batch,
                checkpoint,
                start,
            },
        ) => Some(Show::Shows {
            what,
            site,
            list,
            batch,
            checkpoint,
            start,
        }),
        _ => None,
    }
}
