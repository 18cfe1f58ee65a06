//! The options behind the other words: names and values by turns.
ghost use Rattle.std.specs.Prelude.{◌≡◌, ◌&&◌, codes, is_some, map, not, option_map, string_bytes};
ghost use Rattle.agent_base.specs.Seconds.{last_moment};
ghost use Rattle.command_line.specs.Options as spec;
ghost use Rattle.command_line.specs.Walk as walk;

use crate::numbers::number;
use crate::paths::is_path;
use agent_base::LAST_MOMENT;

/// The fewest lines of a batch.
const FIRST_BATCH: u64 = 1;

/// The most lines of a batch.
const LAST_BATCH: u64 = 256;

/// How many lines a batch has where no option says so.
const DEFAULT_BATCH: u16 = 1;

/// The option of a checkpoint that is never made.
const NO_CHECKPOINT: u64 = 0;

/// The most durable changes between two checkpoints.
const LAST_CHECKPOINT: u64 = 1_000_000;

/// After how many durable changes a checkpoint is made where no option says so.
const DEFAULT_CHECKPOINT: u32 = 1_000;

/// The first moment at which a clock may begin: 1970-01-01 00:00:00 UTC.
const FIRST_START: u64 = 0;

/// The moment at which a clock begins where no option says so: 2026-01-01 00:00:00 UTC.
const DEFAULT_START: u64 = 1_767_225_600;

/// The options of a run that are numbers.
#[derive(Debug, Clone, Copy)]
pub struct Numbers {
    pub batch: u16,
    pub checkpoint: u32,
    pub start: u64,
}

/// Whether the words are options of a run, each at most once.
pub fn are_options(words: &[String]) -> bool
    ensures { result ≡ is_some (spec.options_of (map string_bytes words.now)) }
{
    let mut rest = words;
    'pairs: loop {
        match rest {
            [] => return true,
            [_] => return false,
            [name, value, later @ ..] => {
                if !is_new_option(name, value, later) {
                    return false;
                }
                rest = later;
            }
        }
    }
}

fn is_new_option(name: &str, value: &str, later: &[String]) -> bool
    ensures { result ≡ (spec.is_option (name.now, value.now)
        && not (is_some (walk.value_in name.now (map string_bytes later.now)))) }
{
    is_option(name, value) && value_named(later, name).is_none()
}

/// The value of the first option of a name.
pub fn value_named<'a>(words: &'a [String], name: &str) -> Option<&'a str>
    ensures { option_map (λ text. text.now) result
        ≡ walk.value_in name.now (map string_bytes words.now) }
{
    let mut rest = words;
    'pairs: loop {
        match rest {
            [] | [_] => return None,
            [other, value, later @ ..] => {
                if other.as_str() == name {
                    return Some(value);
                }
                rest = later;
            }
        }
    }
}

fn is_option(name: &str, value: &str) -> bool
    ensures { result ≡ spec.is_option (name.now, value.now) }
{
    (name == "--store" && is_path(value)) || is_number_option(name, value)
}

fn is_number_option(name: &str, value: &str) -> bool
    ensures { result ≡ spec.is_number_option (name.now, value.now) }
{
    (name == "--batch" && batch(value).is_some())
        || (name == "--checkpoint" && checkpoint(value).is_some())
        || (name == "--start" && start(value).is_some())
}

/// The numbers of the words, each the usual one where no option says it.
pub fn numbers_of(words: &[String]) -> Numbers
    ensures batch { result.batch
        ≡ spec.batch_of (walk.value_in (codes "--batch") (map string_bytes words.now)) }
    ensures checkpoint { result.checkpoint
        ≡ spec.checkpoint_of (walk.value_in (codes "--checkpoint") (map string_bytes words.now)) }
    ensures start { result.start
        ≡ spec.start_of (walk.value_in (codes "--start") (map string_bytes words.now)) }
{
    Numbers {
        batch: batch_of(value_named(words, "--batch")),
        checkpoint: checkpoint_of(value_named(words, "--checkpoint")),
        start: start_of(value_named(words, "--start")),
    }
}

/// The lines of a batch that a value says.
pub fn batch_of(value: Option<&str>) -> u16
    ensures { result ≡ spec.batch_of (option_map (λ text. text.now) value.entry) }
{
    value.and_then(batch).unwrap_or(DEFAULT_BATCH)
}

/// The durable changes between two checkpoints that a value says.
pub fn checkpoint_of(value: Option<&str>) -> u32
    ensures { result ≡ spec.checkpoint_of (option_map (λ text. text.now) value.entry) }
{
    value.and_then(checkpoint).unwrap_or(DEFAULT_CHECKPOINT)
}

/// The beginning of the clock that a value says.
pub fn start_of(value: Option<&str>) -> u64
    ensures { result ≡ spec.start_of (option_map (λ text. text.now) value.entry) }
{
    value.and_then(start).unwrap_or(DEFAULT_START)
}

fn batch(text: &str) -> Option<u16>
    ensures { result ≡ spec.number_of spec.first_batch spec.last_batch text.now }
{
    match number(text, FIRST_BATCH, LAST_BATCH) {
        Some(n) => Some(n as u16),
        None => None,
    }
}

fn checkpoint(text: &str) -> Option<u32>
    ensures { result ≡ spec.number_of spec.no_checkpoint spec.last_checkpoint text.now }
{
    match number(text, NO_CHECKPOINT, LAST_CHECKPOINT) {
        Some(n) => Some(n as u32),
        None => None,
    }
}

fn start(text: &str) -> Option<u64>
    ensures { result ≡ spec.number_of spec.first_start last_moment text.now }
{
    number(text, FIRST_START, LAST_MOMENT)
}
