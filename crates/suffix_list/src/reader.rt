//! Reading rules from the bytes of a list, line by line.
ghost use Rattle.std.specs.Prelude.{◌≡◌, ◌≤◌, ◌<◌, ◌∷◌, ◌⊎◌, Ok, Err, IfSome, MatchResult};
ghost use Rattle.std.specs.Prelude.{false, true, length, option_copied, option_map};
ghost use Rattle.suffix_list.specs.Names.{plain_rule};
ghost use Rattle.suffix_list.specs.ListText.{byte_limit, is_bad, lines_of, rule_in, rules_of_lines};
ghost use Rattle.std.specs.Prelude.{◌==◌, position, slice_index};
ghost use Rattle.std.specs.List.{position_or_len};
ghost use Rattle.suffix_list.specs.ListText.{is_white};
ghost use Rattle.suffix_list.specs.ListText as spec;
ghost use Rattle.suffix_list.specs.Lines.{lines_after, rules_after};

use crate::ListFault;
use crate::rule::{RuleFault, read_rule};
use crate::rules::{KeptRule, Rules};
use std::alloc::Global;

const RULE_LIMIT: usize = 32_768;

/// The rules of a list, or the fault of the first line that has one.
pub(crate) fn read_rules(alloc: Global, bytes: &[u8]) -> Result<Rules, ListFault>
    requires { length bytes.now ≤ byte_limit }
    ensures { MatchResult result (λ rules. rules_of_lines (lines_of bytes.now) ≡ Ok rules)
        (λ why. (why ≡ ListFault.NoMemory) ⊎ (rules_of_lines (lines_of bytes.now) ≡ Err why)) }
{
    let mut rules = Rules::new(alloc);
    let mut rest = bytes;
    let mut number = 1;
    'lines: loop {
        let (line, more) = next_line(rest);
        rules = add_line(rules, alloc, number, line)?;
        match more {
            Some(later) => rest = later,
            None => return Ok(rules),
        }
        number += 1;
    }
}

// The first line, and what follows its line feed.
fn next_line(bytes: &[u8]) -> (&[u8], Option<&[u8]>)
    ensures lines { lines_of bytes.now ≡ result.0.now ∷ lines_after (option_copied result.1) }
    ensures shorter { IfSome result.1 (λ rest. length rest.now < length bytes.now) }
{
    match line_end(bytes) {
        Some(at) => (&bytes[..at], Some(&bytes[at + 1..])),
        None => (bytes, None),
    }
}

fn line_end(bytes: &[u8]) -> Option<usize>
    ensures { result ≡ position (λ b. b == 10) bytes.now }
{
    bytes.iter().position(|b| *b == b'\n')
}

// The rules with that of the next line, if it has one.
fn add_line(rules: Rules, alloc: Global, number: u32, line: &[u8]) -> Result<Rules, ListFault>
    ensures { MatchResult result (λ more. rules_after number rules line.now ≡ Ok more)
        (λ why. (why ≡ ListFault.NoMemory) ⊎ (rules_after number rules line.now ≡ Err why)) }
{
    match read_line(alloc, line) {
        Ok(None) => Ok(rules),
        Ok(Some(rule)) => {
            if rules.len() >= RULE_LIMIT {
                return Err(ListFault::TooManyRules(number));
            }
            Ok(rules.add(alloc, rule)?)
        }
        Err(RuleFault::Bad) => Err(ListFault::BadRule(number)),
        Err(RuleFault::NoMemory) => Err(ListFault::NoMemory),
    }
}

// The rule of a line, if it has one.
fn read_line(alloc: Global, line: &[u8]) -> Result<Option<KeptRule>, RuleFault>
    ensures { MatchResult result
        (λ found. (is_bad line.now ≡ false) × (rule_in line.now ≡ option_map plain_rule found))
        (λ why. (why ≡ RuleFault.NoMemory) ⊎ (is_bad line.now ≡ true)) }
{
    let Ok(whole) = str::from_utf8(line) else {
        return Err(RuleFault::Bad);
    };
    let text = text_of(whole);
    if is_no_rule(text) {
        return Ok(None);
    }
    Ok(Some(read_rule(alloc, text)?))
}

fn is_no_rule(text: &str) -> bool
    ensures { result ≡ spec.is_no_rule text.now }
{
    text.is_empty() || text.starts_with("//")
}

// All before the first white space.
fn text_of(line: &str) -> &str
    ensures { result.now ≡ spec.text_of line.now }
{
    &line[..text_len(line)]
}

fn text_len(line: &str) -> usize
    ensures len { result ≡ position_or_len is_white line.now }
    ensures cut { result < length line.now → slice_index line.now result < 128 }
{
    let bytes = line.as_bytes();
    let mut at = 0;
    while at < bytes.len() && !is_white(bytes[at]) {
        at += 1;
    }
    at
}

fn is_white(b: u8) -> bool
    ensures { result ≡ spec.is_white b }
{
    matches!(b, b'\t' | 0x0B | 0x0C | b'\r' | b' ')
}
