//! Reading a rule from the text of a line.
ghost use Rattle.std.specs.Prelude.{◌≡◌, ◌⊎◌, ◌&&◌, ◌||◌, not, MatchResult, bytes_eq, codes, string_bytes};
ghost use Rattle.idna.specs.Uts46.{domain_to_ascii};
ghost use Rattle.suffix_list.specs.Names.{plain_rule};
ghost use Rattle.suffix_list.specs.ListText as spec;
ghost use Rattle.suffix_list.specs.ListText.{ascii_labels, rule_of, written_rule};
ghost use Rattle.suffix_list.specs.Suffix.{labels_of};

use crate::labels::{all_labels, is_label, next_label};
use crate::rules::KeptRule;
use idna::{AsciiDenyList, Errors, domain_to_ascii_cow};
use std::alloc::{AllocError, Global};

/// Why a text is no rule.
#[derive(Clone, Copy, Debug, PartialEq, Eq)]
pub(crate) enum RuleFault {
    Bad,
    NoMemory,
}

impl From<AllocError> for RuleFault {
    ghost use Rattle.std.specs.Prelude.{◌≡◌};
    ghost use Rattle.suffix_list.specs.declared.rule.RuleFault.TheVariants.{NoMemory};

    ghost from_gives = { λ _ e. e ≡ NoMemory };

    fn from(_: AllocError) -> RuleFault {
        RuleFault::NoMemory
    }
}

/// The rule that a text stands for, in ASCII.
pub(crate) fn read_rule(alloc: Global, text: &str) -> Result<KeptRule, RuleFault>
    ensures { MatchResult result (λ rule. rule_of text.now ≡ Some (plain_rule rule))
        (λ why. (why ≡ RuleFault.NoMemory) ⊎ (rule_of text.now ≡ None)) }
{
    let (is_exception, written) = split_mark(text);
    if !is_rule(is_exception, written) {
        return Err(RuleFault::Bad);
    }
    let name = ascii_name(alloc, written)?;
    if !is_rule(is_exception, name.as_str()) {
        return Err(RuleFault::Bad);
    }
    Ok(KeptRule { is_exception, name })
}

// Whether a text begins with `!`, and what follows it.
fn split_mark(text: &str) -> (bool, &str)
    ensures { written_rule text.now
        ≡ record { is_exception = result.0; labels = labels_of result.1.now } }
{
    match text.strip_prefix('!') {
        Some(name) => (true, name),
        None => (false, text),
    }
}

// Whether a rule of this name meets the conditions on rules.
fn is_rule(is_exception: bool, name: &str) -> bool
    ensures { result
        ≡ spec.is_rule (record { is_exception = is_exception; labels = labels_of name.now }) }
{
    let (label, rest) = next_label(name);
    let first = is_first(is_exception, label);
    match rest {
        Some(more) => first && all_labels(more),
        None => first && !is_exception,
    }
}

fn is_first(is_exception: bool, label: &str) -> bool
    ensures { result
        ≡ (spec.is_label label.now || (not is_exception && bytes_eq label.now (codes "*"))) }
{
    is_label(label) || (!is_exception && label == "*")
}

// The name in ASCII, where a leftmost `*` stays and what stands behind it is one name.
fn ascii_name(alloc: Global, name: &str) -> Result<String, RuleFault>
    ensures { MatchResult result
        (λ ascii. ascii_labels (labels_of name.now) ≡ Some (labels_of (string_bytes ascii)))
        (λ why. (why ≡ RuleFault.NoMemory) ⊎ (ascii_labels (labels_of name.now) ≡ None)) }
{
    let (label, rest) = next_label(name);
    if label != "*" {
        return to_ascii(alloc, name);
    }
    match rest {
        Some(parent) => {
            let ascii = to_ascii(alloc, parent)?;
            Ok(format!(in alloc; "*.{ascii}")?)
        }
        None => Ok(String::from_str(alloc, name)?),
    }
}

fn to_ascii(alloc: Global, name: &str) -> Result<String, RuleFault>
    ensures { MatchResult result
        (λ ascii. domain_to_ascii AsciiDenyList.URL name.now ≡ Some (string_bytes ascii))
        (λ why. (why ≡ RuleFault.NoMemory) ⊎ (domain_to_ascii AsciiDenyList.URL name.now ≡ None)) }
{
    match domain_to_ascii_cow(alloc, name.as_bytes(), AsciiDenyList::URL) {
        Ok(ascii) => Ok(ascii.into_owned(alloc)?),
        Err(Errors::Invalid) => Err(RuleFault::Bad),
        Err(Errors::OutOfMemory) => Err(RuleFault::NoMemory),
    }
}
