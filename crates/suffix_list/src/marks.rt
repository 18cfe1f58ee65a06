//! The names of a list's rules, and the look-up of a host's suffixes among them.
ghost use Rattle.std.specs.Prelude.{◌≡◌, ℕ, List, ◌||◌, ◌&&◌, nat_lt, bytes_eq, map, OnOk};
ghost use Rattle.std.specs.Prelude.{if◌then◌else◌};
ghost use Rattle.std.specs.Prelude.{option_copied};
ghost use Rattle.suffix_list.specs.declared.rules.KeptRule.{KeptRule};
ghost use Rattle.suffix_list.specs.Suffix.{suffix_labels};
ghost use Rattle.suffix_list.specs.Names.{Notes, TellsOf, end_marks, inner_labels, is_parent_named};
ghost use Rattle.suffix_list.specs.Names.{is_text, joined, marks_at, marks_behind, name_marks};
ghost use Rattle.suffix_list.specs.Names.{inner_marks, parent_marks, plain_rule};

use crate::labels::{label_start, last_labels, name_from, next_label};
use crate::rules::KeptRule;
use std::alloc::{AllocError, Global};
use std::collections::HashMap;

/// What a name is in a list.
#[derive(Clone, Copy, Debug)]
pub(crate) struct Marks {
    // a rule that is no exception has this name
    pub(crate) is_rule: bool,
    // a rule is `*.` and this name
    pub(crate) is_parent: bool,
    // an exception has this name
    pub(crate) is_exception: bool,
    // a rule's name has more labels, and then this name, which has `INNER_LABELS` at most
    pub(crate) is_inner: bool,
}

const NO_MARKS: Marks = Marks {
    is_rule: false,
    is_parent: false,
    is_exception: false,
    is_inner: false,
};

const PARENT: Marks = Marks {
    is_rule: false,
    is_parent: true,
    is_exception: false,
    is_inner: false,
};

const INNER: Marks = Marks {
    is_rule: false,
    is_parent: false,
    is_exception: false,
    is_inner: true,
};

// The most labels of a name that is marked as inner. So a rule marks a few names at most, and
// reading a list stays linear in its bytes.
const INNER_LABELS: usize = 8;

impl Marks {
    fn joined(self, more: Marks) -> Marks
        ensures { result ≡ joined self more }
    {
        Marks {
            is_rule: self.is_rule || more.is_rule,
            is_parent: self.is_parent || more.is_parent,
            is_exception: self.is_exception || more.is_exception,
            is_inner: self.is_inner || more.is_inner,
        }
    }
}

/// How many of a host's last labels are its public suffix. The look-up goes from the last label to
/// longer names, and ends at one that no rule has behind more labels. The map hashes with a fixed
/// seed, since a list comes from where a program trusts.
pub(crate) fn suffix_labels(names: &HashMap<String, Marks>, host: &str) -> usize
    ensures { (kept : List KeptRule) → TellsOf names.now kept
        → result ≡ suffix_labels (map plain_rule kept) host.now }
{
    let mut start = label_start(host, host.len());
    let mut here = marks_of(names, name_from(host, start));
    let mut count = 1;
    let mut longest = 1;
    let mut exception = count_if(here.is_exception, count, 0);
    'labels: while goes_on(start, here, count) {
        let behind = here;
        start = label_start(host, start - 1);
        here = marks_of(names, name_from(host, start));
        count += 1;
        longest = count_if(has_rule(here, behind), count, longest);
        exception = count_if(here.is_exception, count, exception);
    }
    if exception > 0 {
        exception - 1
    } else {
        longest
    }
}

// Whether a rule may have more labels than a name, which begins at this place of a host.
fn goes_on(start: usize, here: Marks, count: usize) -> bool
    ensures { result ≡ (nat_lt 0 start && (here.is_inner || nat_lt inner_labels count)) }
{
    start > 0 && (here.is_inner || count > INNER_LABELS)
}

// Whether a rule that is no exception stands for a name, by its marks and those of the name behind
// its first label.
fn has_rule(here: Marks, behind: Marks) -> bool
    ensures { result ≡ (here.is_rule || behind.is_parent) }
{
    here.is_rule || behind.is_parent
}

fn count_if(is_found: bool, count: usize, before: usize) -> usize
    ensures { result ≡ (if is_found then count else before) }
{
    if is_found { count } else { before }
}

fn marks_of(names: &HashMap<String, Marks>, name: &str) -> Marks
    ensures { result ≡ marks_at names.now name.now }
{
    match names.get(name) {
        Some(marks) => *marks,
        None => NO_MARKS,
    }
}

/// Marks the name of a rule.
pub(crate) fn note_name(
    names: &mut HashMap<String, Marks>,
    alloc: Global,
    rule: &KeptRule,
) -> Result<(), AllocError>
    ensures { OnOk result (Notes name_marks names.old names.new rule.now) }
{
    let more = Marks {
        is_rule: !rule.is_exception,
        is_parent: false,
        is_exception: rule.is_exception,
        is_inner: false,
    };
    mark(names, alloc, rule.name.as_str(), more)
}

/// Marks what stands behind a leftmost `*.`, if a rule has one.
pub(crate) fn note_parent(
    names: &mut HashMap<String, Marks>,
    alloc: Global,
    rule: &KeptRule,
) -> Result<(), AllocError>
    ensures { OnOk result (Notes parent_marks names.old names.new rule.now) }
{
    match parent_of(rule) {
        Some(parent) => mark(names, alloc, parent, PARENT),
        None => Ok(()),
    }
}

fn parent_of(rule: &KeptRule) -> Option<&str>
    ensures { (name : List ℕ)
        → is_parent_named name rule.now ≡ is_text (option_copied result) name }
{
    if rule.is_exception {
        return None;
    }
    match next_label(rule.name.as_str()) {
        (label, Some(parent)) => { if label == "*" { Some(parent) } else { None } }
        (_, None) => None,
    }
}

/// Marks the names that a rule's name has behind a dot.
pub(crate) fn note_ends(
    names: &mut HashMap<String, Marks>,
    alloc: Global,
    rule: &KeptRule,
) -> Result<(), AllocError>
    ensures { OnOk result (Notes end_marks names.old names.new rule.now) }
{
    mark_behind(
        names,
        alloc,
        last_labels(rule.name.as_str(), INNER_LABELS + 1),
    )
}

// Marks what stands behind each dot of a name.
fn mark_behind(
    names: &mut HashMap<String, Marks>,
    alloc: Global,
    name: &str,
) -> Result<(), AllocError>
    ensures { OnOk result ((other : List ℕ) → marks_at names.new other
        ≡ joined (marks_at names.old other) (marks_behind other name.now)) }
{
    match next_label(name) {
        (_, Some(more)) => {
            mark_inner(names, alloc, more)?;
            mark_behind(names, alloc, more)
        }
        (_, None) => Ok(()),
    }
}

fn mark_inner(
    names: &mut HashMap<String, Marks>,
    alloc: Global,
    name: &str,
) -> Result<(), AllocError>
    ensures { OnOk result ((other : List ℕ) → marks_at names.new other
        ≡ (if bytes_eq name.now other then joined (marks_at names.old other) inner_marks
        else marks_at names.old other)) }
{
    if marks_of(names, name).is_inner {
        return Ok(());
    }
    mark(names, alloc, name, INNER)
}

fn mark(
    names: &mut HashMap<String, Marks>,
    alloc: Global,
    name: &str,
    more: Marks,
) -> Result<(), AllocError>
    ensures { OnOk result ((other : List ℕ) → marks_at names.new other
        ≡ (if bytes_eq name.now other then joined (marks_at names.old other) more
        else marks_at names.old other)) }
{
    let all = marks_of(names, name).joined(more);
    names.insert(String::from_str(alloc, name)?, all)?;
    Ok(())
}
