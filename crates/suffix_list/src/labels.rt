//! The labels of a name, which stand between its dots.
ghost use Rattle.std.specs.Prelude.{◌≡◌, ◌==◌, ◌∷◌, ◌<◌, ◌≤◌, [], drop, take, length, IfSome, option_copied};
ghost use Rattle.std.specs.Prelude.{option_map};
ghost use Rattle.std.specs.List.{join_with_byte, list_all, list_any};
ghost use Rattle.std.specs.Str.{byte};
ghost use Rattle.suffix_list.specs.ListText as text;
ghost use Rattle.suffix_list.specs.Suffix.{labels_of, last_of};
ghost use Rattle.suffix_list.specs.Suffix as suffix;
ghost use Rattle.suffix_list.specs.Names.{BeginsLabel, labels_after};
ghost use Rattle.suffix_list.specs.Names as spec;

use memchr::{memchr, memrchr};

/// The first label, and what follows its dot.
pub(crate) fn next_label(name: &str) -> (&str, Option<&str>)
    ensures labels { labels_of name.now ≡ result.0.now ∷ labels_after (option_copied result.1) }
    ensures shorter { IfSome result.1 (λ rest. length rest.now < length name.now) }
{
    match memchr(b'.', name.as_bytes()) {
        Some(dot) => (&name[..dot], Some(&name[dot + 1..])),
        None => (name, None),
    }
}

/// Where the label begins that ends at a place of a name.
pub(crate) fn label_start(name: &str, end: usize) -> usize
    requires { end ≤ length name.now }
    ensures begins { BeginsLabel name.now result }
    ensures within { result ≤ end }
    ensures label { let label = drop result (take end name.now) in labels_of label ≡ label ∷ [] }
{
    match memrchr(b'.', &name.as_bytes()[..end]) {
        Some(dot) => dot + 1,
        None => 0,
    }
}

/// A name from the beginning of a label on.
pub(crate) fn name_from(name: &str, start: usize) -> &str
    requires { BeginsLabel name.now start }
    ensures { result.now ≡ drop start name.now }
{
    &name[start..]
}

pub(crate) fn count_labels(name: &str) -> usize
    ensures { result ≡ length (labels_of name.now) }
{
    name.as_bytes().iter().filter(|b| **b == b'.').count() + 1
}

/// The last labels of a name, or all where it has no more.
pub(crate) fn last_labels(name: &str, count: usize) -> &str
    ensures value { result.now ≡ suffix.last_labels count name.now }
    ensures labels { 0 < count → labels_of result.now ≡ last_of count (labels_of name.now) }
{
    labels_from(name, count_labels(name).saturating_sub(count))
}

/// The last labels of a name and one more, or none where the last labels are the name.
pub(crate) fn one_label_more(name: &str, count: usize) -> Option<&str>
    ensures { option_map (λ text. text.now) result ≡ spec.one_label_more count name.now }
{
    let labels = count_labels(name);
    if name.is_empty() {
        return None;
    }
    if labels <= count {
        return None;
    }
    Some(labels_from(name, labels - count - 1))
}

// The labels of a name from a place on.
fn labels_from(name: &str, place: usize) -> &str
    requires { place ≤ length (labels_of name.now) }
    ensures value { let labels = drop place (labels_of name.now) in
        result.now ≡ join_with_byte (byte ".") labels }
    ensures labels { place < length (labels_of name.now)
        → labels_of result.now ≡ drop place (labels_of name.now) }
{
    let mut rest = name;
    'labels: for _ in 0..place {
        match next_label(rest) {
            (_, Some(more)) => rest = more,
            (_, None) => return "",
        }
    }
    rest
}

/// Whether each label of a name stands for itself in a rule.
pub(crate) fn all_labels(name: &str) -> bool
    ensures { result ≡ list_all text.is_label (labels_of name.now) }
{
    name.split('.').all(is_label)
}

pub(crate) fn is_label(label: &str) -> bool
    ensures { result ≡ text.is_label label.now }
{
    !label.is_empty() && !has_star(label)
}

fn has_star(label: &str) -> bool
    ensures { result ≡ list_any (λ b. b == byte "*") label.now }
{
    label.bytes().any(|b| b == b'*')
}
