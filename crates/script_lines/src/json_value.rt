//! The value of a member of a line, and pairs of values.
ghost use Rattle.std.specs.Prelude.{◌≡◌, option_and_then, option_copied, option_map};
ghost use Rattle.serde_json.specs.Find as find;
ghost use Rattle.serde_json.specs.View.{items_view, view};
ghost use Rattle.script_lines.specs.Flat.{data_of};
ghost use Rattle.script_lines.specs.Items as spec;

use crate::pairs::Pair;
use serde_json::Value;

/// The value of a member of a line: of a form that most fields have, or any.
#[derive(Clone, Copy)]
pub enum JsonValue<'a> {
    Text(&'a str),
    Whole(u64),
    Truth(bool),
    Pairs(&'a [Pair<'a>]),
    Any(&'a Value),
}

impl<'a> JsonValue<'a> {
    pub fn as_str(self) -> Option<&'a str>
        ensures { option_copied result ≡ find.as_str (data_of self.entry) }
    {
        match self {
            JsonValue::Text(text) => Some(text),
            JsonValue::Any(value) => value.as_str(),
            JsonValue::Whole(_) | JsonValue::Truth(_) | JsonValue::Pairs(_) => None,
        }
    }

    pub fn as_u64(self) -> Option<u64>
        ensures { result ≡ option_and_then find.as_u64 (find.as_number (data_of self.entry)) }
    {
        match self {
            JsonValue::Whole(number) => Some(number),
            JsonValue::Any(value) => value.as_u64(),
            JsonValue::Text(_) | JsonValue::Truth(_) | JsonValue::Pairs(_) => None,
        }
    }

    pub fn as_bool(self) -> Option<bool>
        ensures { result ≡ find.as_bool (data_of self.entry) }
    {
        match self {
            JsonValue::Truth(truth) => Some(truth),
            JsonValue::Any(value) => value.as_bool(),
            JsonValue::Text(_) | JsonValue::Whole(_) | JsonValue::Pairs(_) => None,
        }
    }
}

/// The two values of a pair.
pub fn two_of(pair: &Value) -> Option<(&Value, &Value)>
    ensures { option_map (λ pair. (view pair.0.now, view pair.1.now)) result
        ≡ spec.two_of (view pair.now) }
{
    match pair.as_array() {
        Some(items) => two_in(items),
        None => None,
    }
}

#[tactic(auto, using(crate::proofs::ItemLemmas::two_of_few, crate::proofs::ItemLemmas::two_of_many))]
fn two_in(items: &[Value]) -> Option<(&Value, &Value)>
    ensures { option_map (λ pair. (view pair.0.now, view pair.1.now)) result
        ≡ spec.two_in (items_view items.now) }
{
    match items {
        [first, second] => Some((first, second)),
        [] => None,
        [_] => None,
        [_, _, _, ..] => None,
    }
}
