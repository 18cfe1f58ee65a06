//! The heads of responses that lines have, as lists of pairs of texts.
ghost use Rattle.std.specs.Prelude.{◌≡◌, [], IfOk, map, option_and_then, option_map};
ghost use Rattle.std.specs.List.{list_all, list_any};
ghost use Rattle.http_header.specs.FieldName.{is_field_name};
ghost use Rattle.http_header.specs.Token.{is_token_byte};
ghost use Rattle.serde_json.specs.Find.{as_array};
ghost use Rattle.serde_json.specs.View.{items_view, view};
ghost use Rattle.script_lines.specs.Flat.{field_of_texts};
ghost use Rattle.script_lines.specs.Items.{each_of};
ghost use Rattle.script_lines.specs.JsonLine.{data_of_line};
ghost use Rattle.script_lines.specs.Fields.{checked, defaulted, field_of, formed, head_list};
ghost use Rattle.script_lines.specs.Heads as spec;
ghost use Rattle.script_lines.specs.Plain.{Reads};
ghost use Rattle.script_actions.specs.Plain.{head_field_of};

use crate::ScriptFault;
use crate::fields::bad_field;
use crate::json_line::JsonLine;
use crate::json_value::{JsonValue, two_of};
use crate::pairs::Pair;
use agent_base::NoMemory;
use http_header::{MAX_HEADER_NAME_LEN, is_token_char};
use memchr::memchr3;
use script_actions::HeadField;
use serde_json::Value;
use std::alloc::Global;

// The most fields of a head.
const MOST_FIELDS: usize = 64;

/// A head, which is empty where it is absent.
pub fn head(
    alloc: Global,
    line: &JsonLine<'_>,
    number: u32,
    name: &str,
) -> Result<Vec<HeadField>, ScriptFault>
    ensures { let field = defaulted name.now head_list [] in
        Reads (λ v. map head_field_of v.items)
        (field_of number field (data_of_line line.now)) result }
{
    match line.get(name) {
        Some(JsonValue::Pairs(pairs)) => head_of(alloc, pairs, number, name),
        Some(JsonValue::Any(value)) => match pairs_in(alloc, value)? {
            Some(pairs) => head_of(alloc, &pairs, number, name),
            None => Err(bad_field(alloc, number, name)),
        },
        Some(JsonValue::Text(_) | JsonValue::Whole(_) | JsonValue::Truth(_)) => {
            Err(bad_field(alloc, number, name))
        }
        None => Ok(Vec::new(alloc)),
    }
}

// The head that pairs are, or its fault.
fn head_of(
    alloc: Global,
    pairs: &[Pair<'_>],
    number: u32,
    name: &str,
) -> Result<Vec<HeadField>, ScriptFault>
    ensures { Reads (λ v. map head_field_of v.items) (checked head_list number
        (formed number name.now (spec.few (map field_of_texts pairs.now)))) result }
{
    if pairs.len() > MOST_FIELDS {
        return Err(bad_field(alloc, number, name));
    }
    if are_headers(pairs) {
        Ok(copied(alloc, pairs)?)
    } else {
        Err(ScriptFault::BadHeader(number))
    }
}

fn copied(alloc: Global, pairs: &[Pair<'_>]) -> Result<Vec<HeadField>, NoMemory>
    ensures { IfOk result (λ v. map head_field_of v.items ≡ map field_of_texts pairs.now) }
{
    let mut fields = Vec::with_capacity(alloc, pairs.len())?;
    for pair in pairs {
        let field = HeadField {
            name: String::from_str(alloc, pair.name)?,
            value: String::from_str(alloc, pair.value)?,
        };
        if fields.push(field).is_err() {
            return Err(NoMemory);
        }
    }
    Ok(fields)
}

// The pairs of texts that a value is a list of.
fn pairs_in(alloc: Global, value: &Value) -> Result<Option<Vec<Pair<'_>>>, NoMemory>
    ensures { IfOk result (λ pairs. option_map (λ v. map field_of_texts v.items) pairs
        ≡ option_and_then (each_of spec.field_of_pair) (as_array (view value.now))) }
{
    match value.as_array() {
        Some(items) => each_pair(alloc, items),
        None => Ok(None),
    }
}

fn each_pair(alloc: Global, items: &[Value]) -> Result<Option<Vec<Pair<'_>>>, NoMemory>
    ensures { IfOk result (λ pairs. option_map (λ v. map field_of_texts v.items) pairs
        ≡ each_of spec.field_of_pair (items_view items.now)) }
{
    let mut pairs = Vec::new(alloc);
    for item in items {
        match pair_in(item) {
            Some(pair) => {
                if pairs.push(pair).is_err() {
                    return Err(NoMemory);
                }
            }
            None => return Ok(None),
        }
    }
    Ok(Some(pairs))
}

fn pair_in(pair: &Value) -> Option<Pair<'_>>
    ensures { option_map field_of_texts result ≡ spec.field_of_pair (view pair.now) }
{
    let (name, value) = two_of(pair)?;
    match (name.as_str(), value.as_str()) {
        (Some(name), Some(value)) => Some(Pair { name, value }),
        _ => None,
    }
}

fn are_headers(pairs: &[Pair<'_>]) -> bool
    ensures { result ≡ list_all spec.is_header (map field_of_texts pairs.now) }
{
    all_headers(pairs)
}

fn all_headers(pairs: &[Pair<'_>]) -> bool
    ensures { result ≡ list_all (λ pair. spec.is_header (field_of_texts pair)) pairs.now }
{
    pairs.iter().all(|pair| is_header(pair))
}

fn is_header(pair: &Pair<'_>) -> bool
    ensures { result ≡ spec.is_header (field_of_texts pair.now) }
{
    is_header_name(pair.name.as_bytes()) && !ends(pair.value.as_bytes())
}

#[tactic(auto, unfolding(http_header::specs::Token::is_token_byte))]
fn is_header_name(name: &[u8]) -> bool
    ensures { result ≡ is_field_name name.now }
{
    !name.is_empty() && are_token_chars(name) && name.len() <= MAX_HEADER_NAME_LEN
}

fn are_token_chars(name: &[u8]) -> bool
    ensures { result ≡ list_all is_token_byte name.now }
{
    name.iter().all(|b| is_token_char(*b))
}

fn ends(value: &[u8]) -> bool
    ensures { result ≡ list_any spec.ends_a_value value.now }
{
    memchr3(0, b'\n', b'\r', value).is_some()
}
