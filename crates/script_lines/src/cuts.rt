//! The cuts of the power that the line `disk` asks for.
ghost use Rattle.std.specs.Prelude.{◌≡◌, IfOk, option_and_then, option_map};
ghost use Rattle.serde_json.specs.Find.{as_array};
ghost use Rattle.serde_json.specs.View.{items_view, view};
ghost use Rattle.script_lines.specs.Cuts as spec;
ghost use Rattle.script_lines.specs.Fields.{cut_list, field_of, required};
ghost use Rattle.script_lines.specs.Flat.{data_of, pairs_data};
ghost use Rattle.script_lines.specs.Items.{each_of};
ghost use Rattle.script_lines.specs.JsonLine.{data_of_line};
ghost use Rattle.script_lines.specs.Plain.{Reads};

use crate::ScriptFault;
use crate::fields::{bad_field, formed};
use crate::json_line::JsonLine;
use crate::json_value::{JsonValue, two_of};
use crate::pairs::Pair;
use agent_base::NoMemory;
use disk_model::Cut;
use serde_json::Value;
use std::alloc::Global;

// The most cuts of a script.
const MOST_CUTS: usize = 64;

// The last of the picks, which begin at 0.
const LAST_PICK: u64 = 3;

/// The cuts of a script.
pub fn cuts(
    alloc: Global,
    line: &JsonLine<'_>,
    number: u32,
    name: &str,
) -> Result<Vec<Cut>, ScriptFault>
    ensures { let field = required name.now cut_list in
        Reads (λ v. v.items) (field_of number field (data_of_line line.now)) result }
{
    match line.get(name) {
        Some(value) => formed(alloc, number, name, cuts_in(alloc, value)?),
        None => Err(bad_field(alloc, number, name)),
    }
}

// The cuts that a value is.
fn cuts_in(alloc: Global, value: JsonValue<'_>) -> Result<Option<Vec<Cut>>, NoMemory>
    ensures { IfOk result (λ cuts. option_map (λ v. v.items) cuts
        ≡ spec.cuts_of_value (data_of value.entry)) }
{
    match value {
        JsonValue::Any(value) => Ok(in_order(cuts_of_tree(alloc, value)?)),
        JsonValue::Pairs(pairs) => Ok(cuts_of_texts(alloc, pairs)),
        JsonValue::Text(_) | JsonValue::Whole(_) | JsonValue::Truth(_) => Ok(None),
    }
}

// A list of pairs of texts is one of cuts only where it is empty.
#[tactic(auto, using(crate::proofs::CutLemmas::cuts_of_no_texts, crate::proofs::CutLemmas::texts_are_no_cuts))]
fn cuts_of_texts(alloc: Global, pairs: &[Pair<'_>]) -> Option<Vec<Cut>>
    ensures { option_map (λ v. v.items) result ≡ spec.cuts_of_value (pairs_data pairs.now) }
{
    if pairs.is_empty() {
        Some(Vec::new(alloc))
    } else {
        None
    }
}

// No more cuts than a script may have, in calls that rise from 1 on.
fn in_order(cuts: Option<Vec<Cut>>) -> Option<Vec<Cut>>
    ensures { option_map (λ v. v.items) result
        ≡ option_and_then spec.in_order (option_map (λ v. v.items) cuts) }
{
    match cuts {
        Some(cuts) if cuts.len() <= MOST_CUTS && rise(&cuts) => Some(cuts),
        _ => None,
    }
}

fn rise(cuts: &[Cut]) -> bool
    ensures { result ≡ spec.rise 0 cuts.now }
{
    let mut last = 0;
    for cut in cuts {
        if cut.call <= last {
            return false;
        }
        last = cut.call;
    }
    true
}

fn cuts_of_tree(alloc: Global, value: &Value) -> Result<Option<Vec<Cut>>, NoMemory>
    ensures { IfOk result (λ cuts. option_map (λ v. v.items) cuts
        ≡ option_and_then (each_of spec.cut_of_pair) (as_array (view value.now))) }
{
    match value.as_array() {
        Some(items) => each_cut(alloc, items),
        None => Ok(None),
    }
}

fn each_cut(alloc: Global, items: &[Value]) -> Result<Option<Vec<Cut>>, NoMemory>
    ensures { IfOk result (λ cuts. option_map (λ v. v.items) cuts
        ≡ each_of spec.cut_of_pair (items_view items.now)) }
{
    let mut cuts = Vec::new(alloc);
    for item in items {
        match cut_in(item) {
            Some(cut) => {
                if cuts.push(cut).is_err() {
                    return Err(NoMemory);
                }
            }
            None => return Ok(None),
        }
    }
    Ok(Some(cuts))
}

// The cut that a pair of numbers is.
fn cut_in(pair: &Value) -> Option<Cut>
    ensures { result ≡ spec.cut_of_pair (view pair.now) }
{
    let (call, pick) = two_of(pair)?;
    match (call.as_u64(), pick.as_u64()) {
        (Some(call), Some(pick)) if pick <= LAST_PICK => Some(Cut {
            call,
            pick: pick as u8,
        }),
        _ => None,
    }
}
