//! The members of a line that no field has.
ghost use Rattle.std.specs.Prelude.{◌≡◌, bytes_eq, find, map, not, option_copied, option_map};
ghost use Rattle.std.specs.Prelude.{string_bytes};
ghost use Rattle.std.specs.BTreeMap.{keys};
ghost use Rattle.std.specs.List.{list_all, list_any};
ghost use Rattle.serde_json.specs.Data.{object};
ghost use Rattle.serde_json.specs.View.{view};
ghost use Rattle.script_lines.specs.Flat.{members_of};
ghost use Rattle.script_lines.specs.Steps as spec;
ghost use Rattle.script_lines.specs.Steps.{refused};
ghost use Rattle.script_lines.specs.JsonLine.{data_of_line};
ghost use Rattle.script_lines.specs.Plain.{Reads};

use crate::ScriptFault;
use crate::fields::bad_field;
use crate::flat_object::{Member, tree_of};
use crate::json_line::JsonLine;
use serde_json::{Map, Value};
use std::alloc::Global;

/// Refuses the first member in byte order that is neither `do` nor one of these.
pub fn no_others(
    alloc: Global,
    line: &JsonLine<'_>,
    number: u32,
    known: &[&str],
) -> Result<(), ScriptFault>
    ensures { let names = map (λ k. k.now) known.now in
        let unknown = spec.first_unknown names (data_of_line line.now) in
        Reads (λ _. tt) (refused number unknown) result }
{
    match line {
        JsonLine::Flat(members) => none_in_list(alloc, members, number, known),
        JsonLine::Tree(tree) => none_in_tree(alloc, tree, number, known),
    }
}

// The names of a list stand in the order of the line, and those of a tree in byte order. So a tree
// is made where one is unknown.
fn none_in_list(
    alloc: Global,
    members: &[Member<'_>],
    number: u32,
    known: &[&str],
) -> Result<(), ScriptFault>
    ensures { let line = object (members_of members.now) in
        let unknown = spec.first_unknown (map (λ k. k.now) known.now) line in
        Reads (λ _. tt) (refused number unknown) result }
{
    if are_known(members, known) {
        return Ok(());
    }
    let tree = tree_of(alloc, members)?;
    none_in_tree(alloc, &tree, number, known)
}

fn are_known(members: &[Member<'_>], known: &[&str]) -> bool
    ensures { result ≡ list_all
        (λ m. spec.is_known (map (λ k. k.now) known.now) m.name.now) members.now }
{
    members.iter().all(|member| is_known(known, member.name))
}

fn none_in_tree(alloc: Global, tree: &Value, number: u32, known: &[&str]) -> Result<(), ScriptFault>
    ensures { let unknown = spec.first_unknown (map (λ k. k.now) known.now) (view tree.now) in
        Reads (λ _. tt) (refused number unknown) result }
{
    match first_unknown(tree, known) {
        Some(name) => Err(bad_field(alloc, number, name.as_str())),
        None => Ok(()),
    }
}

fn first_unknown<'a>(line: &'a Value, known: &[&str]) -> Option<&'a String>
    ensures { option_map string_bytes (option_copied result)
        ≡ spec.first_unknown (map (λ k. k.now) known.now) (view line.now) }
{
    match line.as_object() {
        Some(members) => unknown_member(members, known),
        None => None,
    }
}

fn unknown_member<'a>(members: &'a Map<String, Value>, known: &[&str]) -> Option<&'a String>
    ensures { option_copied result
        ≡ find (λ s. not (spec.is_known (map (λ k. k.now) known.now) (string_bytes s)))
        (keys members.now) }
{
    members.keys().find(|name| !is_known(known, name.as_str()))
}

fn is_known(known: &[&str], name: &str) -> bool
    ensures { result ≡ spec.is_known (map (λ k. k.now) known.now) name.now }
{
    name == "do" || is_among(known, name)
}

fn is_among(known: &[&str], name: &str) -> bool
    ensures { result ≡ list_any (λ k. bytes_eq k.now name.now) known.now }
{
    known.iter().any(|k| *k == name)
}
