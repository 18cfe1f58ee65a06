//! A line as JSON.
ghost use Rattle.std.specs.Prelude.{◌≡◌, ◌⊎◌, Some, option_map};
ghost use Rattle.serde_json.specs.Find as find;
ghost use Rattle.serde_json.specs.Read.{read};
ghost use Rattle.serde_json.specs.View.{view};
ghost use Rattle.script_lines.specs.Flat.{data_of};
ghost use Rattle.script_lines.specs.Grammar.{json_of};
ghost use Rattle.script_lines.specs.JsonLine.{data_of_line};
ghost use Rattle.script_lines.specs.Plain.{Reads};

use crate::ScriptFault;
use crate::flat_object::{Member, last_named, read_object};
use crate::json_value::JsonValue;
use json::Scratch;
use serde_json::Value;
use std::alloc::Global;

/// A line that is JSON, as the crate `serde_json` reads it.
#[derive(Drop)]
pub enum JsonLine<'a> {
    Flat(Vec<Member<'a>>),
    Tree(Value),
}

impl<'a> JsonLine<'a> {
    /// The value of a text, or that it is no JSON. The scratch is kept from text to text.
    pub fn read(
        alloc: Global,
        text: &'a str,
        number: u32,
        scratch: &'a mut Scratch,
    ) -> Result<JsonLine<'a>, ScriptFault>
        ensures { Reads data_of_line (json_of number (read text.now)) result }
    {
        match read_object(alloc, text, scratch) {
            Some(members) => Ok(JsonLine::Flat(members)),
            None => Ok(JsonLine::Tree(read_tree(alloc, text, number)?)),
        }
    }

    /// The value of the member of this name.
    pub fn get(&self, name: &str) -> Option<JsonValue<'_>>
        ensures { option_map data_of result ≡ find.get name.now (data_of_line self.now) }
    {
        match self {
            JsonLine::Flat(members) => last_named(members, name),
            JsonLine::Tree(value) => member_of_tree(value, name),
        }
    }
}

/// The value of a text as a tree.
pub fn read_tree(alloc: Global, text: &str, number: u32) -> Result<Value, ScriptFault>
    ensures { Reads view (json_of number (read text.now)) result }
{
    match Value::from_str(alloc, text) {
        Ok(value) => Ok(value),
        Err(e) if e.is_memory() => Err(ScriptFault::NoMemory),
        Err(_) => Err(ScriptFault::NotJson(number)),
    }
}

fn member_of_tree<'a>(value: &'a Value, name: &str) -> Option<JsonValue<'a>>
    ensures { option_map data_of result ≡ find.get name.now (view value.now) }
{
    match value.get(name) {
        Some(value) => Some(JsonValue::Any(value)),
        None => None,
    }
}
