//! What lines ask for, each read by its row of the table.
ghost use Rattle.std.specs.Prelude.{◌≡◌, option_map};
ghost use Rattle.script_lines.specs.Steps as spec;
ghost use Rattle.script_lines.specs.Steps.{by_row, step_by, step_of_data};
ghost use Rattle.script_lines.specs.Names.{row_of};
ghost use Rattle.script_lines.specs.JsonLine.{data_of_line};
ghost use Rattle.script_lines.specs.Plain.{Reads};
ghost use Rattle.script_actions.specs.Plain.{step_of};

use crate::fields::bad_field;
use crate::json_line::JsonLine;
use crate::json_value::JsonValue;
use crate::{ScriptFault, rows};
use case_tables::Cases;
use script_actions::Step;
use std::alloc::Global;

/// The rows of the table by their names.
#[derive(Clone, Copy)]
pub enum ActionName {
    Tick,
    Restart,
    Open,
    Close,
    Go,
    Frame,
    Nav,
    Drop,
    Click,
    Fetch,
    Set,
    Get,
    Del,
    Clear,
    Len,
    Key,
    Events,
    Cookie,
    SetCookie,
    Has,
    Request,
    Persisted,
    Estimate,
    Persist,
    Evict,
}

const ACTIONS: [(&str, ActionName); 25] = [
    ("tick", ActionName::Tick),
    ("restart", ActionName::Restart),
    ("open", ActionName::Open),
    ("close", ActionName::Close),
    ("go", ActionName::Go),
    ("frame", ActionName::Frame),
    ("nav", ActionName::Nav),
    ("drop", ActionName::Drop),
    ("click", ActionName::Click),
    ("fetch", ActionName::Fetch),
    ("set", ActionName::Set),
    ("get", ActionName::Get),
    ("del", ActionName::Del),
    ("clear", ActionName::Clear),
    ("len", ActionName::Len),
    ("key", ActionName::Key),
    ("events", ActionName::Events),
    ("cookie", ActionName::Cookie),
    ("setcookie", ActionName::SetCookie),
    ("has", ActionName::Has),
    ("request", ActionName::Request),
    ("persisted", ActionName::Persisted),
    ("estimate", ActionName::Estimate),
    ("persist", ActionName::Persist),
    ("evict", ActionName::Evict),
];

/// What a line that is JSON asks for.
pub fn read_step(alloc: Global, line: &JsonLine<'_>, number: u32) -> Result<Step, ScriptFault>
    ensures { Reads step_of (step_of_data number (data_of_line line.now)) result }
{
    match line.get("do").and_then(JsonValue::as_str) {
        Some(name) => read_named(alloc, line, number, name),
        None => Err(bad_field(alloc, number, "do")),
    }
}

fn read_named(
    alloc: Global,
    line: &JsonLine<'_>,
    number: u32,
    name: &str,
) -> Result<Step, ScriptFault>
    ensures { Reads step_of
        (step_by number (spec.row_named name.now) (data_of_line line.now)) result }
{
    match action_named(name) {
        Some(action) => read_row(alloc, line, number, action),
        None => Err(ScriptFault::UnknownAction(number)),
    }
}

fn action_named(name: &str) -> Option<ActionName>
    ensures { option_map row_of result ≡ spec.row_named name.now }
{
    Cases { rows: &ACTIONS }.find(name)
}

fn read_row(
    alloc: Global,
    line: &JsonLine<'_>,
    number: u32,
    action: ActionName,
) -> Result<Step, ScriptFault>
    ensures { Reads step_of
        (by_row number (row_of action) (data_of_line line.now)) result }
{
    match action {
        ActionName::Tick => rows::tick(alloc, line, number),
        ActionName::Restart => rows::restart(alloc, line, number),
        ActionName::Open => rows::open(alloc, line, number),
        ActionName::Close => rows::close(alloc, line, number),
        ActionName::Go => rows::go(alloc, line, number),
        ActionName::Frame => rows::frame(alloc, line, number),
        ActionName::Nav => rows::nav(alloc, line, number),
        ActionName::Drop => rows::drop(alloc, line, number),
        ActionName::Click => rows::click(alloc, line, number),
        ActionName::Fetch => rows::fetch(alloc, line, number),
        ActionName::Set => rows::set(alloc, line, number),
        ActionName::Get => rows::get(alloc, line, number),
        ActionName::Del => rows::del(alloc, line, number),
        ActionName::Clear => rows::clear(alloc, line, number),
        ActionName::Len => rows::len(alloc, line, number),
        ActionName::Key => rows::key(alloc, line, number),
        ActionName::Events => rows::events(alloc, line, number),
        ActionName::Cookie => rows::cookie(alloc, line, number),
        ActionName::SetCookie => rows::set_cookie(alloc, line, number),
        ActionName::Has => rows::has(alloc, line, number),
        ActionName::Request => rows::request(alloc, line, number),
        ActionName::Persisted => rows::persisted(alloc, line, number),
        ActionName::Estimate => rows::estimate(alloc, line, number),
        ActionName::Persist => rows::persist(alloc, line, number),
        ActionName::Evict => rows::evict(alloc, line, number),
    }
}
