//! The readers of the rows of the table, one a row, and that of the line `disk`.
ghost use Rattle.script_lines.specs.Actions.{clear_row, click_row, close_row, cookie_row, del_row};
ghost use Rattle.script_lines.specs.Actions.{drop_row, estimate_row, events_row, evict_row};
ghost use Rattle.script_lines.specs.Actions.{fetch_row, frame_row, get_row, go_row, has_row, key_row};
ghost use Rattle.script_lines.specs.Actions.{len_row, nav_row, open_row, persist_row, persisted_row};
ghost use Rattle.script_lines.specs.Actions.{request_row, restart_row, set_row, setcookie_row, tick_row};
ghost use Rattle.script_lines.specs.Steps.{by_row, disk_row};
ghost use Rattle.script_lines.specs.JsonLine.{data_of_line};
ghost use Rattle.script_lines.specs.Plain.{Reads};
ghost use Rattle.script_actions.specs.Plain.{step_of};

use crate::ScriptFault;
use crate::cuts::cuts;
use crate::fields::{
    address, frame_number, inner_frame, optional_tab, optional_text, site, tab_number, text, truth,
    whole_number, word,
};
use crate::heads::head;
use crate::json_line::JsonLine;
use crate::members::no_others;
use crate::words::{ANSWERS, AREAS, CONSENTS, LOADERS, METHODS, NAVIGATORS};
use agent_base::Label;
use case_tables::read_fields;
use disk_model::Cut;
use script_actions::{Action, Method, Step};
use std::alloc::Global;
use storage_events::AreaKind;

// The area of a line that names none.
const DEFAULT_AREA: Option<AreaKind> = Some(AreaKind::Local);

// The method of a line that names none.
const DEFAULT_METHOD: Option<Method> = Some(Method::Get);

// Reads a document, which is the top document of its tab where no frame is named, and these fields.
macro_rules! read_document {
    ($source:tt; { $($fields:tt)* } => $action:ident { $($field:ident),* }) => {
        read_fields!($source; no_others; {
            tab: tab_number,
            frame: frame_number(0),
            $($fields)*
        } => Step::Act(Action::$action { at: Label { tab, frame }, $($field),* }))
    };
}

pub fn disk(alloc: Global, line: &JsonLine<'_>, number: u32) -> Result<Vec<Cut>, ScriptFault>
    ensures { Reads (λ v. v.items) (by_row number disk_row (data_of_line line.now)) result }
{
    let cuts = read_fields!((alloc, line, number); no_others; {
        cuts: cuts,
    } => cuts);
    Ok(cuts)
}

pub fn tick(alloc: Global, line: &JsonLine<'_>, number: u32) -> Result<Step, ScriptFault>
    ensures { Reads step_of (by_row number tick_row (data_of_line line.now)) result }
{
    let step = read_fields!((alloc, line, number); no_others; {
        s: whole_number(1_000_000_000),
    } => Step::Act(Action::Tick { s }));
    Ok(step)
}

pub fn restart(alloc: Global, line: &JsonLine<'_>, number: u32) -> Result<Step, ScriptFault>
    ensures { Reads step_of (by_row number restart_row (data_of_line line.now)) result }
{
    let step = read_fields!((alloc, line, number); no_others; {} => Step::Restart);
    Ok(step)
}

pub fn open(alloc: Global, line: &JsonLine<'_>, number: u32) -> Result<Step, ScriptFault>
    ensures { Reads step_of (by_row number open_row (data_of_line line.now)) result }
{
    let step = read_fields!((alloc, line, number); no_others; {
        tab: tab_number,
        url: address,
        opener: optional_tab,
        noopener: truth(false),
        method: word(&METHODS, DEFAULT_METHOD),
        head: head,
    } => Step::Act(Action::Open { tab, url, opener, noopener, method, head }));
    Ok(step)
}

pub fn close(alloc: Global, line: &JsonLine<'_>, number: u32) -> Result<Step, ScriptFault>
    ensures { Reads step_of (by_row number close_row (data_of_line line.now)) result }
{
    let step = read_fields!((alloc, line, number); no_others; {
        tab: tab_number,
    } => Step::Act(Action::Close { tab }));
    Ok(step)
}

pub fn go(alloc: Global, line: &JsonLine<'_>, number: u32) -> Result<Step, ScriptFault>
    ensures { Reads step_of (by_row number go_row (data_of_line line.now)) result }
{
    let step = read_fields!((alloc, line, number); no_others; {
        tab: tab_number,
        url: address,
        by: word(&LOADERS, Some(false)),
        method: word(&METHODS, DEFAULT_METHOD),
        head: head,
    } => Step::Act(Action::Go { tab, url, by_page: by, method, head }));
    Ok(step)
}

pub fn frame(alloc: Global, line: &JsonLine<'_>, number: u32) -> Result<Step, ScriptFault>
    ensures { Reads step_of (by_row number frame_row (data_of_line line.now)) result }
{
    let step = read_fields!((alloc, line, number); no_others; {
        tab: tab_number,
        frame: inner_frame,
        parent: frame_number(0),
        url: address,
        sandbox: optional_text,
        deny: truth(false),
        head: head,
    } => Step::Act(Action::Frame { at: Label { tab, frame }, parent, deny, url, sandbox, head }));
    Ok(step)
}

pub fn nav(alloc: Global, line: &JsonLine<'_>, number: u32) -> Result<Step, ScriptFault>
    ensures { Reads step_of (by_row number nav_row (data_of_line line.now)) result }
{
    let step = read_fields!((alloc, line, number); no_others; {
        tab: tab_number,
        frame: inner_frame,
        url: address,
        by: word(&NAVIGATORS, Some(false)),
        method: word(&METHODS, DEFAULT_METHOD),
        head: head,
    } => Step::Act(Action::Nav { at: Label { tab, frame }, url, by_self: by, method, head }));
    Ok(step)
}

pub fn drop(alloc: Global, line: &JsonLine<'_>, number: u32) -> Result<Step, ScriptFault>
    ensures { Reads step_of (by_row number drop_row (data_of_line line.now)) result }
{
    let step = read_fields!((alloc, line, number); no_others; {
        tab: tab_number,
        frame: inner_frame,
    } => Step::Act(Action::Drop { at: Label { tab, frame } }));
    Ok(step)
}

pub fn click(alloc: Global, line: &JsonLine<'_>, number: u32) -> Result<Step, ScriptFault>
    ensures { Reads step_of (by_row number click_row (data_of_line line.now)) result }
{
    let step = read_document!((alloc, line, number); {} => Click {});
    Ok(step)
}

pub fn fetch(alloc: Global, line: &JsonLine<'_>, number: u32) -> Result<Step, ScriptFault>
    ensures { Reads step_of (by_row number fetch_row (data_of_line line.now)) result }
{
    let step = read_document!((alloc, line, number); {
        url: address,
        method: word(&METHODS, DEFAULT_METHOD),
        head: head,
    } => Fetch { url, method, head });
    Ok(step)
}

pub fn set(alloc: Global, line: &JsonLine<'_>, number: u32) -> Result<Step, ScriptFault>
    ensures { Reads step_of (by_row number set_row (data_of_line line.now)) result }
{
    let step = read_document!((alloc, line, number); {
        area: word(&AREAS, DEFAULT_AREA),
        key: text,
        value: text,
    } => Set { area, key, value });
    Ok(step)
}

pub fn get(alloc: Global, line: &JsonLine<'_>, number: u32) -> Result<Step, ScriptFault>
    ensures { Reads step_of (by_row number get_row (data_of_line line.now)) result }
{
    let step = read_document!((alloc, line, number); {
        area: word(&AREAS, DEFAULT_AREA),
        key: text,
    } => Get { area, key });
    Ok(step)
}

pub fn del(alloc: Global, line: &JsonLine<'_>, number: u32) -> Result<Step, ScriptFault>
    ensures { Reads step_of (by_row number del_row (data_of_line line.now)) result }
{
    let step = read_document!((alloc, line, number); {
        area: word(&AREAS, DEFAULT_AREA),
        key: text,
    } => Del { area, key });
    Ok(step)
}

pub fn clear(alloc: Global, line: &JsonLine<'_>, number: u32) -> Result<Step, ScriptFault>
    ensures { Reads step_of (by_row number clear_row (data_of_line line.now)) result }
{
    let step = read_document!((alloc, line, number); {
        area: word(&AREAS, DEFAULT_AREA),
    } => Clear { area });
    Ok(step)
}

pub fn len(alloc: Global, line: &JsonLine<'_>, number: u32) -> Result<Step, ScriptFault>
    ensures { Reads step_of (by_row number len_row (data_of_line line.now)) result }
{
    let step = read_document!((alloc, line, number); {
        area: word(&AREAS, DEFAULT_AREA),
    } => Len { area });
    Ok(step)
}

pub fn key(alloc: Global, line: &JsonLine<'_>, number: u32) -> Result<Step, ScriptFault>
    ensures { Reads step_of (by_row number key_row (data_of_line line.now)) result }
{
    let step = read_document!((alloc, line, number); {
        area: word(&AREAS, DEFAULT_AREA),
        n: whole_number(4_294_967_295),
    } => Key { area, n });
    Ok(step)
}

pub fn events(alloc: Global, line: &JsonLine<'_>, number: u32) -> Result<Step, ScriptFault>
    ensures { Reads step_of (by_row number events_row (data_of_line line.now)) result }
{
    let step = read_document!((alloc, line, number); {} => Events {});
    Ok(step)
}

pub fn cookie(alloc: Global, line: &JsonLine<'_>, number: u32) -> Result<Step, ScriptFault>
    ensures { Reads step_of (by_row number cookie_row (data_of_line line.now)) result }
{
    let step = read_document!((alloc, line, number); {} => Cookie {});
    Ok(step)
}

pub fn set_cookie(alloc: Global, line: &JsonLine<'_>, number: u32) -> Result<Step, ScriptFault>
    ensures { Reads step_of (by_row number setcookie_row (data_of_line line.now)) result }
{
    let step = read_document!((alloc, line, number); {
        text: text,
    } => SetCookie { text });
    Ok(step)
}

pub fn has(alloc: Global, line: &JsonLine<'_>, number: u32) -> Result<Step, ScriptFault>
    ensures { Reads step_of (by_row number has_row (data_of_line line.now)) result }
{
    let step = read_document!((alloc, line, number); {} => Has {});
    Ok(step)
}

pub fn request(alloc: Global, line: &JsonLine<'_>, number: u32) -> Result<Step, ScriptFault>
    ensures { Reads step_of (by_row number request_row (data_of_line line.now)) result }
{
    let step = read_document!((alloc, line, number); {
        answer: word(&ANSWERS, None),
    } => Request { answer });
    Ok(step)
}

pub fn persisted(alloc: Global, line: &JsonLine<'_>, number: u32) -> Result<Step, ScriptFault>
    ensures { Reads step_of (by_row number persisted_row (data_of_line line.now)) result }
{
    let step = read_document!((alloc, line, number); {} => Persisted {});
    Ok(step)
}

pub fn estimate(alloc: Global, line: &JsonLine<'_>, number: u32) -> Result<Step, ScriptFault>
    ensures { Reads step_of (by_row number estimate_row (data_of_line line.now)) result }
{
    let step = read_document!((alloc, line, number); {} => Estimate {});
    Ok(step)
}

pub fn persist(alloc: Global, line: &JsonLine<'_>, number: u32) -> Result<Step, ScriptFault>
    ensures { Reads step_of (by_row number persist_row (data_of_line line.now)) result }
{
    let step = read_document!((alloc, line, number); {
        answer: word(&CONSENTS, None),
    } => Persist { answer });
    Ok(step)
}

pub fn evict(alloc: Global, line: &JsonLine<'_>, number: u32) -> Result<Step, ScriptFault>
    ensures { Reads step_of (by_row number evict_row (data_of_line line.now)) result }
{
    let step = read_fields!((alloc, line, number); no_others; {
        site: site,
    } => Step::Act(Action::Evict { site }));
    Ok(step)
}
