//! What a document does, as a line of a script has it.
ghost use Rattle.std.specs.Prelude.{◌≡◌, None, Some, codes, map, option_map, string_bytes, true};
ghost use Rattle.serde_json.specs.Data.{object};
ghost use Rattle.origin_site.specs.Plain.{plain_address};
ghost use Rattle.script_actions.specs.Action as action;
ghost use Rattle.script_actions.specs.Plain.{action_of, head_field_of};
ghost use Rattle.local_scripts.specs.Lines.{is_of_document};
ghost use Rattle.item_lines.specs.Line as spec;
ghost use Rattle.item_lines.specs.Members.{PutsLast, PutsMember, PutsValue, framed, line_in};

use crate::heads::put_head;
use crate::numbers::put_number;
use crate::words::{area_text, method_text, navigator_text, prompt_text};
use agent_base::{Label, NoMemory};
use json::Writer;
use origin_site::Address;
use row_lines::members::{begin, end, put_text, put_truth};
use script_actions::{Action, HeadField, Method, Prompt};
use storage_events::AreaKind;

pub fn put_line(writer: &mut Writer, action: &Action) -> Result<(), NoMemory>
    requires document { is_of_document (action_of action.now) ≡ true }
    ensures { PutsMember result writer.old writer.new
        (codes "line") (line_in (action_of action.now)) }
{
    writer.key("line")?;
    put_action(writer, action)
}

fn put_action(writer: &mut Writer, action: &Action) -> Result<(), NoMemory>
    requires document { is_of_document (action_of action.now) ≡ true }
    ensures { PutsValue result writer.old writer.new (line_in (action_of action.now)) }
{
    match action {
        Action::Frame {
            at,
            parent,
            deny,
            url,
            sandbox,
            head,
        } => put_frame(writer, *at, *parent, *deny, url, sandbox, head),
        Action::Nav {
            at,
            url,
            by_self,
            method,
            head,
        } => put_nav(writer, *at, url, *by_self, *method, head),
        Action::Drop { at } => put_bare(writer, "drop", *at),
        Action::Click { at } => put_bare(writer, "click", *at),
        Action::Fetch {
            at,
            url,
            method,
            head,
        } => put_fetch(writer, *at, url, *method, head),
        Action::Set {
            at,
            area,
            key,
            value,
        } => put_set(writer, *at, *area, key.as_str(), value.as_str()),
        Action::Get { at, area, key } => put_name(writer, "get", *at, *area, key.as_str()),
        Action::Del { at, area, key } => put_name(writer, "del", *at, *area, key.as_str()),
        Action::Clear { at, area } => put_area(writer, "clear", *at, *area),
        Action::Len { at, area } => put_area(writer, "len", *at, *area),
        Action::Key { at, area, n } => put_key(writer, *at, *area, *n),
        Action::Events { at } => put_bare(writer, "events", *at),
        Action::Cookie { at } => put_bare(writer, "cookie", *at),
        Action::SetCookie { at, text } => put_cookie_text(writer, *at, text.as_str()),
        Action::Has { at } => put_bare(writer, "has", *at),
        Action::Request { at, answer } => put_answer(writer, "request", *at, *answer),
        Action::Persisted { at } => put_bare(writer, "persisted", *at),
        Action::Estimate { at } => put_bare(writer, "estimate", *at),
        Action::Persist { at, answer } => put_answer(writer, "persist", *at, *answer),
        Action::Tick { .. }
        | Action::Open { .. }
        | Action::Close { .. }
        | Action::Go { .. }
        | Action::Evict { .. } => unreachable!(),
    }
}

fn put_bare(writer: &mut Writer, name: &str, at: Label) -> Result<(), NoMemory>
    ensures { PutsValue result writer.old writer.new (object (spec.bare_members name.now at)) }
{
    begin(writer)?;
    put_document(writer, name, at)
}

// The name of an action and its document, and the end of the object.
fn put_document(writer: &mut Writer, name: &str, at: Label) -> Result<(), NoMemory>
    ensures { PutsLast result writer.old writer.new (spec.bare_members name.now at) }
{
    put_text(writer, "do", name)?;
    put_number(writer, "frame", at.frame as u64)?;
    put_number(writer, "tab", at.tab as u64)?;
    end(writer)
}

fn put_area(writer: &mut Writer, name: &str, at: Label, area: AreaKind) -> Result<(), NoMemory>
    ensures { PutsValue result writer.old writer.new
        (object (spec.area_members name.now at area)) }
{
    begin(writer)?;
    put_text(writer, "area", area_text(area))?;
    put_document(writer, name, at)
}

fn put_answer(writer: &mut Writer, name: &str, at: Label, answer: Prompt) -> Result<(), NoMemory>
    ensures { PutsValue result writer.old writer.new
        (object (spec.answer_members name.now at answer)) }
{
    begin(writer)?;
    put_text(writer, "answer", prompt_text(answer))?;
    put_document(writer, name, at)
}

fn put_name(
    writer: &mut Writer,
    name: &str,
    at: Label,
    area: AreaKind,
    key: &str,
) -> Result<(), NoMemory>
    ensures { PutsValue result writer.old writer.new
        (object (spec.name_members name.now at area key.now)) }
{
    begin(writer)?;
    put_text(writer, "area", area_text(area))?;
    put_text(writer, "do", name)?;
    put_number(writer, "frame", at.frame as u64)?;
    put_text(writer, "key", key)?;
    put_number(writer, "tab", at.tab as u64)?;
    end(writer)
}

fn put_set(
    writer: &mut Writer,
    at: Label,
    area: AreaKind,
    key: &str,
    value: &str,
) -> Result<(), NoMemory>
    ensures { PutsValue result writer.old writer.new
        (spec.line_data at (action.Set area key.now value.now)) }
{
    begin(writer)?;
    put_text(writer, "area", area_text(area))?;
    put_text(writer, "do", "set")?;
    put_number(writer, "frame", at.frame as u64)?;
    put_text(writer, "key", key)?;
    put_number(writer, "tab", at.tab as u64)?;
    put_text(writer, "value", value)?;
    end(writer)
}

fn put_key(writer: &mut Writer, at: Label, area: AreaKind, n: u32) -> Result<(), NoMemory>
    ensures { PutsValue result writer.old writer.new (spec.line_data at (action.Key area n)) }
{
    begin(writer)?;
    put_text(writer, "area", area_text(area))?;
    put_text(writer, "do", "key")?;
    put_number(writer, "frame", at.frame as u64)?;
    put_number(writer, "n", n as u64)?;
    put_number(writer, "tab", at.tab as u64)?;
    end(writer)
}

fn put_cookie_text(writer: &mut Writer, at: Label, text: &str) -> Result<(), NoMemory>
    ensures { PutsValue result writer.old writer.new
        (spec.line_data at (action.SetCookie text.now)) }
{
    begin(writer)?;
    put_text(writer, "do", "setcookie")?;
    put_number(writer, "frame", at.frame as u64)?;
    put_number(writer, "tab", at.tab as u64)?;
    put_text(writer, "text", text)?;
    end(writer)
}

fn put_fetch(
    writer: &mut Writer,
    at: Label,
    url: &Address,
    method: Method,
    head: &[HeadField],
) -> Result<(), NoMemory>
    ensures { let head = map head_field_of head.now in
        PutsValue result writer.old writer.new
        (spec.line_data at (action.Fetch (plain_address url.now) method head)) }
{
    begin(writer)?;
    put_text(writer, "do", "fetch")?;
    put_number(writer, "frame", at.frame as u64)?;
    put_head(writer, head)?;
    put_text(writer, "method", method_text(method))?;
    put_number(writer, "tab", at.tab as u64)?;
    put_text(writer, "url", url.text.as_str())?;
    end(writer)
}

fn put_nav(
    writer: &mut Writer,
    at: Label,
    url: &Address,
    by_self: bool,
    method: Method,
    head: &[HeadField],
) -> Result<(), NoMemory>
    ensures { let head = map head_field_of head.now in
        PutsValue result writer.old writer.new
        (spec.line_data at (action.Nav (plain_address url.now) by_self method head)) }
{
    begin(writer)?;
    put_text(writer, "by", navigator_text(by_self))?;
    put_text(writer, "do", "nav")?;
    put_number(writer, "frame", at.frame as u64)?;
    put_head(writer, head)?;
    put_text(writer, "method", method_text(method))?;
    put_number(writer, "tab", at.tab as u64)?;
    put_text(writer, "url", url.text.as_str())?;
    end(writer)
}

fn put_frame(
    writer: &mut Writer,
    at: Label,
    parent: u8,
    deny: bool,
    url: &Address,
    sandbox: &Option<Box<String>>,
    head: &[HeadField],
) -> Result<(), NoMemory>
    ensures { let head = map head_field_of head.now in
        let sandbox = option_map (λ text. string_bytes text.value) sandbox.now in
        PutsValue result writer.old writer.new
        (spec.line_data at (action.Frame parent (plain_address url.now) sandbox deny head)) }
{
    begin(writer)?;
    put_truth(writer, "deny", deny)?;
    put_text(writer, "do", "frame")?;
    put_number(writer, "frame", at.frame as u64)?;
    put_head(writer, head)?;
    put_number(writer, "parent", parent as u64)?;
    match sandbox {
        Some(text) => put_sandboxed(writer, at, url, text.as_str()),
        None => put_place(writer, at, url),
    }
}

// The `sandbox` attribute of a frame, its tab and its address, and the end of the object.
fn put_sandboxed(
    writer: &mut Writer,
    at: Label,
    url: &Address,
    sandbox: &str,
) -> Result<(), NoMemory>
    ensures { PutsLast result writer.old writer.new
        (framed at (plain_address url.now) (Some sandbox.now)) }
{
    put_text(writer, "sandbox", sandbox)?;
    put_place(writer, at, url)
}

// The tab of a frame and its address, and the end of the object.
fn put_place(writer: &mut Writer, at: Label, url: &Address) -> Result<(), NoMemory>
    ensures { PutsLast result writer.old writer.new (framed at (plain_address url.now) None) }
{
    put_number(writer, "tab", at.tab as u64)?;
    put_text(writer, "url", url.text.as_str())?;
    end(writer)
}
