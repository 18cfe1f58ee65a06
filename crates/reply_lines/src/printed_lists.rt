//! The lists of a reply: answers to Set-Cookie texts, and storage events.
ghost use Rattle.std.specs.Prelude.{◌≡◌, ◌++◌, OnOk, map, option_copied};
ghost use Rattle.serde_json.specs.Written.{comma_if, compact_text};
ghost use Rattle.storage_events.specs.Event.{plain_event};
ghost use Rattle.reply_lines.specs.Pieces.{event_parts};
ghost use Rattle.reply_lines.specs.Reply as spec;

use crate::json_text::{put, put_quoted, put_string, put_string_or_null};
use agent_base::NoMemory;
use storage_events::{AreaKind, Event};

pub fn put_texts(line: &mut Vec<u8>, texts: &[&str]) -> Result<(), NoMemory>
    ensures { OnOk result (line.new.items
        ≡ line.old.items ++ compact_text (spec.texts_data (map (λ t. t.now) texts.now))) }
{
    put(line, "[")?;
    let mut later = false;
    for text in texts {
        put_comma(line, later)?;
        put_quoted(line, text)?;
        later = true;
    }
    put(line, "]")
}

pub fn put_events(line: &mut Vec<u8>, events: &[Event]) -> Result<(), NoMemory>
    ensures { OnOk result (line.new.items
        ≡ line.old.items ++ compact_text (spec.events_data (map plain_event events.now))) }
{
    put(line, "[")?;
    let mut later = false;
    for event in events {
        put_comma(line, later)?;
        put_event(line, event)?;
        later = true;
    }
    put(line, "]")
}

// A comma, where something stands before.
fn put_comma(line: &mut Vec<u8>, later: bool) -> Result<(), NoMemory>
    ensures { OnOk result (line.new.items ≡ line.old.items ++ comma_if later) }
{
    if later { put(line, ",") } else { Ok(()) }
}

fn put_event(line: &mut Vec<u8>, event: &Event) -> Result<(), NoMemory>
    ensures { OnOk result (line.new.items
        ≡ line.old.items ++ compact_text (spec.event_data (plain_event event.now))) }
{
    let area = area_text(event.area());
    put_parts(
        line,
        area,
        event.key(),
        event.after(),
        event.before(),
        event.url(),
    )
}

#[tactic(auto, unfolding(serde_json::proofs::OnLiterals::serde_json_on_literals))]
fn put_parts(
    line: &mut Vec<u8>,
    area: &str,
    key: Option<&str>,
    after: Option<&str>,
    before: Option<&str>,
    url: &str,
) -> Result<(), NoMemory>
    ensures { OnOk result (line.new.items ≡ line.old.items
        ++ compact_text (event_parts area.now (option_copied key.entry)
        (option_copied after.entry) (option_copied before.entry) url.now)) }
{
    put_string(line, "{\"area\":", area)?;
    put_string_or_null(line, ",\"key\":", key)?;
    put_string_or_null(line, ",\"new\":", after)?;
    put_string_or_null(line, ",\"old\":", before)?;
    put_string(line, ",\"url\":", url)?;
    put(line, "}")
}

fn area_text(area: AreaKind) -> &'static str
    ensures { result.now ≡ spec.area_text area }
{
    match area {
        AreaKind::Local => "local",
        AreaKind::Session => "session",
    }
}
