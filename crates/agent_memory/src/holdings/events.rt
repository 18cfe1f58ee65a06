//! Storage events: what is sent to the documents that hear of a change, and what is taken.
ghost use Rattle.std.specs.Prelude.{◌≡◌, IfOk, Ok, map, option_copied, true};
ghost use Rattle.storage_events.specs.Event.{PlainEvent, plain_event};
ghost use Rattle.std.specs.List.{list_all};
ghost use Rattle.live_state.specs.Queues.{are_distinct, has_document, plain_sent};
ghost use Rattle.live_state.specs.Hearers.{hearers};
ghost use Rattle.live_state.specs.Tabs.{is_open, is_rising};
ghost use Rattle.storage_key.specs.Plain.{plain_key};
ghost use Rattle.agent_model.specs.Queues.{take_events};
ghost use Rattle.agent_memory.specs.Documents.{each_sent};
ghost use Rattle.agent_memory.specs.Actions.{ActsIn};

use crate::holdings::Holdings;
use crate::replies::answer;
use agent_base::{Label, NoMemory};
use reply_lines::ReplyBody;
use std::alloc::Global;
use storage_events::{AreaKind, Event};
use storage_key::StorageKey;

/// The event of a change for each of these documents. No event is made where there are none, and
/// else one, whose handles all share its texts.
pub fn events_of(
    alloc: Global,
    to: &[Label],
    area: AreaKind,
    name: Option<&str>,
    before: Option<&str>,
    after: Option<&str>,
    url: &str,
) -> Result<Vec<(Label, Event)>, NoMemory>
    ensures events { let event : PlainEvent = record {
      area = area;
      key = option_copied name.entry;
      before = option_copied before.entry;
      after = option_copied after.entry;
      url = url.now;
    } in IfOk result (λ events. map plain_sent events.items ≡ each_sent event to.now) }
    ensures labels { IfOk result (λ events. map (λ e. e.0) events.items ≡ to.now) }
{
    if to.is_empty() {
        return Ok(Vec::new(alloc));
    }
    let event = Event::new(alloc, area, name, before, after, url)?;
    events_to(alloc, to, &event)
}

// The event for each of these documents.
fn events_to(alloc: Global, to: &[Label], event: &Event) -> Result<Vec<(Label, Event)>, NoMemory>
    ensures { let sent = each_sent (plain_event event.now) to.now in
        IfOk result (λ events. map plain_sent events.items ≡ sent) }
{
    let mut events = Vec::new(alloc);
    for at in to {
        if events.push((*at, event.copy()?)).is_err() {
            return Err(NoMemory);
        }
    }
    Ok(events)
}

impl Holdings {
    /// The documents that hear of a change of an area.
    pub fn hearers(
        &self,
        area: AreaKind,
        at: Label,
        key: &StorageKey,
    ) -> Result<Vec<Label>, NoMemory>
        ensures hearers { IfOk result (λ to.
            to.items ≡ hearers area at (plain_key key.now) self.now.live.tabs) }
        ensures once { IfOk result (λ to. are_distinct to.items ≡ true) }
        ensures there { IfOk result
            (λ to. list_all (has_document self.now.live.tabs) to.items ≡ true) }
        ensures rising { is_rising self.now.live.tabs ≡ true }
    {
        self.live.hearers(area, at, key)
    }

    /// Takes the events that wait for a document.
    pub fn take(&mut self, at: Label) -> ReplyBody
        requires { is_open at.tab self.old.live.tabs ≡ true }
        ensures acts { ActsIn at.tab (λ site. take_events at) self.old self.new (Ok result) }
    {
        if !self.has_document(at) {
            return answer("no-frame");
        }
        let (events, lost) = self.live.take_events(at);
        ReplyBody::Events { events, lost }
    }
}
