//! Actions on the areas of a document.
ghost use Rattle.std.specs.Prelude.{◌≡◌, ◌↔◌, [], ◌∷◌, IfOk, IsTrue, None, Some, length, map};
ghost use Rattle.std.specs.Prelude.{nat_lt, option_copied};
ghost use Rattle.std.specs.Prelude.{option_map, string_bytes, true};
ghost use Rattle.std.specs.List.{list_all};
ghost use Rattle.storage_key.specs.Plain.{plain_key};
ghost use Rattle.local_area.specs.Area.{area_get, area_nth};
ghost use Rattle.row_changes.specs.Plain.{plain_ref};
ghost use Rattle.storage_events.specs.Event.{PlainEvent};
ghost use Rattle.live_state.specs.Hearers.{hearers};
ghost use Rattle.live_state.specs.Queues.{are_distinct, has_document, plain_sent};
ghost use Rattle.live_state.specs.Tabs.{is_rising};
ghost use Rattle.reply_lines.specs.Plain.{body_of};
ghost use Rattle.reply_lines.specs.Reply as reply_text;
ghost use Rattle.agent_model.specs.Partition.{area_of};
ghost use Rattle.agent_model.specs.AreaActions.{clear_area, remove_item, set_item, store};
ghost use Rattle.agent_model.specs.Changes.{changes_of_write, durable_in};
ghost use Rattle.agent_memory.specs.HoldingsView.{held_of};
ghost use Rattle.agent_memory.specs.Actions.{ActsBy, put_sent};
ghost use Rattle.agent_memory.specs.Documents.{each_sent};
ghost use Rattle.row_changes.specs.Appended.{Appends};
ghost use Rattle.agent_memory.specs.Writes.{WritesBy};

use crate::body::Body;
use crate::holdings::Holdings;
use crate::holdings::events::events_of;
use crate::replies::answer;
use agent_base::{Label, NoMemory};
use local_area::AreaFault;
use reply_lines::ReplyBody;
use row_changes::ChangeRef;
use std::alloc::Global;
use storage_events::{AreaKind, Event};
use storage_key::StorageKey;

impl Holdings {
    // The value of a name in an area.
    fn value(&self, area: AreaKind, tab: u16, key: &StorageKey, name: &str) -> Option<&str>
        ensures value { let pairs = area_of area tab (plain_key key.now) (held_of self.now) in
            option_copied result ≡ area_get name.now pairs }
    {
        match self.storage.area(area, tab, key) {
            Some(pairs) => pairs.get(name),
            None => None,
        }
    }

    // The name at a place of an area.
    fn name(&self, area: AreaKind, tab: u16, key: &StorageKey, n: u32) -> Option<&str>
        ensures name { let pairs = area_of area tab (plain_key key.now) (held_of self.now) in
            option_copied result ≡ area_nth n pairs }
    {
        match self.storage.area(area, tab, key) {
            Some(pairs) => pairs.key(n),
            None => None,
        }
    }

    /// Answers the value of a name.
    pub fn get(
        &self,
        alloc: Global,
        area: AreaKind,
        tab: u16,
        key: &StorageKey,
        name: &str,
    ) -> Result<ReplyBody, NoMemory>
        ensures body { let pairs = area_of area tab (plain_key key.now) (held_of self.now) in
            IfOk result (λ body. body_of body ≡ reply_text.Text (area_get name.now pairs)) }
    {
        let value = copy_of(alloc, self.value(area, tab, key, name))?;
        Ok(ReplyBody::Text { value })
    }

    /// Answers the name at a place.
    pub fn name_at(
        &self,
        alloc: Global,
        area: AreaKind,
        tab: u16,
        key: &StorageKey,
        n: u32,
    ) -> Result<ReplyBody, NoMemory>
        ensures body { let pairs = area_of area tab (plain_key key.now) (held_of self.now) in
            IfOk result (λ body. body_of body ≡ reply_text.Text (area_nth n pairs)) }
    {
        let value = copy_of(alloc, self.name(area, tab, key, n))?;
        Ok(ReplyBody::Text { value })
    }

    /// Answers the number of pairs.
    pub fn len(&self, area: AreaKind, tab: u16, key: &StorageKey) -> ReplyBody
        ensures body { let pairs = area_of area tab (plain_key key.now) (held_of self.now) in
            body_of result ≡ reply_text.Number (length pairs) }
    {
        let value = match self.storage.area(area, tab, key) {
            Some(pairs) => pairs.len() as u64,
            None => 0,
        };
        ReplyBody::Number { value }
    }

    /// Gives a name a value. Nothing happens where it has that value.
    pub fn set(
        &mut self,
        alloc: Global,
        at: Label,
        area: AreaKind,
        key: &StorageKey,
        name: &str,
        value: &str,
        body: &mut Body,
    ) -> Result<ReplyBody, NoMemory>
        requires { has_document self.old.live.tabs at ≡ true }
        ensures acts { let does = set_item area name.now value.now in
            ActsBy at (plain_key key.now) does self.old self.new result }
        ensures changes { let does = set_item area name.now value.now in
            WritesBy at (plain_key key.now) does self.old body.old.bytes body.new.bytes result }
        ensures limit { body.new.limit ≡ body.old.limit }
    {
        let before = self.value(area, at.tab, key, name);
        if is_text(before, value) {
            return Ok(answer("ok"));
        }
        let to = self.hearers(area, at, key)?;
        let url = self.url(at);
        let events = events_of(
            alloc,
            to.as_slice(),
            area,
            Some(name),
            before,
            Some(value),
            url,
        )?;
        self.store(alloc, at, area, key, to, events, name, value, body)
    }

    // Stores a pair, and sends these events to the documents that hear of it. Its row change is
    // written before, and cut off where the quota refuses the pair.
    fn store(
        &mut self,
        alloc: Global,
        at: Label,
        area: AreaKind,
        key: &StorageKey,
        to: Vec<Label>,
        events: Vec<(Label, Event)>,
        name: &str,
        value: &str,
        body: &mut Body,
    ) -> Result<ReplyBody, NoMemory>
        requires rising { is_rising self.old.live.tabs ≡ true }
        requires hearers { to.items ≡ hearers area at (plain_key key.now) self.old.live.tabs }
        requires once { are_distinct to.items ≡ true }
        requires there { list_all (has_document self.old.live.tabs) to.items ≡ true }
        requires labels { map (λ e. e.0) events.items ≡ to.items }
        ensures acts { (made : PlainEvent) → let event = record made { area = area } in
            map plain_sent events.items ≡ each_sent event to.items
            → ActsBy at (plain_key key.now) (put_sent area name.now value.now event)
            self.old self.new result }
        ensures changes { (made : PlainEvent)
            → let named = record made { key = Some name.now; after = Some value.now } in
            WritesBy at (plain_key key.now) (put_sent area name.now value.now named)
            self.old body.old.bytes body.new.bytes result }
        ensures limit { body.new.limit ≡ body.old.limit }
    {
        self.live.reserve_queues(to.as_slice())?;
        let before = body.len();
        write_in(area, ChangeRef::AreaPut { key, name, value }, body)?;
        let name = String::from_str(alloc, name)?;
        let value = String::from_str(alloc, value)?;
        match self.storage.put(area, at.tab, key, name, value) {
            Ok(_) => {
                self.live.send(events);
                Ok(answer("ok"))
            }
            Err(AreaFault::Quota(_)) => {
                body.truncate(before);
                Ok(answer("quota"))
            }
            Err(AreaFault::NoMemory) => Err(NoMemory),
        }
    }

    /// Removes a name. Nothing happens where it is absent.
    pub fn del(
        &mut self,
        alloc: Global,
        at: Label,
        area: AreaKind,
        key: &StorageKey,
        name: &str,
        body: &mut Body,
    ) -> Result<ReplyBody, NoMemory>
        requires { has_document self.old.live.tabs at ≡ true }
        ensures acts { let does = remove_item area name.now in
            ActsBy at (plain_key key.now) does self.old self.new result }
        ensures changes { let does = remove_item area name.now in
            WritesBy at (plain_key key.now) does self.old body.old.bytes body.new.bytes result }
        ensures limit { body.new.limit ≡ body.old.limit }
    {
        let before = self.value(area, at.tab, key, name);
        if before.is_none() {
            return Ok(answer("ok"));
        }
        let to = self.hearers(area, at, key)?;
        let url = self.url(at);
        let events = events_of(alloc, to.as_slice(), area, Some(name), before, None, url)?;
        self.live.reserve_queues(to.as_slice())?;
        write_in(area, ChangeRef::AreaRemove { key, name }, body)?;
        self.storage.remove(area, at.tab, key, name)?;
        self.live.send(events);
        Ok(answer("ok"))
    }

    /// Empties an area. An event is sent also where it was empty.
    pub fn clear(
        &mut self,
        alloc: Global,
        at: Label,
        area: AreaKind,
        key: &StorageKey,
        body: &mut Body,
    ) -> Result<ReplyBody, NoMemory>
        requires { has_document self.old.live.tabs at ≡ true }
        ensures acts { ActsBy at (plain_key key.now) (clear_area area) self.old self.new result }
        ensures changes { WritesBy at (plain_key key.now) (clear_area area)
            self.old body.old.bytes body.new.bytes result }
        ensures limit { body.new.limit ≡ body.old.limit }
    {
        let to = self.hearers(area, at, key)?;
        let url = self.url(at);
        let events = events_of(alloc, to.as_slice(), area, None, None, None, url)?;
        self.write_clear(area, at.tab, key, body)?;
        self.live.reserve_queues(to.as_slice())?;
        self.storage.clear(area, at.tab, key);
        self.live.send(events);
        Ok(answer("ok"))
    }

    // Whether an area has a pair.
    fn has_pairs(&self, area: AreaKind, tab: u16, key: &StorageKey) -> bool
        ensures { let pairs = area_of area tab (plain_key key.now) (held_of self.now) in
            result ≡ nat_lt 0 (length pairs) }
    {
        match self.storage.area(area, tab, key) {
            Some(pairs) => pairs.len() > 0,
            None => false,
        }
    }

    // Writes that an area is cleared, where it has pairs.
    fn write_clear(
        &self,
        area: AreaKind,
        tab: u16,
        key: &StorageKey,
        body: &mut Body,
    ) -> Result<(), NoMemory>
        ensures changes { let pairs = area_of area tab (plain_key key.now) (held_of self.now) in
            let change = changes_of_write (plain_key key.now) None None pairs in
            Appends (durable_in area change) body.old.bytes body.new.bytes result }
        ensures limit { body.new.limit ≡ body.old.limit }
    {
        if !self.has_pairs(area, tab, key) {
            return Ok(());
        }
        write_in(area, ChangeRef::AreaClear { key }, body)
    }
}

// Writes a change of an area, where it is durable.
fn write_in(area: AreaKind, change: ChangeRef<'_>, body: &mut Body) -> Result<(), NoMemory>
    ensures changes { let change = plain_ref change.entry ∷ [] in
        Appends (durable_in area change) body.old.bytes body.new.bytes result }
    ensures limit { body.new.limit ≡ body.old.limit }
{
    match area {
        AreaKind::Local => body.append(change),
        AreaKind::Session => Ok(()),
    }
}

// Whether there is a text, and it is this one.
fn is_text(found: Option<&str>, text: &str) -> bool
    ensures { IsTrue result ↔ (option_copied found.entry ≡ Some text.now) }
{
    match found {
        Some(found) => found == text,
        None => false,
    }
}

// A copy of a text, if there is one.
fn copy_of(alloc: Global, text: Option<&str>) -> Result<Option<String>, NoMemory>
    ensures { IfOk result (λ copy. option_map string_bytes copy ≡ option_copied text.entry) }
{
    match text {
        Some(text) => Ok(Some(String::from_str(alloc, text)?)),
        None => Ok(None),
    }
}
