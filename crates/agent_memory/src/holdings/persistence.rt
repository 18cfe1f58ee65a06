//! Actions on the buckets of documents, and evictions of a site.
ghost use Rattle.std.specs.Prelude.{◌≡◌, IfOk, OnErr, OnOk, Some, map, true};
ghost use Rattle.std.specs.FinMap as finite;
ghost use Rattle.origin_site.specs.Plain.{plain_site};
ghost use Rattle.storage_key.specs.Plain.{plain_key};
ghost use Rattle.row_changes.specs.Change.{AreaClear};
ghost use Rattle.row_changes.specs.Plain.{plain_change};
ghost use Rattle.frame_tree.specs.Document.{PlainDocument};
ghost use Rattle.local_area.specs.Area.{area_weight};
ghost use Rattle.live_state.specs.Tabs.{is_open};
ghost use Rattle.reply_lines.specs.Plain.{body_of};
ghost use Rattle.reply_lines.specs.Reply as reply_text;
ghost use Rattle.storage_events.specs.declared.event.AreaKind.TheVariants.{Local};
ghost use Rattle.agent_model.specs.Partition as model;
ghost use Rattle.agent_model.specs.Partition.{area_of};
ghost use Rattle.web_storage.specs.Stored.{held_with};
ghost use Rattle.agent_model.specs.Changes.{clears};
ghost use Rattle.agent_model.specs.Documents.{Keyed, in_secure};
ghost use Rattle.agent_model.specs.Buckets.{areas_taken, evict, evicted_count, is_grant};
ghost use Rattle.agent_model.specs.Buckets.{is_persistent, persist};
ghost use Rattle.agent_model.specs.Buckets.{without_evicted};
ghost use Rattle.agent_memory.specs.HoldingsView.{held_of};
ghost use Rattle.agent_memory.specs.Actions.{ActsIn};
ghost use Rattle.row_changes.specs.Appended.{Appends};
ghost use Rattle.agent_memory.specs.Writes.{Writes, WritesIn};

use crate::body::Body;
use crate::holdings::Holdings;
use crate::replies::answer;
use agent_base::{Label, NoMemory};
use origin_site::Site;
use reply_lines::ReplyBody;
use row_changes::{Change, ChangeRef};
use script_actions::Prompt;
use std::alloc::Global;
use storage_key::StorageKey;
use web_storage::Storage;

impl Holdings {
    /// Answers whether the bucket of a key is persistent.
    pub fn persisted(&self, key: &StorageKey) -> ReplyBody
        ensures body { let persistent = is_persistent (plain_key key.now) (held_of self.now) in
            body_of result ≡ reply_text.Truth persistent }
    {
        ReplyBody::Truth {
            value: self.storage.is_persistent(key),
        }
    }

    /// Answers what the local area of a key weighs.
    pub fn estimate(&self, key: &StorageKey) -> ReplyBody
        ensures body { let pairs = area_of Local 0 (plain_key key.now) (held_of self.now) in
            body_of result ≡ reply_text.Estimate (area_weight pairs) }
    {
        ReplyBody::Estimate {
            usage: self.storage.usage(key) as u64,
        }
    }

    /// Makes the bucket of a document persistent, where it is in a secure context and the prompt
    /// grants it.
    pub fn persist(
        &mut self,
        at: Label,
        key: &StorageKey,
        prompt: Prompt,
        body: &mut Body,
    ) -> Result<ReplyBody, NoMemory>
        requires { is_open at.tab self.old.live.tabs ≡ true }
        ensures acts { (document : PlainDocument)
            → let own = plain_key key.now in
            let asker : Keyed = record { at = at; document = document; key = own } in
            ActsIn at.tab (λ site tab. in_secure tab (persist prompt) asker)
            self.old self.new result }
        ensures changes { (document : PlainDocument)
            → let own = plain_key key.now in
            let asker : Keyed = record { at = at; document = document; key = own } in
            WritesIn at.tab (λ site tab. in_secure tab (persist prompt) asker)
            self.old body.old.bytes body.new.bytes result }
        ensures limit { body.new.limit ≡ body.old.limit }
    {
        if !self.is_secure(at) {
            return Ok(answer("insecure"));
        }
        if self.storage.is_persistent(key) {
            return Ok(ReplyBody::Truth { value: true });
        }
        if !is_grant(prompt) {
            return Ok(ReplyBody::Truth { value: false });
        }
        body.append(ChangeRef::SetMode { key })?;
        self.storage.persist(key)?;
        Ok(ReplyBody::Truth { value: true })
    }

    /// Evicts the storage of a site, and counts the areas that went. No tab is closed.
    pub fn evict(&mut self, alloc: Global, site: &Site, body: &mut Body) -> Result<u32, NoMemory>
        ensures held { let left = without_evicted (plain_site site.now) (held_of self.old) in
            OnOk result (held_of self.new ≡ left) }
        ensures count { let taken = evicted_count (plain_site site.now) (held_of self.old) in
            IfOk result (λ count. count ≡ taken) }
        ensures live { self.new.live ≡ self.old.live }
        ensures cookies { self.new.cookies ≡ self.old.cookies }
        ensures unchanged { OnErr result (held_of self.new ≡ held_of self.old) }
        ensures changes { Writes (evict (plain_site site.now)) self.old
            body.old.bytes body.new.bytes result }
        ensures limit { body.new.limit ≡ body.old.limit }
    {
        write_evicted(alloc, &self.storage, site, body)?;
        self.storage.evict(site)
    }
}

// Writes that the areas which an eviction of a site takes are cleared.
fn write_evicted(
    alloc: Global,
    storage: &Storage,
    site: &Site,
    body: &mut Body,
) -> Result<(), NoMemory>
    ensures changes { (beside : model.Holdings)
        → let taken = areas_taken (plain_site site.now) (held_with beside storage.now) in
        Appends (clears (finite.keys taken)) body.old.bytes body.new.bytes result }
    ensures limit { body.new.limit ≡ body.old.limit }
{
    let keys = storage.evicted_keys(site)?;
    let changes = clears_of(alloc, keys.as_slice())?;
    body.append_all(changes.as_slice())
}

// The row changes that clear the areas of these keys.
fn clears_of(alloc: Global, keys: &[StorageKey]) -> Result<Vec<Change>, NoMemory>
    ensures changes { let clears = map (λ key. AreaClear (plain_key key)) keys.now in
        IfOk result (λ made. map plain_change made.items ≡ clears) }
{
    let mut changes = Vec::with_capacity(alloc, keys.len())?;
    for key in keys {
        let key = key.copy(alloc)?;
        if changes.push(Change::AreaClear { key }).is_err() {
            return Err(NoMemory);
        }
    }
    Ok(changes)
}

fn is_grant(prompt: Prompt) -> bool
    ensures { result ≡ is_grant prompt }
{
    match prompt {
        Prompt::Grant => true,
        Prompt::Deny | Prompt::Dismiss => false,
    }
}
