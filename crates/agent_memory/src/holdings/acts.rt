//! Actions in an open tab.
ghost use Rattle.std.specs.Prelude.{◌≡◌, ◌≤◌, IfSome, Some, false, true};
ghost use Rattle.storage_key.specs.Plain.{plain_key};
ghost use Rattle.live_state.specs.Queues.{has_document};
ghost use Rattle.live_state.specs.Tabs.{is_open};
ghost use Rattle.script_actions.specs.Plain.{action_of};
ghost use Rattle.agent_model.specs.Documents.{with_key};
ghost use Rattle.agent_model.specs.SiteStep.{act_in};
ghost use Rattle.script_actions.specs.Labels.{label_of};
ghost use Rattle.agent_memory.specs.ActionKinds.{by_keyed, document_action, is_keyed, is_reading};
ghost use Rattle.agent_memory.specs.Actions.{ActsAt, ActsIn};
ghost use Rattle.agent_memory.specs.Writes.{WritesAt, WritesIn};

use crate::body::Body;
use crate::holdings::{Found, Holdings, key_at};
use crate::replies::answer;
use agent_base::{Label, NoMemory};
use reply_lines::ReplyBody;
use script_actions::Action;
use storage_key::StorageKey;
use web_cookies::LineInput;

impl Holdings {
    /// Does an action in an open tab, at this moment.
    pub fn act(
        &mut self,
        input: &LineInput<'_>,
        at: Label,
        action: &Action,
        body: &mut Body,
    ) -> Result<ReplyBody, NoMemory>
        requires open { is_open at.tab self.old.live.tabs ≡ true }
        requires named { label_of (action_of action.now) ≡ Some at }
        ensures acts { IfSome (document_action (action_of action.now)) (λ does.
            ActsIn at.tab (λ site. act_in input.now.list.now.rules input.now.clock site at does)
            self.old self.new result) }
        ensures changes { IfSome (document_action (action_of action.now)) (λ does.
            WritesIn at.tab (λ site. act_in input.now.list.now.rules input.now.clock site at does)
            self.old body.old.bytes body.new.bytes result) }
        ensures limit { body.new.limit ≡ body.old.limit }
    {
        match action {
            Action::Frame {
                parent,
                url,
                sandbox,
                deny,
                head,
                ..
            } => {
                let head = head.as_slice();
                self.add_frame(input, at, *parent, url, sandbox, *deny, head, body)
            }
            Action::Nav {
                url,
                by_self,
                method,
                head,
                ..
            } => {
                let head = head.as_slice();
                self.navigate_frame(input, at, url, *by_self, *method, head, body)
            }
            Action::Fetch {
                url,
                method,
                head,
                ..
            } => self.fetch(input, at, url, *method, head.as_slice(), body),
            Action::Drop { .. } => self.remove_frame(at),
            Action::Click { .. } => self.click(at, input.clock),
            Action::Events { .. } => Ok(self.take(at)),
            Action::Has { .. } => self.has(input, at),
            Action::Request { answer, .. } => { self.request(input, at, *answer, body) }
            Action::Tick { .. }
            | Action::Open { .. }
            | Action::Close { .. }
            | Action::Go { .. }
            | Action::Evict { .. } => unreachable!(),
            _ => self.act_with_key(input, at, action, body),
        }
    }

    // Does an action that is done with the storage key of its document. The key is copied where the
    // action changes what is held, and with it the tab that has the key.
    fn act_with_key(
        &mut self,
        input: &LineInput<'_>,
        at: Label,
        action: &Action,
        body: &mut Body,
    ) -> Result<ReplyBody, NoMemory>
        requires open { is_open at.tab self.old.live.tabs ≡ true }
        requires keyed { is_keyed (action_of action.now) ≡ true }
        ensures acts { IfSome (by_keyed input.now.list.now.rules input.now.clock
            (action_of action.now)) (λ does.
            ActsIn at.tab (λ site tab. with_key at tab (does site tab)) self.old self.new result) }
        ensures changes { IfSome (by_keyed input.now.list.now.rules input.now.clock
            (action_of action.now)) (λ does.
            WritesIn at.tab (λ site tab. with_key at tab (does site tab))
            self.old body.old.bytes body.new.bytes result) }
        ensures limit { body.new.limit ≡ body.old.limit }
    {
        match key_at(self.tab(at.tab), at.frame) {
            Found::NoFrame => Ok(answer("no-frame")),
            Found::Opaque => Ok(answer("security")),
            Found::Keyed(key) => {
                if is_reading(action) {
                    return self.read_under(input, at, key, action);
                }
                let key = key.copy(input.alloc)?;
                self.write_under(input, at, &key, action, body)
            }
        }
    }

    // Does an action that only reads, under the key of its document.
    fn read_under(
        &self,
        input: &LineInput<'_>,
        at: Label,
        key: &StorageKey,
        action: &Action,
    ) -> Result<ReplyBody, NoMemory>
        requires there { has_document self.now.live.tabs at ≡ true }
        requires reads { is_reading (action_of action.now) ≡ true }
        ensures acts { IfSome (by_keyed input.now.list.now.rules input.now.clock
            (action_of action.now)) (λ does.
            ActsAt at (plain_key key.now) does self.now self.now result) }
    {
        match action {
            Action::Get {
                area,
                key: name,
                ..
            } => self.get(input.alloc, *area, at.tab, key, name),
            Action::Len { area, .. } => Ok(self.len(*area, at.tab, key)),
            Action::Key { area, n, .. } => self.name_at(input.alloc, *area, at.tab, key, *n),
            Action::Cookie { .. } => self.cookie(input, at, key),
            Action::Persisted { .. } => Ok(self.persisted(key)),
            Action::Estimate { .. } => Ok(self.estimate(key)),
            _ => unreachable!(),
        }
    }

    // Does an action that changes what is held, under the key of its document.
    fn write_under(
        &mut self,
        input: &LineInput<'_>,
        at: Label,
        key: &StorageKey,
        action: &Action,
        body: &mut Body,
    ) -> Result<ReplyBody, NoMemory>
        requires there { has_document self.old.live.tabs at ≡ true }
        requires keyed { is_keyed (action_of action.now) ≡ true }
        requires writes { is_reading (action_of action.now) ≡ false }
        ensures acts { IfSome (by_keyed input.now.list.now.rules input.now.clock
            (action_of action.now)) (λ does.
            ActsAt at (plain_key key.now) does self.old self.new result) }
        ensures changes { IfSome (by_keyed input.now.list.now.rules input.now.clock
            (action_of action.now)) (λ does.
            WritesAt at (plain_key key.now) does self.old body.old.bytes body.new.bytes result) }
        ensures limit { body.new.limit ≡ body.old.limit }
    {
        match action {
            Action::Set {
                area,
                key: name,
                value,
                ..
            } => self.set(input.alloc, at, *area, key, name, value, body),
            Action::Del {
                area,
                key: name,
                ..
            } => self.del(input.alloc, at, *area, key, name, body),
            Action::Clear { area, .. } => self.clear(input.alloc, at, *area, key, body),
            Action::SetCookie { text, .. } => { self.set_cookie(input, at, key, text, body) }
            Action::Persist { answer, .. } => self.persist(at, key, *answer, body),
            _ => unreachable!(),
        }
    }
}

// Whether an action only reads what its document's key has.
fn is_reading(action: &Action) -> bool
    ensures { result ≡ is_reading (action_of action.now) }
{
    match action {
        Action::Get { .. }
        | Action::Len { .. }
        | Action::Key { .. }
        | Action::Cookie { .. }
        | Action::Persisted { .. }
        | Action::Estimate { .. } => true,
        _ => false,
    }
}
