//! Requests of documents, and what their scripts make of cookies.
ghost use Rattle.std.specs.Prelude.{◌≡◌, ◌≤◌, map, true};
ghost use Rattle.origin_site.specs.Plain.{plain_address};
ghost use Rattle.storage_key.specs.Plain.{plain_key};
ghost use Rattle.live_state.specs.Queues.{has_document};
ghost use Rattle.live_state.specs.Tabs.{is_open};
ghost use Rattle.script_actions.specs.Plain.{head_field_of};
ghost use Rattle.agent_model.specs.Cookies.{fetch, read_cookies, set_cookie};
ghost use Rattle.agent_memory.specs.Actions.{ActsAt, ActsIn};
ghost use Rattle.agent_memory.specs.Writes.{WritesAt, WritesIn};

use crate::body::Body;
use crate::holdings::requests::{Load, prepare_below, script_use, write_rows};
use crate::holdings::{Holdings, has_frame, open_tab};
use crate::replies::answer;
use agent_base::{Label, NoMemory};
use origin_site::Address;
use reply_lines::ReplyBody;
use script_actions::{HeadField, Method};
use storage_key::StorageKey;
use web_cookies::{LineInput, is_granted_at};

impl Holdings {
    /// A document requests an address. Its cookies are sent, and then those of the response stored.
    pub fn fetch(
        &mut self,
        input: &LineInput<'_>,
        at: Label,
        url: &Address,
        method: Method,
        head: &[HeadField],
        body: &mut Body,
    ) -> Result<ReplyBody, NoMemory>
        requires open { is_open at.tab self.old.live.tabs ≡ true }
        ensures acts { let address = plain_address url.now in
            let fields = map head_field_of head.now in
            ActsIn at.tab (λ site. fetch input.now.list.now.rules input.now.clock site at address
            method fields) self.old self.new result }
        ensures changes { let address = plain_address url.now in
            let fields = map head_field_of head.now in
            WritesIn at.tab (λ site. fetch input.now.list.now.rules input.now.clock site at address
            method fields)
            self.old body.old.bytes body.new.bytes result }
        ensures limit { body.new.limit ≡ body.old.limit }
    {
        let tab = open_tab(&self.live, at.tab);
        if !has_frame(tab, at.frame) {
            return Ok(answer("no-frame"));
        }
        let granted = is_granted_at(input.alloc, tab, at.frame, url)?;
        let cookies = &mut self.cookies;
        let load = Load {
            url,
            method,
            head,
            granted,
        };
        let prepared = prepare_below(tab, cookies, input, at.frame, &load)?;
        write_rows(&prepared, body)?;
        Ok(self.cookies.perform(prepared))
    }

    /// A script reads the cookies of its document.
    pub fn cookie(
        &self,
        input: &LineInput<'_>,
        at: Label,
        key: &StorageKey,
    ) -> Result<ReplyBody, NoMemory>
        requires there { has_document self.now.live.tabs at ≡ true }
        ensures acts { ActsAt at (plain_key key.now)
            (λ site tab. read_cookies input.now.list.now.rules input.now.clock site)
            self.now self.now result }
    {
        let how = script_use(open_tab(&self.live, at.tab), at, key);
        self.cookies.read(input, &how)
    }

    /// A script sets a cookie of its document.
    pub fn set_cookie(
        &mut self,
        input: &LineInput<'_>,
        at: Label,
        key: &StorageKey,
        text: &str,
        body: &mut Body,
    ) -> Result<ReplyBody, NoMemory>
        requires there { has_document self.old.live.tabs at ≡ true }
        ensures acts { ActsAt at (plain_key key.now)
            (λ site tab. set_cookie input.now.list.now.rules input.now.clock site text.now)
            self.old self.new result }
        ensures changes { WritesAt at (plain_key key.now)
            (λ site tab. set_cookie input.now.list.now.rules input.now.clock site text.now)
            self.old body.old.bytes body.new.bytes result }
        ensures limit { body.new.limit ≡ body.old.limit }
    {
        let how = script_use(open_tab(&self.live, at.tab), at, key);
        let prepared = self.cookies.prepare_set(input, &how, text)?;
        write_rows(&prepared, body)?;
        Ok(self.cookies.perform(prepared))
    }
}
