//! Loads of top documents, and tabs that are closed.
ghost use Rattle.std.specs.Prelude.{◌≡◌, ◌≤◌, ℕ, false, true, IfOk, OnErr, OnOk, Some, map};
ghost use Rattle.std.specs.FinMap as finite;
ghost use Rattle.origin_site.specs.Plain.{plain_address, plain_site};
ghost use Rattle.origin_site.specs.Site.{site_of_address};
ghost use Rattle.script_actions.specs.Plain.{head_field_of};
ghost use Rattle.reply_lines.specs.Plain.{body_of};
ghost use Rattle.agent_model.specs.Lines.{is_same_site, placed};
ghost use Rattle.agent_model.specs.Sessions.{arrive, close, has_session, show};
ghost use Rattle.agent_memory.specs.AgentState.{places_in};
ghost use Rattle.agent_memory.specs.HoldingsView.{cells_of, held_of};
ghost use Rattle.agent_memory.specs.Actions.{IsLoaded, Stays};
ghost use Rattle.agent_memory.specs.Lines.{is_there, with_copies};
ghost use Rattle.agent_memory.specs.Requests.{starter_in};
ghost use Rattle.row_changes.specs.Appended.{Appends};

use crate::body::Body;
use crate::holdings::Holdings;
use crate::holdings::requests::{Load, prepare_top, write_rows};
use agent_base::NoMemory;
use frame_tree::{Tab, site_of_address};
use origin_site::{Address, Site};
use reply_lines::ReplyBody;
use script_actions::{HeadField, Method};
use std::alloc::Global;
use web_cookies::LineInput;

impl Holdings {
    /// A tab, which is open or new, reaches an address. A page of the starter's tab starts the
    /// load, or the user. Answers the site that is reached, and the load.
    ///
    /// What the load makes of cookies is prepared first, and its row changes are written; then the
    /// tab shows the address, and then it is performed. So want of memory leaves both as they are.
    pub fn arrive(
        &mut self,
        input: &LineInput<'_>,
        tab: u16,
        url: &Address,
        opener: Option<u16>,
        starter: Option<u16>,
        method: Method,
        head: &[HeadField],
        body: &mut Body,
    ) -> Result<(Site, ReplyBody), NoMemory>
        requires there { is_there opener self.old.live.tabs ≡ true }
        requires starter { is_there starter self.old.live.tabs ≡ true }
        requires fresh { (from : ℕ) → opener ≡ Some from
            → has_session tab (held_of self.old) ≡ false }
        ensures site { let target = site_of_address input.now.list.now.rules
            (plain_address url.now) in
            IfOk result (λ arrived. plain_site arrived.0 ≡ target) }
        ensures loaded { let address = plain_address url.now in
            let target = site_of_address input.now.list.now.rules address in
            let same_site = is_same_site (starter_in starter self.old.live.tabs) target in
            let fields = map head_field_of head.now in
            let does = arrive input.now.list.now.rules input.now.clock target tab address method
            same_site fields in
            let copied = with_copies opener tab self.old.live.tabs (held_of self.old) in
            IfOk result (λ arrived. IsLoaded (does (cells_of self.old) copied) tab target
            self.old self.new (body_of arrived.1)) }
        ensures unchanged { OnErr result (Stays self.old self.new) }
        ensures changes { let address = plain_address url.now in
            let target = site_of_address input.now.list.now.rules address in
            let same_site = is_same_site (starter_in starter self.old.live.tabs) target in
            let fields = map head_field_of head.now in
            let does = arrive input.now.list.now.rules input.now.clock target tab address method
            same_site fields in
            let copied = with_copies opener tab self.old.live.tabs (held_of self.old) in
            Appends (does (cells_of self.old) copied).changes body.old.bytes body.new.bytes result }
        ensures limit { body.new.limit ≡ body.old.limit }
    {
        let site = site_of_address(input.alloc, url, input.list)?;
        let load = Load {
            url,
            method,
            head,
            granted: false,
        };
        let live = &self.live;
        let cookies = &mut self.cookies;
        let prepared = prepare_top(live, cookies, input, starter, &site, &load)?;
        write_rows(&prepared, body)?;
        self.show(input, tab, url, opener)?;
        let answer = self.cookies.perform(prepared);
        Ok((site, answer))
    }

    // Shows an address alone in a tab, which is open or new.
    fn show(
        &mut self,
        input: &LineInput<'_>,
        tab: u16,
        url: &Address,
        opener: Option<u16>,
    ) -> Result<(), NoMemory>
        requires there { is_there opener self.old.live.tabs ≡ true }
        requires fresh { (from : ℕ) → opener ≡ Some from
            → has_session tab (held_of self.old) ≡ false }
        ensures held { let copied = with_copies opener tab self.old.live.tabs (held_of self.old) in
            let shown = show input.now.list.now.rules tab (plain_address url.now) copied in
            OnOk result (held_of self.new ≡ shown) }
        ensures places { let target = site_of_address input.now.list.now.rules
            (plain_address url.now) in
            let after = placed tab target (places_in self.old.live.tabs) in
            OnOk result (places_in self.new.live.tabs ≡ after) }
        ensures cookies { self.new.cookies ≡ self.old.cookies }
        ensures unchanged { OnErr result (Stays self.old self.new) }
    {
        let made = Tab::new(input.alloc, url.copy(input.alloc)?, input.list)?;
        self.live.reserve(tab, &made)?;
        self.copy_areas(input.alloc, opener, tab)?;
        self.live.put_tab(tab, made, Some(0));
        Ok(())
    }

    // Copies the session areas of an opener, under the site that it is at, to a new tab.
    fn copy_areas(&mut self, alloc: Global, opener: Option<u16>, tab: u16) -> Result<(), NoMemory>
        requires there { is_there opener self.old.live.tabs ≡ true }
        requires fresh { (from : ℕ) → opener ≡ Some from
            → has_session tab (held_of self.old) ≡ false }
        ensures held { let copied = with_copies opener tab self.old.live.tabs (held_of self.old) in
            OnOk result (held_of self.new ≡ copied) }
        ensures live { self.new.live ≡ self.old.live }
        ensures cookies { self.new.cookies ≡ self.old.cookies }
        ensures unchanged { OnErr result (held_of self.new ≡ held_of self.old) }
    {
        let Some(opener) = opener else {
            return Ok(());
        };
        let site = self.tab(opener).top_site().copy(alloc)?;
        self.storage.copy_tab(&site, opener, tab)
    }

    /// Closes a tab. Its session areas go with it.
    pub fn close(&mut self, tab: u16)
        ensures held { held_of self.new ≡ close tab (held_of self.old) }
        ensures cells { cells_of self.new ≡ cells_of self.old }
        ensures places { let after = finite.remove (places_in self.old.live.tabs) tab in
            places_in self.new.live.tabs ≡ after }
    {
        self.storage.close(tab);
        self.live.drop_tab(tab);
    }
}
