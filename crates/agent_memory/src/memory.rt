//! The agent: one list of tabs and one storage, for all sites.
ghost use Rattle.std.specs.Prelude.{◌≡◌, ◌≤◌, [], IfOk, IsOk, None, Ok, OnOk, OnErr, Some, map};
ghost use Rattle.std.specs.FinMap as finite;
ghost use Rattle.unwinding.specs.Durable.{line_changes};
ghost use Rattle.unwinding.specs.World.{line_reply, world_step};
ghost use Rattle.origin_site.specs.Plain.{plain_address, plain_site};
ghost use Rattle.script_actions.specs.Plain.{action_of, head_field_of};
ghost use Rattle.reply_lines.specs.Plain.{reply_of};
ghost use Rattle.script_actions.specs.Action as plain;
ghost use Rattle.script_actions.specs.Labels.{label_of};
ghost use Rattle.agent_model.specs.Isolation.{printed};
ghost use Rattle.agent_model.specs.Lines.{main_event};
ghost use Rattle.agent_model.specs.Partition as model;
ghost use Rattle.agent_base.specs.Seconds.{last_moment};
ghost use Rattle.agent_model.specs.TheMachine.{machine, beginning};
ghost use Rattle.agent_memory.specs.AgentState.{world_of};
ghost use Rattle.agent_memory.specs.Lines.{Runs};
ghost use Rattle.agent_memory.specs.Writes.{LineWrites};
ghost use Rattle.agent_memory.specs.Written.{AreWritten};
ghost use Rattle.web_storage.specs.Stored.{held_with};

use crate::body::Body;
use crate::holdings::Holdings;
use crate::replies::{answer, refused, replied, ticked};
use access_grants::Grants;
use agent_base::{Label, NoMemory, Seconds};
use live_state::Live;
use origin_site::{Address, Site};
use reply_lines::{Reply, ReplyBody};
use script_actions::{Action, HeadField, Method};
use std::alloc::Global;
use std::marker::Model;
use suffix_list::SuffixList;
use web_cookies::{Cookies, LineInput};
use web_storage::Storage;

/// The storage of a browser in memory: the tabs that are open, and the storage, the cookies and the
/// permissions of all sites under a suffix list.
#[derive(Debug, Drop)]
pub struct Memory<'l> {
    // What every line is given; a line `tick` moves its clock.
    input: LineInput<'l>,
    held: Holdings,
}

impl<'l> Model for Memory<'l> {
    ghost use Rattle.agent_memory.specs.AgentState.{AgentState, IsStanding};
    ghost use Rattle.agent_memory.specs.HoldingsView.{state_of};

    ghost Value = { AgentState };

    ghost view = { λ a. state_of a.input.list.now.rules a.input.clock a.held };

    ghost invariant = { λ a. IsStanding (state_of a.input.list.now.rules a.input.clock a.held) };
}

impl<'l> Memory<'l> {
    /// An agent without tabs, areas, cookies and permissions, whose clock stands at `start`, in
    /// seconds since 1970. The list says of which site an address is, for as long as the agent
    /// lives.
    pub fn new(alloc: Global, list: &'l SuffixList, start: u64) -> Memory<'l>
        requires { start ≤ last_moment }
        ensures beginning { world_of result ≡ beginning start }
        ensures rules { result.rules ≡ list.now.rules }
    {
        let clock = Seconds::new(start);
        Memory {
            input: LineInput { alloc, list, clock },
            held: Holdings::new(alloc),
        }
    }

    /// An agent that goes on with what is durable: these areas, cookies and permissions. No tab is
    /// open, and the clock stands at `now`.
    pub fn resume(
        alloc: Global,
        list: &'l SuffixList,
        now: u64,
        storage: Storage,
        cookies: Cookies,
        grants: Grants,
    ) -> Memory<'l>
        requires now { now ≤ last_moment }
        requires sessions { (beside : model.Holdings)
            → (held_with beside storage).sessions ≡ finite.empty }
        ensures state { result ≡ record {
          rules = list.now.rules;
          now = now;
          tabs = [];
          entries = storage;
          cookies = cookies;
          grants = grants.rows;
        } }
    {
        let clock = Seconds::new(now);
        Memory {
            input: LineInput { alloc, list, clock },
            held: Holdings::resume(alloc, storage, cookies, grants),
        }
    }

    /// The clock, in seconds since 1970.
    pub fn now(&self) -> u64
        ensures now { result ≡ self.entry.now.now }
        ensures in_time { result ≤ last_moment }
    {
        self.input.clock.number()
    }

    /// The suffix list that says of which site an address is.
    pub fn list(&self) -> &'l SuffixList
        ensures rules { result.now.rules ≡ self.entry.now.rules }
    {
        self.input.list
    }

    /// The open tabs, with their frames and the events that wait.
    pub fn live(&self) -> &Live
        ensures tabs { result.now.tabs ≡ self.entry.now.tabs }
    {
        &self.held.live
    }

    /// The storage of all sites, with the session areas of the open tabs.
    pub fn storage(&self) -> &Storage
        ensures storage { result.now ≡ self.entry.now.entries }
    {
        &self.held.storage
    }

    /// The cookies of all sites, with those that last no longer than the session.
    pub fn cookies(&self) -> &Cookies
        ensures cookies { result.now ≡ self.entry.now.cookies }
    {
        &self.held.cookies
    }

    /// The permissions of storage access, in the order in which their pairs were first kept.
    pub fn grants(&self) -> &Grants
        ensures grants { result.now.rows ≡ self.entry.now.grants }
    {
        &self.held.grants
    }

    /// Runs one line, gives its reply, and writes its durable change behind `body`.
    ///
    /// Want of memory leaves the agent and the body as they were, and never comes where the line
    /// moves the clock or is refused for its tabs.
    pub fn line(&mut self, action: &Action, body: &mut Body) -> Result<Reply, NoMemory>
        ensures reply { let here = world_of self.old in
            let told = line_reply (machine self.old.rules) here (action_of action.now) in
            IfOk result (λ r. reply_of r ≡ printed told) }
        ensures world { let here = world_of self.old in
            let next = world_step (machine self.old.rules) here (action_of action.now) in
            OnOk result (world_of self.new ≡ next) }
        ensures rules { self.new.rules ≡ self.old.rules }
        ensures refused { let here = world_of self.old in
            main_event self.old.rules here (action_of action.now) ≡ None → IsOk result }
        ensures unchanged { OnErr result (world_of self.new ≡ world_of self.old) }
        ensures written { let here = world_of self.old in
            let made = line_changes (machine self.old.rules) here (action_of action.now) in
            OnOk result (AreWritten made body.old.bytes body.new.bytes) }
        ensures unwritten { OnErr result (body.new.bytes ≡ body.old.bytes) }
        ensures limit { body.new.limit ≡ body.old.limit }
    {
        let before = body.len();
        match self.run(action, body) {
            Ok(reply) => Ok(reply),
            Err(wanting) => {
                body.truncate(before);
                Err(wanting)
            }
        }
    }

    // Runs one line, and writes its durable change. Want of memory may leave something behind the
    // body.
    fn run(&mut self, action: &Action, body: &mut Body) -> Result<Reply, NoMemory>
        ensures runs { Runs (action_of action.now) self.old self.new result }
        ensures written { LineWrites (action_of action.now) self.old
            body.old.bytes body.new.bytes result }
        ensures limit { body.new.limit ≡ body.old.limit }
    {
        if let Some(at) = action.label() {
            return self.act(at, action, body);
        }
        match action {
            Action::Tick { s } => Ok(self.tick(*s)),
            Action::Open {
                tab,
                url,
                opener,
                noopener,
                method,
                head,
            } => self.open(
                *tab,
                url,
                *opener,
                *noopener,
                *method,
                head.as_slice(),
                body,
            ),
            Action::Close { tab } => self.close(*tab),
            Action::Go {
                tab,
                url,
                by_page,
                method,
                head,
            } => self.go(*tab, url, *by_page, *method, head.as_slice(), body),
            Action::Evict { site } => self.evict(site, body),
            _ => unreachable!(),
        }
    }

    fn tick(&mut self, s: u32) -> Reply
        ensures runs { Runs (plain.Tick s) self.old self.new (Ok result) }
        ensures changes { let here = world_of self.old in
            line_changes (machine self.old.rules) here (plain.Tick s) ≡ [] }
    {
        let now = self.input.clock.after(s);
        self.input.clock = now;
        ticked(now)
    }

    fn open(
        &mut self,
        tab: u16,
        url: &Address,
        opener: Option<u16>,
        noopener: bool,
        method: Method,
        head: &[HeadField],
        body: &mut Body,
    ) -> Result<Reply, NoMemory>
        ensures runs { let fields = map head_field_of head.now in
            let line = plain.Open tab (plain_address url.now) opener noopener method fields in
            Runs line self.old self.new result }
        ensures written { let fields = map head_field_of head.now in
            let line = plain.Open tab (plain_address url.now) opener noopener method fields in
            LineWrites line self.old body.old.bytes body.new.bytes result }
        ensures limit { body.new.limit ≡ body.old.limit }
    {
        if !self.held.is_there(opener) {
            return Ok(refused("open", "no-tab"));
        }
        if self.held.is_open(tab) {
            return Ok(refused("open", "tab-exists"));
        }
        let copied = if noopener { None } else { opener };
        let (site, load) = self
            .held
            .arrive(&self.input, tab, url, copied, opener, method, head, body)?;
        Ok(replied("open", site, load))
    }

    fn go(
        &mut self,
        tab: u16,
        url: &Address,
        by_page: bool,
        method: Method,
        head: &[HeadField],
        body: &mut Body,
    ) -> Result<Reply, NoMemory>
        ensures runs { let fields = map head_field_of head.now in
            let line = plain.Go tab (plain_address url.now) by_page method fields in
            Runs line self.old self.new result }
        ensures written { let fields = map head_field_of head.now in
            let line = plain.Go tab (plain_address url.now) by_page method fields in
            LineWrites line self.old body.old.bytes body.new.bytes result }
        ensures limit { body.new.limit ≡ body.old.limit }
    {
        if !self.held.is_open(tab) {
            return Ok(refused("go", "no-tab"));
        }
        let starter = if by_page { Some(tab) } else { None };
        let (site, load) = self
            .held
            .arrive(&self.input, tab, url, None, starter, method, head, body)?;
        Ok(replied("go", site, load))
    }

    fn close(&mut self, tab: u16) -> Result<Reply, NoMemory>
        ensures runs { Runs (plain.Close tab) self.old self.new result }
        ensures changes { let here = world_of self.old in
            line_changes (machine self.old.rules) here (plain.Close tab) ≡ [] }
    {
        let Some(site) = self.held.site(&self.input, tab)? else {
            return Ok(refused("close", "no-tab"));
        };
        self.held.close(tab);
        Ok(replied("close", site, answer("ok")))
    }

    fn evict(&mut self, site: &Site, body: &mut Body) -> Result<Reply, NoMemory>
        ensures runs { Runs (plain.Evict (plain_site site.now)) self.old self.new result }
        ensures written { LineWrites (plain.Evict (plain_site site.now)) self.old
            body.old.bytes body.new.bytes result }
        ensures limit { body.new.limit ≡ body.old.limit }
    {
        let named = site.copy(self.input.alloc)?;
        let cleared = self.held.evict(self.input.alloc, site, body)?;
        Ok(replied("evict", named, ReplyBody::Cleared { cleared }))
    }

    // Does an action in a tab.
    fn act(&mut self, at: Label, action: &Action, body: &mut Body) -> Result<Reply, NoMemory>
        requires named { label_of (action_of action.now) ≡ Some at }
        ensures runs { Runs (action_of action.now) self.old self.new result }
        ensures written { LineWrites (action_of action.now) self.old
            body.old.bytes body.new.bytes result }
        ensures limit { body.new.limit ≡ body.old.limit }
    {
        let name = action.name();
        let Some(site) = self.held.site(&self.input, at.tab)? else {
            return Ok(refused(name, "no-tab"));
        };
        let told = self.held.act(&self.input, at, action, body)?;
        Ok(replied(name, site, told))
    }
}
