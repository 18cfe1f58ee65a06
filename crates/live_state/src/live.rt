//! The open tabs.
ghost use Rattle.std.specs.Prelude.{◌≡◌, ◌==◌, ◌≤◌, ◌<◌, Err, None, Some, [], false, true, length, map, IfSome, MatchResult, OnErr, OnOk, option_copied, option_map, slice_get, vec_capacity, vec_len};
ghost use Rattle.std.specs.List.{insert, list_any};
ghost use Rattle.origin_site.specs.Plain.{plain_site};
ghost use Rattle.frame_tree.specs.Calls.{without};
ghost use Rattle.origin_site.specs.Site.{same_plain_site};
ghost use Rattle.origin_site.specs.declared.site.Site.{Site};
ghost use Rattle.live_state.specs.Documents.{documents};
ghost use Rattle.live_state.specs.SiteTabs.{are_rising, has_room, listed_at, moved};
ghost use Rattle.live_state.specs.TabPlaces.{IsAt, IsGap};
ghost use Rattle.live_state.specs.Queues.{StayReadyBut, goes};
ghost use Rattle.live_state.specs.Tabs.{HasQueues, has_site_room, is_open, is_reserved, is_rising, next_tab, room_dropped, room_put, tab_at, tabs_put, without_tab};

mod frames;
mod hearers;
mod queues;

use crate::open_tab::OpenTab;
use crate::site_tabs::SiteTabs;
use crate::tab_list::TabList;
use agent_base::NoMemory;
use frame_tree::Tab;
use origin_site::{Site, same_site};
use std::alloc::Global;
use std::marker::Model;

/// The open tabs, each with its documents and the events that wait for them.
///
/// Tabs are named by numbers of the caller's choice, and documents by the numbers of tab and frame.
/// A tab is found by a binary search. What `put_tab` and `send` need is made by `reserve` and
/// `reserve_queues` before, and these leave tabs and queues as they were, also where memory is
/// wanting.
#[derive(Debug, Drop)]
pub struct Live {
    tabs: TabList,
    sites: SiteTabs,
}

impl Model for Live {
    ghost use Rattle.std.specs.Prelude.{map};
    ghost use Rattle.live_state.specs.SiteTabs.{AreIndexed, site_rooms};
    ghost use Rattle.live_state.specs.Tabs.{PlainLive};

    ghost Value = { PlainLive };

    ghost use Rattle.live_state.specs.ExistingQueues.{ready_tab};

    ghost view = { λ l. record {
      tabs = map (λ t. t.plain) l.tabs.items;
      ready = map ready_tab l.tabs.items;
      room = l.tabs.room;
      sites = site_rooms l.sites.numbers.entries;
    } };

    ghost invariant = { λ l. AreIndexed (map (λ t. t.plain) l.tabs.items) l.sites.numbers };
}

impl Live {
    /// No tab.
    pub fn new(alloc: Global) -> Live
        ensures empty { result.tabs ≡ [] }
        ensures ready { result.ready ≡ [] }
        ensures room { result.room ≡ 0 }
    {
        Live {
            tabs: TabList::new(alloc),
            sites: SiteTabs::new(alloc),
        }
    }

    /// The documents of an open tab.
    pub fn tab(&self, tab: u16) -> Option<&Tab>
        ensures tab { option_copied result ≡ option_map (λ t. t.frames) (tab_at tab self.now.tabs) }
        ensures rising { is_rising self.now.tabs ≡ true }
        ensures queues { IfSome (tab_at tab self.now.tabs) HasQueues }
    {
        match self.tabs.place_of(tab) {
            Ok(place) => Some(self.tabs.at(place).tab()),
            Err(_) => None,
        }
    }

    /// The number of the next open tab: the least that is greater than `after`, or the least of all
    /// without one.
    pub fn next_tab(&self, after: Option<u16>) -> Option<u16>
        ensures next { result ≡ next_tab after self.now.tabs }
    {
        let place = place_after(&self.tabs, after);
        match self.tabs.get(place) {
            Some(found) => Some(found.number()),
            None => None,
        }
    }

    /// Makes room for one `put_tab` of these documents into this tab, which is open or new.
    pub fn reserve(&mut self, tab: u16, made: &Tab) -> Result<(), NoMemory>
        ensures reserved { OnOk result (is_reserved tab made.now self.new ≡ true) }
        ensures same { (self.new.tabs ≡ self.old.tabs) × (self.new.ready ≡ self.old.ready) }
        ensures room { self.old.room ≤ self.new.room }
        ensures open { is_open tab self.old.tabs ≡ true → self.new.room ≡ self.old.room }
        ensures kept { (site : Site) → has_site_room (plain_site site) self.old ≡ true
            → has_site_room (plain_site site) self.new ≡ true }
        ensures memory { OnErr result (is_reserved tab made.now self.old ≡ false) }
        ensures unchanged { OnErr result (self.new.room ≡ self.old.room) }
    {
        let alloc = self.tabs.allocator();
        self.sites.reserve(alloc, made.top_site())?;
        if self.tabs.place_of(tab).is_err() {
            self.tabs.reserve()?;
        }
        Ok(())
    }

    /// Puts these documents into a tab, which is open or new. `fresh` is the frame whose document
    /// was replaced, if one was: its events go. So do those of frames that `made` lacks.
    pub fn put_tab(&mut self, tab: u16, made: Tab, fresh: Option<u8>)
        requires reserved { is_reserved tab made self.old ≡ true }
        ensures put { self.new.tabs ≡ tabs_put tab made fresh self.old.tabs }
        ensures room { self.new.room ≡ room_put tab self.old }
        ensures kept { StayReadyBut (goes tab made fresh) self.old self.new }
    {
        match self.tabs.place_of(tab) {
            Ok(place) => {
                move_tab(
                    &mut self.sites,
                    tab,
                    self.tabs.at(place).top_site(),
                    made.top_site(),
                );
                self.tabs.at_mut(place).put(made, fresh);
            }
            Err(place) => {
                self.sites.put(made.top_site(), tab);
                let opened = OpenTab::new(self.tabs.allocator(), tab, made);
                self.tabs.insert(place, opened);
            }
        }
    }

    /// Closes a tab. Its queues go with it.
    pub fn drop_tab(&mut self, tab: u16)
        ensures dropped { self.new.tabs ≡ without_tab tab self.old.tabs }
        ensures room { self.new.room ≡ room_dropped tab self.old }
        ensures kept { StayReadyBut (λ at. at.tab == tab) self.old self.new }
    {
        if let Ok(place) = self.tabs.place_of(tab) {
            self.sites.drop(self.tabs.at(place).top_site(), tab);
            self.tabs.remove(place);
        }
    }
}

/// The place of the tab of a number, or the place where it would stand, in one step where the tab
/// stands at a place that is given, which may be any.
pub fn place_by(tabs: &TabList, given: usize, number: u16) -> Result<usize, usize>
    requires rising { is_rising (map (λ t. t.plain) tabs.now.items) ≡ true }
    ensures place { let open_tabs = map (λ t. t.plain) tabs.now.items in
        MatchResult result (IsAt number open_tabs) (IsGap number open_tabs) }
    ensures fits { MatchResult result (λ place. place < length tabs.now.items)
        (λ place. place ≤ length tabs.now.items) }
{
    match tabs.get(given) {
        Some(tab) if tab.number() == number => Ok(given),
        _ => tabs.place_of(number),
    }
}

// How far behind a place a tab is looked for, one after another.
const STEPS: [usize; 18] = [
    0, 1, 2, 4, 8, 16, 32, 64, 128, 256, 512, 1024, 2048, 4096, 8192, 16384, 32768, 65536,
];

/// A place to give to `place_by`. It is that of the tab if the tab stands at `from` or behind, and
/// takes fewer steps the nearer it is.
pub fn place_behind(tabs: &TabList, from: usize, number: u16) -> usize {
    let mut low = from;
    for step in &STEPS {
        let high = from.saturating_add(*step);
        match tabs.get(high) {
            Some(tab) if tab.number() < number => low = high,
            _ => return tabs.place_within(low, high, number),
        }
    }
    low
}

// The place of the first tab that is after a number.
fn place_after(tabs: &TabList, after: Option<u16>) -> usize
    requires rising { is_rising (map (λ t. t.plain) tabs.now.items) ≡ true }
    ensures place { next_tab after (map (λ t. t.plain) tabs.now.items)
        ≡ option_map (λ t. t.plain.number) (slice_get tabs.now.items result) }
{
    let Some(number) = after else {
        return 0;
    };
    match tabs.place_of(number) {
        Ok(place) => place + 1,
        Err(place) => place,
    }
}

// Moves a tab from one site to another.
fn move_tab(sites: &mut SiteTabs, number: u16, from: &Site, to: &Site)
    requires room { has_room (plain_site to.now) sites.old.numbers ≡ true }
    requires rising { are_rising (listed_at (plain_site to.now) sites.old.numbers) ≡ true }
    requires absent { same_plain_site (plain_site from.now) (plain_site to.now) ≡ false
        → list_any (λ n. n == number) (listed_at (plain_site to.now) sites.old.numbers) ≡ false }
    ensures moved { (site : Site) → listed_at (plain_site site) sites.new.numbers
        ≡ moved number (plain_site from.now) (plain_site to.now) (plain_site site)
        (listed_at (plain_site site) sites.old.numbers) }
{
    if !same_site(from, to) {
        sites.drop(from, number);
        sites.put(to, number);
    }
}
