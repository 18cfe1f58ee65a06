//! The open tabs in the order of their numbers.
ghost use Rattle.std.specs.Prelude.{◌≡◌, ◌<◌, ◌≤◌, ◌+◌, ◌-◌, ◌++◌, ◌∷◌, ℕ, [], Ok, true, length, map, MatchResult, OnErr, OnOk, option_copied, slice_get, slice_index_or, vec_capacity, vec_len};
ghost use Rattle.std.specs.Borrow.{sem};
ghost use Rattle.std.specs.List.{insert, remove};
ghost use Rattle.live_state.specs.OpenTabs.{in_slot, renamed};
ghost use Rattle.live_state.specs.TabLists.{LendsTab};
ghost use Rattle.live_state.specs.TabPlaces.{IsAt, IsGap};
ghost use Rattle.live_state.specs.Tabs.{is_rising};

use crate::open_tab::OpenTab;
use agent_base::NoMemory;
use std::alloc::Global;
use std::marker::Model;

/// How many numbers of tabs there are, and so how many tabs.
const NUMBERS: usize = 65536;

/// Open tabs, which a caller keeps in the order of their numbers.
///
/// Each tab stands in a slot, and a list has the numbers of the slots in the order of the tabs. So
/// a tab that comes or goes moves two bytes for each tab behind it, and at most one tab.
#[derive(Debug, Drop)]
pub struct TabList {
    order: Vec<u16>,
    slots: Vec<OpenTab>,
    room: usize,
}

impl Model for TabList {
    ghost use Rattle.live_state.specs.OpenTabs.{AreSlots, PlainTabList, in_slots};

    ghost Value = { PlainTabList };

    ghost view = { λ l. record {
      items = in_slots l.order.items l.slots.items;
      room = l.room;
    } };

    ghost invariant = { λ l. AreSlots l.order l.slots l.room };
}

impl TabList {
    /// No tab, and no room.
    pub fn new(alloc: Global) -> TabList
        ensures items { result.items ≡ [] }
        ensures room { result.room ≡ 0 }
    {
        TabList {
            order: Vec::new(alloc),
            slots: Vec::new(alloc),
            room: 0,
        }
    }

    /// What the list takes its memory from.
    pub fn allocator(&self) -> Global {
        *self.slots.allocator()
    }

    /// The number of tabs.
    pub fn len(&self) -> usize
        ensures length { result ≡ length self.now.items }
    {
        self.order.len()
    }

    /// The tab at a place.
    pub fn get(&self, place: usize) -> Option<&OpenTab>
        ensures tab { option_copied result ≡ slice_get self.now.items place }
    {
        match self.order.get(place) {
            Some(slot) => self.slots.get(usize::from(*slot)),
            None => None,
        }
    }

    /// The tab at a place that is there.
    pub fn at(&self, place: usize) -> &OpenTab
        requires within { place < length self.now.items }
        ensures value { result.now ≡ slice_index_or self.now.items place result.now }
    {
        &self.slots[usize::from(self.order[place])]
    }

    /// The tab at a place that is there, to be changed.
    pub fn at_mut(&mut self, place: usize) -> &mut OpenTab
        requires within { place < length self.old.items }
        requires rising { is_rising (map (λ t. t.plain) self.old.items) ≡ true }
        ensures* writes_back { sem 𝓛 (LendsTab self.entry place result) }
        ensures value { result.now ≡ slice_index_or self.old.items place result.now }
    {
        let slot = usize::from(self.order[place]);
        &mut self.slots[slot]
    }

    /// The place of the tab of a number, or the place where it would stand.
    pub fn place_of(&self, number: u16) -> Result<usize, usize>
        requires rising { is_rising (map (λ t. t.plain) self.now.items) ≡ true }
        ensures place { let open_tabs = map (λ t. t.plain) self.now.items in
            MatchResult result (IsAt number open_tabs) (IsGap number open_tabs) }
        ensures fits { MatchResult result (λ place. place < length self.now.items)
            (λ place. place ≤ length self.now.items) }
        ensures few { length self.now.items ≤ 65536 }
    {
        let slots = self.slots.as_slice();
        self.order
            .binary_search_by_key(&number, |slot| number_in(slots, *slot))
    }

    /// The place of the tab of a number, if it stands at one of two places or between them, and
    /// else the first of these.
    pub fn place_within(&self, low: usize, high: usize, number: u16) -> usize {
        let end = high.saturating_add(1).min(self.order.len());
        let Some(window) = self.order.get(low..end) else {
            return low;
        };
        let slots = self.slots.as_slice();
        match window.binary_search_by_key(&number, |slot| number_in(slots, *slot)) {
            Ok(place) => low.saturating_add(place),
            Err(_) => low,
        }
    }

    /// Makes room for one tab more, where there is none.
    pub fn reserve(&mut self) -> Result<(), NoMemory>
        ensures reserved { OnOk result (0 < self.new.room) }
        ensures memory { OnErr result (self.old.room ≡ 0) }
        ensures items { self.new.items ≡ self.old.items }
        ensures room { self.old.room ≤ self.new.room }
        ensures unchanged { OnErr result (self.new.room ≡ self.old.room) }
    {
        if self.room > 0 {
            return Ok(());
        }
        if self.slots.len() == NUMBERS {
            return Err(NoMemory);
        }
        self.order.reserve(1)?;
        self.slots.reserve(1)?;
        self.room = 1;
        Ok(())
    }

    /// Puts a tab at a place. There is room for it.
    pub fn insert(&mut self, place: usize, opened: OpenTab)
        requires room { 0 < self.old.room }
        requires within { place ≤ length self.old.items }
        ensures inserted { self.new.items ≡ insert self.old.items place opened }
        ensures room { self.new.room ≡ self.old.room - 1 }
    {
        let slot = self.slots.len() as u16;
        insert_slot(&mut self.order, place, slot);
        push_tab(&mut self.slots, opened);
        self.room -= 1;
    }

    /// Takes the tab at a place out. The tab in the last slot is moved into its slot.
    pub fn remove(&mut self, place: usize)
        requires within { place < length self.old.items }
        requires rising { is_rising (map (λ t. t.plain) self.old.items) ≡ true }
        ensures removed { self.new.items ≡ remove self.old.items place }
        ensures room { self.new.room ≡ self.old.room + 1 }
    {
        let last = (self.slots.len() - 1) as u16;
        let last_at = self.place_of(self.slots[usize::from(last)].number());
        let slot = self.order[place];
        rename_slot(&mut self.order, last_at, last, slot);
        self.order.remove(place);
        self.slots.swap_remove(usize::from(slot));
        self.room += 1;
    }
}

// Puts a slot at a place of the order. There is room for it.
fn insert_slot(order: &mut Vec<u16>, place: usize, slot: u16)
    requires room { vec_len order.old < vec_capacity order.old }
    requires within { place ≤ vec_len order.old }
    ensures inserted { order.new.items ≡ insert order.old.items place slot }
    ensures capacity { vec_capacity order.new ≡ vec_capacity order.old }
{
    let _ = order.insert(place, slot);
}

// Puts a tab into a slot behind the others. There is room for it.
fn push_tab(slots: &mut Vec<OpenTab>, opened: OpenTab)
    requires room { vec_len slots.old < vec_capacity slots.old }
    ensures pushed { slots.new.items ≡ slots.old.items ++ opened ∷ [] }
    ensures capacity { vec_capacity slots.old ≤ vec_capacity slots.new }
{
    let _ = slots.push(opened);
}

// Gives a slot another number. If it stands in the order, it does so at a place that is given.
fn rename_slot(order: &mut Vec<u16>, place: Result<usize, usize>, from: u16, to: u16)
    requires fits { MatchResult place (λ place. place < vec_len order.old)
        (λ place. place ≤ vec_len order.old) }
    requires only { (k : ℕ) → k < vec_len order.old
        → slice_index_or order.old.items k 0 ≡ from → place ≡ Ok k }
    ensures renamed { order.new.items ≡ renamed from to order.old.items }
    ensures capacity { vec_capacity order.new ≡ vec_capacity order.old }
{
    let Ok(place) = place else {
        return;
    };
    if order[place] == from {
        order[place] = to;
    }
}

// The number of the tab in a slot.
fn number_in(slots: &[OpenTab], slot: u16) -> u16
    ensures number { result ≡ (in_slot slots.now slot).plain.number }
{
    match slots.get(usize::from(slot)) {
        Some(tab) => tab.number(),
        None => 0,
    }
}
