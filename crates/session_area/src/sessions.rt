//! The session areas of all tabs.
ghost use Rattle.std.specs.Prelude.{◌≡◌, ◌↔◌, ℕ, [], Err, IfOk, MatchOption, None, OnErr, OnOk, Some, is_some, length, false, not, option_copied, ◌==◌};
ghost use Rattle.std.specs.Borrow.{sem};
ghost use Rattle.std.specs.Option.{option_copied_mut};
ghost use Rattle.key_map.specs.Entries.{map_get, map_remove, IsCopy, HasSameValues, ClonesCompareEqual};
ghost use Rattle.session_area.specs.Sessions.{areas_of, session_area, made_area, without_empty, has_empty, IsCopied, ChangesTab, KeepsOthers, SameAreas};
ghost use Rattle.session_area.specs.Lends.{LendsSession, LendsShared};

use crate::shared::{NotLent, SharedArea};
use agent_base::NoMemory;
use key_map::KeyMap;
use local_area::Area;
use std::alloc::Global;
use std::collections::BTreeMap;
use std::marker::Model;

/// Areas by tab and storage key.
///
/// An empty area and an absent one stand apart here. Layers above that compare states leave out
/// the first.
#[derive(Debug, Drop)]
pub struct Sessions<K: Ord + Drop> {
    tabs: BTreeMap<u16, KeyMap<K, SharedArea>>,
    alloc: Global,
}

impl<K: Ord + Drop> Model for Sessions<K> {
    ghost use Rattle.std.specs.Prelude.{List, ℕ};
    ghost use Rattle.local_area.specs.Area.{Pair};

    ghost Value = { List (ℕ × List (K × List Pair)) };

    ghost view = { λ s. s.tabs.entries };
}

impl<K: Ord + Drop> Sessions<K> {
    /// No areas.
    pub fn new(alloc: Global) -> Sessions<K>
        ensures empty { result ≡ [] }
    {
        Sessions {
            tabs: BTreeMap::new(alloc),
            alloc,
        }
    }

    /// The area of a tab and a key, if there is one.
    pub fn area(&self, tab: u16, key: &K) -> Option<&Area>
        ensures area { option_copied result ≡ session_area K.cmp tab key.now self.now }
    {
        match self.tabs.get(&tab) {
            Some(areas) => area_at(areas, key),
            None => None,
        }
    }

    /// Whether a tab has an area under a key.
    pub fn contains(&self, tab: u16, key: &K) -> bool
        ensures contains { result ≡ is_some (session_area K.cmp tab key.now self.now) }
    {
        match self.tabs.get(&tab) {
            Some(areas) => areas.contains(key),
            None => false,
        }
    }

    /// The areas of a tab by key, to be read. None is a tab without areas.
    pub fn areas(&self, tab: u16) -> Option<&KeyMap<K, SharedArea>>
        ensures areas { MatchOption result (areas_of tab self.now ≡ [])
            (λ areas. areas.now ≡ areas_of tab self.now) }
    {
        self.tabs.get(&tab)
    }

    /// The area that a tab has under a key, to be changed.
    ///
    /// One that tabs share is copied first, in time linear in it, and is then the tab's own. Want
    /// of memory comes for that copy alone, and leaves the areas as they were.
    pub fn area_mut(&mut self, tab: u16, key: &K) -> Result<&mut Area, NotLent>
        ensures* writes_back { sem 𝓛 (LendsSession K.row K.Ord self.entry tab key.now result) }
        ensures area { IfOk result (λ area. Some area.now
            ≡ session_area K.cmp tab key.now self.old) }
        ensures none { (result ≡ Err NotLent.NoArea)
            ↔ (session_area K.cmp tab key.now self.old ≡ None) }
    {
        match self.shared_mut(tab, key) {
            Some(shared) => shared.own(),
            None => Err(NotLent::NoArea),
        }
    }

    // What holds the area that a tab has under a key, to be changed.
    fn shared_mut(&mut self, tab: u16, key: &K) -> Option<&mut SharedArea>
        ensures* writes_back { sem 𝓛 (LendsShared K.row K.Ord self.entry tab key.now result) }
        ensures area { option_copied_mut result ≡ session_area K.cmp tab key.now self.old }
    {
        match self.tabs.get_mut(&tab) {
            Some(areas) => areas.get_mut(key),
            None => None,
        }
    }

    /// Makes room for a tab and a key: their area is there afterwards, and empty if it is new.
    ///
    /// Want of memory leaves the areas as they were.
    pub fn reserve(&mut self, tab: u16, key: K) -> Result<(), NoMemory>
        ensures made { OnOk result
            (ChangesTab tab (made_area K.cmp key (areas_of tab self.old)) self.old self.new) }
        ensures memory { OnErr result (session_area K.cmp tab key self.old ≡ None) }
        ensures unchanged { OnErr result (SameAreas self.old self.new) }
    {
        make_tab(&mut self.tabs, tab, self.alloc)?;
        match self.tabs.get_mut(&tab) {
            Some(areas) => make_area(areas, key, self.alloc),
            None => Err(NoMemory),
        }
    }

    /// Drops the area that a tab has under a key, where it is empty.
    pub fn drop_empty(&mut self, tab: u16, key: &K)
        ensures dropped { ChangesTab tab
            (without_empty K.cmp key.now (areas_of tab self.old)) self.old self.new }
    {
        if self.has_empty(tab, key) {
            self.remove(tab, key);
        }
    }

    // Whether a tab has an area under a key, which is empty.
    fn has_empty(&self, tab: u16, key: &K) -> bool
        ensures empty { result ≡ has_empty K.cmp key.now (areas_of tab self.now) }
    {
        match self.tabs.get(&tab) {
            Some(areas) => has_empty(areas, key),
            None => false,
        }
    }

    /// Drops the area that a tab has under a key, if there is one. It takes no memory.
    pub fn remove(&mut self, tab: u16, key: &K)
        ensures removed { ChangesTab tab
            (map_remove K.cmp key.now (areas_of tab self.old)) self.old self.new }
    {
        if !self.remove_within(tab, key) {
            self.close(tab);
        }
    }

    // Drops the area that a tab has under a key, and tells whether areas are left.
    fn remove_within(&mut self, tab: u16, key: &K) -> bool
        ensures removed { ChangesTab tab
            (map_remove K.cmp key.now (areas_of tab self.old)) self.old self.new }
        ensures none { result ≡ false → areas_of tab self.new ≡ [] }
    {
        match self.tabs.get_mut(&tab) {
            Some(areas) => remove_area(areas, key),
            None => false,
        }
    }

    /// Copies the areas that one tab has under these keys to another tab, which has none.
    ///
    /// Both tabs share each area until one of them changes it, so that an area costs as much as
    /// its key, whatever it holds.
    ///
    /// Want of memory leaves the areas as they were.
    pub fn clone_tab(&mut self, from: u16, to: u16, keys: Vec<K>) -> Result<(), NoMemory>
        requires { areas_of to self.old ≡ [] }
        ensures copied { OnOk result
            (IsCopied K.cmp keys.items (areas_of from self.old) (areas_of to self.new)) }
        ensures elsewhere { OnOk result (KeepsOthers to self.old self.new) }
        ensures unchanged { OnErr result (SameAreas self.old self.new) }
    {
        let copies = match self.tabs.get(&from) {
            Some(areas) => copies_of(self.alloc, areas, keys)?,
            None => return Ok(()),
        };
        match self.tabs.insert(to, copies) {
            Ok(_) => Ok(()),
            Err(_) => Err(NoMemory),
        }
    }

    /// Drops all areas of a tab.
    pub fn close(&mut self, tab: u16)
        ensures closed { ChangesTab tab [] self.old self.new }
    {
        self.tabs.remove(&tab);
    }
}

impl<K: Ord + Clone + Drop> Sessions<K> {
    /// The same tabs with equal areas under clones of the keys.
    pub fn copy(&self) -> Result<Sessions<K>, NoMemory>
        ensures copied { IfOk result (λ copy. (tab : ℕ)
            → IsCopy K.is_clone (λ area clone. clone ≡ area)
            (areas_of tab self.now) (areas_of tab copy)) }
        ensures same { ClonesCompareEqual K.cmp K.is_clone
            → IfOk result (λ copy. (tab : ℕ)
            → HasSameValues K.cmp (areas_of tab self.now) (areas_of tab copy)) }
    {
        match self.tabs.clone() {
            Ok(tabs) => Ok(Sessions {
                tabs,
                alloc: self.alloc,
            }),
            Err(_) => Err(NoMemory),
        }
    }
}

// Copies of the areas under these keys.
fn copies_of<K: Ord + Drop>(
    alloc: Global,
    areas: &KeyMap<K, SharedArea>,
    keys: Vec<K>,
) -> Result<KeyMap<K, SharedArea>, NoMemory>
    ensures copied { IfOk result (λ copies. IsCopied K.cmp keys.items areas.now copies) }
{
    let mut copies = KeyMap::new(alloc);
    for key in keys {
        if let Some(area) = areas.get(&key) {
            copies.insert(key, area.share()?)?;
        }
    }
    Ok(copies)
}

// Makes an empty area under a key that has none.
fn make_area<K: Ord + Drop>(
    areas: &mut KeyMap<K, SharedArea>,
    key: K,
    alloc: Global,
) -> Result<(), NoMemory>
    ensures made { OnOk result (areas.new ≡ made_area K.cmp key areas.old) }
    ensures memory { OnErr result (map_get K.cmp key areas.old ≡ None) }
    ensures unchanged { OnErr result (areas.new ≡ areas.old) }
{
    if areas.contains(&key) {
        return Ok(());
    }
    areas.insert(key, SharedArea::new(alloc)?)
}

// Drops the area of a key, and tells whether areas are left.
fn remove_area<K: Ord + Drop>(areas: &mut KeyMap<K, SharedArea>, key: &K) -> bool
    ensures removed { areas.new ≡ map_remove K.cmp key.now areas.old }
    ensures left { result ≡ not (length areas.new == 0) }
{
    let _ = areas.remove(key);
    !areas.is_empty()
}

// The area of a key.
fn area_at<'a, K: Ord + Drop>(areas: &'a KeyMap<K, SharedArea>, key: &K) -> Option<&'a Area>
    ensures area { option_copied result ≡ map_get K.cmp key.now areas.now }
{
    match areas.get(key) {
        Some(shared) => Some(shared.area()),
        None => None,
    }
}

// Whether a key has an area, which is empty.
fn has_empty<K: Ord + Drop>(areas: &KeyMap<K, SharedArea>, key: &K) -> bool
    ensures empty { result ≡ has_empty K.cmp key.now areas.now }
{
    match area_at(areas, key) {
        Some(area) => area.is_empty(),
        None => false,
    }
}

// Makes the map of a tab's areas, which has none at first.
fn make_tab<K: Ord + Drop>(
    tabs: &mut BTreeMap<u16, KeyMap<K, SharedArea>>,
    tab: u16,
    alloc: Global,
) -> Result<(), NoMemory>
    ensures same { SameAreas tabs.old.entries tabs.new.entries }
    ensures memory { OnErr result (areas_of tab tabs.old.entries ≡ []) }
{
    if tabs.contains_key(&tab) {
        return Ok(());
    }
    match tabs.insert(tab, KeyMap::new(alloc)) {
        Ok(_) => Ok(()),
        Err(_) => Err(NoMemory),
    }
}
