//! The tabs at each top-level site.
ghost use Rattle.std.specs.Prelude.{◌≡◌, ◌<◌, [], OnErr, OnOk, false, true, vec_capacity, vec_len, if◌then◌else◌};
ghost use Rattle.std.specs.List.{list_any};
ghost use Rattle.std.specs.Prelude.{◌==◌};
ghost use Rattle.origin_site.specs.Plain.{plain_site};
ghost use Rattle.origin_site.specs.Site.{same_plain_site};
ghost use Rattle.origin_site.specs.declared.site.Site.{Site};
ghost use Rattle.live_state.specs.SiteTabs.{are_rising, has_room, listed_at, with_number, without_number};

use agent_base::NoMemory;
use origin_site::Site;
use std::alloc::Global;
use std::collections::BTreeMap;

/// The numbers of the open tabs at each top-level site, in rising order.
///
/// A site without tabs has no entry, unless room was made for one.
#[derive(Debug, Drop)]
pub struct SiteTabs {
    numbers: BTreeMap<Site, Vec<u16>>,
}

impl SiteTabs {
    /// No tab at any site.
    pub fn new(alloc: Global) -> SiteTabs
        ensures empty { result.numbers.entries ≡ [] }
    {
        SiteTabs {
            numbers: BTreeMap::new(alloc),
        }
    }

    /// The numbers of the tabs at a site.
    pub fn at(&self, site: &Site) -> &[u16]
        ensures numbers { result.now ≡ listed_at (plain_site site.now) self.now.numbers }
    {
        match self.numbers.get(site) {
            Some(numbers) => numbers.as_slice(),
            None => &[],
        }
    }

    /// Makes room for one tab more at a site.
    pub fn reserve(&mut self, alloc: Global, site: &Site) -> Result<(), NoMemory>
        ensures reserved { OnOk result (has_room (plain_site site.now) self.new.numbers ≡ true) }
        ensures memory { OnErr result (has_room (plain_site site.now) self.old.numbers ≡ false) }
        ensures same { (other : Site) → listed_at (plain_site other) self.new.numbers
            ≡ listed_at (plain_site other) self.old.numbers }
        ensures kept { (other : Site) → has_room (plain_site other) self.old.numbers ≡ true
            → has_room (plain_site other) self.new.numbers ≡ true }
    {
        match self.numbers.get_mut(site) {
            Some(numbers) => Ok(numbers.reserve(1)?),
            None => self.add_site(alloc, site),
        }
    }

    // Adds a site that is not there, with room for one tab.
    fn add_site(&mut self, alloc: Global, site: &Site) -> Result<(), NoMemory>
        requires absent { listed_at (plain_site site.now) self.old.numbers ≡ [] }
        ensures reserved { OnOk result (has_room (plain_site site.now) self.new.numbers ≡ true) }
        ensures same { (other : Site) → listed_at (plain_site other) self.new.numbers
            ≡ listed_at (plain_site other) self.old.numbers }
        ensures kept { (other : Site) → has_room (plain_site other) self.old.numbers ≡ true
            → has_room (plain_site other) self.new.numbers ≡ true }
    {
        let mut numbers = Vec::new(alloc);
        numbers.reserve(1)?;
        match self.numbers.insert(site.copy(alloc)?, numbers) {
            Ok(_) => Ok(()),
            Err(_) => Err(NoMemory),
        }
    }

    /// Puts a tab at a site, where it is not and where there is room for it.
    pub fn put(&mut self, site: &Site, number: u16)
        requires room { has_room (plain_site site.now) self.old.numbers ≡ true }
        requires rising { are_rising (listed_at (plain_site site.now) self.old.numbers) ≡ true }
        requires absent { list_any (λ n. n == number)
            (listed_at (plain_site site.now) self.old.numbers) ≡ false }
        ensures put { (other : Site) → listed_at (plain_site other) self.new.numbers
            ≡ (if same_plain_site (plain_site site.now) (plain_site other)
            then with_number number (listed_at (plain_site other) self.old.numbers)
            else listed_at (plain_site other) self.old.numbers) }
    {
        if let Some(numbers) = self.numbers.get_mut(site) {
            insert_number(numbers, number);
        }
    }

    /// Takes a tab from a site.
    pub fn drop(&mut self, site: &Site, number: u16)
        ensures dropped { (other : Site) → listed_at (plain_site other) self.new.numbers
            ≡ (if same_plain_site (plain_site site.now) (plain_site other)
            then without_number number (listed_at (plain_site other) self.old.numbers)
            else listed_at (plain_site other) self.old.numbers) }
        ensures kept { (other : Site)
            → same_plain_site (plain_site site.now) (plain_site other) ≡ false
            → has_room (plain_site other) self.new.numbers
            ≡ has_room (plain_site other) self.old.numbers }
    {
        if self.is_emptied(site, number) {
            self.numbers.remove(site);
        }
    }

    // Takes a tab from a site, and says whether none is left.
    fn is_emptied(&mut self, site: &Site, number: u16) -> bool
        ensures dropped { (other : Site) → listed_at (plain_site other) self.new.numbers
            ≡ (if same_plain_site (plain_site site.now) (plain_site other)
            then without_number number (listed_at (plain_site other) self.old.numbers)
            else listed_at (plain_site other) self.old.numbers) }
        ensures kept { (other : Site)
            → same_plain_site (plain_site site.now) (plain_site other) ≡ false
            → has_room (plain_site other) self.new.numbers
            ≡ has_room (plain_site other) self.old.numbers }
        ensures none { result ≡ true → listed_at (plain_site site.now) self.new.numbers ≡ [] }
    {
        match self.numbers.get_mut(site) {
            Some(numbers) => {
                numbers.retain(|n| *n != number);
                numbers.is_empty()
            }
            None => false,
        }
    }
}

// Puts a number at its place among others, where there is room for it.
fn insert_number(numbers: &mut Vec<u16>, number: u16)
    requires room { vec_len numbers.old < vec_capacity numbers.old }
    requires rising { are_rising numbers.old.items ≡ true }
    requires absent { list_any (λ n. n == number) numbers.old.items ≡ false }
    ensures inserted { numbers.new.items ≡ with_number number numbers.old.items }
{
    if let Err(place) = numbers.binary_search(&number) {
        let _ = numbers.insert(place, number);
    }
}
