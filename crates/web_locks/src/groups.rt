//! Numbers by the group that they are of.
ghost use Rattle.std.specs.Prelude.{◌≡◌, [], false, OnErr, OnOk, option_copied};
ghost use Rattle.std.specs.Ordering.{is_eq};
ghost use Rattle.web_locks.specs.Numbers.{first_after};
ghost use Rattle.std.specs.Map.{keys_of};
ghost use Rattle.std.specs.List.Sorted.{IsStrictlySortedBy};
ghost use Rattle.key_map.specs.Entries.{next_key};
ghost use Rattle.web_locks.specs.Groups.{Adds, Removes, SameGroups, group_of};

use crate::numbers::Numbers;
use agent_base::NoMemory;
use key_map::KeyMap;
use std::alloc::Global;
use std::marker::Model;

/// Ascending numbers by group. A group that has none is not kept.
#[derive(Debug, Drop)]
pub(crate) struct Groups<G: Ord + Drop> {
    by_group: KeyMap<G, Numbers>,
    alloc: Global,
}

impl<G: Ord + Drop> Model for Groups<G> {
    ghost use Rattle.std.specs.Prelude.{List, ℕ};

    ghost Value = { List (G × List ℕ) };

    ghost view = { λ g. g.by_group };
}

impl<G: Ord + Drop> Groups<G> {
    /// No groups.
    pub(crate) fn new(alloc: Global) -> Groups<G>
        ensures empty { result ≡ [] }
    {
        Groups {
            by_group: KeyMap::new(alloc),
            alloc,
        }
    }

    /// The first number of a group that is greater than `after`, or the first of all.
    pub(crate) fn next(&self, group: &G, after: Option<u64>) -> Option<u64>
        ensures next { result ≡ first_after after (group_of G.cmp group.now self.now) }
    {
        match self.by_group.get(group) {
            Some(numbers) => numbers.next(after),
            None => None,
        }
    }

    /// The least group that is greater than `after`, or the least of all.
    pub(crate) fn next_group(&self, after: Option<&G>) -> Option<&G>
        ensures group { option_copied result ≡ next_key G.cmp (option_copied after.entry) self.now }
        ensures ordered { IsStrictlySortedBy G.cmp (keys_of self.now) }
    {
        self.by_group.next_key(after)
    }

    /// Adds a number to a group.
    pub(crate) fn add(&mut self, group: G, number: u64) -> Result<(), NoMemory>
        ensures added { OnOk result
            (Adds G.cmp (λ q. is_eq (G.cmp group q)) number self.old self.new) }
        ensures unchanged { OnErr result (SameGroups G.cmp self.old self.new) }
    {
        if self.by_group.contains(&group) {
            return self.add_within(&group, number);
        }
        let numbers = Numbers::one(self.alloc, number)?;
        self.by_group.insert(group, numbers)
    }

    // Adds a number to a group that has numbers.
    fn add_within(&mut self, group: &G, number: u64) -> Result<(), NoMemory>
        ensures added { OnOk result
            (Adds G.cmp (λ q. is_eq (G.cmp group.now q)) number self.old self.new) }
        ensures unchanged { OnErr result (SameGroups G.cmp self.old self.new) }
    {
        match self.by_group.get_mut(group) {
            Some(numbers) => numbers.add(number),
            None => Err(NoMemory),
        }
    }

    /// Takes a number out of a group, where the group has it.
    pub(crate) fn remove(&mut self, group: &G, number: u64)
        ensures removed { Removes G.cmp (λ q. is_eq (G.cmp group.now q)) number self.old self.new }
    {
        if !self.remove_within(group, number) {
            let _ = self.by_group.remove(group);
        }
    }

    // Takes a number out of a group, and tells whether the group has others.
    fn remove_within(&mut self, group: &G, number: u64) -> bool
        ensures removed { Removes G.cmp (λ q. is_eq (G.cmp group.now q)) number self.old self.new }
        ensures none { result ≡ false → group_of G.cmp group.now self.new ≡ [] }
    {
        match self.by_group.get_mut(group) {
            Some(numbers) => numbers.remove(number),
            None => false,
        }
    }
}
