//! The permissions that are kept.
ghost use Rattle.std.specs.Prelude.{◌≡◌, ◌≤◌, ◌<◌, ◌+◌, ◌-◌, ◌⊎◌, ℕ, [], ◌∷◌, ◌++◌, None, Some};
ghost use Rattle.std.specs.Prelude.{IfOk, IsOk, IsSome, IsTrue, OnErr, OnOk, false, filter, map};
ghost use Rattle.std.specs.Prelude.{length, nat_eq, not, true, vec_capacity};
ghost use Rattle.std.specs.Prelude.{slice_get, if◌then◌else◌};
ghost use Rattle.std.specs.Option.{option_copied, option_map, option_or};
ghost use Rattle.std.specs.List.{find, list_all, list_any, position};
ghost use Rattle.std.specs.HashMap.{IsUnique, get, hash_map_len, spare};
ghost use Rattle.origin_site.specs.Plain.{plain_site};
ghost use Rattle.access_grants.specs.Grant.{HasDistinctPairs, grant_state, has_row};
ghost use Rattle.access_grants.specs.Grant.{is_of, with_row, spare_after};
ghost use Rattle.access_grants.specs.UnderSite.{KeepsUnder, grants_under};
ghost use Rattle.access_grants.specs.Index.{codes_of};
ghost use Rattle.access_grants.specs.Plain.{plain_grant};
ghost use Rattle.access_grants.specs.Stays.{grant_stays};
ghost use Rattle.access_grants.specs.Request.{GivesAccess, first_row, request_rows};

use crate::code::pair_code;
use crate::outcome::decide;
use crate::permission::{is_of, state_of};
use crate::{Answer, Facts, GrantRow, GrantState, Outcome};
use agent_base::NoMemory;
use origin_site::Site;
use std::alloc::Global;
use std::collections::HashMap;
use std::marker::Model;
use suffix_list::SuffixList;

/// The permissions of all pairs of sites, in the order in which the pairs were first kept.
///
/// A look-up takes the same time among any number of rows. A `keep` takes no memory: its room is
/// made by `reserve` before.
#[derive(Debug, Drop)]
pub struct Grants {
    rows: Vec<GrantRow>,
    // the place of the first row of each number of a pair
    places: HashMap<u64, usize>,
    // for how many more rows both have room
    room: usize,
}

impl Model for Grants {
    ghost use Rattle.std.specs.Prelude.{◌-◌, map, vec_capacity, length};
    ghost use Rattle.access_grants.specs.Grant.{PlainGrants};
    ghost use Rattle.access_grants.specs.Index.{IsIndexed};
    ghost use Rattle.access_grants.specs.Plain.{plain_grant};

    ghost Value = { PlainGrants };

    ghost view = { λ g. record { rows = map plain_grant g.rows.items; spare = g.room } };

    ghost invariant = { λ g. let free = vec_capacity g.rows - length g.rows.items in
        IsIndexed (map plain_grant g.rows.items) free g.places g.room };
}

impl Grants {
    /// No permission.
    pub fn new(alloc: Global) -> Grants
        ensures empty { result.rows ≡ [] }
    {
        Grants {
            rows: Vec::new(alloc),
            places: HashMap::new(alloc),
            room: 0,
        }
    }

    /// What is known of `site`, embedded under `top`, at a moment.
    pub fn state(&self, top: &Site, site: &Site, now: i64) -> GrantState
        ensures state { result
            ≡ grant_state (plain_site top.now) (plain_site site.now) now self.now.rows }
        ensures under { let own = grants_under (plain_site top.now) self.now.rows in
            result ≡ grant_state (plain_site top.now) (plain_site site.now) now own }
    {
        match self.row_of(top, site) {
            Some(row) => state_of(row, now),
            None => GrantState::Unset,
        }
    }

    /// What a request comes to that a document of `site` makes under `top`. It keeps nothing.
    ///
    /// For a document of an opaque origin, which has no site, `site` may be any.
    pub fn request(
        &self,
        top: &Site,
        site: &Site,
        facts: &Facts,
        answer: Answer,
        now: i64,
    ) -> Outcome
        ensures row { let pair = grant_state (plain_site top.now) (plain_site site.now) in
            let state = pair now self.now.rows in
            first_row (request_rows facts.now state answer now) ≡ Some result }
        ensures access { GivesAccess facts.now result }
    {
        decide(facts, self.state(top, site, now), answer, now)
    }

    /// Makes room for `more` rows.
    pub fn reserve(&mut self, more: usize) -> Result<(), NoMemory>
        ensures spare { OnOk result (more ≤ self.new.spare) }
        ensures same { self.new.rows ≡ self.old.rows }
        ensures kept { self.old.spare ≤ self.new.spare }
        ensures ready { more ≤ self.old.spare → IsOk result }
        ensures unchanged { OnErr result (self.new ≡ self.old) }
    {
        if more <= self.room {
            return Ok(());
        }
        self.rows.reserve(more)?;
        self.places.reserve(more)?;
        self.room = more;
        Ok(())
    }

    /// Keeps a row: in the place of its pair's row, or last where the pair has none.
    pub fn keep(&mut self, row: GrantRow)
        requires room { IsTrue (has_row (plain_grant row) self.old.rows) ⊎ (0 < self.old.spare) }
        ensures rows { self.new.rows ≡ with_row (plain_grant row) self.old.rows }
        ensures spare { self.new.spare ≡ spare_after (plain_grant row) self.old }
        ensures under { KeepsUnder (plain_grant row) self.old.rows self.new.rows }
    {
        match self.place(&row.top, &row.site) {
            Some(place) => self.rows[place] = row,
            None => self.push(row),
        }
    }

    /// Keeps the rows whose sites are sites under a list, in their order, and answers whether any
    /// went. Takes no memory, and there is room for as many more rows as before.
    pub fn migrate(&mut self, list: &SuffixList) -> bool
        ensures rows { self.new.rows ≡ filter (grant_stays list.now.rules) self.old.rows }
        ensures went { result ≡ not (list_all (grant_stays list.now.rules) self.old.rows) }
        ensures spare { self.new.spare ≡ self.old.spare }
    {
        if all_stay(self.rows.as_slice(), list) {
            return false;
        }
        retain_rows(&mut self.rows, list);
        note_rows(&mut self.places, self.rows.as_slice());
        true
    }

    /// The row at a place, counted from 0.
    pub fn row(&self, n: usize) -> Option<&GrantRow>
        ensures row { option_map plain_grant (option_copied result) ≡ slice_get self.now.rows n }
        ensures distinct { HasDistinctPairs self.now.rows }
    {
        self.rows.get(n)
    }

    /// All rows, in the order in which their pairs were first kept.
    pub fn rows(&self) -> &[GrantRow]
        ensures rows { map plain_grant result.now ≡ self.now.rows }
        ensures distinct { HasDistinctPairs self.now.rows }
    {
        self.rows.as_slice()
    }

    /// The same permissions in the same order, over memory of their own.
    pub fn copy(&self) -> Result<Grants, NoMemory>
        ensures same { IfOk result (λ grants. grants.rows ≡ self.now.rows) }
    {
        let rows = copied(*self.rows.allocator(), self.rows.as_slice())?;
        let Ok(places) = self.places.clone() else {
            return Err(NoMemory);
        };
        Ok(Grants {
            rows,
            places,
            room: 0,
        })
    }

    // The row of a pair.
    fn row_of(&self, top: &Site, site: &Site) -> Option<&GrantRow>
        ensures row { option_map plain_grant (option_copied result)
            ≡ find (is_of (plain_site top.now) (plain_site site.now)) self.now.rows }
    {
        let place = self.place(top, site)?;
        self.row(place)
    }

    // The place of the row of a pair.
    fn place(&self, top: &Site, site: &Site) -> Option<usize>
        ensures place { result
            ≡ position (is_of (plain_site top.now) (plain_site site.now)) self.now.rows }
    {
        let first = *self.places.get(&pair_code(top, site))?;
        match self.row(first) {
            Some(row) if is_of(row, top, site) => Some(first),
            // another pair has the same number
            _ => place_among(self.rows.as_slice(), top, site),
        }
    }

    // Keeps the row of a pair that has none.
    fn push(&mut self, row: GrantRow)
        requires new { has_row (plain_grant row) self.old.rows ≡ false }
        requires room { 0 < self.old.spare }
        ensures rows { self.new.rows ≡ self.old.rows ++ plain_grant row ∷ [] }
        ensures spare { self.new.spare ≡ self.old.spare - 1 }
    {
        let code = pair_code(&row.top, &row.site);
        note(&mut self.places, code, self.rows.len());
        self.rows.push_reserved(row);
        self.room -= 1;
    }
}

// Gives a number a place, unless it has one.
fn note(places: &mut HashMap<u64, usize>, code: u64, place: usize)
    requires room { get nat_eq places.old code ≡ None → 0 < spare places.old }
    ensures noted { (other : ℕ) → get nat_eq places.new other ≡ option_or
        (get nat_eq places.old other) (if nat_eq other code then Some place else None) }
    ensures room { spare places.old ≤ spare places.new + 1 }
    ensures whole { hash_map_len places.old + spare places.old
        ≤ hash_map_len places.new + spare places.new }
    ensures unique { IsUnique nat_eq places.old → IsUnique nat_eq places.new }
{
    if places.contains_key(&code) {
        return;
    }
    if places.insert(code, place).is_err() {
        unreachable!()
    }
}

// Gives each number of rows the place of its first row, and no other number one. Each of them had
// a place, so that the room for more numbers stays.
fn note_rows(places: &mut HashMap<u64, usize>, rows: &[GrantRow])
    requires known { let codes = codes_of (map plain_grant rows.now) in
        (code : ℕ) → list_any (nat_eq code) codes ≡ true → IsSome (get nat_eq places.old code) }
    ensures noted { let codes = codes_of (map plain_grant rows.now) in
        (code : ℕ) → get nat_eq places.new code ≡ position (nat_eq code) codes }
    ensures room { spare places.old ≤ spare places.new }
{
    places.clear();
    for (place, row) in rows.iter().enumerate() {
        note(places, pair_code(&row.top, &row.site), place);
    }
}

// Drops the rows that are none under a list.
fn retain_rows(rows: &mut Vec<GrantRow>, list: &SuffixList)
    ensures kept { map plain_grant rows.new.items
        ≡ filter (grant_stays list.now.rules) (map plain_grant rows.old.items) }
    ensures fewer { length rows.new.items ≤ length rows.old.items }
    ensures capacity { vec_capacity rows.new ≡ vec_capacity rows.old }
{
    rows.retain(|row| row.stays(list));
}

// Whether all rows are ones under a list.
fn all_stay(rows: &[GrantRow], list: &SuffixList) -> bool
    ensures { result ≡ list_all (grant_stays list.now.rules) (map plain_grant rows.now) }
{
    rows.iter().all(|row| row.stays(list))
}

// The rows over memory of their own.
fn copied(alloc: Global, rows: &[GrantRow]) -> Result<Vec<GrantRow>, NoMemory>
    ensures same { IfOk result (λ copies. map plain_grant copies.items ≡ map plain_grant rows.now) }
{
    let mut copies = Vec::new(alloc);
    for row in rows {
        if copies.push(row.copy(alloc)?).is_err() {
            return Err(NoMemory);
        }
    }
    Ok(copies)
}

// The place of the row of a pair among rows.
fn place_among(rows: &[GrantRow], top: &Site, site: &Site) -> Option<usize>
    ensures place { result ≡ position
        (λ row. is_of (plain_site top.now) (plain_site site.now) (plain_grant row)) rows.now }
{
    rows.iter().position(|row| is_of(row, top, site))
}
