//! The cookies of all sites, by cell.
ghost use Rattle.std.specs.Prelude.{◌≡◌, ◌≤◌, [], IfOk, IfSome, IsOk, OnErr, OnOk, is_some, map, not, option_map, true};
ghost use Rattle.std.specs.Option.{ForSome};
ghost use Rattle.std.specs.Rc.{rc_value};
ghost use Rattle.cookie_jar.specs.Key.{PlainKey, plain_key};
ghost use Rattle.partition_limits.specs.declared.tally.CellKind.TheVariants as kind;
ghost use Rattle.reply_lines.specs.Plain.{body_of};
ghost use Rattle.script_actions.specs.Plain.{head_field_of};
ghost use Rattle.agent_model.specs.CookieCells.{no_cookies};
ghost use Rattle.agent_model.specs.PartitionedCells.{no_partitioned_cells};
ghost use Rattle.agent_model.specs.Cookies.{read_cookies_by, request, set_cookie_by};
ghost use Rattle.agent_model.specs.Effects.{Effect};
ghost use Rattle.web_cookies.specs.Stored.{IsDoneBy, shared_in, partitioned_in};
ghost use Rattle.web_cookies.specs.Uses.{plain_use};
ghost use Rattle.web_cookies.specs.Migrated.{all_stay, partitioned_kept, shared_kept};
ghost use Rattle.web_cookies.specs.Cells.{cookies_at, jar_at, kind_of};
ghost use Rattle.web_cookies.specs.Prepared.{HasPlace, HasPlaceIf, Prepares, changed, changed_if};
ghost use Rattle.web_cookies.specs.Becoming.{FitsKey};
ghost use Rattle.web_cookies.specs.CellsOfUse.{AreKeysOf, HasKey, HoldSame, IsSending, KeepKeys, cookies_if, found};

use crate::both::BothJars;
use crate::change::{Becomes, BothChanges, is_nothing, write};
use crate::cookie_use::CookieUse;
use crate::keys::{UseKeys, keys_of};
use crate::line_input::LineInput;
use crate::prepared::{Prepared, marking, setting, storing};
use crate::sending::{Sending, chosen, header_value};
use agent_base::NoMemory;
use cookie_jar::{CellKey, Jar};
use key_map::KeyMap;
use partition_limits::CellKind;
use reply_lines::ReplyBody;
use row_changes::Change;
use script_actions::HeadField;
use std::alloc::Global;
use std::marker::Model;
use std::rc::Rc;
use suffix_list::SuffixList;

/// The cookies of all sites: a jar for each cell.
///
/// A cell that is empty and one that is absent are the same.
#[derive(Debug, Drop)]
pub struct Cookies {
    pub(crate) cells: KeyMap<CellKey, Jar>,
    // The keys of the last use that was performed. Requests of a page mostly use the same cells,
    // and then the next one makes no keys.
    last_keys: Option<Rc<UseKeys>>,
}

impl Model for Cookies {
    ghost use Rattle.web_cookies.specs.Stored.{Entries};
    ghost use Rattle.web_cookies.specs.Cells.{HaveKinds};

    ghost Value = { Entries };

    ghost view = { λ c. c.cells };

    ghost invariant = { λ c. HaveKinds c.cells };
}

impl Cookies {
    /// No cookies.
    pub fn new(alloc: Global) -> Cookies
        ensures shared { shared_in result ≡ no_cookies }
        ensures partitioned { partitioned_in result ≡ no_partitioned_cells }
    {
        Cookies {
            cells: KeyMap::new(alloc),
            last_keys: None,
        }
    }

    /// What a request makes of the cookies: its own are chosen and marked as used, and then the
    /// texts of its response are stored. Changes no cookie.
    ///
    /// Where the response has no Set-Cookie text, or one alone that replaces a cookie and does no
    /// more, no jar is copied. The keys of both cells are made where the last use had others.
    pub fn prepare(
        &mut self,
        input: &LineInput<'_>,
        how: &CookieUse<'_>,
        head: &[HeadField],
    ) -> Result<Prepared, NoMemory>
        ensures shared { shared_in self.new ≡ shared_in self.old }
        ensures partitioned { partitioned_in self.new ≡ partitioned_in self.old }
        ensures prepared { IfOk result (λ prepared. Prepares
            (request input.now.list.now.rules input.now.clock (plain_use how.now)
            (map head_field_of head.now)) self.new
            prepared) }
    {
        let keys = keys_of(input, how, &self.last_keys)?;
        let in_place = self.texts_in_place(input, how, &keys, head)?;
        let Some((stored, words)) = in_place else {
            return self.prepare_storing(input, how, head, keys);
        };
        let sending = self.sending(input, how, &keys)?;
        Ok(marking(input.clock, keys, sending, stored, words))
    }

    /// Does what was prepared for these cookies as they stand. Takes no memory.
    pub fn perform(&mut self, prepared: Prepared) -> ReplyBody
        ensures done { (does : Effect) → Prepares does self.old prepared
            → IsDoneBy does self.old self.new (body_of result) }
    {
        let Prepared { cells, body, .. } = prepared;
        let BothChanges {
            keys,
            own,
            partition,
        } = cells;
        self.change_if(&keys.own, own);
        self.change(&keys.partition, partition);
        self.last_keys = Some(keys);
        body
    }

    /// What a script that sets a cookie makes of the cookies. Changes no cookie.
    ///
    /// Where the text replaces a cookie and does no more, no jar is copied, and else those of both
    /// cells.
    pub fn prepare_set(
        &mut self,
        input: &LineInput<'_>,
        how: &CookieUse<'_>,
        text: &str,
    ) -> Result<Prepared, NoMemory>
        ensures shared { shared_in self.new ≡ shared_in self.old }
        ensures partitioned { partitioned_in self.new ≡ partitioned_in self.old }
        ensures prepared { IfOk result (λ prepared. Prepares
            (set_cookie_by input.now.list.now.rules input.now.clock
            (plain_use how.now) text.now) self.new
            prepared) }
    {
        let keys = keys_of(input, how, &self.last_keys)?;
        let in_place = self.text_in_place(input, how, &keys, text)?;
        if let Some((stored, word)) = in_place {
            return Ok(setting(input.alloc, keys, stored, word));
        }
        let mut both = self.copies(input, how, &keys)?;
        let mut rows = Vec::new(input.alloc);
        let word = both.store(input, how, &keys, text, &mut rows)?;
        Ok(storing(keys, both, rows, ReplyBody::SetOne { set: word }))
    }

    /// A script reads cookies. It marks none.
    pub fn read(&self, input: &LineInput<'_>, how: &CookieUse<'_>) -> Result<ReplyBody, NoMemory>
        ensures done { IfOk result (λ body. IsDoneBy
            (read_cookies_by input.now.list.now.rules input.now.clock
            (plain_use how.now)) self.now self.now
            (body_of body)) }
    {
        let keys = keys_of(input, how, &self.last_keys)?;
        let Sending { text, .. } = self.sending(input, how, &keys)?;
        Ok(ReplyBody::Cookie { cookie: text })
    }
}

impl Cookies {
    /// Keeps the cells that are such under a list with the cookies that they have, and drops the
    /// others, each with all of its cookies. Tells whether one that has cookies was dropped. It
    /// takes no memory.
    pub fn migrate(&mut self, list: &SuffixList) -> bool
        ensures shared { shared_in self.new ≡ shared_kept list.now.rules (shared_in self.old) }
        ensures partitioned { partitioned_in self.new
            ≡ partitioned_kept list.now.rules (partitioned_in self.old) }
        ensures went { result
            ≡ not (all_stay list.now.rules (shared_in self.old) (partitioned_in self.old)) }
    {
        self.cells
            .retain(|cell, jar| jar.len() == 0 || jar.stays(cell, list))
    }
}

impl Cookies {
    // What goes out of both cells of a use.
    fn sending(
        &self,
        input: &LineInput<'_>,
        how: &CookieUse<'_>,
        keys: &UseKeys,
    ) -> Result<Sending, NoMemory>
        requires keys { AreKeysOf input.now.list.now.rules (plain_use how.now) keys.now }
        ensures sending { IfOk result (λ s. IsSending input.now.list.now.rules input.now.clock
            (plain_use how.now)
            self.now s) }
    {
        let no_own = Jar::new(input.alloc, CellKind::Own);
        let no_partition = Jar::new(input.alloc, CellKind::Partition);
        let own = self.own_or(&keys.own, &no_own);
        let partition = self.jar_or(&keys.partition, &no_partition);
        chosen(input, how, own, partition)
    }

    // The jar of the unpartitioned cell, if there is one, or another.
    fn own_or<'a>(&'a self, key: &Option<CellKey>, other: &'a Jar) -> &'a Jar
        requires own { IfSome (option_map plain_key key.now) (λ key. kind_of key ≡ kind.Own) }
        requires kind { other.now.kind ≡ kind.Own }
        requires empty { other.now.cookies ≡ [] }
        ensures kind { result.now.kind ≡ kind.Own }
        ensures cookies { result.now.cookies
            ≡ cookies_if (option_map plain_key key.now) self.now }
    {
        match key {
            Some(key) => self.jar_or(key, other),
            None => other,
        }
    }

    // The jar of a cell, if there is one, or another.
    fn jar_or<'a>(&'a self, key: &CellKey, other: &'a Jar) -> &'a Jar
        requires kind { other.now.kind ≡ kind_of (plain_key key.now) }
        requires empty { other.now.cookies ≡ [] }
        ensures kind { result.now.kind ≡ kind_of (plain_key key.now) }
        ensures cookies { result.now.cookies ≡ cookies_at (plain_key key.now) self.now }
    {
        self.cells.get(key).unwrap_or(other)
    }

    // Prepares a request whose response has a Set-Cookie text.
    fn prepare_storing(
        &mut self,
        input: &LineInput<'_>,
        how: &CookieUse<'_>,
        head: &[HeadField],
        keys: Rc<UseKeys>,
    ) -> Result<Prepared, NoMemory>
        requires keys { AreKeysOf input.now.list.now.rules (plain_use how.now) (rc_value keys) }
        ensures same { HoldSame self.old self.new }
        ensures prepared { IfOk result (λ prepared. Prepares
            (request input.now.list.now.rules input.now.clock (plain_use how.now)
            (map head_field_of head.now)) self.new
            prepared) }
    {
        let mut both = self.copies(input, how, &keys)?;
        let Sending {
            own_places,
            partition_places,
            text,
        } = chosen(input, how, &both.own, &both.partition)?;
        let mut rows = Vec::new(input.alloc);
        both.mark(&own_places, &partition_places, input.clock);
        let words = both.store_all(input, how, &keys, head, &mut rows)?;
        let body = ReplyBody::Load {
            cookie: header_value(&own_places, &partition_places, text),
            set: words,
        };
        Ok(storing(keys, both, rows, body))
    }

    // Copies of the jars of both cells of a use. Each cell has a place then.
    fn copies(
        &mut self,
        input: &LineInput<'_>,
        how: &CookieUse<'_>,
        keys: &UseKeys,
    ) -> Result<BothJars, NoMemory>
        requires keys { AreKeysOf input.now.list.now.rules (plain_use how.now) keys.now }
        ensures same { HoldSame self.old self.new }
        ensures found { IfOk result (λ both. both
            ≡ found input.now.list.now.rules (plain_use how.now) self.old) }
        ensures own { OnOk result (HasKey (option_map plain_key keys.now.own) self.new) }
        ensures partition { OnOk result (HasKey (Some (plain_key keys.now.partition)) self.new) }
    {
        let own = self.own_copy(input.alloc, &keys.own)?;
        let partition = self.copy_at(input.alloc, &keys.partition, CellKind::Partition)?;
        Ok(BothJars { own, partition })
    }

    // A copy of the jar of the unpartitioned cell, if there is one, and else an empty jar.
    fn own_copy(&mut self, alloc: Global, key: &Option<CellKey>) -> Result<Jar, NoMemory>
        requires own { IfSome (option_map plain_key key.now) (λ key. kind_of key ≡ kind.Own) }
        ensures same { HoldSame self.old self.new }
        ensures there { OnOk result (HasKey (option_map plain_key key.now) self.new) }
        ensures kind { IfOk result (λ jar. jar.kind ≡ kind.Own) }
        ensures cookies { IfOk result (λ jar. jar.cookies
            ≡ cookies_if (option_map plain_key key.now) self.old) }
    {
        match key {
            Some(key) => self.copy_at(alloc, key, CellKind::Own),
            None => Ok(Jar::new(alloc, CellKind::Own)),
        }
    }

    // A copy of the jar of a key. Where there is none, an empty one is put in its place.
    fn copy_at(&mut self, alloc: Global, key: &CellKey, kind: CellKind) -> Result<Jar, NoMemory>
        requires kind { kind ≡ kind_of (plain_key key.now) }
        ensures same { HoldSame self.old self.new }
        ensures kept { KeepKeys self.old self.new }
        ensures there { OnOk result (is_some (jar_at (plain_key key.now) self.new) ≡ true) }
        ensures kind { IfOk result (λ jar. jar.kind ≡ kind) }
        ensures cookies { IfOk result (λ jar. jar.cookies
            ≡ cookies_at (plain_key key.now) self.old) }
    {
        if let Some(jar) = self.cells.get(key) {
            return jar.copy(alloc);
        }
        self.make_room(alloc, key, kind)?;
        Ok(Jar::new(alloc, kind))
    }

    // Makes a place for the jar of a key. One that is made is empty.
    pub(crate) fn make_room(
        &mut self,
        alloc: Global,
        key: &CellKey,
        kind: CellKind,
    ) -> Result<(), NoMemory>
        requires kind { kind ≡ kind_of (plain_key key.now) }
        ensures same { HoldSame self.old self.new }
        ensures kept { KeepKeys self.old self.new }
        ensures there { OnOk result (is_some (jar_at (plain_key key.now) self.new) ≡ true) }
        ensures ready { is_some (jar_at (plain_key key.now) self.old) ≡ true
            → IsOk result × (self.new ≡ self.old) }
    {
        if self.cells.contains(key) {
            return Ok(());
        }
        self.cells.insert(key.copy(alloc)?, Jar::new(alloc, kind))
    }

    // Makes of the cookies of a cell what they become, if there is a cell.
    fn change_if(&mut self, key: &Option<CellKey>, becomes: Becomes)
        requires fits { ForSome (option_map plain_key key.now) (λ cell. FitsKey cell becomes) }
        ensures changed { HasPlaceIf (option_map plain_key key.now) self.old becomes
            → (q : PlainKey) → cookies_at q self.new
            ≡ changed_if (option_map plain_key key.now) becomes q (cookies_at q self.old) }
        ensures kept { KeepKeys self.old self.new }
    {
        match key {
            Some(key) => self.change(key, becomes),
            None => {}
        }
    }

    // Makes of the cookies of a cell what they become.
    fn change(&mut self, key: &CellKey, becomes: Becomes)
        requires fits { FitsKey (plain_key key.now) becomes }
        ensures changed { HasPlace (plain_key key.now) self.old becomes → (q : PlainKey)
            → cookies_at q self.new
            ≡ changed (plain_key key.now) becomes q (cookies_at q self.old) }
        ensures kept { KeepKeys self.old self.new }
    {
        if is_nothing(&becomes) {
            return;
        }
        let Some(jar) = self.cells.get_mut(key) else {
            return;
        };
        write(jar, becomes);
    }
}
