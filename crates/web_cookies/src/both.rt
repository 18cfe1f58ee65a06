//! Copies of both cells of a use, in which texts are stored.
ghost use Rattle.std.specs.Prelude.{◌≡◌, ◌≤◌, ◌+◌, ◌++◌, ◌∷◌, [], IfOk, OnOk, codes, pos, length, map};
ghost use Rattle.std.specs.List.{list_any};
ghost use Rattle.cookie_jar.specs.Sending.{marked};
ghost use Rattle.script_actions.specs.Plain.{head_field_of};
ghost use Rattle.setcookie_parse.specs.SetCookie.{Kept};
ghost use Rattle.setcookie_parse.specs.Plain.{plain_text};
ghost use Rattle.agent_model.specs.CookieStore as spec;
ghost use Rattle.case_tables.specs.Rows.{same_in_any_case};
ghost use Rattle.web_cookies.specs.Words.{AreStored, IsStored, IsWordOf, IsWordOfDrop, jar_left, rows_by, word_by};
ghost use Rattle.cookie_jar.specs.Key.{plain_key};
ghost use Rattle.cookie_jar.specs.Persistent.{rows_of_steps};
ghost use Rattle.cookie_jar.specs.Planned.{IsPlanFor, planned};
ghost use Rattle.cookie_jar.specs.Steps.{after_steps};
ghost use Rattle.cookie_jar.specs.Plain.{plain_access};
ghost use Rattle.row_changes.specs.Plain.{plain_change};
ghost use Rattle.agent_model.specs.CookieWords as spec_of;
ghost use Rattle.web_cookies.specs.CellsOfUse.{AreKeysOf};
ghost use Rattle.web_cookies.specs.Uses.{plain_use};

use crate::cookie_use::{CookieUse, access_of};
use crate::keys::UseKeys;
use crate::line_input::LineInput;
use crate::stored_rows::push_rows;
use crate::words::{drop_word, parse_word, stored_word};
use agent_base::{NoMemory, Seconds};
use cookie_jar::{Access, CellKey, CookieDrop, Destination, Jar, Plan, destination};
use partition_limits::CellKind;
use row_changes::Change;
use script_actions::HeadField;
use setcookie_parse::{CookieText, Parsed, parse};
use std::alloc::Global;
use std::marker::Model;

/// The jars of both cells of a use.
#[derive(Debug, Drop)]
pub struct BothJars {
    pub own: Jar,
    pub partition: Jar,
}

impl Model for BothJars {
    ghost use Rattle.std.specs.Prelude.{◌≡◌};
    ghost use Rattle.partition_limits.specs.declared.tally.CellKind.TheVariants as kind;
    ghost use Rattle.agent_model.specs.CookieStore.{BothCells};

    ghost Value = { BothCells };

    ghost view = { λ b. record { own = b.own.cookies; partition = b.partition.cookies } };

    ghost invariant = { λ b. (b.own.kind ≡ kind.Own) × (b.partition.kind ≡ kind.Partition) };
}

impl BothJars {
    /// Sets the last use of the cookies at these places. Takes no memory.
    pub fn mark(&mut self, own_places: &[usize], partition_places: &[usize], now: Seconds)
        ensures own { self.new.own ≡ marked own_places.now (pos now) self.old.own }
        ensures partition { self.new.partition
            ≡ marked partition_places.now (pos now) self.old.partition }
    {
        let moment = now.signed();
        self.own.mark(own_places, moment);
        self.partition.mark(partition_places, moment);
    }

    /// Stores the Set-Cookie texts of a response in their order, and answers their words. Adds the
    /// row changes of what was stored.
    pub fn store_all(
        &mut self,
        input: &LineInput<'_>,
        how: &CookieUse<'_>,
        keys: &UseKeys,
        head: &[HeadField],
        rows: &mut Vec<Change>,
    ) -> Result<Vec<&'static str>, NoMemory>
        requires keys { AreKeysOf input.now.list.now.rules (plain_use how.now) keys.now }
        ensures stored { IfOk result (λ words. AreStored (spec.store_texts input.now.list.now.rules
            input.now.clock
            (plain_use how.now) self.old (spec.cookie_texts (map head_field_of head.now)))
            self.new (map (λ word. word.now) words.items)) }
        ensures rows { OnOk result (map plain_change rows.new.items
            ≡ map plain_change rows.old.items
            ++ (spec.store_texts input.now.list.now.rules input.now.clock
            (plain_use how.now) self.old
            (spec.cookie_texts (map head_field_of head.now))).changes) }
    {
        let mut words = Vec::new(input.alloc);
        for field in head {
            self.store_field(input, how, keys, field, &mut words, rows)?;
        }
        Ok(words)
    }

    // Stores the text of a field, if it is a Set-Cookie field, and adds its word.
    fn store_field(
        &mut self,
        input: &LineInput<'_>,
        how: &CookieUse<'_>,
        keys: &UseKeys,
        field: &HeadField,
        words: &mut Vec<&'static str>,
        rows: &mut Vec<Change>,
    ) -> Result<(), NoMemory>
        requires keys { AreKeysOf input.now.list.now.rules (plain_use how.now) keys.now }
        ensures stored { OnOk result ((spec.store_texts input.now.list.now.rules input.now.clock
            (plain_use how.now)
            self.old (spec.cookie_texts (head_field_of field.now ∷ []))).both ≡ self.new) }
        ensures words { OnOk result (map (λ word. word.now) words.new.items
            ≡ map (λ word. word.now) words.old.items
            ++ (spec.store_texts input.now.list.now.rules input.now.clock
            (plain_use how.now) self.old
            (spec.cookie_texts (head_field_of field.now ∷ []))).words) }
        ensures rows { OnOk result (map plain_change rows.new.items
            ≡ map plain_change rows.old.items
            ++ (spec.store_texts input.now.list.now.rules input.now.clock
            (plain_use how.now) self.old
            (spec.cookie_texts (head_field_of field.now ∷ []))).changes) }
    {
        if !is_set_cookie(field) {
            return Ok(());
        }
        let word = self.store(input, how, keys, field.value.as_str(), rows)?;
        match words.push(word) {
            Ok(()) => Ok(()),
            Err(_) => Err(NoMemory),
        }
    }

    /// Stores a Set-Cookie text, and answers its word. Adds the row changes of what was stored.
    pub fn store(
        &mut self,
        input: &LineInput<'_>,
        how: &CookieUse<'_>,
        keys: &UseKeys,
        text: &str,
        rows: &mut Vec<Change>,
    ) -> Result<&'static str, NoMemory>
        requires keys { AreKeysOf input.now.list.now.rules (plain_use how.now) keys.now }
        ensures stored { IfOk result (λ word. IsStored (spec.store_text input.now.list.now.rules
            input.now.clock
            (plain_use how.now) self.old text.now) self.new word.now) }
        ensures rows { OnOk result (map plain_change rows.new.items
            ≡ map plain_change rows.old.items ++ (spec.store_text input.now.list.now.rules
            input.now.clock
            (plain_use how.now) self.old text.now).changes) }
    {
        match parse(text, input.clock.signed()) {
            Parsed::Dropped(why) => Ok(parse_word(why)),
            Parsed::Kept(cookie) => self.store_kept(input, how, keys, &cookie, rows),
        }
    }

    // Stores a cookie in the cell that it goes to.
    fn store_kept(
        &mut self,
        input: &LineInput<'_>,
        how: &CookieUse<'_>,
        keys: &UseKeys,
        cookie: &CookieText<'_>,
        rows: &mut Vec<Change>,
    ) -> Result<&'static str, NoMemory>
        requires keys { AreKeysOf input.now.list.now.rules (plain_use how.now) keys.now }
        requires pair { length cookie.now.name.now + length cookie.now.value.now ≤ 4096 }
        ensures stored { IfOk result (λ word. IsStored (spec.store_parsed input.now.list.now.rules
            input.now.clock
            (plain_use how.now) self.old (Kept (plain_text cookie.now))) self.new word.now) }
        ensures rows { OnOk result (map plain_change rows.new.items
            ≡ map plain_change rows.old.items ++ (spec.store_parsed input.now.list.now.rules
            input.now.clock
            (plain_use how.now) self.old (Kept (plain_text cookie.now))).changes) }
    {
        let access = access_of(how);
        match destination(cookie, &access) {
            Destination::Own => {
                let cell = keys.own_cell();
                store_in(&mut self.own, cell, input, &access, cookie, rows)
            }
            Destination::Partition => {
                let cell = &keys.partition;
                store_in(&mut self.partition, cell, input, &access, cookie, rows)
            }
            Destination::Nowhere => {
                let none = Jar::new(input.alloc, CellKind::Own);
                word_of(none.plan(
                    input.alloc,
                    cookie,
                    &access,
                    input.list,
                    input.clock.signed(),
                ))
            }
        }
    }
}

// Stores a cookie in the jar of a cell, and answers its word. Adds its row changes.
fn store_in(
    jar: &mut Jar,
    cell: &CellKey,
    input: &LineInput<'_>,
    access: &Access<'_>,
    cookie: &CookieText<'_>,
    rows: &mut Vec<Change>,
) -> Result<&'static str, NoMemory>
    requires pair { length cookie.now.name.now + length cookie.now.value.now ≤ 4096 }
    ensures stored { let plan = planned input.now.list.now.rules (plain_text cookie.now)
        (plain_access access.now) jar.old.kind (pos input.now.clock) jar.old.cookies in
        IfOk result (λ word. (jar.new.cookies ≡ jar_left jar.old.cookies plan)
        × (word.now ≡ word_by plan)) }
    ensures rows { OnOk result (map plain_change rows.new.items
        ≡ map plain_change rows.old.items ++ rows_by (plain_key cell.now)
        (planned input.now.list.now.rules (plain_text cookie.now)
        (plain_access access.now) jar.old.kind
        (pos input.now.clock) jar.old.cookies)) }
    ensures kind { jar.new.kind ≡ jar.old.kind }
{
    match jar.plan(
        input.alloc,
        cookie,
        access,
        input.list,
        input.clock.signed(),
    ) {
        Ok(plan) => perform(jar, cell, input.alloc, plan, rows),
        Err(why) => word_of_drop(why),
    }
}

// Does a plan for the jar of a cell, and answers its word. Adds its row changes.
fn perform(
    jar: &mut Jar,
    cell: &CellKey,
    alloc: Global,
    plan: Plan,
    rows: &mut Vec<Change>,
) -> Result<&'static str, NoMemory>
    requires fit { IsPlanFor jar.old plan }
    ensures cookies { OnOk result (jar.new.cookies
        ≡ after_steps plan.fresh jar.old.cookies plan.steps) }
    ensures word { IfOk result (λ word. word.now ≡ spec_of.stored_word plan.kind) }
    ensures rows { OnOk result (map plain_change rows.new.items
        ≡ map plain_change rows.old.items
        ++ map (spec.in_cell (plain_key cell.now)) (rows_of_steps plan.fresh plan.steps)) }
    ensures kind { jar.new.kind ≡ jar.old.kind }
{
    push_rows(rows, alloc, cell, &plan)?;
    jar.reserve(1)?;
    let stored = jar.perform(plan);
    Ok(stored_word(stored.kind))
}

// The word for what was planned.
fn word_of(planned: Result<Plan, CookieDrop>) -> Result<&'static str, NoMemory>
    ensures { IfOk result (λ word. IsWordOf planned word.now) }
{
    match planned {
        Ok(plan) => Ok(stored_word(plan.kind())),
        Err(why) => word_of_drop(why),
    }
}

// The word for why a cookie was dropped. Want of memory drops none.
fn word_of_drop(why: CookieDrop) -> Result<&'static str, NoMemory>
    ensures { IfOk result (λ word. IsWordOfDrop why word.now) }
{
    match why {
        CookieDrop::NoMemory => Err(NoMemory),
        _ => Ok(drop_word(why)),
    }
}

/// Whether a response has a Set-Cookie text.
pub fn has_cookies(head: &[HeadField]) -> bool
    ensures value { result ≡ list_any (λ field. same_in_any_case (head_field_of field).name
        (codes "Set-Cookie")) head.now }
{
    head.iter().any(|field| is_set_cookie(field))
}

/// Whether a field has a Set-Cookie text.
pub fn is_set_cookie(field: &HeadField) -> bool
    ensures { result ≡ same_in_any_case (head_field_of field.now).name (codes "Set-Cookie") }
{
    field.name.as_str().eq_ignore_ascii_case("Set-Cookie")
}
