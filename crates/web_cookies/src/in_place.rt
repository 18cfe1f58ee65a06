//! What is stored in the cells of a use without a copy of a jar: a cookie in the place of the same
//! one, which is the common case.
ghost use Rattle.std.specs.Prelude.{◌≡◌, ◌≤◌, ◌+◌, ◌∷◌, [], IfOk, IfSome, length, map, pos};
ghost use Rattle.cookie_jar.specs.Key.{plain_key};
ghost use Rattle.cookie_jar.specs.Plain.{plain_access};
ghost use Rattle.script_actions.specs.Plain.{head_field_of};
ghost use Rattle.setcookie_parse.specs.Plain.{plain_text};
ghost use Rattle.setcookie_parse.specs.SetCookie.{Kept};
ghost use Rattle.agent_model.specs.CookieStore as spec;
ghost use Rattle.web_cookies.specs.Cells.{cookies_at, kind_of};
ghost use Rattle.web_cookies.specs.CellsOfUse.{AreKeysOf, found};
ghost use Rattle.web_cookies.specs.InPlace.{AreInPlace, IsInPlace, IsReplaced};
ghost use Rattle.web_cookies.specs.Uses.{plain_use};

use crate::both::{has_cookies, is_set_cookie};
use crate::change::Replacement;
use crate::cookie_use::{CookieUse, access_of};
use crate::cookies::Cookies;
use crate::keys::UseKeys;
use crate::line_input::LineInput;
use crate::stored_rows::push_rows;
use crate::words::stored_word;
use agent_base::{NoMemory, Seconds};
use cookie_jar::{Access, CellKey, Destination, Jar, StoredKind, destination};
use row_changes::Change;
use script_actions::HeadField;
use setcookie_parse::{CookieText, Parsed, parse};

/// A cookie that is put in a cell, with its row changes and its word.
#[derive(Debug, Drop)]
pub struct Replaced {
    pub new: Replacement,
    pub rows: Vec<Change>,
    pub word: &'static str,
}

/// The cookies that are put in both cells of a use, with their row changes.
#[derive(Debug, Drop)]
pub struct InPlace {
    pub own: Option<Replacement>,
    pub partition: Option<Replacement>,
    pub rows: Vec<Change>,
}

impl Cookies {
    /// What the texts of a response do in place, with their words, if they do no more. The cookies
    /// that go out may be marked before.
    pub fn texts_in_place(
        &self,
        input: &LineInput<'_>,
        how: &CookieUse<'_>,
        keys: &UseKeys,
        head: &[HeadField],
    ) -> Result<Option<(InPlace, Vec<&'static str>)>, NoMemory>
        requires keys { AreKeysOf input.now.list.now.rules (plain_use how.now) keys.now }
        ensures stored { IfOk result (λ r. IfSome r (λ r. AreInPlace
            (λ both. spec.store_texts input.now.list.now.rules input.now.clock
            (plain_use how.now) both
            (spec.cookie_texts (map head_field_of head.now)))
            (found input.now.list.now.rules (plain_use how.now) self.now) r.0
            (map (λ word. word.now) r.1.items))) }
    {
        if !has_cookies(head) {
            let none = InPlace {
                own: None,
                partition: None,
                rows: Vec::new(input.alloc),
            };
            return Ok(Some((none, Vec::new(input.alloc))));
        }
        let Some(text) = only_text(head) else {
            return Ok(None);
        };
        let Some((stored, word)) = self.text_in_place(input, how, keys, text)? else {
            return Ok(None);
        };
        Ok(Some((stored, Vec::from_slice(input.alloc, &[word])?)))
    }

    /// The same of one text.
    pub fn text_in_place(
        &self,
        input: &LineInput<'_>,
        how: &CookieUse<'_>,
        keys: &UseKeys,
        text: &str,
    ) -> Result<Option<(InPlace, &'static str)>, NoMemory>
        requires keys { AreKeysOf input.now.list.now.rules (plain_use how.now) keys.now }
        ensures stored { IfOk result (λ r. IfSome r (λ r. IsInPlace
            (λ both. spec.store_text input.now.list.now.rules input.now.clock
            (plain_use how.now) both text.now)
            (found input.now.list.now.rules (plain_use how.now) self.now) r.0 r.1.now)) }
    {
        match parse(text, input.clock.signed()) {
            Parsed::Dropped(_) => Ok(None),
            Parsed::Kept(cookie) => self.cookie_in_place(input, how, keys, &cookie),
        }
    }

    // The same of a cookie, by the cell that it goes to.
    fn cookie_in_place(
        &self,
        input: &LineInput<'_>,
        how: &CookieUse<'_>,
        keys: &UseKeys,
        cookie: &CookieText<'_>,
    ) -> Result<Option<(InPlace, &'static str)>, NoMemory>
        requires keys { AreKeysOf input.now.list.now.rules (plain_use how.now) keys.now }
        requires pair { length cookie.now.name.now + length cookie.now.value.now ≤ 4096 }
        ensures stored { IfOk result (λ r. IfSome r (λ r. IsInPlace
            (λ both. spec.store_parsed input.now.list.now.rules input.now.clock
            (plain_use how.now) both
            (Kept (plain_text cookie.now)))
            (found input.now.list.now.rules (plain_use how.now) self.now) r.0 r.1.now)) }
    {
        let access = access_of(how);
        match destination(cookie, &access) {
            Destination::Own => {
                let cell = keys.own_cell();
                let Some(stored) = self.replacement(cell, input, &access, cookie)? else {
                    return Ok(None);
                };
                let Replaced { new, rows, word } = stored;
                let own = Some(new);
                let in_place = InPlace {
                    own,
                    partition: None,
                    rows,
                };
                Ok(Some((in_place, word)))
            }
            Destination::Partition => {
                let cell = &keys.partition;
                let Some(stored) = self.replacement(cell, input, &access, cookie)? else {
                    return Ok(None);
                };
                let Replaced { new, rows, word } = stored;
                let partition = Some(new);
                let in_place = InPlace {
                    own: None,
                    partition,
                    rows,
                };
                Ok(Some((in_place, word)))
            }
            Destination::Nowhere => Ok(None),
        }
    }

    // What storing a cookie in a cell does, where it replaces one and does no more.
    fn replacement(
        &self,
        cell: &CellKey,
        input: &LineInput<'_>,
        access: &Access<'_>,
        cookie: &CookieText<'_>,
    ) -> Result<Option<Replaced>, NoMemory>
        requires pair { length cookie.now.name.now + length cookie.now.value.now ≤ 4096 }
        ensures replaced { IfOk result (λ r. IfSome r (λ r. IsReplaced input.now.list.now.rules
            (pos input.now.clock)
            (plain_text cookie.now) (plain_access access.now) (kind_of (plain_key cell.now))
            (cookies_at (plain_key cell.now) self.now) (plain_key cell.now) r)) }
    {
        let Some(jar) = self.jar(cell) else {
            return Ok(None);
        };
        if !may_replace(jar, input.clock, cookie) {
            return Ok(None);
        }
        replaced_in(jar, cell, input, access, cookie)
    }
}

// The Set-Cookie text of a response that has one alone.
fn only_text(head: &[HeadField]) -> Option<&str>
    ensures value { IfSome result (λ text.
        spec.cookie_texts (map head_field_of head.now) ≡ text.now ∷ []) }
{
    let mut only = None;
    for field in head {
        if is_set_cookie(field) {
            if only.is_some() {
                return None;
            }
            only = Some(field.value.as_str());
        }
    }
    only
}

// Whether it is worth a plan: an expired cookie, and one of a name that is not there, replace none.
fn may_replace(jar: &Jar, now: Seconds, cookie: &CookieText<'_>) -> bool {
    let expired = match cookie.expiry {
        Some(expiry) => expiry <= now.signed(),
        None => false,
    };
    !expired && (0..jar.len()).any(|place| has_name(jar, place, cookie.name))
}

fn has_name(jar: &Jar, place: usize, name: &str) -> bool {
    match jar.cookie(place) {
        Some(cookie) => cookie.identity.name.as_str() == name,
        None => false,
    }
}

// What storing a cookie in a jar does, where it replaces one and does no more.
fn replaced_in(
    jar: &Jar,
    cell: &CellKey,
    input: &LineInput<'_>,
    access: &Access<'_>,
    cookie: &CookieText<'_>,
) -> Result<Option<Replaced>, NoMemory>
    requires pair { length cookie.now.name.now + length cookie.now.value.now ≤ 4096 }
    ensures replaced { IfOk result (λ r. IfSome r (λ r. IsReplaced input.now.list.now.rules
        (pos input.now.clock)
        (plain_text cookie.now) (plain_access access.now) jar.now.kind jar.now.cookies
        (plain_key cell.now) r)) }
{
    let Ok(plan) = jar.plan(
        input.alloc,
        cookie,
        access,
        input.list,
        input.clock.signed(),
    ) else {
        return Ok(None);
    };
    if plan.kind() != StoredKind::Replaced {
        return Ok(None);
    }
    let word = stored_word(plan.kind());
    let mut rows = Vec::new(input.alloc);
    push_rows(&mut rows, input.alloc, cell, &plan)?;
    let Some((place, cookie)) = plan.into_replacement() else {
        return Ok(None);
    };
    let new = Replacement { place, cookie };
    Ok(Some(Replaced { new, rows, word }))
}
