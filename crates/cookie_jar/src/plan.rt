//! What storing a cookie does, before it is done.
ghost use Rattle.std.specs.Prelude.{◌≡◌, ◌≤◌, ◌+◌, ◌⊎◌, ℕ, ℤ, List, Ok, true, false, is_some};
ghost use Rattle.std.specs.Prelude.{IfOk, IfSome, IsErrOf, IsOk, MatchResult, length, map};
ghost use Rattle.std.specs.Prelude.{option_copied, option_map};
ghost use Rattle.agent_base.specs.Answers.{Answers, Decides};
ghost use Rattle.setcookie_parse.specs.Plain.{plain_text};
ghost use Rattle.setcookie_parse.specs.SetCookie.{pair_limit};
ghost use Rattle.cookie_jar.specs.Cookie.{IsCell, pair_bytes};
ghost use Rattle.cookie_jar.specs.Borrowed.{plain_borrowed};
ghost use Rattle.cookie_jar.specs.Drops.{is_not_ascii_domain};
ghost use Rattle.cookie_jar.specs.NewCookie.{kind_with};
ghost use Rattle.cookie_jar.specs.Persistent.{RowReplace, row_fits};
ghost use Rattle.cookie_jar.specs.Planned as spec;
ghost use Rattle.cookie_jar.specs.Plain.{plain_access, plain_cookie};
ghost use Rattle.cookie_jar.specs.Sending.{marked};

use crate::access::Access;
use crate::cause::CookieDrop;
use crate::cookie::{BorrowedCookie, Cookie, cookie_at, is_expired};
use crate::drops::{is_not_ascii_domain, later_drop};
use crate::jar::Jar;
use crate::new_cookie::{lower_domain, made, own_domain, replaced_creation};
use crate::step::JarStep;
use crate::steps::{place_of, steps};
use agent_base::NoMemory;
use partition_limits::{CellKind, Tally};
use setcookie_parse::CookieText;
use std::alloc::Global;
use std::marker::Model;
use suffix_list::SuffixList;

/// What storing a cookie does.
#[derive(Debug, Clone, Copy, PartialEq, Eq)]
pub enum StoredKind {
    /// The cookie is new.
    Added,
    /// The cookie is in the place of the same one.
    Replaced,
    /// The cookie is expired; the same one goes, if it is there.
    Removed,
}

/// What storing a cookie does to a cell, with the memory that it takes.
#[derive(Debug, Drop)]
pub struct Plan {
    pub(crate) kind: StoredKind,
    pub(crate) steps: Vec<JarStep>,
    pub(crate) fresh: Cookie,
}

impl Model for Plan {
    ghost use Rattle.cookie_jar.specs.Planned.{PlainPlan};
    ghost use Rattle.cookie_jar.specs.Plain.{plain_cookie};

    ghost Value = { PlainPlan };

    ghost view = { λ p. record {
      kind = p.kind;
      steps = p.steps.items;
      fresh = plain_cookie p.fresh;
    } };
}

impl Plan {
    /// What is done, in a word.
    pub fn kind(&self) -> StoredKind
        ensures value { result ≡ self.now.kind }
    {
        self.kind
    }

    /// The steps, in the order in which they are done.
    pub fn steps(&self) -> &[JarStep]
        ensures value { result.now ≡ self.now.steps }
    {
        self.steps.as_slice()
    }

    /// The cookie that an `Insert` or a `Replace` puts.
    pub fn fresh(&self) -> &Cookie
        ensures value { plain_cookie result.now ≡ self.now.fresh }
    {
        &self.fresh
    }

    /// The place and the cookie, where the plan replaces one cookie and does that alone.
    pub fn into_replacement(self) -> Option<(usize, Cookie)>
        ensures value { option_map (λ r. (r.0, plain_cookie r.1)) result
            ≡ spec.replacement_of self }
    {
        match self.steps.as_slice() {
            [JarStep::Replace { place, .. }] => Some((*place, self.fresh)),
            _ => None,
        }
    }

    /// The same plan. Its cookie shares the texts.
    pub fn copy(&self, alloc: Global) -> Result<Plan, NoMemory>
        ensures same { IfOk result (λ p. p ≡ self.now) }
    {
        Ok(Plan {
            kind: self.kind,
            steps: Vec::from_slice(alloc, &self.steps)?,
            fresh: self.fresh.copy()?,
        })
    }
}

impl Jar {
    /// What storing the cookie of a text does to this cell, which is that of the destination, or an
    /// empty one if there is none. A drop is told before any memory is taken but that of a Domain
    /// in lower case. A plan that replaces one cookie, and does that alone, stays the plan where
    /// cookies of the cell are marked before.
    pub fn plan(
        &self,
        alloc: Global,
        text: &CookieText<'_>,
        access: &Access<'_>,
        list: &SuffixList,
        now: i64,
    ) -> Result<Plan, CookieDrop>
        requires pair { length text.now.name.now + length text.now.value.now ≤ pair_limit }
        ensures answer { Answers (λ p. p) CookieDrop.NoMemory (spec.planned list.now.rules
            (plain_text text.now) (plain_access access.now) self.now.kind now self.now.cookies)
            result }
        ensures memory { IsErrOf result CookieDrop.NoMemory → (is_some text.now.domain ≡ true)
            × (is_not_ascii_domain (plain_text text.now) ≡ false)
            ⊎ IsOk (spec.planned list.now.rules (plain_text text.now) (plain_access access.now)
            self.now.kind now self.now.cookies) }
        ensures fit { IfOk result (λ p. spec.IsPlanFor self.now p) }
        ensures replaced { IfOk result (λ p. IfSome (spec.replacement_of p) (λ r.
            (places : List ℕ) (used : ℤ) → let cookies = marked places used self.now.cookies in
            (spec.planned list.now.rules (plain_text text.now) (plain_access access.now)
            self.now.kind now cookies ≡ Ok p)
            × (row_fits self.now.kind cookies (RowReplace r.0 r.1) ≡ true))) }
    {
        if is_not_ascii_domain(text) {
            return Err(CookieDrop::NonAsciiDomain);
        }
        let lower = lower_domain(alloc, text)?;
        planned_with(
            alloc,
            self.kind,
            self.tally,
            &self.cookies,
            lower.as_deref(),
            text,
            access,
            list,
            now,
        )
    }
}

fn planned_with(
    alloc: Global,
    kind: CellKind,
    tally: Tally,
    cookies: &[Cookie],
    lower: Option<&str>,
    text: &CookieText<'_>,
    access: &Access<'_>,
    list: &SuffixList,
    now: i64,
) -> Result<Plan, CookieDrop>
    requires cell { IsCell kind tally (map plain_cookie cookies.now) }
    requires pair { length text.now.name.now + length text.now.value.now ≤ pair_limit }
    ensures answer { Decides (λ p. p) CookieDrop.NoMemory (spec.planned_with list.now.rules
        (option_copied lower.entry) (plain_text text.now) (plain_access access.now) kind now
        (map plain_cookie cookies.now)) result }
{
    let own = own_domain(lower, access, list);
    let new = made(own, text, access, now);
    match later_drop(lower, own, &new, text, access, list, now, cookies) {
        Some(why) => Err(why),
        None => plan_unless_memory(alloc, kind, tally, cookies, &new, now),
    }
}

fn plan_unless_memory(
    alloc: Global,
    kind: CellKind,
    tally: Tally,
    cookies: &[Cookie],
    new: &BorrowedCookie<'_>,
    now: i64,
) -> Result<Plan, CookieDrop>
    requires cell { IsCell kind tally (map plain_cookie cookies.now) }
    requires pair { pair_bytes (plain_borrowed new.now) ≤ pair_limit }
    ensures { MatchResult result (λ p. p
        ≡ spec.plan_of kind now (plain_borrowed new.now) (map plain_cookie cookies.now))
        (λ why. why ≡ CookieDrop.NoMemory) }
{
    Ok(plan_of(alloc, kind, tally, cookies, new, now)?)
}

fn plan_of(
    alloc: Global,
    kind: CellKind,
    tally: Tally,
    cookies: &[Cookie],
    new: &BorrowedCookie<'_>,
    now: i64,
) -> Result<Plan, NoMemory>
    requires cell { IsCell kind tally (map plain_cookie cookies.now) }
    requires pair { pair_bytes (plain_borrowed new.now) ≤ pair_limit }
    ensures { IfOk result (λ p. p
        ≡ spec.plan_of kind now (plain_borrowed new.now) (map plain_cookie cookies.now)) }
{
    let place = place_of(cookies, new);
    let old = replaced_creation(cookies, new, place, now);
    let fresh = BorrowedCookie {
        creation: old.unwrap_or(new.creation),
        ..*new
    };
    Ok(Plan {
        kind: stored_kind(new, old, now),
        steps: steps(alloc, kind, tally, cookies, &fresh, place, now)?,
        fresh: fresh.to_cookie(alloc, cookie_at(cookies, place))?,
    })
}

fn stored_kind(new: &BorrowedCookie<'_>, old: Option<i64>, now: i64) -> StoredKind
    ensures { result ≡ kind_with now (plain_borrowed new.now) (is_some old) }
{
    if is_expired(new.expiry, now) {
        StoredKind::Removed
    } else if old.is_some() {
        StoredKind::Replaced
    } else {
        StoredKind::Added
    }
}
