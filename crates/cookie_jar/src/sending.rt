//! The cookies that go out.
ghost use Rattle.std.specs.Prelude.{◌≡◌, IfOk, map, filter};
ghost use Rattle.std.specs.List.{enumerate_from};
ghost use Rattle.cookie_jar.specs.Drops.{is_none as is_none_of};
ghost use Rattle.cookie_jar.specs.Marked.{used_at};
ghost use Rattle.cookie_jar.specs.Persistent.{persistent_part};
ghost use Rattle.cookie_jar.specs.Sending as spec;
ghost use Rattle.cookie_jar.specs.Plain.{plain_access, plain_cookie};

use crate::access::Access;
use crate::cookie::{Cookie, is_equal, is_expired};
use crate::jar::Jar;
use agent_base::NoMemory;
use cookie_match::{domain_matches, path_matches};
use partition_limits::CellKind;
use setcookie_parse::SameSite;
use std::alloc::{AllocError, Global};

impl Jar {
    /// The places of the cookies that go out, in order of place.
    pub fn pick(&self, alloc: Global, access: &Access<'_>, now: i64) -> Result<Vec<usize>, NoMemory>
        ensures places { IfOk result (λ v. v.items
            ≡ spec.select self.now.kind (plain_access access.now) now self.now.cookies) }
    {
        Ok(selected(alloc, self.kind, &self.cookies, access, now)?)
    }

    /// Sets the last use of the cookies at these places, as a sending does and a script's reading
    /// does not. Takes no memory.
    pub fn mark(&mut self, places: &[usize], now: i64)
        ensures cookies { self.new.cookies ≡ spec.marked places.now now self.old.cookies }
        ensures persistent { persistent_part self.new.cookies ≡ persistent_part self.old.cookies }
        ensures kind { self.new.kind ≡ self.old.kind }
        ensures spare { self.new.spare ≡ self.old.spare }
    {
        mark_all(&mut self.cookies, places, now);
    }
}

fn mark_all(cookies: &mut [Cookie], places: &[usize], now: i64)
    ensures { map plain_cookie cookies.new
        ≡ spec.marked places.now now (map plain_cookie cookies.old) }
{
    for place in places {
        mark_at(cookies, *place, now);
    }
}

fn mark_at(cookies: &mut [Cookie], place: usize, now: i64)
    ensures { map plain_cookie cookies.new
        ≡ used_at place now (map plain_cookie cookies.old) }
{
    if place < cookies.len() {
        cookies[place].last = now;
    }
}

fn selected(
    alloc: Global,
    kind: CellKind,
    cookies: &[Cookie],
    access: &Access<'_>,
    now: i64,
) -> Result<Vec<usize>, AllocError>
    ensures { IfOk result (λ v. v.items ≡ map (λ c. c.0)
        (filter (λ c. spec.goes_out kind (plain_access access.now) now (plain_cookie c.1))
        (enumerate_from 0 cookies.now))) }
{
    let mut places = Vec::with_capacity(alloc, cookies.len())?;
    for (place, cookie) in cookies.iter().enumerate() {
        if goes_out(kind, access, now, cookie) {
            places.push(place)?;
        }
    }
    Ok(places)
}

fn goes_out(kind: CellKind, access: &Access<'_>, now: i64, cookie: &Cookie) -> bool
    ensures { result
        ≡ spec.goes_out kind (plain_access access.now) now (plain_cookie cookie.now) }
{
    is_seen(kind, access, cookie)
        && is_of_host(access, cookie)
        && path_matches(access.path, cookie.identity.path.as_str())
        && !is_expired(cookie.expiry, now)
        && (access.https || !cookie.secure)
        && (!access.script || !cookie.http_only)
        && is_let_out(access, cookie)
}

fn is_none(cookie: &Cookie) -> bool
    ensures { result ≡ is_none_of cookie.now.same_site }
{
    matches!(cookie.same_site, SameSite::NoneSent)
}

fn is_seen(kind: CellKind, access: &Access<'_>, cookie: &Cookie) -> bool
    ensures { result ≡ spec.is_seen kind (plain_access access.now) (plain_cookie cookie.now) }
{
    match kind {
        CellKind::Own => access.first || (access.granted && is_none(cookie)),
        CellKind::Partition => true,
    }
}

fn is_of_host(access: &Access<'_>, cookie: &Cookie) -> bool
    ensures { result ≡ spec.is_of_host (plain_access access.now) (plain_cookie cookie.now) }
{
    if cookie.host_only {
        is_equal(access.host, cookie.identity.domain.as_str())
    } else {
        domain_matches(access.ip, access.host, cookie.identity.domain.as_str())
    }
}

fn is_let_out(access: &Access<'_>, cookie: &Cookie) -> bool
    ensures { result ≡ spec.is_let_out (plain_access access.now) (plain_cookie cookie.now) }
{
    access.same_site
        || is_none(cookie)
        || (access.top_load && access.safe && !is_strict(cookie.same_site))
}

fn is_strict(same_site: SameSite) -> bool
    ensures { result ≡ spec.is_strict same_site }
{
    matches!(same_site, SameSite::Strict)
}
