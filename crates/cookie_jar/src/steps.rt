//! The steps of storing a cookie, made before any of them is done.
ghost use Rattle.std.specs.Prelude.{◌≡◌, ◌+◌, ◌-◌, ◌≤◌, ℤ, [], IfOk, IsTrue, length, map};
ghost use Rattle.std.specs.List.{All};
ghost use Rattle.partition_limits.specs.Limits.{fits};
ghost use Rattle.cookie_jar.specs.Cookie.{IsCell, counted};
ghost use Rattle.cookie_jar.specs.Borrowed.{plain_borrowed};
ghost use Rattle.cookie_jar.specs.Steps as spec;
ghost use Rattle.cookie_jar.specs.Plain.{plain_cookie};

use crate::cookie::{BorrowedCookie, Cookie, cookie_at, counted, is_expired, is_same};
use crate::removals::{live_steps, removal_alone};
use crate::step::JarStep;
use agent_base::NoMemory;
use partition_limits::{CellKind, Tally, Weighed, victims};
use std::alloc::{AllocError, Global};

pub fn place_of(cookies: &[Cookie], fresh: &BorrowedCookie<'_>) -> usize
    ensures value { let cs = map plain_cookie cookies.now in
        result ≡ spec.place_of (plain_borrowed fresh.now) cs }
    ensures within { result ≤ length cookies.now }
{
    for (place, cookie) in cookies.iter().enumerate() {
        if is_same(fresh, cookie) {
            return place;
        }
    }
    cookies.len()
}

/// The steps of storing a cookie, whose place was found.
pub fn steps(
    alloc: Global,
    kind: CellKind,
    tally: Tally,
    cookies: &[Cookie],
    fresh: &BorrowedCookie<'_>,
    place: usize,
    now: i64,
) -> Result<Vec<JarStep>, NoMemory>
    requires cell { IsCell kind tally (map plain_cookie cookies.now) }
    requires place { place
        ≡ spec.place_of (plain_borrowed fresh.now) (map plain_cookie cookies.now) }
    requires small { counted kind (plain_borrowed fresh.now) ≤ 10240 }
    ensures { IfOk result (λ v. v.items
        ≡ spec.steps kind now (plain_borrowed fresh.now) (map plain_cookie cookies.now)) }
{
    if is_expired(fresh.expiry, now) {
        Ok(removal_alone(alloc, cookies, place)?)
    } else {
        let gone = going(alloc, kind, tally, cookies, fresh, place, now)?;
        Ok(live_steps(alloc, cookies, &gone, place)?)
    }
}

// The places of the cookies that go. They are weighed only where the tally leaves it open.
fn going(
    alloc: Global,
    kind: CellKind,
    tally: Tally,
    cookies: &[Cookie],
    fresh: &BorrowedCookie<'_>,
    place: usize,
    now: i64,
) -> Result<Vec<usize>, NoMemory>
    requires cell { IsCell kind tally (map plain_cookie cookies.now) }
    requires place { place
        ≡ spec.place_of (plain_borrowed fresh.now) (map plain_cookie cookies.now) }
    requires small { counted kind (plain_borrowed fresh.now) ≤ 10240 }
    ensures { IfOk result (λ v. v.items
        ≡ spec.going kind now (plain_borrowed fresh.now) (map plain_cookie cookies.now)) }
{
    if holds_put(kind, tally, cookies, fresh, place) {
        return Ok(Vec::new(alloc));
    }
    let rows = weigh_put(alloc, kind, now, cookies, fresh, place)?;
    victims(alloc, kind, &rows, place)
}

// Whether the tally says that a cell holds its cookies with the new one put.
fn holds_put(
    kind: CellKind,
    tally: Tally,
    cookies: &[Cookie],
    fresh: &BorrowedCookie<'_>,
    place: usize,
) -> bool
    requires cell { IsCell kind tally (map plain_cookie cookies.now) }
    requires place { place
        ≡ spec.place_of (plain_borrowed fresh.now) (map plain_cookie cookies.now) }
    requires small { counted kind (plain_borrowed fresh.now) ≤ 10240 }
    ensures held { IsTrue result → (now : ℤ)
        → spec.going kind now (plain_borrowed fresh.now) (map plain_cookie cookies.now) ≡ [] }
{
    match cookie_at(cookies, place) {
        Some(old) => holds_in_place(kind, tally, old, fresh),
        None => holds_one_more(kind, tally, fresh),
    }
}

// Whether a cell of this tally holds a cookie in the place of an old one.
fn holds_in_place(kind: CellKind, tally: Tally, old: &Cookie, fresh: &BorrowedCookie<'_>) -> bool
    requires old { counted kind (plain_cookie old.now) ≤ tally.bytes }
    requires bytes { tally.bytes ≤ 10240 }
    requires small { counted kind (plain_borrowed fresh.now) ≤ 10240 }
    ensures { result ≡ fits kind tally.cookies (tally.bytes
        - counted kind (plain_cookie old.now) + counted kind (plain_borrowed fresh.now)) }
{
    let after = Tally {
        cookies: tally.cookies,
        bytes: tally.bytes - counted(kind, &old.borrowed()) + counted(kind, fresh),
    };
    after.fits(kind)
}

// Whether a cell of this tally holds one more cookie.
fn holds_one_more(kind: CellKind, tally: Tally, fresh: &BorrowedCookie<'_>) -> bool
    requires cookies { tally.cookies ≤ 180 }
    requires bytes { tally.bytes ≤ 10240 }
    requires small { counted kind (plain_borrowed fresh.now) ≤ 10240 }
    ensures { result ≡ fits kind (tally.cookies + 1)
        (tally.bytes + counted kind (plain_borrowed fresh.now)) }
{
    let after = Tally {
        cookies: tally.cookies + 1,
        bytes: tally.bytes + counted(kind, fresh),
    };
    after.fits(kind)
}

fn weigh(kind: CellKind, now: i64, cookie: &BorrowedCookie<'_>) -> Weighed
    requires { counted kind (plain_borrowed cookie.now) ≤ 10240 }
    ensures { result ≡ spec.weigh kind now (plain_borrowed cookie.now) }
{
    Weighed {
        expired: is_expired(cookie.expiry, now),
        secure: cookie.secure,
        last: cookie.last,
        bytes: counted(kind, cookie),
    }
}

fn weigh_all(
    alloc: Global,
    kind: CellKind,
    now: i64,
    cookies: &[Cookie],
) -> Result<Vec<Weighed>, AllocError>
    requires { All (λ c. counted kind (plain_cookie c) ≤ 10240) cookies.now }
    ensures { IfOk result (λ v. v.items
        ≡ map (λ c. spec.weigh kind now (plain_cookie c)) cookies.now) }
{
    let mut rows = Vec::new(alloc);
    for cookie in cookies {
        rows.push(weigh(kind, now, &cookie.borrowed()))?;
    }
    Ok(rows)
}

// The weights of the cookies with the new one put.
fn weigh_put(
    alloc: Global,
    kind: CellKind,
    now: i64,
    cookies: &[Cookie],
    fresh: &BorrowedCookie<'_>,
    place: usize,
) -> Result<Vec<Weighed>, AllocError>
    requires all_small { All (λ c. counted kind (plain_cookie c) ≤ 10240) cookies.now }
    requires small { counted kind (plain_borrowed fresh.now) ≤ 10240 }
    requires place { place
        ≡ spec.place_of (plain_borrowed fresh.now) (map plain_cookie cookies.now) }
    ensures { IfOk result (λ v. v.items
        ≡ map (spec.weigh kind now)
        (spec.put (plain_borrowed fresh.now) (map plain_cookie cookies.now))) }
{
    let mut rows = weigh_all(alloc, kind, now, cookies)?;
    let row = weigh(kind, now, fresh);
    if place < rows.len() {
        rows[place] = row;
    } else {
        rows.push(row)?;
    }
    Ok(rows)
}
