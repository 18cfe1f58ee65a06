//! Whether two items are the same.
ghost use Rattle.std.specs.Prelude.{◌≡◌, ◌↔◌, IsTrue, option_map, slice_get};
ghost use Rattle.cookie_jar.specs.Plain.{plain_cookie};
ghost use Rattle.local_scripts.specs.Items.{entry_of, event_of, held_of, item_of};
ghost use Rattle.local_scripts.specs.CookieParts.{flags_of, texts_of, times_of};

use crate::{Entry, HeldJar, Item, SiteEvent};
use cookie_jar::{Cookie, Jar};

/// Whether two items are the same, in each field of each cookie too.
pub fn same_item(a: &Item, b: &Item) -> bool
    ensures same { IsTrue result ↔ (item_of a.now ≡ item_of b.now) }
{
    match (a, b) {
        (Item::Happens(a), Item::Happens(b)) => same_entry(a, b),
        (Item::Restarts(a), Item::Restarts(b)) => a == b,
        (Item::Happens(_), Item::Restarts(_)) | (Item::Restarts(_), Item::Happens(_)) => false,
    }
}

fn same_entry(a: &Entry, b: &Entry) -> bool
    ensures { IsTrue result ↔ (entry_of a.now ≡ entry_of b.now) }
{
    a.moment == b.moment && same_event(&a.event, &b.event) && same_held(&a.held, &b.held)
}

fn same_event(a: &SiteEvent, b: &SiteEvent) -> bool
    ensures { IsTrue result ↔ (event_of a.now ≡ event_of b.now) }
{
    a == b
}

fn same_held(a: &Option<HeldJar>, b: &Option<HeldJar>) -> bool
    ensures { IsTrue result ↔ (option_map held_of a.now ≡ option_map held_of b.now) }
{
    match (a, b) {
        (Some(a), Some(b)) => same_jar(a, b),
        (None, None) => true,
        (None, Some(_)) | (Some(_), None) => false,
    }
}

fn same_jar(a: &HeldJar, b: &HeldJar) -> bool
    ensures { IsTrue result ↔ (held_of a.now ≡ held_of b.now) }
{
    a.domain == b.domain && same_cookies(&a.jar, &b.jar)
}

/// Whether two cells have the same cookies in the same places, each in each field alike.
pub fn same_cookies(a: &Jar, b: &Jar) -> bool
    ensures same { IsTrue result ↔ (a.now.cookies ≡ b.now.cookies) }
{
    if a.len() != b.len() {
        return false;
    }
    for place in 0..a.len() {
        if !same_at(a, b, place) {
            return false;
        }
    }
    true
}

fn same_at(a: &Jar, b: &Jar, place: usize) -> bool
    ensures { IsTrue result
        ↔ (slice_get a.now.cookies place ≡ slice_get b.now.cookies place) }
{
    match (a.cookie(place), b.cookie(place)) {
        (Some(a), Some(b)) => same_cookie(a, b),
        (None, None) => true,
        (Some(_), None) | (None, Some(_)) => false,
    }
}

fn same_cookie(a: &Cookie, b: &Cookie) -> bool
    ensures { IsTrue result ↔ (plain_cookie a.now ≡ plain_cookie b.now) }
{
    same_texts(a, b) && same_flags(a, b) && same_times(a, b)
}

fn same_texts(a: &Cookie, b: &Cookie) -> bool
    ensures { IsTrue result ↔ (texts_of (plain_cookie a.now) ≡ texts_of (plain_cookie b.now)) }
{
    a.identity.name == b.identity.name
        && a.value == b.value
        && a.identity.domain == b.identity.domain
        && a.identity.path == b.identity.path
}

fn same_flags(a: &Cookie, b: &Cookie) -> bool
    ensures { IsTrue result ↔ (flags_of (plain_cookie a.now) ≡ flags_of (plain_cookie b.now)) }
{
    a.host_only == b.host_only
        && a.secure == b.secure
        && a.http_only == b.http_only
        && a.same_site == b.same_site
}

fn same_times(a: &Cookie, b: &Cookie) -> bool
    ensures { IsTrue result ↔ (times_of (plain_cookie a.now) ≡ times_of (plain_cookie b.now)) }
{
    a.creation == b.creation && a.expiry == b.expiry && a.last == b.last
}
