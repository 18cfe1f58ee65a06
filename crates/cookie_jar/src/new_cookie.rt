//! The cookie that a Set-Cookie text gives.
ghost use Rattle.std.specs.Prelude.{◌≡◌, true, is_some, IfOk, OnErr, map, option_copied};
ghost use Rattle.std.specs.Prelude.{not, option_map, string_bytes};
ghost use Rattle.std.proofs.lemmas.Map.Entries.{option_filter};
ghost use Rattle.setcookie_parse.specs.Plain.{plain_text};
ghost use Rattle.cookie_jar.specs.Borrowed.{plain_borrowed};
ghost use Rattle.cookie_jar.specs.Lifetime.{is_expired as has_expired};
ghost use Rattle.cookie_jar.specs.NewCookie as spec;
ghost use Rattle.cookie_jar.specs.Steps.{place_of};
ghost use Rattle.cookie_jar.specs.Plain.{plain_access, plain_cookie};

use crate::access::Access;
use crate::cookie::{BorrowedCookie, Cookie, cookie_at, is_expired};
use cookie_match::default_path;
use setcookie_parse::CookieText;
use std::alloc::{AllocError, Global};
use suffix_list::SuffixList;

pub fn lower_domain(alloc: Global, text: &CookieText<'_>) -> Result<Option<String>, AllocError>
    ensures value { IfOk result
        (λ d. option_map string_bytes d ≡ spec.lower_domain (plain_text text.now)) }
    ensures some { OnErr result (is_some text.now.domain ≡ true) }
{
    match text.domain {
        None => Ok(None),
        Some(domain) => Ok(Some(domain.to_ascii_lowercase(alloc)?)),
    }
}

pub fn is_suffix_to(domain: &str, access: &Access<'_>, list: &SuffixList) -> bool
    ensures { result ≡ spec.is_suffix_to list.now.rules (plain_access access.now) domain.now }
{
    !access.ip && list.is_suffix(domain)
}

fn is_host_suffix(domain: &str, access: &Access<'_>, list: &SuffixList) -> bool
    ensures { result ≡ spec.is_host_suffix list.now.rules (plain_access access.now) domain.now }
{
    is_suffix_to(domain, access, list) && domain == access.host
}

pub fn own_domain<'a>(
    lower: Option<&'a str>,
    access: &Access<'_>,
    list: &SuffixList,
) -> Option<&'a str>
    ensures { option_copied result
        ≡ spec.own_domain list.now.rules (plain_access access.now) (option_copied lower.entry) }
{
    match lower {
        Some(domain) if !is_host_suffix(domain, access, list) => Some(domain),
        _ => None,
    }
}

pub fn made<'a>(
    own: Option<&'a str>,
    text: &CookieText<'a>,
    access: &Access<'a>,
    now: i64,
) -> BorrowedCookie<'a>
    ensures { plain_borrowed result ≡ spec.made_with
        (option_copied own.entry) (plain_text text.now) (plain_access access.now) now }
{
    BorrowedCookie {
        name: text.name,
        value: text.value,
        domain: own.unwrap_or(access.host),
        path: text.path.unwrap_or(default_path(access.path)),
        host_only: own.is_none(),
        secure: text.secure,
        http_only: text.http_only,
        same_site: text.same_site,
        creation: now,
        expiry: text.expiry,
        last: now,
    }
}

/// The creation second of the cookie that a new one replaces, whose place was found.
pub fn replaced_creation(
    cookies: &[Cookie],
    new: &BorrowedCookie<'_>,
    place: usize,
    now: i64,
) -> Option<i64>
    requires { place ≡ place_of (plain_borrowed new.now) (map plain_cookie cookies.now) }
    ensures { result ≡ option_map (λ c. c.creation)
        (spec.replaced now (plain_borrowed new.now) (map plain_cookie cookies.now)) }
{
    live_creation(cookie_at(cookies, place), now)
}

fn live_creation(old: Option<&Cookie>, now: i64) -> Option<i64>
    ensures { result ≡ option_map (λ c. c.creation) (option_filter
        (λ c. not (has_expired now c)) (option_map (λ c. plain_cookie c.now) old.entry)) }
{
    match old {
        Some(old) if !is_expired(old.expiry, now) => Some(old.creation),
        _ => None,
    }
}
