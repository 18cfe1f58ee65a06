//! Why the cookie of a text is dropped.
ghost use Rattle.std.specs.Prelude.{◌≡◌, ◌&&◌, not, map, option_copied};
ghost use Rattle.std.specs.List.{list_any};
ghost use Rattle.setcookie_parse.specs.Plain.{plain_text};
ghost use Rattle.cookie_jar.specs.Borrowed.{plain_borrowed};
ghost use Rattle.cookie_jar.specs.Drops as spec;
ghost use Rattle.cookie_jar.specs.NewCookie.{has_such, made_with};
ghost use Rattle.cookie_jar.specs.NewCookie as new_cookie;
ghost use Rattle.cookie_jar.specs.Plain.{plain_access, plain_cookie};

use crate::access::{Access, Destination};
use crate::cause::CookieDrop;
use crate::cookie::{BorrowedCookie, Cookie, is_expired, is_same};
use crate::key::destination;
use crate::new_cookie::is_suffix_to;
use cookie_match::{domain_matches, path_matches};
use origin_site::domain_of;
use setcookie_parse::{CookieText, SameSite};
use suffix_list::SuffixList;

pub fn is_not_ascii_domain(text: &CookieText<'_>) -> bool
    ensures { result ≡ spec.is_not_ascii_domain (plain_text text.now) }
{
    match text.domain {
        None => false,
        Some(domain) => is_not_ascii(domain),
    }
}

fn is_not_ascii(text: &str) -> bool
    ensures { result ≡ list_any spec.is_not_ascii text.now }
{
    text.bytes().any(|b| b > 127)
}

/// The answer of the first of the later rows that applies.
pub fn later_drop(
    lower: Option<&str>,
    own: Option<&str>,
    new: &BorrowedCookie<'_>,
    text: &CookieText<'_>,
    access: &Access<'_>,
    list: &SuffixList,
    now: i64,
    cookies: &[Cookie],
) -> Option<CookieDrop>
    requires own { option_copied own ≡ new_cookie.own_domain list.now.rules
        (plain_access access.now) (option_copied lower) }
    requires new { plain_borrowed new.now ≡ made_with
        (option_copied own) (plain_text text.now) (plain_access access.now) now }
    ensures { result ≡ spec.first_drop (spec.later_rows list.now.rules (option_copied lower.entry)
        (plain_text text.now) (plain_access access.now) now (map plain_cookie cookies.now)) }
{
    first_applying(&[
        (
            is_other_suffix(lower, access, list),
            CookieDrop::PublicSuffix,
        ),
        (is_mismatch(own, access, list), CookieDrop::DomainMismatch),
        (is_secure_over_http(text, access), CookieDrop::NotSecureUrl),
        (
            is_http_only_of_script(text, access),
            CookieDrop::HttpOnlyFromScript,
        ),
        (
            overlays_secure(text, access, new, now, cookies),
            CookieDrop::OverlaysSecure,
        ),
        (is_foreign_same_site(text, access), CookieDrop::SameSite),
        (is_none_without_secure(text), CookieDrop::NoneNeedsSecure),
        (lacks_secure_prefix(text), CookieDrop::SecurePrefix),
        (lacks_host_prefix(text, new), CookieDrop::HostPrefix),
        (is_nameless_prefix(text), CookieDrop::NamelessPrefix),
        (
            overwrites_http_only(access, new, now, cookies),
            CookieDrop::OverwritesHttpOnly,
        ),
        (
            is_partitioned_without_secure(text),
            CookieDrop::PartitionedNeedsSecure,
        ),
        (is_third_party(text, access), CookieDrop::ThirdParty),
    ])
}

fn first_applying(rows: &[(bool, CookieDrop)]) -> Option<CookieDrop>
    ensures { result ≡ spec.first_drop rows.now }
{
    rows.iter().find(|row| row.0).map(|row| row.1)
}

fn is_other_suffix(lower: Option<&str>, access: &Access<'_>, list: &SuffixList) -> bool
    ensures { result ≡ has_such (spec.is_other_suffix list.now.rules (plain_access access.now))
        (option_copied lower.entry) }
{
    match lower {
        None => false,
        Some(domain) => is_suffix_to(domain, access, list) && domain != access.host,
    }
}

fn is_mismatch(own: Option<&str>, access: &Access<'_>, list: &SuffixList) -> bool
    ensures { result ≡ has_such (spec.is_mismatch list.now.rules (plain_access access.now))
        (option_copied own.entry) }
{
    match own {
        None => false,
        Some(domain) => {
            !domain_matches(access.ip, access.host, domain)
                || domain_of(domain, access.ip, list) != domain_of(access.host, access.ip, list)
        }
    }
}

fn is_secure_over_http(text: &CookieText<'_>, access: &Access<'_>) -> bool
    ensures { result ≡ (text.now.secure && not access.now.https) }
{
    text.secure && !access.https
}

fn is_http_only_of_script(text: &CookieText<'_>, access: &Access<'_>) -> bool
    ensures { result ≡ (text.now.http_only && access.now.script) }
{
    text.http_only && access.script
}

fn overlays_secure(
    text: &CookieText<'_>,
    access: &Access<'_>,
    new: &BorrowedCookie<'_>,
    now: i64,
    cookies: &[Cookie],
) -> bool
    ensures { result ≡ (not text.now.secure && (not access.now.https && list_any
        (λ c. spec.is_live_such now
        (spec.is_overlaid (plain_access access.now) (plain_borrowed new.now))
        (plain_cookie c)) cookies.now)) }
{
    !text.secure && !access.https && has_live_overlaid(access, new, now, cookies)
}

fn has_live_overlaid(
    access: &Access<'_>,
    new: &BorrowedCookie<'_>,
    now: i64,
    cookies: &[Cookie],
) -> bool
    ensures { result ≡ list_any (λ c. spec.is_live_such now
        (spec.is_overlaid (plain_access access.now) (plain_borrowed new.now)) (plain_cookie c))
        cookies.now }
{
    cookies
        .iter()
        .any(|c| is_live_overlaid(access, new, now, c))
}

fn is_live_overlaid(
    access: &Access<'_>,
    new: &BorrowedCookie<'_>,
    now: i64,
    cookie: &Cookie,
) -> bool
    ensures { result ≡ spec.is_live_such now
        (spec.is_overlaid (plain_access access.now) (plain_borrowed new.now))
        (plain_cookie cookie.now) }
{
    !is_expired(cookie.expiry, now) && is_overlaid(access, new, cookie)
}

fn is_overlaid(access: &Access<'_>, new: &BorrowedCookie<'_>, cookie: &Cookie) -> bool
    ensures { result ≡ spec.is_overlaid (plain_access access.now) (plain_borrowed new.now)
        (plain_cookie cookie.now) }
{
    cookie.secure
        && cookie.identity.name.as_str() == new.name
        && (domain_matches(access.ip, cookie.identity.domain.as_str(), new.domain)
            || domain_matches(access.ip, new.domain, cookie.identity.domain.as_str()))
        && path_matches(new.path, cookie.identity.path.as_str())
}

fn is_none(same_site: SameSite) -> bool
    ensures { result ≡ spec.is_none same_site }
{
    matches!(same_site, SameSite::NoneSent)
}

fn is_foreign_same_site(text: &CookieText<'_>, access: &Access<'_>) -> bool
    ensures { result ≡ (not (spec.is_none text.now.same_site)
        && spec.is_cross_site (plain_access access.now)) }
{
    !is_none(text.same_site) && is_cross_site(access)
}

fn is_cross_site(access: &Access<'_>) -> bool
    ensures { result ≡ spec.is_cross_site (plain_access access.now) }
{
    if access.script {
        !access.first
    } else {
        !access.same_site && !access.top_load
    }
}

fn is_none_without_secure(text: &CookieText<'_>) -> bool
    ensures { result ≡ (spec.is_none text.now.same_site && not text.now.secure) }
{
    is_none(text.same_site) && !text.secure
}

fn has_prefix(prefix: &str, text: &str) -> bool
    ensures { result ≡ spec.has_prefix prefix.now text.now }
{
    let front = prefix.as_bytes();
    let bytes = text.as_bytes();
    front.len() <= bytes.len() && bytes[..front.len()].eq_ignore_ascii_case(front)
}

fn lacks_secure_prefix(text: &CookieText<'_>) -> bool
    ensures { result ≡ (spec.has_prefix spec.secure_prefix text.now.name.now
        && not text.now.secure) }
{
    has_prefix("__Secure-", text.name) && !text.secure
}

fn lacks_host_prefix(text: &CookieText<'_>, new: &BorrowedCookie<'_>) -> bool
    ensures { result ≡ (spec.has_prefix spec.host_prefix text.now.name.now
        && not (spec.is_for_host (plain_text text.now) (plain_borrowed new.now))) }
{
    has_prefix("__Host-", text.name) && !is_for_host(text, new)
}

fn is_for_host(text: &CookieText<'_>, new: &BorrowedCookie<'_>) -> bool
    ensures { result ≡ spec.is_for_host (plain_text text.now) (plain_borrowed new.now) }
{
    text.secure && new.host_only && text.has_path && new.path == "/"
}

fn is_nameless_prefix(text: &CookieText<'_>) -> bool
    ensures { result ≡ spec.is_nameless_prefix (plain_text text.now) }
{
    text.name == "" && (has_prefix("__Secure-", text.value) || has_prefix("__Host-", text.value))
}

fn overwrites_http_only(
    access: &Access<'_>,
    new: &BorrowedCookie<'_>,
    now: i64,
    cookies: &[Cookie],
) -> bool
    ensures { let is_same = spec.is_same_http_only (plain_borrowed new.now) in
        result ≡ (access.now.script && list_any
        (λ c. spec.is_live_such now is_same (plain_cookie c)) cookies.now) }
{
    access.script && has_live_http_only(new, now, cookies)
}

fn has_live_http_only(new: &BorrowedCookie<'_>, now: i64, cookies: &[Cookie]) -> bool
    ensures { result ≡ list_any (λ c. spec.is_live_such now
        (spec.is_same_http_only (plain_borrowed new.now)) (plain_cookie c)) cookies.now }
{
    cookies.iter().any(|c| is_live_http_only(new, now, c))
}

fn is_live_http_only(new: &BorrowedCookie<'_>, now: i64, cookie: &Cookie) -> bool
    ensures { result ≡ spec.is_live_such now (spec.is_same_http_only (plain_borrowed new.now))
        (plain_cookie cookie.now) }
{
    !is_expired(cookie.expiry, now) && (is_same(new, cookie) && cookie.http_only)
}

fn is_partitioned_without_secure(text: &CookieText<'_>) -> bool
    ensures { result ≡ (text.now.partitioned && not text.now.secure) }
{
    text.partitioned && !text.secure
}

fn is_third_party(text: &CookieText<'_>, access: &Access<'_>) -> bool
    ensures { result ≡ spec.is_third_party (plain_text text.now) (plain_access access.now) }
{
    matches!(destination(text, access), Destination::Nowhere)
}
