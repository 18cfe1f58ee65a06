//! The last value of each kind of attribute.
ghost use Rattle.std.specs.Prelude.{◌≡◌, ◌∷◌, ◌==◌, ◌<◌, ◌≤ℤ◌, length, pos, [], Some};
ghost use Rattle.std.specs.Prelude.{option_copied, IfSome};
ghost use Rattle.std.specs.List.{before_first, slice_split, slice_index};
ghost use Rattle.std.specs.Str.{byte};
ghost use Rattle.std.specs.Option.{option_and_then};
ghost use Rattle.agent_base.specs.Seconds.{last_moment};
ghost use Rattle.setcookie_parse.specs.SetCookie.{is_semicolon, kind_of, attribute_value};
ghost use Rattle.setcookie_parse.specs.SetCookie.{without_dot, domain_in, path_in, expiry_of};
ghost use Rattle.setcookie_parse.specs.DateParts.{pieces_after};
ghost use Rattle.setcookie_parse.specs.AttributesSoFar.{plain_seen, seen_in, seen_with, cookie_from};
ghost use Rattle.setcookie_parse.specs.Plain.{plain_text};

use crate::attribute::{AGE_LIMIT, Kind, attribute_of, max_age, same_site};
use crate::cookie::{CookieText, SameSite};
use crate::cut::cut_once;
use crate::date::cookie_date;

/// What the attributes so far have said.
#[derive(Clone, Copy)]
pub struct AttributesSoFar<'a> {
    pub expires: Option<i64>,
    pub max_age: Option<u32>,
    pub domain: Option<&'a str>,
    pub path: Option<&'a str>,
    pub secure: bool,
    pub http_only: bool,
    pub partitioned: bool,
    pub same_site: Option<SameSite>,
}

/// What no attributes say.
pub const NOTHING: AttributesSoFar<'static> = AttributesSoFar {
    expires: None,
    max_age: None,
    domain: None,
    path: None,
    secure: false,
    http_only: false,
    partitioned: false,
    same_site: None,
};

/// What the pieces of a text say, each of which is an attribute.
pub fn seen_in<'a>(text: &'a str) -> AttributesSoFar<'a>
    ensures { plain_seen result ≡ seen_in (slice_split is_semicolon text.now) }
{
    let mut seen = NOTHING;
    let mut rest = text;
    'pieces: loop {
        let (piece, more) = next_piece(rest);
        seen = with_piece(seen, piece);
        match more {
            Some(later) => rest = later,
            None => return seen,
        }
    }
}

/// What stands before the first semicolon, and what follows it.
pub fn next_piece(text: &str) -> (&str, Option<&str>)
    ensures front { result.0.now ≡ before_first is_semicolon text.now }
    ensures pieces { slice_split is_semicolon text.now
        ≡ result.0.now ∷ pieces_after is_semicolon (option_copied result.1) }
    ensures shorter { IfSome result.1 (λ rest. length rest.now < length text.now) }
{
    match cut_once(text, b';') {
        Some((front, rest)) => (front, Some(rest)),
        None => (text, None),
    }
}

/// The values with one more piece.
pub fn with_piece<'a>(seen: AttributesSoFar<'a>, piece: &'a str) -> AttributesSoFar<'a>
    ensures { plain_seen result
        ≡ seen_with (plain_seen seen.entry) (kind_of piece.now) (attribute_value piece.now) }
{
    match attribute_of(piece) {
        Some((kind, value)) => with_attribute(seen, kind, value),
        None => seen,
    }
}

fn with_attribute<'a>(seen: AttributesSoFar<'a>, kind: Kind, value: &'a str) -> AttributesSoFar<'a>
    ensures { plain_seen result ≡ seen_with (plain_seen seen.entry) (Some kind) value.now }
{
    match kind {
        Kind::Expires => AttributesSoFar {
            expires: cookie_date(value).or(seen.expires),
            ..seen
        },
        Kind::MaxAge => AttributesSoFar {
            max_age: max_age(value.as_bytes()).or(seen.max_age),
            ..seen
        },
        Kind::Domain => AttributesSoFar {
            domain: Some(value),
            ..seen
        },
        Kind::Path => AttributesSoFar {
            path: Some(value),
            ..seen
        },
        Kind::Secure => AttributesSoFar {
            secure: true,
            ..seen
        },
        Kind::HttpOnly => AttributesSoFar {
            http_only: true,
            ..seen
        },
        Kind::Partitioned => AttributesSoFar {
            partitioned: true,
            ..seen
        },
        Kind::SameSite => AttributesSoFar {
            same_site: Some(same_site(value)),
            ..seen
        },
    }
}

/// The cookie of a name, a value and what the attributes have said.
pub fn cookie_from<'a>(
    name: &'a str,
    value: &'a str,
    seen: AttributesSoFar<'a>,
    now: i64,
) -> CookieText<'a>
    requires begun { pos 0 ≤ℤ now }
    requires lasting { now ≤ℤ pos last_moment }
    ensures { plain_text result ≡ cookie_from name.now value.now (plain_seen seen.entry) now }
{
    CookieText {
        name,
        value,
        domain: domain_in(seen.domain),
        path: path_in(seen.path),
        has_path: seen.path.is_some(),
        secure: seen.secure,
        http_only: seen.http_only,
        partitioned: seen.partitioned,
        same_site: seen.same_site.unwrap_or(SameSite::Default),
        expiry: expiry_of(now, seen.max_age, seen.expires),
    }
}

/// A domain without one leading dot, if that is not empty.
fn domain_in(value: Option<&str>) -> Option<&str>
    ensures { option_copied result ≡ option_and_then domain_in (option_copied value.entry) }
{
    let rest = without_dot(value?);
    if rest.is_empty() { None } else { Some(rest) }
}

fn without_dot(text: &str) -> &str
    ensures { result.now ≡ without_dot text.now }
{
    if begins_with_dot(text) {
        &text[1..]
    } else {
        text
    }
}

fn begins_with_dot(text: &str) -> bool
    ensures { result ≡ (slice_index text.now 0 == byte ".") }
{
    text.starts_with('.')
}

/// A path that begins with a slash.
fn path_in(value: Option<&str>) -> Option<&str>
    ensures { option_copied result ≡ option_and_then path_in (option_copied value.entry) }
{
    let text = value?;
    if text.starts_with('/') {
        Some(text)
    } else {
        None
    }
}

fn expiry_of(now: i64, age: Option<u32>, date: Option<i64>) -> Option<i64>
    requires begun { pos 0 ≤ℤ now }
    requires lasting { now ≤ℤ pos last_moment }
    ensures { result ≡ expiry_of now age date }
{
    match (age, date) {
        (Some(seconds), _) => Some(now + i64::from(seconds)),
        (None, Some(moment)) => Some(moment.min(now + i64::from(AGE_LIMIT))),
        (None, None) => None,
    }
}
