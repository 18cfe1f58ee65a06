//! The attributes of a Set-Cookie text.
ghost use Rattle.std.specs.Prelude.{◌≡◌, option_map, IfSome};
ghost use Rattle.std.specs.Char.{is_ascii_digit};
ghost use Rattle.std.specs.List.{list_all};
ghost use Rattle.case_tables.specs.Rows.{first_value, same_in_any_case};
ghost use Rattle.setcookie_parse.specs.SetCookie.{attribute_name, attribute_value, name_of};
ghost use Rattle.setcookie_parse.specs.SetCookie.{value_of, is_number, is_negative, max_age};
ghost use Rattle.setcookie_parse.specs.SetCookie.{same_site, kinds, kind_of};

use crate::cookie::SameSite;
use crate::cut::cut_once;
use crate::digits::capped_number;
use crate::trim::trimmed;
use case_tables::Cases;

/// What an attribute's name says that it is.
#[derive(Clone, Copy)]
pub enum Kind {
    Expires,
    MaxAge,
    Domain,
    Path,
    Secure,
    HttpOnly,
    Partitioned,
    SameSite,
}

const KINDS: [(&str, Kind); 8] = [
    ("expires", Kind::Expires),
    ("max-age", Kind::MaxAge),
    ("domain", Kind::Domain),
    ("path", Kind::Path),
    ("secure", Kind::Secure),
    ("httponly", Kind::HttpOnly),
    ("partitioned", Kind::Partitioned),
    ("samesite", Kind::SameSite),
];

const SAME_SITES: [(&str, SameSite); 3] = [
    ("none", SameSite::NoneSent),
    ("lax", SameSite::Lax),
    ("strict", SameSite::Strict),
];

/// 400 days in seconds.
pub const AGE_LIMIT: u32 = 34_560_000;

/// The longest value of an attribute in octets.
const VALUE_LIMIT: usize = 1024;

/// The kind and the value of a piece that is an attribute and is not too long.
pub fn attribute_of(piece: &str) -> Option<(Kind, &str)>
    ensures kind { option_map (λ attribute. attribute.0) result ≡ kind_of piece.now }
    ensures value { IfSome result (λ attribute. attribute.1.now ≡ attribute_value piece.now) }
{
    let (name, value) = split_attribute(piece);
    if value.len() > VALUE_LIMIT {
        return None;
    }
    match kind_named(name) {
        Some(kind) => Some((kind, value)),
        None => None,
    }
}

fn kind_named(name: &str) -> Option<Kind>
    ensures { result ≡ first_value (λ other. same_in_any_case other name.now) kinds }
{
    Cases { rows: &KINDS }.find_in_any_case(name.as_bytes())
}

/// The name and the value of an attribute.
fn split_attribute(piece: &str) -> (&str, &str)
    ensures name { result.0.now ≡ attribute_name piece.now }
    ensures value { result.1.now ≡ attribute_value piece.now }
{
    match cut_once(piece, b'=') {
        Some((name, value)) => (trimmed(name), trimmed(value)),
        None => (trimmed(piece), ""),
    }
}

/// The name and the value of a cookie's pair.
pub fn split_pair(pair: &str) -> (&str, &str)
    ensures name { result.0.now ≡ name_of pair.now }
    ensures value { result.1.now ≡ value_of pair.now }
{
    match cut_once(pair, b'=') {
        Some((name, value)) => (trimmed(name), trimmed(value)),
        None => ("", trimmed(pair)),
    }
}

/// The seconds of a Max-Age, from 0 to the limit.
pub fn max_age(value: &[u8]) -> Option<u32>
    ensures { result ≡ max_age value.now }
{
    if is_number(value) {
        Some(capped_number(value, AGE_LIMIT))
    } else if is_negative(value) {
        Some(0)
    } else {
        None
    }
}

fn is_negative(text: &[u8]) -> bool
    ensures { result ≡ is_negative text.now }
{
    match text {
        [b'-', digits @ ..] => is_number(digits),
        _ => false,
    }
}

fn is_number(text: &[u8]) -> bool
    ensures { result ≡ is_number text.now }
{
    !text.is_empty() && are_digits(text)
}

fn are_digits(text: &[u8]) -> bool
    ensures { result ≡ list_all is_ascii_digit text.now }
{
    text.iter().all(|b| b.is_ascii_digit())
}

pub fn same_site(value: &str) -> SameSite
    ensures { result ≡ same_site value.now }
{
    Cases { rows: &SAME_SITES }
        .find_in_any_case(value.as_bytes())
        .unwrap_or(SameSite::Default)
}
