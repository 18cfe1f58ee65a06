//! The forms of a cookie-date's tokens.
ghost use Rattle.std.specs.Prelude.{◌≡◌, ◌≤◌, take, option_copied};
ghost use Rattle.setcookie_parse.specs.CookieDate.{leading_number, after_colon, time_of, day_of};
ghost use Rattle.setcookie_parse.specs.CookieDate.{month_of, year_of};

use crate::digits::{capped_number, leading_digits};
use case_tables::Cases;

/// A time of day.
#[derive(Clone, Copy)]
pub struct Clock {
    pub hour: u16,
    pub minute: u16,
    pub second: u16,
}

const MONTHS: [(&str, u16); 12] = [
    ("jan", 1),
    ("feb", 2),
    ("mar", 3),
    ("apr", 4),
    ("may", 5),
    ("jun", 6),
    ("jul", 7),
    ("aug", 8),
    ("sep", 9),
    ("oct", 10),
    ("nov", 11),
    ("dec", 12),
];

pub fn time_of(token: &[u8]) -> Option<Clock>
    ensures { result ≡ time_of token.now }
{
    let after_hour = after_colon(token)?;
    let after_minute = after_colon(after_hour)?;
    Some(Clock {
        hour: leading_number(token, 1, 2)?,
        minute: leading_number(after_hour, 1, 2)?,
        second: leading_number(after_minute, 1, 2)?,
    })
}

pub fn day_of(token: &[u8]) -> Option<u16>
    ensures { result ≡ day_of token.now }
{
    leading_number(token, 1, 2)
}

pub fn month_of(token: &[u8]) -> Option<u16>
    ensures { result ≡ month_of token.now }
{
    Cases { rows: &MONTHS }.find_in_any_case(first_three(token))
}

pub fn year_of(token: &[u8]) -> Option<u16>
    ensures { result ≡ year_of token.now }
{
    leading_number(token, 2, 4)
}

fn first_three(token: &[u8]) -> &[u8]
    ensures { result.now ≡ take 3 token.now }
{
    &token[..token.len().min(3)]
}

fn leading_number(text: &[u8], least: usize, most: usize) -> Option<u16>
    requires { most ≤ 4 }
    ensures { result ≡ leading_number least most text.now }
{
    let count = leading_digits(text);
    if least <= count && count <= most {
        Some(capped_number(&text[..count], 9999) as u16)
    } else {
        None
    }
}

/// What follows the digits that a text begins with and a colon.
fn after_colon(text: &[u8]) -> Option<&[u8]>
    ensures { option_copied result ≡ after_colon text.now }
{
    match &text[leading_digits(text)..] {
        [b':', rest @ ..] => Some(rest),
        _ => None,
    }
}
