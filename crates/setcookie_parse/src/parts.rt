//! The parts of a cookie-date, found token by token.
ghost use Rattle.std.specs.Prelude.{◌≡◌, ◌∷◌, ◌<◌, ◌≤◌, length, option_copied, IfSome};
ghost use Rattle.std.specs.List.{slice_split, position_or_len};
ghost use Rattle.setcookie_parse.specs.CookieDate.{is_delimiter, moment_of, cookie_date};
ghost use Rattle.setcookie_parse.specs.DateParts.{with_token, with_piece, pieces_after};

use crate::token::{Clock, day_of, month_of, time_of, year_of};

/// What the tokens so far have said.
#[derive(Clone, Copy)]
pub struct Parts {
    pub time: Option<Clock>,
    pub day: Option<u16>,
    pub month: Option<u16>,
    pub year: Option<u16>,
}

/// The parts that the tokens of a text say.
pub fn parts_of(text: &[u8]) -> Parts
    ensures { moment_of result.time result.day result.month result.year ≡ cookie_date text.now }
{
    let mut parts = Parts {
        time: None,
        day: None,
        month: None,
        year: None,
    };
    let mut rest = text;
    'tokens: loop {
        let (token, more) = next_piece(rest);
        parts = with_piece(parts, token);
        match more {
            Some(later) => rest = later,
            None => return parts,
        }
    }
}

/// The parts with one more token; an empty piece is none.
fn with_piece(parts: Parts, piece: &[u8]) -> Parts
    ensures { result ≡ with_piece parts piece.now }
{
    if piece.is_empty() {
        parts
    } else {
        with_token(parts, piece)
    }
}

/// Each token is the first part that is not found yet and that it has the form of.
fn with_token(parts: Parts, token: &[u8]) -> Parts
    ensures { result ≡ with_token parts token.now }
{
    let (time, day) = (time_of(token), day_of(token));
    let (month, year) = (month_of(token), year_of(token));
    if parts.time.is_none() && time.is_some() {
        Parts { time, ..parts }
    } else if parts.day.is_none() && day.is_some() {
        Parts { day, ..parts }
    } else if parts.month.is_none() && month.is_some() {
        Parts { month, ..parts }
    } else if parts.year.is_none() && year.is_some() {
        Parts { year, ..parts }
    } else {
        parts
    }
}

/// What stands before the first delimiter, and what follows it.
fn next_piece(text: &[u8]) -> (&[u8], Option<&[u8]>)
    ensures pieces { slice_split is_delimiter text.now
        ≡ result.0.now ∷ pieces_after is_delimiter (option_copied result.1) }
    ensures shorter { IfSome result.1 (λ rest. length rest.now < length text.now) }
{
    let place = first_delimiter(text);
    if place < text.len() {
        (&text[..place], Some(&text[place + 1..]))
    } else {
        (text, None)
    }
}

fn first_delimiter(text: &[u8]) -> usize
    ensures count { result ≡ position_or_len is_delimiter text.now }
    ensures within { result ≤ length text.now }
{
    let mut place = 0;
    while place < text.len() && !is_delimiter(text[place]) {
        place += 1;
    }
    place
}

pub fn is_delimiter(b: u8) -> bool
    ensures { result ≡ is_delimiter b }
{
    matches!(b, 0x09 | 0x20..=0x2F | 0x3B..=0x40 | 0x5B..=0x60 | 0x7B..=0x7E)
}
