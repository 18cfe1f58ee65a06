ghost use Rattle.std.specs.Prelude.{◌≡◌, pos, ◌≤ℤ◌, option_copied};
ghost use Rattle.std.specs.List.{list_any};
ghost use Rattle.agent_base.specs.Seconds.{last_moment};
ghost use Rattle.setcookie_parse.specs.SetCookie.{is_control, is_semicolon, set_cookie_text};
ghost use Rattle.setcookie_parse.specs.SetCookie.{AreSlices};
ghost use Rattle.setcookie_parse.specs.DateParts.{pieces_after};
ghost use Rattle.setcookie_parse.specs.AttributesSoFar.{plain_seen, seen_in, answer_from};
ghost use Rattle.setcookie_parse.specs.Plain.{plain_parsed};

use crate::attribute::split_pair;
use crate::cookie::{DropCause, Parsed};
use crate::seen::{AttributesSoFar, NOTHING, cookie_from, next_piece, seen_in};

/// The longest name and value together in octets.
const PAIR_LIMIT: usize = 4096;

/// Reads the value of a Set-Cookie header that came at a moment, in seconds from 1970 on.
///
/// The texts of the answer are slices of the text that is read, so no memory is taken. The time
/// is linear in the text. Where several causes drop a text, the first of `DropCause` is told.
pub fn parse<'a>(text: &'a str, now: i64) -> Parsed<'a>
    requires begun { pos 0 ≤ℤ now }
    requires lasting { now ≤ℤ pos last_moment }
    ensures meaning { plain_parsed result ≡ set_cookie_text text.now now }
    ensures slices { AreSlices text.now (plain_parsed result) }
{
    if has_control(text) {
        return Parsed::Dropped(DropCause::Control);
    }
    let (pair, rest) = next_piece(text);
    answer_of(pair, attributes(rest), now)
}

pub fn has_control(text: &str) -> bool
    ensures { result ≡ list_any is_control text.now }
{
    text.bytes()
        .any(|b| b <= 0x08 || (0x0A <= b && b <= 0x1F) || b == 0x7F)
}

/// The answer to a pair and what the attributes say.
pub fn answer_of<'a>(pair: &'a str, seen: AttributesSoFar<'a>, now: i64) -> Parsed<'a>
    requires begun { pos 0 ≤ℤ now }
    requires lasting { now ≤ℤ pos last_moment }
    ensures { plain_parsed result ≡ answer_from pair.now (plain_seen seen.entry) now }
{
    let (name, value) = split_pair(pair);
    let octets = name.len() + value.len();
    if octets > PAIR_LIMIT {
        Parsed::Dropped(DropCause::TooLong)
    } else if octets == 0 {
        Parsed::Dropped(DropCause::Empty)
    } else {
        Parsed::Kept(cookie_from(name, value, seen, now))
    }
}

fn attributes<'a>(rest: Option<&'a str>) -> AttributesSoFar<'a>
    ensures { plain_seen result ≡ seen_in (pieces_after is_semicolon (option_copied rest.entry)) }
{
    match rest {
        Some(text) => seen_in(text),
        None => NOTHING,
    }
}
