//! Cookie-dates.
ghost use Rattle.std.specs.Prelude.{◌≡◌, ◌≤◌, ◌+◌, ◌*◌, ◌*ℤ◌, if◌then◌else◌, IfSome, MatchOption};
ghost use Rattle.std.specs.Prelude.{true, false, Some, None, pos};
ghost use Rattle.jiff.specs.Words.{IsYmd, epoch_day};
ghost use Rattle.jiff_core.specs.Calendar.{days_from_civil, IsWithin};
ghost use Rattle.setcookie_parse.specs.CookieDate.{moment_of, cookie_date, is_moment, is_civil_day};
ghost use Rattle.setcookie_parse.specs.CookieDate.{full_year, seconds_at};

use crate::parts::parts_of;
use crate::token::Clock;
use jiff::civil::{Date, date};

/// The moment of a cookie-date, in seconds from 1970-01-01T00:00:00 UTC on.
///
/// `None` where the text lacks a time, a day, a month or a year, or where they name no moment
/// of the calendar from 1601 on. Weekdays and zones are passed over. The time is linear in the
/// text, and no memory is taken.
pub fn cookie_date(text: &str) -> Option<i64>
    ensures value { result ≡ cookie_date text.now }
{
    let parts = parts_of(text.as_bytes());
    moment_of(parts.time, parts.day, parts.month, parts.year)
}

/// The moment of four parts, if all are there and name one.
pub fn moment_of(
    time: Option<Clock>,
    day: Option<u16>,
    month: Option<u16>,
    year: Option<u16>,
) -> Option<i64>
    ensures { result ≡ moment_of time day month year }
{
    match (time, day, month, year) {
        (Some(time), Some(day), Some(month), Some(year)) => {
            moment(time, day, month, full_year(year))
        }
        _ => None,
    }
}

/// A year of two digits is one of 1970 to 2069.
fn full_year(year: u16) -> u16
    ensures { result ≡ full_year year }
{
    match year {
        0..=69 => 2000 + year,
        70..=99 => 1900 + year,
        _ => year,
    }
}

fn moment(time: Clock, day: u16, month: u16, year: u16) -> Option<i64>
    ensures { result ≡ (if is_moment time day month year then Some (seconds_at time day month year)
        else None) }
{
    if year < 1601 || year > 9999 || time.hour > 23 || time.minute > 59 || time.second > 59 {
        return None;
    }
    match day_start(year, month, day) {
        Some(start) => Some(start + i64::from(seconds(time))),
        None => None,
    }
}

fn seconds(time: Clock) -> u32
    requires hour { time.hour ≤ 23 }
    requires minute { time.minute ≤ 59 }
    requires second { time.second ≤ 59 }
    ensures value { result ≡ time.hour * 3600 + time.minute * 60 + time.second }
    ensures below { result ≤ 86399 }
{
    u32::from(time.hour) * 3600 + u32::from(time.minute) * 60 + u32::from(time.second)
}

/// The seconds from 1970-01-01 to the beginning of a civil day, if the calendar has it.
fn day_start(year: u16, month: u16, day: u16) -> Option<i64>
    requires { year ≤ 9999 }
    ensures value { result ≡ (if is_civil_day year month day
        then Some (days_from_civil (pos year) month day *ℤ pos 86400) else None) }
    ensures range { IfSome result (IsWithin 400000000000) }
{
    match civil_day(year, month, day) {
        Some(date) => Some(seconds_to(date)),
        None => None,
    }
}

fn civil_day(year: u16, month: u16, day: u16) -> Option<Date>
    requires { year ≤ 9999 }
    ensures { MatchOption result (is_civil_day year month day ≡ false)
        (λ date. (is_civil_day year month day ≡ true)
        × IsYmd (pos year) (pos month) (pos day) date) }
{
    if month > 12 || day > 31 {
        return None;
    }
    match Date::new(year as i16, month as i8, day as i8) {
        Ok(date) => Some(date),
        Err(_) => None,
    }
}

/// The seconds from 1970-01-01 to the beginning of a day.
fn seconds_to(day: Date) -> i64
    ensures value { result ≡ epoch_day day *ℤ pos 86400 }
    ensures range { IsWithin 400000000000 result }
{
    day.duration_since(date(1970, 1, 1)).as_secs()
}
