//! Reads cookie-dates and Set-Cookie texts, one a line, and prints what the parser makes of each.
#![tactic(auto)]

use setcookie_parse::{CookieText, DropCause, Parsed, SameSite, cookie_date, parse};
use std::alloc::Global;
use std::io;

// The moment at which the texts come: 2026-01-01T00:00:00 UTC.
const NOW: i64 = 1_767_225_600;

fn same_site_word(same_site: SameSite) -> &'static str {
    match same_site {
        SameSite::Default => "",
        SameSite::NoneSent => " same-site none",
        SameSite::Lax => " same-site lax",
        SameSite::Strict => " same-site strict",
    }
}

fn path_words(alloc: Global, cookie: &CookieText<'_>) -> io::Result<String> {
    match cookie.path {
        Some(path) => Ok(format!(in alloc; " path [{path}]")?),
        None if cookie.has_path => Ok(String::from_str(alloc, " path")?),
        None => Ok(String::new(alloc)),
    }
}

fn flag_words(alloc: Global, cookie: &CookieText<'_>) -> io::Result<String> {
    let mut words = String::new(alloc);
    for (flag, word) in [
        (cookie.secure, " secure"),
        (cookie.http_only, " http-only"),
        (cookie.partitioned, " partitioned"),
    ] {
        if flag {
            words.push_str(word)?;
        }
    }
    words.push_str(same_site_word(cookie.same_site))?;
    Ok(words)
}

fn cookie_words(alloc: Global, cookie: &CookieText<'_>) -> io::Result<String> {
    let mut words = format!(in alloc; "[{}] [{}]", cookie.name, cookie.value)?;
    if let Some(domain) = cookie.domain {
        words.push_str(format!(in alloc; " domain [{domain}]")?.as_str())?;
    }
    words.push_str(path_words(alloc, cookie)?.as_str())?;
    words.push_str(flag_words(alloc, cookie)?.as_str())?;
    if let Some(second) = cookie.expiry {
        words.push_str(format!(in alloc; " expires {second}")?.as_str())?;
    }
    Ok(words)
}

fn text_words(alloc: Global, text: &str) -> io::Result<String> {
    let word = match parse(text, NOW) {
        Parsed::Kept(cookie) => return cookie_words(alloc, &cookie),
        Parsed::Dropped(DropCause::Control) => "control",
        Parsed::Dropped(DropCause::TooLong) => "too long",
        Parsed::Dropped(DropCause::Empty) => "empty",
    };
    Ok(String::from_str(alloc, word)?)
}

fn date_words(alloc: Global, text: &str) -> io::Result<String> {
    match cookie_date(text) {
        Some(second) => Ok(format!(in alloc; "{second}")?),
        None => Ok(String::from_str(alloc, "none")?),
    }
}

// The answer to a line, which begins with `date` or `text` and a space.
fn answer_to(alloc: Global, line: &str) -> io::Result<String> {
    match line.split_once(' ') {
        Some(("date", text)) => date_words(alloc, text),
        Some(("text", text)) => text_words(alloc, text),
        _ => Ok(String::from_str(alloc, "a line begins with `date ` or `text `")?),
    }
}

fn main(rt: HostRuntime) -> io::Result<()> {
    for line in rt.lines(rt.alloc()) {
        let answer = answer_to(rt.alloc(), line?.as_str())?;
        println!(rt; "{answer}")?;
    }
    Ok(())
}
