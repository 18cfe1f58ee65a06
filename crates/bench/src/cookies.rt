//! Set-Cookie texts through the parser.
use crate::watch::Watch;
use setcookie_parse::{Parsed, parse};
use std::io;

// 2026-01-01T00:00:00 UTC.
const NOW: i64 = 1_767_225_600;

// Texts of 77 bytes each, half with a date.
const TEXTS: [&str; 4] = [
    "SID=31d4d96e407aad4; Path=/; Domain=example.org; Max-Age=60; Secure; HttpOnly",
    "id=a3fWa; Expires=Wed, 21 Oct 2026 07:28:00 GMT; Path=/shop; Secure; HttpOnly",
    "theme=dark; Path=/; Domain=.example.org; Max-Age=604800; SameSite=Lax; Secure",
    "lang=en-GB; expires=Thu, 01-Jan-2026 00:00:00 GMT; path=/; domain=example.org",
];

// A number that depends on the answer, so that no call can be left out.
fn weight_of(text: &str) -> u64 {
    match parse(text, NOW) {
        Parsed::Kept(cookie) => {
            let texts = (cookie.name.len() as u64).wrapping_add(cookie.value.len() as u64);
            texts.wrapping_add(cookie.expiry.unwrap_or(0).unsigned_abs())
        }
        Parsed::Dropped(_) => 0,
    }
}

// The weights of so many texts together.
fn weigh(count: u32) -> u64 {
    let mut sum: u64 = 0;
    for i in 0..count {
        sum = sum.wrapping_add(weight_of(TEXTS[(i % 4) as usize]));
    }
    sum
}

pub fn run(rt: &HostRuntime, count: u32) -> io::Result<()> {
    let watch = Watch::start(rt)?;
    let sum = weigh(count);
    watch.tell(rt, "cookies", count)?;
    println!(rt; "cookies: {count} texts, {sum}")?;
    Ok(())
}
