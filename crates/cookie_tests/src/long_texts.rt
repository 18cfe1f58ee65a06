//! Texts at the limits and long ones, which take time linear in their length.
use setcookie_parse::{DropCause, Parsed, parse};
use std::alloc::{AllocError, Global};
use std::test::Fail;

/// A text, and so many times another one behind it.
fn repeated(alloc: Global, front: &str, part: &str, count: u32) -> Result<String, AllocError> {
    let mut text = String::from_str(alloc, front)?;
    for _ in 0..count {
        text.push_str(part)?;
    }
    Ok(text)
}

/// How long the value and the path are, or why the text is dropped.
fn lengths_of(text: &str) -> Result<(usize, usize), DropCause> {
    match parse(text, 0) {
        Parsed::Kept(cookie) => Ok((cookie.value.len(), cookie.path.unwrap_or("").len())),
        Parsed::Dropped(cause) => Err(cause),
    }
}

const LONG: [(&str, &str, u32, Result<(usize, usize), DropCause>); 8] = [
    ("n=", "a", 4095, Ok((4095, 0))),
    ("n=", "a", 4096, Err(DropCause::TooLong)),
    ("n=1;", "\x01", 1, Err(DropCause::Control)),
    ("n=B", "\0Z", 1, Err(DropCause::Control)),
    ("n=1;path=/", "a", 1023, Ok((1, 1024))),
    ("n=1;path=/", "a", 1024, Ok((1, 0))),
    ("", ";", 1_000_000, Err(DropCause::Empty)),
    ("n=1", ";Path=/x", 100_000, Ok((1, 2))),
];

#[test]
fn limits_and_long_texts(rt: HostRuntime) -> Result<(), Fail> {
    for (front, part, count, lengths) in LONG {
        let text = repeated(rt.alloc(), front, part, count)?;
        assert_eq!(rt; lengths_of(text.as_str()), lengths, "{front}");
    }
    Ok(())
}
