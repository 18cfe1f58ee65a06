//! Texts in two at a byte.
ghost use Rattle.std.specs.Prelude.{◌≡◌, ◌<◌, ◌==◌, MatchOption, length};
ghost use Rattle.std.specs.List.{after_first, before_first, position_or_len};

use memchr::memchr;

/// What stands before the first of an ASCII byte and what follows it, if it is there.
pub fn cut_once(text: &str, byte: u8) -> Option<(&str, &str)>
    requires ascii { byte < 128 }
    ensures { MatchOption result
        (position_or_len (λ b. b == byte) text.now ≡ length text.now)
        (λ parts. (parts.0.now ≡ before_first (λ b. b == byte) text.now)
        × (parts.1.now ≡ after_first (λ b. b == byte) text.now)
        × (position_or_len (λ b. b == byte) text.now < length text.now)) }
{
    match memchr(byte, text.as_bytes()) {
        Some(place) => Some((&text[..place], &text[place + 1..])),
        None => None,
    }
}
