//! Texts that stand for themselves in a string of JSON.
ghost use Rattle.std.specs.Prelude.{◌≡◌, ◌==◌, ◌&&◌, not, nat_lt};
ghost use Rattle.std.specs.List.{list_all};
ghost use Rattle.json.specs.Run as json;

use std::simd::prelude::*;

/// Whether a text stands for itself in a string of JSON. Its bytes are seen sixteen at a time.
pub fn is_plain(text: &str) -> bool
    ensures { result ≡ list_all json.is_plain text.now }
{
    let bytes = text.as_bytes();
    let mut from = 0;
    while bytes.len() - from >= 16 {
        if !are_plain_16(u8x16::from_slice(&bytes[from..])) {
            return false;
        }
        from += 16;
    }
    is_plain_end(&bytes[from..])
}

// The same of the bytes at the end.
fn is_plain_end(bytes: &[u8]) -> bool
    ensures { result ≡ list_all json.is_plain bytes.now }
{
    if bytes.len() < 8 {
        return are_plain(bytes);
    }
    are_plain_8(u8x8::from_slice(bytes)) && are_plain(&bytes[8..])
}

fn are_plain(bytes: &[u8]) -> bool
    ensures { result ≡ list_all json.is_plain bytes.now }
{
    bytes.iter().all(|byte| is_plain_byte(*byte))
}

fn is_plain_byte(byte: u8) -> bool
    ensures { result ≡ json.is_plain byte }
{
    byte != b'"' && byte != b'\\' && byte >= b' '
}

fn are_plain_16(bytes: u8x16) -> bool
    ensures { result ≡ list_all json.is_plain bytes }
{
    are_all(
        lack_16(bytes, b'"'),
        lack_16(bytes, b'\\'),
        lack_controls_16(bytes),
    )
}

fn lack_16(bytes: u8x16, byte: u8) -> bool
    ensures { result ≡ list_all (λ b. not (b == byte)) bytes }
{
    bytes.simd_eq(u8x16::splat(byte)).to_bitmask() == 0
}

fn lack_controls_16(bytes: u8x16) -> bool
    ensures { result ≡ list_all (λ b. not (nat_lt b 32)) bytes }
{
    bytes.simd_lt(u8x16::splat(b' ')).to_bitmask() == 0
}

fn are_plain_8(bytes: u8x8) -> bool
    ensures { result ≡ list_all json.is_plain bytes }
{
    are_all(
        lack_8(bytes, b'"'),
        lack_8(bytes, b'\\'),
        lack_controls_8(bytes),
    )
}

fn lack_8(bytes: u8x8, byte: u8) -> bool
    ensures { result ≡ list_all (λ b. not (b == byte)) bytes }
{
    bytes.simd_eq(u8x8::splat(byte)).to_bitmask() == 0
}

fn lack_controls_8(bytes: u8x8) -> bool
    ensures { result ≡ list_all (λ b. not (nat_lt b 32)) bytes }
{
    bytes.simd_lt(u8x8::splat(b' ')).to_bitmask() == 0
}

fn are_all(a: bool, b: bool, c: bool) -> bool
    ensures { result ≡ (a && (b && c)) }
{
    a && b && c
}
