//! Fields that are no names: bytes, numbers, texts and bits.
//!
//! A reader takes its field off the front of the bytes. After a refusal nothing is told of them.
ghost use Rattle.std.specs.Int.{w32};
ghost use Rattle.std.specs.Str.{is_utf8};
ghost use Rattle.row_changes.specs.Fields as spec;
ghost use Rattle.row_changes.specs.Stops.{Gives};

use crate::stop::Stop;

pub fn byte_at(bytes: &mut &[u8]) -> Result<u8, Stop>
    ensures { Gives (λ byte. (byte, bytes.new.now)) (spec.byte_at bytes.old.now) result }
{
    match *bytes {
        [byte, rest @ ..] => {
            *bytes = rest;
            Ok(*byte)
        }
        [] => Err(Stop::NoField),
    }
}

pub fn number_at(bytes: &mut &[u8]) -> Result<u32, Stop>
    ensures { Gives (λ number. (number, bytes.new.now)) (spec.number_at w32 bytes.old.now) result }
{
    if bytes.len() < 4 {
        return Err(Stop::NoField);
    }
    let (front, rest) = bytes.split_at(4);
    *bytes = rest;
    Ok(u32::from_le_bytes([front[0], front[1], front[2], front[3]]))
}

#[tactic(auto, unfolding(crate::specs::Fields::signed_at))]
pub fn signed_at(bytes: &mut &[u8]) -> Result<i64, Stop>
    ensures { Gives (λ number. (number, bytes.new.now)) (spec.signed_at bytes.old.now) result }
{
    if bytes.len() < 8 {
        return Err(Stop::NoField);
    }
    let (front, rest) = bytes.split_at(8);
    *bytes = rest;
    Ok(i64::from_le_bytes([
        front[0], front[1], front[2], front[3], front[4], front[5], front[6], front[7],
    ]))
}

#[tactic(auto, unfolding(crate::specs::Fields::text_at))]
pub fn text_at<'b>(bytes: &mut &'b [u8]) -> Result<&'b str, Stop>
    ensures { Gives (λ text. (text.now, bytes.new.now)) (spec.text_at bytes.old.now) result }
{
    let count = number_at(bytes)? as usize;
    if bytes.len() < count {
        return Err(Stop::NoField);
    }
    let (text, rest) = bytes.split_at(count);
    *bytes = rest;
    utf8(text)
}

// The text of bytes that are UTF-8.
#[tactic(auto, using(crate::proofs::TextLemmas::passes, crate::proofs::TextLemmas::fails))]
fn utf8(bytes: &[u8]) -> Result<&str, Stop>
    ensures { Gives (λ x. x.now) (spec.passing is_utf8 bytes.now) result }
{
    match str::from_utf8(bytes) {
        Ok(text) => Ok(text),
        Err(_) => Err(Stop::NoField),
    }
}

#[tactic(auto, unfolding(crate::specs::Fields::bit_at))]
pub fn bit_at(bytes: &mut &[u8]) -> Result<bool, Stop>
    ensures { Gives (λ bit. (bit, bytes.new.now)) (spec.bit_at bytes.old.now) result }
{
    match byte_at(bytes)? {
        0 => Ok(false),
        1 => Ok(true),
        _ => Err(Stop::NoField),
    }
}
