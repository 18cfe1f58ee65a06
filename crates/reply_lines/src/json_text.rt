//! Texts and numbers of JSON, put behind a line.
ghost use Rattle.std.specs.Prelude.{◌≡◌, ◌++◌, ◌∷◌, [], OnOk, codes, decimal, option_copied};
ghost use Rattle.std.specs.Fmt.{signed_decimal};
ghost use Rattle.json.specs.Print.{quoted};
ghost use Rattle.serde_json.specs.Written.{compact_text};
ghost use Rattle.reply_lines.specs.Reply as spec;

use crate::plain_texts::is_plain;
use agent_base::NoMemory;
use itoa::Buffer;
use json::Writer;

/// Puts a text as it is.
pub fn put(line: &mut Vec<u8>, text: &str) -> Result<(), NoMemory>
    ensures { OnOk result (line.new.items ≡ line.old.items ++ text.now) }
{
    Ok(line.extend_from_slice(text.as_bytes())?)
}

/// Puts what stands before, and a string.
pub fn put_string(line: &mut Vec<u8>, before: &str, text: &str) -> Result<(), NoMemory>
    ensures { OnOk result (line.new.items ≡ line.old.items ++ (before.now ++ quoted text.now)) }
{
    put(line, before)?;
    put_quoted(line, text)
}

/// Puts what stands before, and a string or `null`.
pub fn put_string_or_null(
    line: &mut Vec<u8>,
    before: &str,
    text: Option<&str>,
) -> Result<(), NoMemory>
    ensures { OnOk result (line.new.items ≡ line.old.items
        ++ (before.now ++ compact_text (spec.text_or_null (option_copied text.entry)))) }
{
    match text {
        Some(text) => put_string(line, before, text),
        None => put_null(line, before),
    }
}

fn put_null(line: &mut Vec<u8>, before: &str) -> Result<(), NoMemory>
    ensures { OnOk result (line.new.items ≡ line.old.items ++ (before.now ++ codes "null")) }
{
    put(line, before)?;
    put(line, "null")
}

/// Puts what stands before, and a number in decimal.
pub fn put_number(line: &mut Vec<u8>, before: &str, number: u64) -> Result<(), NoMemory>
    ensures { OnOk result (line.new.items ≡ line.old.items ++ (before.now ++ decimal number)) }
{
    put(line, before)?;
    put(line, Buffer::new().format(number))
}

/// Puts what stands before, and an integer in decimal, with a sign where it is negative.
pub fn put_integer(line: &mut Vec<u8>, before: &str, number: i64) -> Result<(), NoMemory>
    ensures { OnOk result
        (line.new.items ≡ line.old.items ++ (before.now ++ signed_decimal number)) }
{
    put(line, before)?;
    put(line, Buffer::new().format(number))
}

/// Puts a text as a string of JSON.
pub fn put_quoted(line: &mut Vec<u8>, text: &str) -> Result<(), NoMemory>
    ensures { OnOk result (line.new.items ≡ line.old.items ++ quoted text.now) }
{
    if is_plain(text) {
        put_plain(line, text)
    } else {
        put_escaped(line, text)
    }
}

fn put_plain(line: &mut Vec<u8>, text: &str) -> Result<(), NoMemory>
    ensures { OnOk result (line.new.items ≡ line.old.items ++ 34 ∷ (text.now ++ 34 ∷ [])) }
{
    put(line, "\"")?;
    put(line, text)?;
    put(line, "\"")
}

fn put_escaped(line: &mut Vec<u8>, text: &str) -> Result<(), NoMemory>
    ensures { OnOk result (line.new.items ≡ line.old.items ++ quoted text.now) }
{
    let mut writer = Writer::new(Vec::new(*line.allocator()));
    writer.string(text)?;
    let written = writer.into_inner();
    Ok(line.extend_from_slice(&written)?)
}
