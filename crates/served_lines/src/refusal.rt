//! The line that answers a line which was refused.
ghost use Rattle.std.specs.Prelude.{◌≡◌, ◌++◌, ◌∷◌, codes, IfOk, OnOk, string_bytes};
ghost use Rattle.json.specs.Token.{key};
ghost use Rattle.serde_json.specs.Data.{number, unsigned};
ghost use Rattle.row_lines.specs.Tokens.{Puts, tokens_of};
ghost use Rattle.served_lines.specs.Refusal.{refusal_data, refusal_text};
ghost use Rattle.served_lines.specs.Steps.{PutsRefusal};

use crate::Served;
use agent_base::NoMemory;
use json::Writer;
use line_session::LineRefused;
use row_lines::members::{begin, end, put_null, put_text};
use std::alloc::Global;
use std::mem;

/// Puts the line that tells a fault of the line of this number behind what stands in a buffer.
/// What is no fault of a line ends serving.
pub fn put_refusal(text: &mut Vec<u8>, number: u64, why: &LineRefused) -> Result<(), Served>
    ensures puts { PutsRefusal result number why.now text.old.items text.new.items }
{
    match why {
        LineRefused::TooLong => Ok(put_line(text, number, "too long")?),
        LineRefused::NotUtf8 => Ok(put_line(text, number, "not utf-8")?),
        LineRefused::NotJson => Ok(put_line(text, number, "not json")?),
        LineRefused::UnknownAction => Ok(put_line(text, number, "unknown action")?),
        LineRefused::BadField(name) => Ok(put_bad_field(text, number, name.as_str())?),
        LineRefused::BadHeader => Ok(put_line(text, number, "bad header")?),
        LineRefused::Store(why) => Err(Served::Store(*why)),
        LineRefused::LineFeed
        | LineRefused::Owed
        | LineRefused::Unprinted
        | LineRefused::NoMemory => Err(Served::NoMemory),
    }
}

fn put_bad_field(text: &mut Vec<u8>, number: u64, name: &str) -> Result<(), NoMemory>
    ensures { OnOk result (text.new.items
        ≡ text.old.items ++ refusal_text number (codes "bad field " ++ name.now)) }
{
    let words = bad_field(*text.allocator(), name)?;
    put_line(text, number, words.as_str())
}

fn bad_field(alloc: Global, name: &str) -> Result<String, NoMemory>
    ensures { IfOk result (λ words. string_bytes words ≡ codes "bad field " ++ name.now) }
{
    let mut words = String::from_str(alloc, "bad field ")?;
    words.push_str(name)?;
    Ok(words)
}

// Where memory is wanted, a part of the line may stand there.
fn put_line(text: &mut Vec<u8>, number: u64, words: &str) -> Result<(), NoMemory>
    ensures { OnOk result (text.new.items ≡ text.old.items ++ refusal_text number words.now) }
{
    let alloc = *text.allocator();
    let mut writer = Writer::new(mem::replace(text, Vec::new(alloc)));
    let written = put_members(&mut writer, number, words);
    *text = writer.into_inner();
    written?;
    Ok(text.extend_from_slice(b"\n")?)
}

fn put_members(writer: &mut Writer, number: u64, words: &str) -> Result<(), NoMemory>
    ensures { Puts result writer.old writer.new (tokens_of (refusal_data number words.now)) }
{
    begin(writer)?;
    put_null(writer, "do")?;
    put_text(writer, "fault", words)?;
    put_text(writer, "is", "refused")?;
    put_line_number(writer, number)?;
    put_null(writer, "site")?;
    end(writer)
}

fn put_line_number(writer: &mut Writer, line: u64) -> Result<(), NoMemory>
    ensures { Puts result writer.old writer.new
        (key (codes "line") ∷ tokens_of (number (unsigned line))) }
{
    writer.key("line")?;
    Ok(writer.u64(line)?)
}
