//! Members of an object of JSON, each with its name. Where memory is wanted, some of the tokens of
//! a member may be written.
ghost use Rattle.std.specs.Prelude.{◌∷◌, []};
ghost use Rattle.json.specs.Token.{begin_object, end_object, key};
ghost use Rattle.serde_json.specs.Data.{boolean, string, null};
ghost use Rattle.row_lines.specs.Row.{moment_data};
ghost use Rattle.row_lines.specs.Tokens.{Puts, tokens_of};

use agent_base::NoMemory;
use json::Writer;

/// The beginning of an object.
pub fn begin(writer: &mut Writer) -> Result<(), NoMemory>
    ensures puts { Puts result writer.old writer.new (begin_object ∷ []) }
{
    Ok(writer.begin_object()?)
}

/// The end of an object.
pub fn end(writer: &mut Writer) -> Result<(), NoMemory>
    ensures puts { Puts result writer.old writer.new (end_object ∷ []) }
{
    Ok(writer.end_object()?)
}

/// A text.
pub fn put_text(writer: &mut Writer, name: &str, text: &str) -> Result<(), NoMemory>
    ensures puts { Puts result writer.old writer.new (key name.now ∷ tokens_of (string text.now)) }
{
    writer.key(name)?;
    Ok(writer.string(text)?)
}

/// A truth value.
pub fn put_truth(writer: &mut Writer, name: &str, truth: bool) -> Result<(), NoMemory>
    ensures puts { Puts result writer.old writer.new (key name.now ∷ tokens_of (boolean truth)) }
{
    writer.key(name)?;
    Ok(writer.boolean(truth)?)
}

/// A moment, in seconds since 1970.
pub fn put_moment(writer: &mut Writer, name: &str, moment: i64) -> Result<(), NoMemory>
    ensures puts { Puts result writer.old writer.new
        (key name.now ∷ tokens_of (moment_data moment)) }
{
    writer.key(name)?;
    Ok(writer.i64(moment)?)
}

/// The value `null`.
pub fn put_null(writer: &mut Writer, name: &str) -> Result<(), NoMemory>
    ensures puts { Puts result writer.old writer.new (key name.now ∷ tokens_of null) }
{
    writer.key(name)?;
    Ok(writer.null()?)
}
