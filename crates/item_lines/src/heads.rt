//! The head of a response.
ghost use Rattle.std.specs.Prelude.{codes, map};
ghost use Rattle.row_lines.specs.Tokens.{Puts, tokens_of};
ghost use Rattle.script_actions.specs.Plain.{head_field_of};
ghost use Rattle.item_lines.specs.Line.{field_data, head_data};
ghost use Rattle.item_lines.specs.Members.{PutsMember};

use agent_base::NoMemory;
use json::Writer;
use script_actions::HeadField;

pub fn put_head(writer: &mut Writer, head: &[HeadField]) -> Result<(), NoMemory>
    ensures { PutsMember result writer.old writer.new
        (codes "head") (head_data (map head_field_of head.now)) }
{
    writer.key("head")?;
    writer.begin_array()?;
    for field in head {
        put_field(writer, field)?;
    }
    Ok(writer.end_array()?)
}

fn put_field(writer: &mut Writer, field: &HeadField) -> Result<(), NoMemory>
    ensures { Puts result writer.old writer.new
        (tokens_of (field_data (head_field_of field.now))) }
{
    writer.begin_array()?;
    writer.string(field.name.as_str())?;
    writer.string(field.value.as_str())?;
    Ok(writer.end_array()?)
}
