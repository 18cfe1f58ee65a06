//! Members that are numbers.
ghost use Rattle.row_lines.specs.Row.{moment_data};
ghost use Rattle.item_lines.specs.Parts.{moment_or_null};
ghost use Rattle.item_lines.specs.Line.{whole_data};
ghost use Rattle.item_lines.specs.Members.{PutsMember};

use agent_base::NoMemory;
use json::Writer;
use row_lines::members;

pub fn put_number(writer: &mut Writer, name: &str, number: u64) -> Result<(), NoMemory>
    ensures { PutsMember result writer.old writer.new name.now (whole_data number) }
{
    writer.key(name)?;
    Ok(writer.u64(number)?)
}

pub fn put_moment(writer: &mut Writer, name: &str, moment: i64) -> Result<(), NoMemory>
    ensures { PutsMember result writer.old writer.new name.now (moment_data moment) }
{
    members::put_moment(writer, name, moment)
}

pub fn put_moment_or_null(
    writer: &mut Writer,
    name: &str,
    moment: Option<i64>,
) -> Result<(), NoMemory>
    ensures { PutsMember result writer.old writer.new name.now (moment_or_null moment) }
{
    match moment {
        Some(moment) => put_moment(writer, name, moment),
        None => members::put_null(writer, name),
    }
}
