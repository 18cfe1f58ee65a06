//! Addresses, by their parts.
ghost use Rattle.std.specs.Prelude.{codes};
ghost use Rattle.origin_site.specs.Plain.{plain_address};
ghost use Rattle.item_lines.specs.Parts.{address_data};
ghost use Rattle.item_lines.specs.Members.{PutsMember, PutsValue};

use crate::numbers::put_number;
use agent_base::NoMemory;
use json::Writer;
use origin_site::Address;
use row_lines::members::{begin, end, put_text, put_truth};

pub fn put_address(writer: &mut Writer, url: &Address) -> Result<(), NoMemory>
    ensures { PutsMember result writer.old writer.new
        (codes "address") (address_data (plain_address url.now)) }
{
    writer.key("address")?;
    put_parts(writer, url)
}

fn put_parts(writer: &mut Writer, url: &Address) -> Result<(), NoMemory>
    ensures { PutsValue result writer.old writer.new (address_data (plain_address url.now)) }
{
    begin(writer)?;
    put_text(writer, "host", url.host.as_str())?;
    put_truth(writer, "https", url.https)?;
    put_truth(writer, "ip", url.ip)?;
    put_text(writer, "path", url.path.as_str())?;
    put_number(writer, "port", url.port as u64)?;
    end(writer)
}
