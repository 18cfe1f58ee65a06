//! The cookies that an entry holds.
ghost use Rattle.std.specs.Prelude.{codes, map, option_to_list};
ghost use Rattle.cookie_jar.specs.Plain.{plain_cookie};
ghost use Rattle.local_scripts.specs.Items.{held_of};
ghost use Rattle.item_lines.specs.Parts as spec;
ghost use Rattle.item_lines.specs.Members.{PutsLast, PutsMember, PutsValue, later_members};

use crate::numbers::{put_moment, put_moment_or_null};
use agent_base::NoMemory;
use cookie_jar::{Cookie, Jar};
use json::Writer;
use local_scripts::HeldJar;
use row_lines::members::{begin, end, put_null, put_text, put_truth};
use row_lines::same_site_text;

pub fn put_held(writer: &mut Writer, held: &Option<HeldJar>) -> Result<(), NoMemory>
    ensures { let held = map held_of (option_to_list held.now) in
        PutsMember result writer.old writer.new (codes "held") (spec.held_data held) }
{
    match held {
        Some(held) => put_held_jar(writer, held),
        None => put_null(writer, "held"),
    }
}

fn put_held_jar(writer: &mut Writer, held: &HeldJar) -> Result<(), NoMemory>
    ensures { PutsMember result writer.old writer.new
        (codes "held") (spec.cell_data (held_of held.now)) }
{
    writer.key("held")?;
    put_cell(writer, held)
}

fn put_cell(writer: &mut Writer, held: &HeldJar) -> Result<(), NoMemory>
    ensures { PutsValue result writer.old writer.new (spec.cell_data (held_of held.now)) }
{
    begin(writer)?;
    put_cookies(writer, &held.jar)?;
    put_text(writer, "domain", held.domain.as_str())?;
    end(writer)
}

fn put_cookies(writer: &mut Writer, jar: &Jar) -> Result<(), NoMemory>
    ensures { PutsMember result writer.old writer.new
        (codes "cookies") (spec.cookies_data jar.now.cookies) }
{
    writer.key("cookies")?;
    writer.begin_array()?;
    for place in 0..jar.len() {
        let Some(cookie) = jar.cookie(place) else {
            unreachable!();
        };
        put_cookie(writer, cookie)?;
    }
    Ok(writer.end_array()?)
}

fn put_cookie(writer: &mut Writer, cookie: &Cookie) -> Result<(), NoMemory>
    ensures { PutsValue result writer.old writer.new
        (spec.cookie_data (plain_cookie cookie.now)) }
{
    begin(writer)?;
    put_moment(writer, "creation", cookie.creation)?;
    put_text(writer, "domain", cookie.identity.domain.as_str())?;
    put_moment_or_null(writer, "expiry", cookie.expiry)?;
    put_truth(writer, "host_only", cookie.host_only)?;
    put_truth(writer, "http_only", cookie.http_only)?;
    put_later(writer, cookie)
}

// The members of a cookie from its last use on, and the end of the object.
fn put_later(writer: &mut Writer, cookie: &Cookie) -> Result<(), NoMemory>
    ensures { PutsLast result writer.old writer.new (later_members (plain_cookie cookie.now)) }
{
    put_moment(writer, "last", cookie.last)?;
    put_text(writer, "name", cookie.identity.name.as_str())?;
    put_text(writer, "path", cookie.identity.path.as_str())?;
    put_text(writer, "same_site", same_site_text(cookie.same_site))?;
    put_truth(writer, "secure", cookie.secure)?;
    put_text(writer, "value", cookie.value.as_str())?;
    end(writer)
}
