//! Rows, each as an object of JSON.
ghost use Rattle.std.specs.Prelude.{◌≡◌, ◌∷◌, codes};
ghost use Rattle.json.specs.Token.{key};
ghost use Rattle.serde_json.specs.Data.{string};
ghost use Rattle.origin_site.specs.Origin.{origin_text};
ghost use Rattle.origin_site.specs.Plain.{plain_origin, plain_site};
ghost use Rattle.origin_site.specs.Site.{site_text};
ghost use Rattle.storage_key.specs.Plain.{plain_key};
ghost use Rattle.cookie_jar.specs.Key.{plain_key as plain_cell};
ghost use Rattle.cookie_jar.specs.Plain.{plain_cookie};
ghost use Rattle.access_grants.specs.Plain.{plain_grant};
ghost use Rattle.row_lines.specs.Row as spec;
ghost use Rattle.row_lines.specs.Plain.{plain_row};
ghost use Rattle.row_lines.specs.Tokens.{Puts, last_tokens, mark_tokens, object_tokens, tokens_of};

use crate::Row;
use crate::members::{begin, end, put_moment, put_null, put_text, put_truth};
use access_grants::GrantRow;
use agent_base::NoMemory;
use cookie_jar::{CellKey, Cookie};
use json::Writer;
use origin_site::{Origin, Site};
use setcookie_parse::SameSite;
use std::alloc::Global;
use storage_key::StorageKey;

pub fn put_row(alloc: Global, writer: &mut Writer, row: Row<'_>) -> Result<(), NoMemory>
    ensures { Puts result writer.old writer.new
        (object_tokens (spec.row_members (plain_row row.entry))) }
{
    match row {
        Row::Area { key, name, value } => put_area(alloc, writer, key, name, value),
        Row::Mode { key } => put_mode(alloc, writer, key),
        Row::Cookie {
            cell,
            cookie,
            expiry,
        } => put_cookie(alloc, writer, cell, cookie, expiry),
        Row::Grant { row } => put_grant(alloc, writer, row),
    }
}

fn put_area(
    alloc: Global,
    writer: &mut Writer,
    key: &StorageKey,
    name: &str,
    value: &str,
) -> Result<(), NoMemory>
    ensures { Puts result writer.old writer.new
        (object_tokens (spec.area_members (plain_key key.now) name.now value.now)) }
{
    begin(writer)?;
    put_truth(writer, "bit", key.bit)?;
    put_text(writer, "key", name)?;
    put_origin(alloc, writer, &key.origin)?;
    put_text(writer, "row", "area")?;
    put_site(alloc, writer, "top", &key.top)?;
    put_text(writer, "value", value)?;
    end(writer)
}

fn put_mode(alloc: Global, writer: &mut Writer, key: &StorageKey) -> Result<(), NoMemory>
    ensures { Puts result writer.old writer.new
        (object_tokens (spec.mode_members (plain_key key.now))) }
{
    begin(writer)?;
    put_truth(writer, "bit", key.bit)?;
    put_origin(alloc, writer, &key.origin)?;
    put_text(writer, "row", "mode")?;
    put_site(alloc, writer, "top", &key.top)?;
    end(writer)
}

fn put_cookie(
    alloc: Global,
    writer: &mut Writer,
    cell: &CellKey,
    cookie: &Cookie,
    expiry: i64,
) -> Result<(), NoMemory>
    ensures { Puts result writer.old writer.new
        (object_tokens
        (spec.cookie_members (plain_cell cell.now) (plain_cookie cookie.now) expiry)) }
{
    begin(writer)?;
    put_bit(writer, cell)?;
    put_marks(writer, cookie, expiry)?;
    put_later(alloc, writer, cell, cookie)
}

// The members of a cookie from its creation up to its name.
fn put_marks(writer: &mut Writer, cookie: &Cookie, expiry: i64) -> Result<(), NoMemory>
    ensures { Puts result writer.old writer.new (mark_tokens (plain_cookie cookie.now) expiry) }
{
    put_moment(writer, "creation", cookie.creation)?;
    put_text(writer, "domain", cookie.identity.domain.as_str())?;
    put_moment(writer, "expiry", expiry)?;
    put_truth(writer, "host_only", cookie.host_only)?;
    put_truth(writer, "http_only", cookie.http_only)
}

// The members of a cookie from its name on, and the end of the object.
fn put_later(
    alloc: Global,
    writer: &mut Writer,
    cell: &CellKey,
    cookie: &Cookie,
) -> Result<(), NoMemory>
    ensures { Puts result writer.old writer.new
        (last_tokens (spec.later_members (plain_cell cell.now) (plain_cookie cookie.now))) }
{
    put_text(writer, "name", cookie.identity.name.as_str())?;
    put_text(writer, "path", cookie.identity.path.as_str())?;
    put_text(writer, "row", "cookie")?;
    put_text(writer, "same_site", same_site_text(cookie.same_site))?;
    put_truth(writer, "secure", cookie.secure)?;
    put_top(alloc, writer, cell)?;
    put_text(writer, "value", cookie.value.as_str())?;
    end(writer)
}

fn put_bit(writer: &mut Writer, cell: &CellKey) -> Result<(), NoMemory>
    ensures { Puts result writer.old writer.new
        (key (codes "bit") ∷ tokens_of (spec.bit_data (plain_cell cell.now))) }
{
    match cell {
        CellKey::Own { .. } => put_null(writer, "bit"),
        CellKey::Partition { bit, .. } => put_truth(writer, "bit", *bit),
    }
}

fn put_top(alloc: Global, writer: &mut Writer, cell: &CellKey) -> Result<(), NoMemory>
    ensures { Puts result writer.old writer.new
        (key (codes "top") ∷ tokens_of (spec.top_data (plain_cell cell.now))) }
{
    match cell {
        CellKey::Own { .. } => put_null(writer, "top"),
        CellKey::Partition { top, .. } => put_site(alloc, writer, "top", top),
    }
}

/// The name of a SameSite attribute.
pub fn same_site_text(same_site: SameSite) -> &'static str
    ensures name { result.now ≡ spec.same_site_text same_site }
{
    match same_site {
        SameSite::Default => "default",
        SameSite::NoneSent => "none",
        SameSite::Lax => "lax",
        SameSite::Strict => "strict",
    }
}

fn put_grant(alloc: Global, writer: &mut Writer, row: &GrantRow) -> Result<(), NoMemory>
    ensures { Puts result writer.old writer.new
        (object_tokens (spec.grant_members (plain_grant row.now))) }
{
    begin(writer)?;
    put_truth(writer, "granted", row.granted)?;
    put_text(writer, "row", "grant")?;
    put_site(alloc, writer, "site", &row.site)?;
    put_site(alloc, writer, "top", &row.top)?;
    put_moment(writer, "until", row.until)?;
    end(writer)
}

fn put_origin(alloc: Global, writer: &mut Writer, origin: &Origin) -> Result<(), NoMemory>
    ensures { Puts result writer.old writer.new
        (key (codes "origin") ∷ tokens_of (string (origin_text (plain_origin origin.now)))) }
{
    let text = origin.text(alloc)?;
    put_text(writer, "origin", text.as_str())
}

fn put_site(alloc: Global, writer: &mut Writer, name: &str, site: &Site) -> Result<(), NoMemory>
    ensures { Puts result writer.old writer.new
        (key name.now ∷ tokens_of (string (site_text (plain_site site.now)))) }
{
    let text = site.text(alloc)?;
    put_text(writer, name, text.as_str())
}
