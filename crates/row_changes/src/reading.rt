//! Reading row changes.
ghost use Rattle.std.specs.Prelude.{◌≡◌, IfOk, if◌then◌else◌, option_map, string_bytes};
ghost use Rattle.access_grants.specs.Plain.{plain_grant};
ghost use Rattle.cookie_jar.specs.Key.{plain_key as plain_cell};
ghost use Rattle.cookie_jar.specs.Plain.{plain_cookie};
ghost use Rattle.row_changes.specs.Change.{CookieInsert, CookieReplace};
ghost use Rattle.row_changes.specs.Fields as fields;
ghost use Rattle.row_changes.specs.Plain.{plain_change};
ghost use Rattle.row_changes.specs.Reading as spec;
ghost use Rattle.row_changes.specs.Stops.{Gives};

use crate::Change;
use crate::cookies::{Placed, placed_at};
use crate::fields::{byte_at, signed_at, text_at};
use crate::keys::Keys;
use crate::names::{cell_at, site_at};
use crate::stop::Stop;
use access_grants::GrantRow;
use agent_base::NoMemory;
use std::alloc::Global;

fn answer_at(bytes: &mut &[u8]) -> Result<bool, Stop>
    ensures { Gives (λ granted. (granted, bytes.new.now))
        (fields.made spec.answer_of fields.byte_at bytes.old.now) result }
{
    match byte_at(bytes)? {
        1 => Ok(true),
        2 => Ok(false),
        _ => Err(Stop::NoField),
    }
}

#[tactic(auto, unfolding(crate::specs::Reading::grant_at))]
fn grant_at(alloc: Global, bytes: &mut &[u8]) -> Result<GrantRow, Stop>
    ensures { Gives (λ row. (plain_grant row, bytes.new.now))
        (spec.grant_at bytes.old.now) result }
{
    let top = site_at(alloc, bytes)?;
    let site = site_at(alloc, bytes)?;
    let granted = answer_at(bytes)?;
    let until = signed_at(bytes)?;
    if !top.https || !site.https {
        return Err(Stop::NoField);
    }
    Ok(GrantRow {
        top,
        site,
        granted,
        until,
    })
}

// A text over memory of its own.
fn own_text_at(alloc: Global, bytes: &mut &[u8]) -> Result<String, Stop>
    ensures { Gives (λ text. (string_bytes text, bytes.new.now)) (fields.text_at bytes.old.now)
        result }
{
    Ok(String::from_str(alloc, text_at(bytes)?)?)
}

// The change by which a cookie stands at its place: instead of the one there, or before it.
fn cookie_change(placed: Placed, replaces: bool) -> Change
    ensures { let cell = plain_cell placed.cell in
        let cookie = plain_cookie placed.cookie in
        plain_change result ≡ (if replaces then CookieReplace cell placed.place cookie
        else CookieInsert cell placed.place cookie) }
{
    let Placed {
        cell,
        place,
        cookie,
    } = placed;
    if replaces {
        Change::CookieReplace {
            cell,
            place,
            cookie,
        }
    } else {
        Change::CookieInsert {
            cell,
            place,
            cookie,
        }
    }
}

// The row change behind a code.
fn change_behind(
    alloc: Global,
    code: u8,
    bytes: &mut &[u8],
    keys: &mut Keys,
) -> Result<Change, Stop>
    ensures change { Gives (λ change. (plain_change change, bytes.new.now))
        (spec.change_behind code bytes.old.now) result }
{
    match code {
        1 => Ok(Change::AreaPut {
            key: keys.read(alloc, bytes)?,
            name: own_text_at(alloc, bytes)?,
            value: own_text_at(alloc, bytes)?,
        }),
        2 => Ok(Change::AreaRemove {
            key: keys.read(alloc, bytes)?,
            name: own_text_at(alloc, bytes)?,
        }),
        3 => Ok(Change::AreaClear {
            key: keys.read(alloc, bytes)?,
        }),
        4 => Ok(Change::SetMode {
            key: keys.read(alloc, bytes)?,
        }),
        5 => Ok(cookie_change(placed_at(alloc, bytes)?, false)),
        6 => Ok(cookie_change(placed_at(alloc, bytes)?, true)),
        7 => Ok(Change::CookieRemove {
            cell: cell_at(alloc, bytes)?,
            place: byte_at(bytes)?,
        }),
        8 => Ok(Change::Grant {
            row: grant_at(alloc, bytes)?,
        }),
        _ => Err(Stop::NoField),
    }
}

#[tactic(auto, unfolding(crate::specs::Reading::change_at))]
fn change_at(alloc: Global, bytes: &mut &[u8], keys: &mut Keys) -> Result<Change, Stop>
    ensures change { Gives (λ change. (plain_change change, bytes.new.now))
        (spec.change_at bytes.old.now) result }
{
    let code = byte_at(bytes)?;
    change_behind(alloc, code, bytes, keys)
}

/// Reads the row change at the front of bytes, with the last key that was read at hand.
pub fn read_next<'b>(
    alloc: Global,
    bytes: &'b [u8],
    keys: &mut Keys,
) -> Result<Option<(Change, &'b [u8])>, NoMemory>
    ensures change { IfOk result (λ found. option_map (λ f. (plain_change f.0, f.1.now)) found
        ≡ spec.change_at bytes.now) }
{
    let mut rest = bytes;
    match change_at(alloc, &mut rest, keys) {
        Ok(change) => Ok(Some((change, rest))),
        Err(Stop::NoField) => Ok(None),
        Err(Stop::NoMemory) => Err(NoMemory),
    }
}

/// Reads the row change at the front of bytes, and answers it with the bytes behind it. None is no
/// row change.
///
/// Of what it tests, nothing depends on a state or on a suffix list.
pub fn read_change<'b>(
    alloc: Global,
    bytes: &'b [u8],
) -> Result<Option<(Change, &'b [u8])>, NoMemory>
    ensures change { IfOk result (λ found. option_map (λ f. (plain_change f.0, f.1.now)) found
        ≡ spec.change_at bytes.now) }
{
    read_next(alloc, bytes, &mut Keys::new())
}
