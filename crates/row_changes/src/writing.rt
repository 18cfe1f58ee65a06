//! Writing row changes.
ghost use Rattle.std.specs.Prelude.{◌≡◌, ◌<◌, ◌++◌, ◌∷◌, ◌^◌, [], IfOk, OnErr, OnOk, Ok, length, map};
ghost use Rattle.std.specs.Prelude.{pos, unwrap_or};
ghost use Rattle.std.specs.List.{All};
ghost use Rattle.access_grants.specs.Plain.{plain_grant};
ghost use Rattle.cookie_jar.specs.Key.{plain_key as plain_cell};
ghost use Rattle.cookie_jar.specs.Plain.{plain_cookie};
ghost use Rattle.origin_site.specs.Origin.{origin_text};
ghost use Rattle.origin_site.specs.Plain.{plain_origin, plain_site};
ghost use Rattle.origin_site.specs.Site.{site_text};
ghost use Rattle.storage_key.specs.Plain.{plain_key};
ghost use Rattle.row_changes.specs.Appended.{Appends, HasCellTexts, HasCookieTexts, HasGrantTexts, IsFront};
ghost use Rattle.row_changes.specs.Appended.{HasKeyTexts, HasTexts};
ghost use Rattle.row_changes.specs.Grown.{Grown};
ghost use Rattle.row_changes.specs.Spelled.{IsText};
ghost use Rattle.row_changes.specs.Body.{changes_bytes, rows_bytes};
ghost use Rattle.row_changes.specs.Fields as fields;
ghost use Rattle.row_changes.specs.Plain.{plain_change, plain_ref};
ghost use Rattle.row_changes.specs.Spelling as spec;

use crate::hosts::{has_default_port, scheme_front};
use crate::{Change, ChangeRef};
use access_grants::GrantRow;
use agent_base::NoMemory;
use cookie_jar::{CellKey, Cookie};
use origin_site::{Origin, Site};
use setcookie_parse::SameSite;
use std::alloc::Global;
use storage_key::StorageKey;

// A text behind `out`. One of 4 GiB has no room.
fn put_text(out: &mut Vec<u8>, text: &str) -> Result<(), NoMemory>
    ensures bytes { OnOk result (out.new.items ≡ out.old.items ++ fields.text_bytes text.now) }
    ensures texts { OnOk result (IsText text.now) }
    ensures front { Grown out.old.items out.new.items }
{
    let Ok(count) = u32::try_from(text.len()) else {
        return Err(NoMemory);
    };
    out.extend_from_slice(&count.to_le_bytes())?;
    out.extend_from_slice(text.as_bytes())?;
    Ok(())
}

fn put_signed(out: &mut Vec<u8>, number: &i64) -> Result<(), NoMemory>
    ensures bytes { OnOk result (out.new.items ≡ out.old.items ++ fields.signed_bytes number.now) }
    ensures front { Grown out.old.items out.new.items }
{
    out.extend_from_slice(&number.to_le_bytes())?;
    Ok(())
}

fn put_byte(out: &mut Vec<u8>, byte: u8) -> Result<(), NoMemory>
    ensures bytes { OnOk result (out.new.items ≡ out.old.items ++ byte ∷ []) }
    ensures front { Grown out.old.items out.new.items }
{
    if out.push(byte).is_err() {
        return Err(NoMemory);
    }
    Ok(())
}

fn bit_byte(bit: bool) -> u8
    ensures { result ≡ fields.bit_byte bit }
{
    if bit { 1 } else { 0 }
}

// `scheme://host` as a text. Refused as `put_text`.
fn put_host(out: &mut Vec<u8>, https: bool, host: &str) -> Result<(), NoMemory>
    ensures bytes { OnOk result (out.new.items ≡ out.old.items
        ++ fields.text_bytes (site_text (record { https = https; host = host.now }))) }
    ensures texts { OnOk result (IsText (site_text (record { https = https; host = host.now }))) }
    ensures front { Grown out.old.items out.new.items }
{
    let scheme = scheme_front(https);
    let Ok(count) = u32::try_from(scheme.len() + host.len()) else {
        return Err(NoMemory);
    };
    out.extend_from_slice(&count.to_le_bytes())?;
    out.extend_from_slice(scheme.as_bytes())?;
    out.extend_from_slice(host.as_bytes())?;
    Ok(())
}

fn put_site(out: &mut Vec<u8>, site: &Site) -> Result<(), NoMemory>
    ensures bytes { OnOk result
        (out.new.items ≡ out.old.items ++ fields.text_bytes (site_text (plain_site site.now))) }
    ensures texts { OnOk result (IsText (site_text (plain_site site.now))) }
    ensures front { Grown out.old.items out.new.items }
{
    put_host(out, site.https, site.host.as_str())
}

// The text of an origin, which is made where it has a port.
#[tactic(auto, using(crate::proofs::HostLemmas::default_text))]
fn put_origin(out: &mut Vec<u8>, origin: &Origin) -> Result<(), NoMemory>
    ensures bytes { OnOk result (out.new.items
        ≡ out.old.items ++ fields.text_bytes (origin_text (plain_origin origin.now))) }
    ensures texts { OnOk result (IsText (origin_text (plain_origin origin.now))) }
    ensures front { Grown out.old.items out.new.items }
{
    if has_default_port(origin) {
        return put_host(out, origin.https, origin.host.as_str());
    }
    let text = origin.text(*out.allocator())?;
    put_text(out, text.as_str())
}

fn put_key(out: &mut Vec<u8>, key: &StorageKey) -> Result<(), NoMemory>
    ensures bytes { OnOk result
        (out.new.items ≡ out.old.items ++ spec.key_bytes (plain_key key.now)) }
    ensures texts { OnOk result (HasKeyTexts (plain_key key.now)) }
    ensures front { Grown out.old.items out.new.items }
{
    put_origin(out, &key.origin)?;
    put_site(out, &key.top)?;
    put_byte(out, bit_byte(key.bit))
}

fn put_cell(out: &mut Vec<u8>, cell: &CellKey) -> Result<(), NoMemory>
    ensures bytes { OnOk result
        (out.new.items ≡ out.old.items ++ spec.cell_bytes (plain_cell cell.now)) }
    ensures texts { OnOk result (HasCellTexts (plain_cell cell.now)) }
    ensures front { Grown out.old.items out.new.items }
{
    match cell {
        CellKey::Own { domain } => {
            put_byte(out, 0)?;
            put_text(out, domain.as_str())
        }
        CellKey::Partition { top, bit, domain } => {
            put_byte(out, 1)?;
            put_site(out, top)?;
            put_byte(out, bit_byte(*bit))?;
            put_text(out, domain.as_str())
        }
    }
}

fn flags_byte(cookie: &Cookie) -> u8
    ensures { result ≡ spec.flags_byte (plain_cookie cookie.now) }
{
    bit_byte(cookie.host_only) + (2 * bit_byte(cookie.secure) + 4 * bit_byte(cookie.http_only))
}

fn same_site_byte(same_site: SameSite) -> u8
    ensures { result ≡ spec.same_site_byte same_site }
{
    match same_site {
        SameSite::Default => 0,
        SameSite::NoneSent => 1,
        SameSite::Lax => 2,
        SameSite::Strict => 3,
    }
}

fn put_texts(out: &mut Vec<u8>, cookie: &Cookie) -> Result<(), NoMemory>
    ensures bytes { OnOk result
        (out.new.items ≡ out.old.items ++ spec.cookie_texts (plain_cookie cookie.now)) }
    ensures texts { OnOk result (HasCookieTexts (plain_cookie cookie.now)) }
    ensures front { Grown out.old.items out.new.items }
{
    put_text(out, cookie.identity.name.as_str())?;
    put_text(out, cookie.value.as_str())?;
    put_text(out, cookie.identity.domain.as_str())?;
    put_text(out, cookie.identity.path.as_str())
}

// The expiry of a cookie, which every cookie of a row change has.
fn put_expiry(out: &mut Vec<u8>, expiry: &Option<i64>) -> Result<(), NoMemory>
    ensures bytes { OnOk result (out.new.items
        ≡ out.old.items ++ fields.signed_bytes (unwrap_or expiry.now (pos 0))) }
    ensures front { Grown out.old.items out.new.items }
{
    match expiry {
        Some(expiry) => put_signed(out, expiry),
        None => put_signed(out, &0),
    }
}

fn put_marks(out: &mut Vec<u8>, cookie: &Cookie) -> Result<(), NoMemory>
    ensures bytes { OnOk result
        (out.new.items ≡ out.old.items ++ spec.cookie_marks (plain_cookie cookie.now)) }
    ensures front { Grown out.old.items out.new.items }
{
    put_byte(out, flags_byte(cookie))?;
    put_byte(out, same_site_byte(cookie.same_site))?;
    put_signed(out, &cookie.creation)?;
    put_expiry(out, &cookie.expiry)
}

fn put_cookie(out: &mut Vec<u8>, cookie: &Cookie) -> Result<(), NoMemory>
    ensures bytes { OnOk result
        (out.new.items ≡ out.old.items ++ spec.cookie_bytes (plain_cookie cookie.now)) }
    ensures texts { OnOk result (HasCookieTexts (plain_cookie cookie.now)) }
    ensures front { Grown out.old.items out.new.items }
{
    put_texts(out, cookie)?;
    put_marks(out, cookie)
}

// Two sites, one behind the other.
fn put_sites(out: &mut Vec<u8>, top: &Site, site: &Site) -> Result<(), NoMemory>
    ensures bytes { OnOk result (out.new.items ≡ out.old.items
        ++ (fields.text_bytes (site_text (plain_site top.now))
        ++ fields.text_bytes (site_text (plain_site site.now)))) }
    ensures texts { OnOk result (IsText (site_text (plain_site top.now))
        × IsText (site_text (plain_site site.now))) }
    ensures front { Grown out.old.items out.new.items }
{
    put_site(out, top)?;
    put_site(out, site)
}

fn answer_byte(granted: bool) -> u8
    ensures { result ≡ spec.answer_byte granted }
{
    if granted { 1 } else { 2 }
}

fn put_grant(out: &mut Vec<u8>, row: &GrantRow) -> Result<(), NoMemory>
    ensures bytes { OnOk result
        (out.new.items ≡ out.old.items ++ spec.grant_bytes (plain_grant row.now)) }
    ensures texts { OnOk result (HasGrantTexts (plain_grant row.now)) }
    ensures front { Grown out.old.items out.new.items }
{
    put_sites(out, &row.top, &row.site)?;
    put_byte(out, answer_byte(row.granted))?;
    put_signed(out, &row.until)
}

// A code and a key.
fn put_keyed(out: &mut Vec<u8>, code: u8, key: &StorageKey) -> Result<(), NoMemory>
    ensures bytes { OnOk result
        (out.new.items ≡ out.old.items ++ code ∷ spec.key_bytes (plain_key key.now)) }
    ensures texts { OnOk result (HasKeyTexts (plain_key key.now)) }
    ensures front { Grown out.old.items out.new.items }
{
    put_byte(out, code)?;
    put_key(out, key)
}

// A code, a cell and a place.
fn put_placed(out: &mut Vec<u8>, code: u8, cell: &CellKey, place: u8) -> Result<(), NoMemory>
    ensures bytes { OnOk result (out.new.items
        ≡ out.old.items ++ code ∷ (spec.cell_bytes (plain_cell cell.now) ++ place ∷ [])) }
    ensures texts { OnOk result (HasCellTexts (plain_cell cell.now)) }
    ensures front { Grown out.old.items out.new.items }
{
    put_byte(out, code)?;
    put_cell(out, cell)?;
    put_byte(out, place)
}

fn put_change(out: &mut Vec<u8>, change: ChangeRef<'_>) -> Result<(), NoMemory>
    ensures bytes { OnOk result
        (out.new.items ≡ out.old.items ++ spec.change_bytes (plain_ref change.entry)) }
    ensures texts { OnOk result (HasTexts (plain_ref change.entry)) }
    ensures front { Grown out.old.items out.new.items }
{
    match change {
        ChangeRef::AreaPut { key, name, value } => {
            put_keyed(out, 1, key)?;
            put_text(out, name)?;
            put_text(out, value)
        }
        ChangeRef::AreaRemove { key, name } => {
            put_keyed(out, 2, key)?;
            put_text(out, name)
        }
        ChangeRef::AreaClear { key } => put_keyed(out, 3, key),
        ChangeRef::SetMode { key } => put_keyed(out, 4, key),
        ChangeRef::CookieInsert {
            cell,
            place,
            cookie,
        } => {
            put_placed(out, 5, cell, place)?;
            put_cookie(out, cookie)
        }
        ChangeRef::CookieReplace {
            cell,
            place,
            cookie,
        } => {
            put_placed(out, 6, cell, place)?;
            put_cookie(out, cookie)
        }
        ChangeRef::CookieRemove { cell, place } => put_placed(out, 7, cell, place),
        ChangeRef::Grant { row } => {
            put_byte(out, 8)?;
            put_grant(out, row)
        }
    }
}

// Row changes one behind the other.
fn put_rows(out: &mut Vec<u8>, changes: &[Change]) -> Result<(), NoMemory>
    ensures bytes { OnOk result
        (out.new.items ≡ out.old.items ++ rows_bytes (map plain_change changes.now)) }
    ensures texts { OnOk result (All HasTexts (map plain_change changes.now)) }
    ensures front { Grown out.old.items out.new.items }
{
    for change in changes {
        put_change(out, change.borrowed())?;
    }
    Ok(())
}

/// The bytes of row changes one behind the other, as a snapshot has them.
///
/// Its time is linear in the bytes. A text of 4 GiB or more has no room in the format, and is
/// answered as want of memory.
pub fn write_rows(alloc: Global, changes: &[Change]) -> Result<Vec<u8>, NoMemory>
    ensures bytes { IfOk result (λ out. out.items ≡ rows_bytes (map plain_change changes.now)) }
    ensures texts { OnOk result (All HasTexts (map plain_change changes.now)) }
{
    let mut out = Vec::new(alloc);
    put_rows(&mut out, changes)?;
    Ok(out)
}

/// The bytes of one row change, as a snapshot has them, behind what `out` holds.
///
/// Its time is linear in the bytes. Refused as [`append_changes`].
pub fn append_row(out: &mut Vec<u8>, change: ChangeRef<'_>) -> Result<(), NoMemory>
    ensures bytes { OnOk result
        (out.new.items ≡ out.old.items ++ spec.change_bytes (plain_ref change.entry)) }
    ensures texts { OnOk result (HasTexts (plain_ref change.entry)) }
    ensures front { OnErr result (IsFront out.old.items out.new.items) }
{
    put_change(out, change)
}

/// The bytes of one row change, as a durable change of its own, behind what `out` holds.
///
/// Refused as [`append_changes`].
pub fn append_change(out: &mut Vec<u8>, change: ChangeRef<'_>) -> Result<(), NoMemory>
    ensures appended { Appends (plain_ref change.entry ∷ []) out.old.items out.new.items result }
{
    out.extend_from_slice(&1u32.to_le_bytes())?;
    put_change(out, change)
}

/// The bytes of the row changes of a line behind what `out` holds.
///
/// A text of 4 GiB or more, and 4 Gi row changes or more, have no room in the format, and are
/// answered as want of memory.
pub fn append_changes(out: &mut Vec<u8>, changes: &[Change]) -> Result<(), NoMemory>
    ensures appended { Appends (map plain_change changes.now) out.old.items out.new.items result }
    ensures none { length changes.now ≡ 0 → (result ≡ Ok tt) × (out.new.items ≡ out.old.items) }
{
    if changes.is_empty() {
        return Ok(());
    }
    let Ok(count) = u32::try_from(changes.len()) else {
        return Err(NoMemory);
    };
    out.extend_from_slice(&count.to_le_bytes())?;
    put_rows(out, changes)
}

/// The bytes of one durable change: the number of its row changes, and these.
///
/// Refused as [`append_changes`].
pub fn write_changes(alloc: Global, changes: &[Change]) -> Result<Vec<u8>, NoMemory>
    requires some { 0 < length changes.now }
    ensures bytes { IfOk result (λ out. out.items ≡ changes_bytes (map plain_change changes.now)) }
    ensures texts { OnOk result (All HasTexts (map plain_change changes.now)) }
    ensures room { OnOk result (length changes.now < 2 ^ 32) }
{
    let mut out = Vec::new(alloc);
    append_changes(&mut out, changes)?;
    Ok(out)
}
