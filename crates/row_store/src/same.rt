//! Whether two row changes are the same.
ghost use Rattle.std.specs.Prelude.{◌≡◌, ◌↔◌, IsTrue};
ghost use Rattle.access_grants.specs.Plain.{plain_grant};
ghost use Rattle.cookie_jar.specs.Key.{plain_key as plain_cell};
ghost use Rattle.cookie_jar.specs.Plain.{plain_cookie};
ghost use Rattle.storage_key.specs.Plain.{plain_key};
ghost use Rattle.row_changes.specs.Change as plain;
ghost use Rattle.row_changes.specs.Plain.{plain_change};

use access_grants::GrantRow;
use cookie_jar::{CellKey, Cookie};
use origin_site::same_site;
use row_changes::Change;
use storage_key::{StorageKey, same_key};

/// Whether two row changes are the same, in each field of a cookie too.
pub fn same_change(a: &Change, b: &Change) -> bool
    ensures same { IsTrue result ↔ (plain_change a.now ≡ plain_change b.now) }
{
    match a {
        Change::AreaPut { key, name, value } => is_put(b, key, name.as_str(), value.as_str()),
        Change::AreaRemove { key, name } => is_removal(b, key, name.as_str()),
        Change::AreaClear { key } => is_clear(b, key),
        Change::SetMode { key } => is_mode(b, key),
        Change::CookieInsert {
            cell,
            place,
            cookie,
        } => is_insertion(b, cell, *place, cookie),
        Change::CookieReplace {
            cell,
            place,
            cookie,
        } => is_replacement(b, cell, *place, cookie),
        Change::CookieRemove { cell, place } => is_removal_at(b, cell, *place),
        Change::Grant { row } => is_grant(b, row),
    }
}

fn is_put(change: &Change, key: &StorageKey, name: &str, value: &str) -> bool
    ensures { let put = plain.AreaPut (plain_key key.now) name.now value.now in
        IsTrue result ↔ (put ≡ plain_change change.now) }
{
    match change {
        Change::AreaPut {
            key: of,
            name: given,
            value: text,
        } => same_key(key, of) && name == given.as_str() && value == text.as_str(),
        _ => false,
    }
}

fn is_removal(change: &Change, key: &StorageKey, name: &str) -> bool
    ensures { let removal = plain.AreaRemove (plain_key key.now) name.now in
        IsTrue result ↔ (removal ≡ plain_change change.now) }
{
    match change {
        Change::AreaRemove {
            key: of,
            name: given,
        } => same_key(key, of) && name == given.as_str(),
        _ => false,
    }
}

fn is_clear(change: &Change, key: &StorageKey) -> bool
    ensures { IsTrue result ↔ (plain.AreaClear (plain_key key.now) ≡ plain_change change.now) }
{
    match change {
        Change::AreaClear { key: of } => same_key(key, of),
        _ => false,
    }
}

fn is_mode(change: &Change, key: &StorageKey) -> bool
    ensures { IsTrue result ↔ (plain.SetMode (plain_key key.now) ≡ plain_change change.now) }
{
    match change {
        Change::SetMode { key: of } => same_key(key, of),
        _ => false,
    }
}

fn is_insertion(change: &Change, cell: &CellKey, place: u8, cookie: &Cookie) -> bool
    ensures { let insertion =
        plain.CookieInsert (plain_cell cell.now) place (plain_cookie cookie.now) in
        IsTrue result ↔ (insertion ≡ plain_change change.now) }
{
    match change {
        Change::CookieInsert {
            cell: of,
            place: at,
            cookie: put,
        } => same_cell(cell, of) && place == *at && same_cookie(cookie, put),
        _ => false,
    }
}

fn is_replacement(change: &Change, cell: &CellKey, place: u8, cookie: &Cookie) -> bool
    ensures { let replacement =
        plain.CookieReplace (plain_cell cell.now) place (plain_cookie cookie.now) in
        IsTrue result ↔ (replacement ≡ plain_change change.now) }
{
    match change {
        Change::CookieReplace {
            cell: of,
            place: at,
            cookie: put,
        } => same_cell(cell, of) && place == *at && same_cookie(cookie, put),
        _ => false,
    }
}

fn is_removal_at(change: &Change, cell: &CellKey, place: u8) -> bool
    ensures { let removal = plain.CookieRemove (plain_cell cell.now) place in
        IsTrue result ↔ (removal ≡ plain_change change.now) }
{
    match change {
        Change::CookieRemove {
            cell: of,
            place: at,
        } => same_cell(cell, of) && place == *at,
        _ => false,
    }
}

fn is_grant(change: &Change, row: &GrantRow) -> bool
    ensures { IsTrue result ↔ (plain.Grant (plain_grant row.now) ≡ plain_change change.now) }
{
    match change {
        Change::Grant { row: kept } => same_row(row, kept),
        _ => false,
    }
}

fn same_cell(a: &CellKey, b: &CellKey) -> bool
    ensures { IsTrue result ↔ (plain_cell a.now ≡ plain_cell b.now) }
{
    a == b
}

fn same_row(a: &GrantRow, b: &GrantRow) -> bool
    ensures { IsTrue result ↔ (plain_grant a.now ≡ plain_grant b.now) }
{
    same_site(&a.top, &b.top)
        && same_site(&a.site, &b.site)
        && a.granted == b.granted
        && a.until == b.until
}

fn same_cookie(a: &Cookie, b: &Cookie) -> bool
    ensures { IsTrue result ↔ (plain_cookie a.now ≡ plain_cookie b.now) }
{
    same_texts(a, b) && same_flags(a, b) && same_times(a, b)
}

fn same_texts(a: &Cookie, b: &Cookie) -> bool
    ensures { let c = plain_cookie a.now in let d = plain_cookie b.now in
        IsTrue result ↔ (c.name ≡ d.name) × (c.value ≡ d.value) × (c.domain ≡ d.domain)
        × (c.path ≡ d.path) }
{
    a.identity.name == b.identity.name
        && a.value == b.value
        && a.identity.domain == b.identity.domain
        && a.identity.path == b.identity.path
}

fn same_flags(a: &Cookie, b: &Cookie) -> bool
    ensures { let c = plain_cookie a.now in let d = plain_cookie b.now in
        IsTrue result ↔ (c.host_only ≡ d.host_only) × (c.secure ≡ d.secure)
        × (c.http_only ≡ d.http_only) × (c.same_site ≡ d.same_site) }
{
    a.host_only == b.host_only
        && a.secure == b.secure
        && a.http_only == b.http_only
        && a.same_site == b.same_site
}

fn same_times(a: &Cookie, b: &Cookie) -> bool
    ensures { let c = plain_cookie a.now in let d = plain_cookie b.now in
        IsTrue result ↔ (c.creation ≡ d.creation) × (c.expiry ≡ d.expiry) × (c.last ≡ d.last) }
{
    a.creation == b.creation && a.expiry == b.expiry && a.last == b.last
}
