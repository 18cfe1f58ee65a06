//! Rows of a store.
ghost use Rattle.std.specs.Prelude.{◌≡◌, option_map};
ghost use Rattle.cookie_jar.specs.Key.{plain_key as plain_cell};
ghost use Rattle.cookie_jar.specs.Plain.{plain_cookie};
ghost use Rattle.row_changes.specs.Plain.{plain_change};
ghost use Rattle.row_lines.specs.Plain.{plain_row};
ghost use Rattle.row_lines.specs.Row.{cookie_row, row_of};

use access_grants::GrantRow;
use cookie_jar::{CellKey, Cookie};
use row_changes::Change;
use storage_key::StorageKey;

/// A row of a store, over parts that others own.
#[derive(Clone, Copy, Debug)]
pub enum Row<'a> {
    /// A pair of the local area of a key.
    Area {
        key: &'a StorageKey,
        name: &'a str,
        value: &'a str,
    },
    /// The bucket of a key is persistent.
    Mode {
        key: &'a StorageKey,
    },
    /// A persistent cookie of a cell, with the second from which on it is expired.
    Cookie {
        cell: &'a CellKey,
        cookie: &'a Cookie,
        expiry: i64,
    },
    /// A permission.
    Grant {
        row: &'a GrantRow,
    },
}

impl<'a> Row<'a> {
    /// The row that a row change adds to a store. A change of a row that is there adds none, and so
    /// does a session cookie.
    pub fn of(change: &'a Change) -> Option<Row<'a>>
        ensures row { option_map plain_row result ≡ row_of (plain_change change.now) }
    {
        match change {
            Change::AreaPut { key, name, value } => Some(Row::Area {
                key,
                name: name.as_str(),
                value: value.as_str(),
            }),
            Change::SetMode { key } => Some(Row::Mode { key }),
            Change::CookieInsert { cell, cookie, .. } => cookie_row(cell, cookie),
            Change::Grant { row } => Some(Row::Grant { row }),
            _ => None,
        }
    }
}

fn cookie_row<'a>(cell: &'a CellKey, cookie: &'a Cookie) -> Option<Row<'a>>
    ensures { option_map plain_row result
        ≡ cookie_row (plain_cell cell.now) (plain_cookie cookie.now) }
{
    match cookie.expiry {
        Some(expiry) => Some(Row::Cookie {
            cell,
            cookie,
            expiry,
        }),
        None => None,
    }
}
