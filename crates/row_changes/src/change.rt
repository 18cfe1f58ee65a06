//! A row change, owned or over parts that others own.
ghost use Rattle.std.specs.Prelude.{◌≡◌, IfOk};
ghost use Rattle.row_changes.specs.Plain.{plain_change, plain_ref};

use access_grants::GrantRow;
use agent_base::NoMemory;
use cookie_jar::{CellKey, Cookie};
use std::alloc::Global;
use storage_key::StorageKey;

/// A change of one row of the durable state.
///
/// The cookie of a change has an expiry and the last use 0: its bytes say nothing of either.
#[derive(Debug, Drop)]
pub enum Change {
    /// A pair of the local area of a key has this value.
    AreaPut {
        key: StorageKey,
        name: String,
        value: String,
    },
    AreaRemove {
        key: StorageKey,
        name: String,
    },
    AreaClear {
        key: StorageKey,
    },
    /// The bucket of a key becomes persistent.
    SetMode {
        key: StorageKey,
    },
    /// A place counts the persistent cookies of the cell alone.
    CookieInsert {
        cell: CellKey,
        place: u8,
        cookie: Cookie,
    },
    CookieReplace {
        cell: CellKey,
        place: u8,
        cookie: Cookie,
    },
    CookieRemove {
        cell: CellKey,
        place: u8,
    },
    /// A permission is kept, in the place of its pair's or as the last.
    Grant {
        row: GrantRow,
    },
}

/// A row change over parts that others own, as [`Change`] has them.
#[derive(Clone, Copy, Debug)]
pub enum ChangeRef<'a> {
    AreaPut {
        key: &'a StorageKey,
        name: &'a str,
        value: &'a str,
    },
    AreaRemove {
        key: &'a StorageKey,
        name: &'a str,
    },
    AreaClear {
        key: &'a StorageKey,
    },
    SetMode {
        key: &'a StorageKey,
    },
    CookieInsert {
        cell: &'a CellKey,
        place: u8,
        cookie: &'a Cookie,
    },
    CookieReplace {
        cell: &'a CellKey,
        place: u8,
        cookie: &'a Cookie,
    },
    CookieRemove {
        cell: &'a CellKey,
        place: u8,
    },
    Grant {
        row: &'a GrantRow,
    },
}

impl Change {
    /// The same row change over the parts of this one.
    pub fn borrowed(&self) -> ChangeRef<'_>
        ensures same { plain_ref result ≡ plain_change self.now }
    {
        match self {
            Change::AreaPut { key, name, value } => ChangeRef::AreaPut {
                key,
                name: name.as_str(),
                value: value.as_str(),
            },
            Change::AreaRemove { key, name } => ChangeRef::AreaRemove {
                key,
                name: name.as_str(),
            },
            Change::AreaClear { key } => ChangeRef::AreaClear { key },
            Change::SetMode { key } => ChangeRef::SetMode { key },
            Change::CookieInsert {
                cell,
                place,
                cookie,
            } => ChangeRef::CookieInsert {
                cell,
                place: *place,
                cookie,
            },
            Change::CookieReplace {
                cell,
                place,
                cookie,
            } => ChangeRef::CookieReplace {
                cell,
                place: *place,
                cookie,
            },
            Change::CookieRemove { cell, place } => ChangeRef::CookieRemove {
                cell,
                place: *place,
            },
            Change::Grant { row } => ChangeRef::Grant { row },
        }
    }

    /// The same row change, over memory of its own.
    pub fn copy(&self, alloc: Global) -> Result<Change, NoMemory>
        ensures same { IfOk result (λ c. plain_change c ≡ plain_change self.now) }
    {
        self.borrowed().copy(alloc)
    }
}

impl<'a> ChangeRef<'a> {
    /// The same row change, over memory of its own.
    pub fn copy(self, alloc: Global) -> Result<Change, NoMemory>
        ensures same { IfOk result (λ c. plain_change c ≡ plain_ref self.entry) }
    {
        match self {
            ChangeRef::AreaPut { key, name, value } => Ok(Change::AreaPut {
                key: key.copy(alloc)?,
                name: String::from_str(alloc, name)?,
                value: String::from_str(alloc, value)?,
            }),
            ChangeRef::AreaRemove { key, name } => Ok(Change::AreaRemove {
                key: key.copy(alloc)?,
                name: String::from_str(alloc, name)?,
            }),
            ChangeRef::AreaClear { key } => Ok(Change::AreaClear {
                key: key.copy(alloc)?,
            }),
            ChangeRef::SetMode { key } => Ok(Change::SetMode {
                key: key.copy(alloc)?,
            }),
            ChangeRef::CookieInsert {
                cell,
                place,
                cookie,
            } => Ok(Change::CookieInsert {
                cell: cell.copy(alloc)?,
                place,
                cookie: cookie.copy()?,
            }),
            ChangeRef::CookieReplace {
                cell,
                place,
                cookie,
            } => Ok(Change::CookieReplace {
                cell: cell.copy(alloc)?,
                place,
                cookie: cookie.copy()?,
            }),
            ChangeRef::CookieRemove { cell, place } => Ok(Change::CookieRemove {
                cell: cell.copy(alloc)?,
                place,
            }),
            ChangeRef::Grant { row } => Ok(Change::Grant {
                row: row.copy(alloc)?,
            }),
        }
    }
}
