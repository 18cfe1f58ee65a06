//! The parts of a durable state, and row changes of them.
ghost use Rattle.std.specs.Prelude.{◌≡◌, ◌<◌, IfOk, IsOk, None, OnErr, OnOk};
ghost use Rattle.std.specs.Prelude.{length, nat_lt, not, string_bytes, true};
ghost use Rattle.cookie_jar.specs.Key.{plain_key as plain_cell};
ghost use Rattle.cookie_jar.specs.Plain.{plain_cookie};
ghost use Rattle.storage_key.specs.Plain.{plain_key};
ghost use Rattle.access_grants.specs.Plain.{plain_grant};
ghost use Rattle.row_changes.specs.Change as plain;
ghost use Rattle.row_changes.specs.Plain.{plain_change};
ghost use Rattle.durable_model.specs.Migrate.{migrate, stays_whole};
ghost use Rattle.durable_model.specs.RowEdits.{is_valid};
ghost use Rattle.durable_model.specs.Saved.{is_kept_cookie, nothing_saved, pairs_at};
ghost use Rattle.row_store.specs.Stored.{HasNoSession, saved_of};
ghost use Rattle.local_area.specs.Area.{area_get};
ghost use Rattle.web_storage.specs.BucketRoom.{HasBucket};
ghost use Rattle.web_cookies.specs.Rows.{HasPlace};
ghost use Rattle.row_store.specs.Applying.{IsReady, PutsNewName};
ghost use Rattle.row_store.specs.Edits.{IsEdited, IsUndone};

use access_grants::{GrantRow, Grants};
use agent_base::NoMemory;
use cookie_jar::{CellKey, Cookie};
use local_area::AreaFault;
use row_changes::Change;
use std::alloc::Global;
use storage_events::AreaKind;
use storage_key::StorageKey;
use suffix_list::SuffixList;
use web_cookies::Cookies;
use web_storage::Storage;

/// The parts of a durable state, which an agent goes on with.
#[derive(Debug, Drop)]
pub struct Parts {
    pub storage: Storage,
    pub cookies: Cookies,
    pub grants: Grants,
}

impl Parts {
    /// Nothing is durable.
    pub fn new(alloc: Global) -> Parts
        ensures saved { saved_of result ≡ nothing_saved }
        ensures sessions { HasNoSession result.storage }
    {
        Parts {
            storage: Storage::new(alloc),
            cookies: Cookies::new(alloc),
            grants: Grants::new(alloc),
        }
    }

    // Does a row change where it is valid, and tells whether it is.
    pub(crate) fn edit(&mut self, alloc: Global, change: Change) -> Result<bool, NoMemory>
        ensures edited { IfOk result
            (λ valid. IsEdited (plain_change change) self.old self.new valid) }
        ensures undone { OnErr result (IsUndone self.old self.new) }
        ensures fits { IsReady change self.old
            → OnErr result (is_valid (plain_change change) (saved_of self.old) ≡ true) }
        ensures memory { IsReady change self.old
            → OnErr result (PutsNewName (plain_change change) (saved_of self.old)) }
    {
        match change {
            Change::AreaPut { key, name, value } => self.put(&key, name, value),
            Change::AreaRemove { key, name } => Ok(self.remove(&key, name.as_str())),
            Change::AreaClear { key } => Ok(self.clear(&key)),
            Change::SetMode { key } => self.persist(&key),
            Change::CookieInsert {
                cell,
                place,
                cookie,
            } => self.insert(alloc, &cell, place, cookie),
            Change::CookieReplace {
                cell,
                place,
                cookie,
            } => Ok(self.replace(&cell, place, cookie)),
            Change::CookieRemove { cell, place } => Ok(self.take_out(&cell, place)),
            Change::Grant { row } => self.keep(row),
        }
    }

    // Makes room for a row change. The state stays.
    pub(crate) fn reserve(&mut self, alloc: Global, change: &Change) -> Result<(), NoMemory>
        ensures ready { OnOk result (IsReady change.now self.new) }
        ensures undone { IsUndone self.old self.new }
    {
        match change {
            Change::AreaPut { .. } => Ok(()),
            Change::AreaRemove { .. } => Ok(()),
            Change::AreaClear { .. } => Ok(()),
            Change::SetMode { key } => self.storage.reserve_bucket(key),
            Change::CookieInsert { cell, .. } => self.cookies.reserve_insert(alloc, cell),
            Change::CookieReplace { .. } => Ok(()),
            Change::CookieRemove { .. } => Ok(()),
            Change::Grant { .. } => self.grants.reserve(1),
        }
    }

    // Drops what is none under a list, and tells whether something went.
    pub(crate) fn migrate(&mut self, list: &SuffixList) -> bool
        ensures state { saved_of self.new ≡ migrate list.now.rules (saved_of self.old) }
        ensures went { result ≡ not (stays_whole list.now.rules (saved_of self.old)) }
        ensures sessions { HasNoSession self.old.storage → HasNoSession self.new.storage }
    {
        let areas = self.storage.migrate(list);
        let cells = self.cookies.migrate(list);
        let grants = self.grants.migrate(list);
        areas || cells || grants
    }

    fn put(&mut self, key: &StorageKey, name: String, value: String) -> Result<bool, NoMemory>
        ensures edited { let change =
            plain.AreaPut (plain_key key.now) (string_bytes name) (string_bytes value) in
            IfOk result (λ valid. IsEdited change self.old self.new valid) }
        ensures undone { OnErr result (IsUndone self.old self.new) }
        ensures fits { let change =
            plain.AreaPut (plain_key key.now) (string_bytes name) (string_bytes value) in
            OnErr result (is_valid change (saved_of self.old) ≡ true) }
        ensures memory { let pairs = pairs_at (plain_key key.now) (saved_of self.old) in
            OnErr result (area_get (string_bytes name) pairs ≡ None) }
    {
        match self.storage.put(AreaKind::Local, 0, key, name, value) {
            Ok(_) => Ok(true),
            Err(AreaFault::Quota(_)) => Ok(false),
            Err(AreaFault::NoMemory) => Err(NoMemory),
        }
    }

    fn remove(&mut self, key: &StorageKey, name: &str) -> bool
        ensures edited { IsEdited (plain.AreaRemove (plain_key key.now) name.now)
            self.old self.new result }
    {
        match self.storage.remove(AreaKind::Local, 0, key, name) {
            Ok(value) => value.is_some(),
            Err(NoMemory) => false,
        }
    }

    fn clear(&mut self, key: &StorageKey) -> bool
        ensures edited { IsEdited (plain.AreaClear (plain_key key.now)) self.old self.new result }
    {
        if !self.has_pairs(key) {
            return false;
        }
        self.storage.clear(AreaKind::Local, 0, key);
        true
    }

    fn has_pairs(&self, key: &StorageKey) -> bool
        ensures { result ≡ nat_lt 0 (length (pairs_at (plain_key key.now) (saved_of self.now))) }
    {
        match self.storage.area(AreaKind::Local, 0, key) {
            Some(area) => area.len() > 0,
            None => false,
        }
    }

    fn persist(&mut self, key: &StorageKey) -> Result<bool, NoMemory>
        ensures edited { IfOk result
            (λ valid. IsEdited (plain.SetMode (plain_key key.now)) self.old self.new valid) }
        ensures undone { OnErr result (IsUndone self.old self.new) }
        ensures ready { HasBucket key.now self.old.storage → IsOk result }
    {
        if self.storage.is_persistent(key) {
            return Ok(false);
        }
        self.storage.persist(key)?;
        Ok(true)
    }

    fn insert(
        &mut self,
        alloc: Global,
        cell: &CellKey,
        place: u8,
        cookie: Cookie,
    ) -> Result<bool, NoMemory>
        ensures edited { let change =
            plain.CookieInsert (plain_cell cell.now) place (plain_cookie cookie) in
            IfOk result (λ valid. IsEdited change self.old self.new valid) }
        ensures undone { OnErr result (IsUndone self.old self.new) }
        ensures ready { HasPlace (plain_cell cell.now) self.old.cookies → IsOk result }
    {
        if !is_kept(&cookie) {
            return Ok(false);
        }
        self.cookies.insert_at(alloc, cell, place as usize, cookie)
    }

    fn replace(&mut self, cell: &CellKey, place: u8, cookie: Cookie) -> bool
        ensures edited { let change =
            plain.CookieReplace (plain_cell cell.now) place (plain_cookie cookie) in
            IsEdited change self.old self.new result }
    {
        is_kept(&cookie) && self.cookies.replace_at(cell, place as usize, cookie)
    }

    fn take_out(&mut self, cell: &CellKey, place: u8) -> bool
        ensures edited { IsEdited (plain.CookieRemove (plain_cell cell.now) place)
            self.old self.new result }
    {
        self.cookies.remove_at(cell, place as usize)
    }

    fn keep(&mut self, row: GrantRow) -> Result<bool, NoMemory>
        ensures edited { IfOk result
            (λ valid. IsEdited (plain.Grant (plain_grant row)) self.old self.new valid) }
        ensures undone { OnErr result (IsUndone self.old self.new) }
        ensures ready { 0 < self.old.grants.spare → IsOk result }
    {
        self.grants.reserve(1)?;
        self.grants.keep(row);
        Ok(true)
    }
}

// Whether a cookie is as it outlives a restart.
fn is_kept(cookie: &Cookie) -> bool
    ensures { result ≡ is_kept_cookie (plain_cookie cookie.now) }
{
    cookie.expiry.is_some() && cookie.last == 0
}
