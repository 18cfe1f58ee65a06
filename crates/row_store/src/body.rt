//! The body of a snapshot, written from parts as they stand.
ghost use Rattle.std.specs.Prelude.{◌≡◌, [], IfOk, OnOk, map};
ghost use Rattle.std.specs.List.{All};
ghost use Rattle.row_changes.specs.Appended.{HasTexts};
ghost use Rattle.row_changes.specs.Body.{rows_bytes};
ghost use Rattle.row_changes.specs.Plain.{plain_change};
ghost use Rattle.row_store.specs.Kept.{kept_of};
ghost use Rattle.row_store.specs.Listing.{listed};
ghost use Rattle.row_store.specs.Pushed.{all_rows};
ghost use Rattle.row_store.specs.Sinks.{IsWritten};
ghost use Rattle.row_store.specs.Stored.{saved_in, saved_of};

use crate::listing::push_all;
use crate::parts::Parts;
use crate::sink::KeptRows;
use crate::which::Which;
use access_grants::Grants;
use agent_base::NoMemory;
use row_changes::Change;
use std::alloc::Global;
use web_cookies::Cookies;
use web_storage::Storage;

/// The row changes of a snapshot of what outlives a restart of these parts, in the order in which
/// they are written. No cookie has a last use.
pub fn snapshot_rows(
    alloc: Global,
    storage: &Storage,
    cookies: &Cookies,
    grants: &Grants,
) -> Result<Vec<Change>, NoMemory>
    ensures rows { let saved = saved_in storage.now cookies.now grants.now in
        IfOk result (λ rows. map plain_change rows.items ≡ listed (kept_of saved)) }
{
    let mut kept = KeptRows {
        rows: Vec::new(alloc),
    };
    push_all(
        alloc,
        storage,
        cookies,
        grants,
        Which::Persistent,
        &mut kept,
    )?;
    Ok(kept.rows)
}

/// The body of a snapshot of what outlives a restart of these parts.
///
/// Beside the body it takes the memory of the keys and cells that it sorts. Its time is linear in
/// the bytes, but for that sort and a look-up of each key and cell.
pub fn snapshot(
    alloc: Global,
    storage: &Storage,
    cookies: &Cookies,
    grants: &Grants,
) -> Result<Vec<u8>, NoMemory>
    ensures bytes { let saved = saved_in storage.now cookies.now grants.now in
        IfOk result (λ body. body.items ≡ rows_bytes (listed (kept_of saved))) }
    ensures texts { let saved = saved_in storage.now cookies.now grants.now in
        OnOk result (All HasTexts (listed (kept_of saved))) }
{
    write_body(alloc, storage, cookies, grants, Which::Persistent)
}

impl Parts {
    /// The row changes of a snapshot, in the order in which they are written. Done one after
    /// another to no rows, they lead to these.
    pub fn listing(&self, alloc: Global) -> Result<Vec<Change>, NoMemory>
        ensures rows { IfOk result
            (λ rows. map plain_change rows.items ≡ listed (saved_of self.now)) }
    {
        let mut rows: Vec<Change> = Vec::new(alloc);
        push_all(
            alloc,
            &self.storage,
            &self.cookies,
            &self.grants,
            Which::All,
            &mut rows,
        )?;
        Ok(rows)
    }

    /// The body of a snapshot.
    pub fn snapshot(&self, alloc: Global) -> Result<Vec<u8>, NoMemory>
        ensures bytes { IfOk result (λ body. body.items ≡ rows_bytes (listed (saved_of self.now))) }
    {
        write_body(
            alloc,
            &self.storage,
            &self.cookies,
            &self.grants,
            Which::All,
        )
    }
}

// The row changes of parts, with these cookies of each cell.
fn write_body(
    alloc: Global,
    storage: &Storage,
    cookies: &Cookies,
    grants: &Grants,
    which: Which,
) -> Result<Vec<u8>, NoMemory>
    ensures written { let rows = all_rows which storage.now cookies.now grants.now in
        IfOk result (λ body. IsWritten [] rows body.items) }
{
    let mut body: Vec<u8> = Vec::new(alloc);
    push_all(alloc, storage, cookies, grants, which, &mut body)?;
    Ok(body)
}
