//! What stands in the parts of a durable state.
ghost use Rattle.std.specs.Prelude.{◌≡◌, [], IfOk, MatchOption, filter, map};
ghost use Rattle.std.specs.FinMap as finite;
ghost use Rattle.access_grants.specs.Plain.{plain_grant};
ghost use Rattle.cookie_jar.specs.Key.{plain_key as plain_cell};
ghost use Rattle.origin_site.specs.Plain.{plain_site};
ghost use Rattle.storage_key.specs.Plain.{plain_key};
ghost use Rattle.agent_model.specs.Partition.{is_under};
ghost use Rattle.durable_model.specs.Saved.{cookies_at, pairs_at};
ghost use Rattle.row_store.specs.Listing.{stored_keys};
ghost use Rattle.row_store.specs.Stored.{saved_of};

use crate::parts::Parts;
use access_grants::GrantRow;
use agent_base::NoMemory;
use cookie_jar::{CellKey, Jar};
use local_area::Area;
use origin_site::{Site, same_site};
use storage_events::AreaKind;
use storage_key::StorageKey;

impl Parts {
    /// The local area of a key. None is one without pairs.
    pub fn area_rows(&self, key: &StorageKey) -> Option<&Area>
        ensures area { let pairs = pairs_at (plain_key key.now) (saved_of self.now) in
            MatchOption result (pairs ≡ []) (λ area. area.now ≡ pairs) }
    {
        self.storage.area(AreaKind::Local, 0, key)
    }

    /// Whether the bucket of a key is persistent.
    pub fn is_persistent(&self, key: &StorageKey) -> bool
        ensures mode { let persistent = (saved_of self.now).under.persistent in
            result ≡ finite.contains_key persistent (plain_key key.now) }
    {
        self.storage.is_persistent(key)
    }

    /// The keys under a top-level site that have an area, or a persistent bucket, or both, by their
    /// texts.
    ///
    /// Goes over the keys of all sites.
    pub fn keys_under(&self, top: &Site) -> Result<Vec<StorageKey>, NoMemory>
        ensures keys { let all = stored_keys (saved_of self.now) in
            IfOk result (λ keys. map plain_key keys.items
            ≡ filter (is_under (plain_site top.now)) all) }
    {
        let mut keys = self.storage.stored_keys()?;
        keys.retain(|key| same_site(top, &key.top));
        Ok(keys)
    }

    /// The jar of a cell. None is one without cookies.
    pub fn jar_rows(&self, cell: &CellKey) -> Option<&Jar>
        ensures cookies { let cookies = cookies_at (plain_cell cell.now) (saved_of self.now) in
            MatchOption result (cookies ≡ []) (λ jar. jar.now.cookies ≡ cookies) }
    {
        self.cookies.jar(cell)
    }

    /// The permissions, in the order in which their pairs came.
    pub fn grant_rows(&self) -> &[GrantRow]
        ensures rows { map plain_grant result.now ≡ (saved_of self.now).under.grants }
    {
        self.grants.rows()
    }
}
