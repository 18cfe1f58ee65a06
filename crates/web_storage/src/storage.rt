//! Local and session areas of all sites, by storage key.
ghost use Rattle.std.specs.Prelude.{◌≡◌, ◌<◌, ◌↔◌, ◌⊎◌, [], Err, IfErr, IfOk, IsOk, None, OnOk, OnErr, MatchOption, map, nat_lt, option_map, string_bytes, false, not, if◌then◌else◌};
ghost use Rattle.std.specs.Borrow.{sem};
ghost use Rattle.origin_site.specs.Plain.{plain_site};
ghost use Rattle.storage_key.specs.Plain.{plain_key};
ghost use Rattle.local_area.specs.Area.{area_get, area_put, area_remove, area_weight, quota};
ghost use Rattle.local_area.specs.Put.{plain_put, put_answer};
ghost use Rattle.storage_events.specs.declared.event.AreaKind.TheVariants.{Local};
ghost use Rattle.agent_model.specs.Partition.{Holdings, area_of, no_holdings, with_area};
ghost use Rattle.agent_model.specs.Buckets.{evicted_count, is_persistent, made_persistent};
ghost use Rattle.agent_model.specs.Buckets.{areas_taken, without_evicted};
ghost use Rattle.agent_model.specs.Changes.{clears};
ghost use Rattle.row_changes.specs.Change.{AreaClear};
ghost use Rattle.std.specs.FinMap as finite;
ghost use Rattle.agent_model.specs.Sessions.{copy_sessions, has_session};
ghost use Rattle.web_storage.specs.BucketRoom.{HasBucket};
ghost use Rattle.web_storage.specs.Listed.{stored_in};
ghost use Rattle.web_storage.specs.Stored.{held_with, without_areas};
ghost use Rattle.web_storage.specs.SiteSessions.{has_session_under};
ghost use Rattle.web_storage.specs.Lends.{LendsArea, HoldsSame, HoldsPairs};
ghost use Rattle.web_storage.specs.Migrated.{all_stay, migrated};

use crate::listing::{keys_stored, keys_taken};
use crate::local::{clear_local, evict_local, is_persistent, migrate_local, reserve_local};
use crate::session::{copy_areas, has_session_under, reserve_session};
use agent_base::NoMemory;
use buckets::Shed;
use local_area::{Area, AreaFault, Put};
use origin_site::Site;
use session_area::{NotLent, Sessions};
use std::alloc::Global;
use std::marker::Model;
use storage_events::AreaKind;
use storage_key::StorageKey;
use suffix_list::SuffixList;

/// The storage of all sites: local areas with the modes of their buckets, and the session areas of
/// tabs.
///
/// An area that is empty and one that is absent are the same, and so are a best-effort bucket and
/// none.
#[derive(Debug, Drop)]
pub struct Storage {
    local: Shed<StorageKey>,
    session: Sessions<StorageKey>,
    alloc: Global,
}

impl Model for Storage {
    ghost use Rattle.web_storage.specs.Stored.{Entries};

    ghost Value = { Entries };

    ghost view = { λ s. record { local = s.local; session = s.session } };
}

impl Storage {
    /// No areas, and no bucket that is persistent.
    pub fn new(alloc: Global) -> Storage
        ensures empty { (beside : Holdings) → held_with beside result ≡ record beside {
          areas = finite.empty;
          persistent = finite.empty;
          sessions = finite.empty;
        } }
    {
        Storage {
            local: Shed::new(alloc),
            session: Sessions::new(alloc),
            alloc,
        }
    }

    /// A storage that holds the same, over memory of its own.
    pub fn copy(&self) -> Result<Storage, NoMemory>
        ensures same { IfOk result (λ copy. HoldsSame self.now copy) }
    {
        let local = self.local.copy()?;
        let session = self.session.copy()?;
        Ok(Storage {
            local,
            session,
            alloc: self.alloc,
        })
    }

    /// The area of a document, by its tab and storage key. None is an empty one.
    pub fn area(&self, kind: AreaKind, tab: u16, key: &StorageKey) -> Option<&Area>
        ensures area { (beside : Holdings)
            → let pairs = area_of kind tab (plain_key key.now) (held_with beside self.now) in
            MatchOption result (pairs ≡ []) (λ area. area.now ≡ pairs) }
    {
        match kind {
            AreaKind::Local => self.local.area(key),
            AreaKind::Session => self.session.area(tab, key),
        }
    }

    /// The area of a document, to be changed. An absent one begins empty.
    ///
    /// The key is copied only where it is new. A session area that tabs share is copied first, in
    /// time linear in it, and is then the tab's own. Want of memory leaves what the storage holds,
    /// and never comes where a local area is there.
    pub fn area_mut(
        &mut self,
        kind: AreaKind,
        tab: u16,
        key: &StorageKey,
    ) -> Result<&mut Area, NoMemory>
        ensures* writes_back { sem 𝓛 (LendsArea self.entry kind tab (plain_key key.now) result) }
        ensures area { (beside : Holdings)
            → let pairs = area_of kind tab (plain_key key.now) (held_with beside self.old) in
            IfOk result (λ area. area.now ≡ pairs) }
        ensures memory { kind ≡ Local → (beside : Holdings)
            → let pairs = area_of kind tab (plain_key key.now) (held_with beside self.old) in
            OnErr result (pairs ≡ []) }
    {
        self.reserve(kind, tab, key)?;
        match self.present_mut(kind, tab, key) {
            Ok(area) => Ok(area),
            Err(_) => Err(NoMemory),
        }
    }

    /// Gives a name a value in an area. A refusal leaves what the storage holds. A session area
    /// that tabs share is copied first, and memory may be wanting for that.
    pub fn put(
        &mut self,
        kind: AreaKind,
        tab: u16,
        key: &StorageKey,
        name: String,
        value: String,
    ) -> Result<Put, AreaFault>
        ensures stored { (beside : Holdings) → let before = held_with beside self.old in
            let here = area_of kind tab (plain_key key.now) before in
            let pairs = area_put (string_bytes name) (string_bytes value) here in
            OnOk result (held_with beside self.new
            ≡ with_area kind tab (plain_key key.now) pairs before) }
        ensures answer { (beside : Holdings)
            → let pairs = area_of kind tab (plain_key key.now) (held_with beside self.old) in
            IfOk result (λ p. plain_put p
            ≡ put_answer (string_bytes name) (string_bytes value) pairs) }
        ensures quota { (beside : Holdings)
            → let pairs = area_of kind tab (plain_key key.now) (held_with beside self.old) in
            let after = area_weight (area_put (string_bytes name) (string_bytes value) pairs) in
            (result ≡ Err (AreaFault.Quota after)) ↔ (quota < after) }
        ensures causes { (beside : Holdings)
            → let pairs = area_of kind tab (plain_key key.now) (held_with beside self.old) in
            let after = area_weight (area_put (string_bytes name) (string_bytes value) pairs) in
            IfErr result (λ e. (e ≡ AreaFault.Quota after) ⊎ (e ≡ AreaFault.NoMemory)) }
        ensures memory { kind ≡ Local → (beside : Holdings)
            → let pairs = area_of kind tab (plain_key key.now) (held_with beside self.old) in
            result ≡ Err AreaFault.NoMemory → area_get (string_bytes name) pairs ≡ None }
        ensures unchanged { OnErr result (HoldsSame self.old self.new) }
    {
        match self.present_mut(kind, tab, key) {
            Ok(area) => area.put(name, value),
            Err(NotLent::NoArea) => match self.area_mut(kind, tab, key) {
                Ok(made) => made.put(name, value),
                Err(NoMemory) => Err(self.refusal(kind, tab, key, &name, &value)),
            },
            Err(NotLent::NoMemory) => Err(self.refusal(kind, tab, key, &name, &value)),
        }
    }

    /// Takes a name out of an area, and answers the value that it had.
    ///
    /// A session area that tabs share is copied first. Want of memory comes for that copy alone,
    /// and leaves what the storage holds.
    pub fn remove(
        &mut self,
        kind: AreaKind,
        tab: u16,
        key: &StorageKey,
        name: &str,
    ) -> Result<Option<String>, NoMemory>
        ensures value { (beside : Holdings)
            → let pairs = area_of kind tab (plain_key key.now) (held_with beside self.old) in
            IfOk result (λ value. option_map string_bytes value ≡ area_get name.now pairs) }
        ensures removed { (beside : Holdings) → let before = held_with beside self.old in
            let pairs = area_remove name.now (area_of kind tab (plain_key key.now) before) in
            OnOk result (held_with beside self.new
            ≡ with_area kind tab (plain_key key.now) pairs before) }
        ensures local { kind ≡ Local → IsOk result }
        ensures unchanged { OnErr result (HoldsSame self.old self.new) }
    {
        let value = self.take(kind, tab, key, name)?;
        self.drop_empty(kind, tab, key);
        Ok(value)
    }

    /// Empties an area. It takes no memory.
    pub fn clear(&mut self, kind: AreaKind, tab: u16, key: &StorageKey)
        ensures cleared { HoldsPairs kind tab (plain_key key.now) [] self.old self.new }
    {
        match kind {
            AreaKind::Local => clear_local(&mut self.local, key),
            AreaKind::Session => self.session.remove(tab, key),
        }
    }

    /// Whether the bucket of a key is persistent.
    pub fn is_persistent(&self, key: &StorageKey) -> bool
        ensures mode { (beside : Holdings) → result
            ≡ is_persistent (plain_key key.now) (held_with beside self.now) }
    {
        is_persistent(&self.local, key)
    }

    /// Makes room for the bucket of a key, which then can become persistent without memory. What
    /// the storage holds stays.
    pub fn reserve_bucket(&mut self, key: &StorageKey) -> Result<(), NoMemory>
        ensures same { HoldsSame self.old self.new }
        ensures ready { OnOk result (HasBucket key.now self.new) }
    {
        reserve_local(self.alloc, &mut self.local, key)
    }

    /// Makes the bucket of a key persistent. The key is copied only where it is new, and where it
    /// has a bucket no memory is taken.
    pub fn persist(&mut self, key: &StorageKey) -> Result<(), NoMemory>
        ensures stored { (beside : Holdings) → let before = held_with beside self.old in
            OnOk result (held_with beside self.new ≡ made_persistent (plain_key key.now) before) }
        ensures unchanged { OnErr result (HoldsSame self.old self.new) }
        ensures area { (beside : Holdings)
            → let pairs = area_of Local 0 (plain_key key.now) (held_with beside self.old) in
            OnErr result (pairs ≡ []) }
        ensures mode { (beside : Holdings) → OnErr result
            (is_persistent (plain_key key.now) (held_with beside self.old) ≡ false) }
        ensures ready { HasBucket key.now self.old → IsOk result }
    {
        reserve_local(self.alloc, &mut self.local, key)?;
        let _ = self.local.persist(key);
        Ok(())
    }

    /// The bytes of the names and values of a key's local area.
    pub fn usage(&self, key: &StorageKey) -> usize
        ensures usage { (beside : Holdings) → result
            ≡ area_weight (area_of Local 0 (plain_key key.now) (held_with beside self.now)) }
    {
        self.local.usage(key)
    }

    /// Empties the local areas of the best-effort buckets under a site, and counts those that were
    /// not empty. Their documents are not told.
    pub fn evict(&mut self, site: &Site) -> Result<u32, NoMemory>
        ensures evicted { (beside : Holdings) → let before = held_with beside self.old in
            OnOk result (held_with beside self.new ≡ without_evicted (plain_site site.now) before) }
        ensures count { (beside : Holdings) → let before = held_with beside self.old in
            IfOk result (λ count. count ≡ evicted_count (plain_site site.now) before) }
        ensures unchanged { (beside : Holdings) → OnErr result
            (held_with beside self.new ≡ held_with beside self.old) }
    {
        evict_local(self.alloc, &mut self.local, site)
    }

    /// The keys whose local areas an eviction of a site takes, by their texts.
    pub fn evicted_keys(&self, site: &Site) -> Result<Vec<StorageKey>, NoMemory>
        ensures keys { (beside : Holdings)
            → let taken = areas_taken (plain_site site.now) (held_with beside self.now) in
            IfOk result (λ keys. map (λ key. AreaClear (plain_key key)) keys.items
            ≡ clears (finite.keys taken)) }
    {
        keys_taken(self.alloc, &self.local, site)
    }

    /// The keys that have a local area, or a persistent bucket, or both, by their texts.
    pub fn stored_keys(&self) -> Result<Vec<StorageKey>, NoMemory>
        ensures keys { (beside : Holdings) → let held = held_with beside self.now in
            IfOk result (λ keys. map plain_key keys.items
            ≡ stored_in held.areas held.persistent) }
    {
        keys_stored(self.alloc, &self.local)
    }

    /// Keeps the local buckets whose keys are storage keys under a list, and drops the others, each
    /// with its area and its mode. Tells whether one that is not empty, or is persistent, was
    /// dropped. Session areas stay. It takes no memory.
    pub fn migrate(&mut self, list: &SuffixList) -> bool
        ensures state { (beside : Holdings) → held_with beside self.new
            ≡ migrated list.now.rules (held_with beside self.old) }
        ensures went { (beside : Holdings) → result
            ≡ not (all_stay list.now.rules (held_with beside self.old)) }
    {
        migrate_local(&mut self.local, list)
    }

    /// Copies the session areas that one tab has under a site to another tab, which has none.
    pub fn copy_tab(&mut self, site: &Site, from: u16, to: u16) -> Result<(), NoMemory>
        requires { has_session to (held_with no_holdings self.old) ≡ false }
        ensures copied { (beside : Holdings) → let before = held_with beside self.old in
            OnOk result (held_with beside self.new
            ≡ copy_sessions (plain_site site.now) from to before) }
        ensures unchanged { (beside : Holdings) → OnErr result
            (held_with beside self.new ≡ held_with beside self.old) }
    {
        copy_areas(self.alloc, &mut self.session, site, from, to)
    }

    /// Whether a tab has a session area under a site, which is not empty. It takes no memory.
    pub fn has_session(&self, tab: u16, site: &Site) -> bool
        ensures session { (beside : Holdings) → let held = held_with beside self.now in
            result ≡ has_session_under (plain_site site.now) tab held.sessions }
    {
        has_session_under(&self.session, tab, site)
    }

    /// Drops the session areas of a tab.
    pub fn close(&mut self, tab: u16)
        ensures closed { (beside : Holdings) → let before = held_with beside self.old in
            held_with beside self.new
            ≡ record before { sessions = without_areas tab before.sessions } }
    {
        self.session.close(tab);
    }
}

impl Storage {
    // Makes room for an area.
    fn reserve(&mut self, kind: AreaKind, tab: u16, key: &StorageKey) -> Result<(), NoMemory>
        ensures same { HoldsSame self.old self.new }
        ensures memory { (beside : Holdings)
            → let pairs = area_of kind tab (plain_key key.now) (held_with beside self.old) in
            OnErr result (pairs ≡ []) }
    {
        match kind {
            AreaKind::Local => reserve_local(self.alloc, &mut self.local, key),
            AreaKind::Session => reserve_session(self.alloc, &mut self.session, tab, key),
        }
    }

    // An area that is there, to be changed.
    fn present_mut(
        &mut self,
        kind: AreaKind,
        tab: u16,
        key: &StorageKey,
    ) -> Result<&mut Area, NotLent>
        ensures* writes_back { sem 𝓛 (LendsArea self.entry kind tab (plain_key key.now) result) }
        ensures area { (beside : Holdings)
            → let pairs = area_of kind tab (plain_key key.now) (held_with beside self.old) in
            IfOk result (λ area. area.now ≡ pairs) }
        ensures none { (beside : Holdings)
            → let pairs = area_of kind tab (plain_key key.now) (held_with beside self.old) in
            result ≡ Err NotLent.NoArea → pairs ≡ [] }
        ensures local { kind ≡ Local → IfErr result (λ e. e ≡ NotLent.NoArea) }
    {
        match kind {
            AreaKind::Local => match self.local.area_mut(key) {
                Some(area) => Ok(area),
                None => Err(NotLent::NoArea),
            },
            AreaKind::Session => self.session.area_mut(tab, key),
        }
    }

    // Why a pair is refused where memory is wanting before its area can be changed.
    fn refusal(
        &self,
        kind: AreaKind,
        tab: u16,
        key: &StorageKey,
        name: &str,
        value: &str,
    ) -> AreaFault
        ensures fault { (beside : Holdings)
            → let pairs = area_of kind tab (plain_key key.now) (held_with beside self.now) in
            let after = area_weight (area_put name.now value.now pairs) in
            result ≡ (if nat_lt quota after then AreaFault.Quota after else AreaFault.NoMemory) }
    {
        match self.area(kind, tab, key) {
            Some(area) => area.refusal(name, value),
            None => AreaFault::without_area(name, value),
        }
    }

    // Takes a name out of an area that is there.
    fn take(
        &mut self,
        kind: AreaKind,
        tab: u16,
        key: &StorageKey,
        name: &str,
    ) -> Result<Option<String>, NoMemory>
        ensures value { (beside : Holdings)
            → let pairs = area_of kind tab (plain_key key.now) (held_with beside self.old) in
            IfOk result (λ value. option_map string_bytes value ≡ area_get name.now pairs) }
        ensures removed { (beside : Holdings) → let before = held_with beside self.old in
            let pairs = area_remove name.now (area_of kind tab (plain_key key.now) before) in
            OnOk result (held_with beside self.new
            ≡ with_area kind tab (plain_key key.now) pairs before) }
        ensures local { kind ≡ Local → IsOk result }
        ensures unchanged { OnErr result (HoldsSame self.old self.new) }
    {
        match self.present_mut(kind, tab, key) {
            Ok(area) => Ok(area.remove(name)),
            Err(NotLent::NoArea) => Ok(None),
            Err(NotLent::NoMemory) => Err(NoMemory),
        }
    }

    // Drops what stands for an empty area.
    fn drop_empty(&mut self, kind: AreaKind, tab: u16, key: &StorageKey)
        ensures same { HoldsSame self.old self.new }
    {
        match kind {
            AreaKind::Local => self.local.drop_fresh(key),
            AreaKind::Session => self.session.drop_empty(tab, key),
        }
    }
}
