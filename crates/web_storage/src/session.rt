//! Session areas: room for a tab and a storage key, and copies for another tab.
ghost use Rattle.std.specs.Prelude.{◌≡◌, [], IfOk, OnOk, OnErr, map};
ghost use Rattle.std.specs.List.{list_any};
ghost use Rattle.std.specs.List.Sorted.{IsStrictlySortedBy};
ghost use Rattle.std.specs.Map.{keys_of};
ghost use Rattle.unwinding.specs.FiniteCells.{get_cell};
ghost use Rattle.storage_key.specs.Plain.{plain_key};
ghost use Rattle.origin_site.specs.Plain.{plain_site};
ghost use Rattle.agent_model.specs.Partition.{Holdings, session_order};
ghost use Rattle.agent_model.specs.Sessions.{copy_sessions};
ghost use Rattle.session_area.specs.Sessions.{areas_of};
ghost use Rattle.web_storage.specs.Evicting.{AreUnder, HasNone, key_cmp};
ghost use Rattle.web_storage.specs.SiteSessions.{has_pairs_under, has_session_under};
ghost use Rattle.web_storage.specs.Stored.{sessions_in};

use crate::under::keys_under;
use agent_base::NoMemory;
use key_map::KeyMap;
use origin_site::{Site, same_site};
use session_area::{Sessions, SharedArea};
use std::alloc::Global;
use storage_key::StorageKey;

/// Makes room for a tab and a key. The key is copied only where it is new.
pub fn reserve_session(
    alloc: Global,
    sessions: &mut Sessions<StorageKey>,
    tab: u16,
    key: &StorageKey,
) -> Result<(), NoMemory>
    ensures sessions { sessions_in sessions.new ≡ sessions_in sessions.old }
    ensures area { OnErr result
        (get_cell session_order (sessions_in sessions.old) (tab, plain_key key.now) ≡ []) }
{
    if sessions.contains(tab, key) {
        return Ok(());
    }
    let key = key.copy(alloc)?;
    sessions.reserve(tab, key)
}

/// Copies the session areas that one tab has under a site to another tab, which has none. The tabs
/// share them until one of the two changes one.
pub fn copy_areas(
    alloc: Global,
    sessions: &mut Sessions<StorageKey>,
    site: &Site,
    from: u16,
    to: u16,
) -> Result<(), NoMemory>
    requires { HasNone to (sessions_in sessions.old) }
    ensures copied { (held : Holdings) → held.sessions ≡ sessions_in sessions.old
        → OnOk result (sessions_in sessions.new
        ≡ (copy_sessions (plain_site site.now) from to held).sessions) }
    ensures unchanged { OnErr result (sessions_in sessions.new ≡ sessions_in sessions.old) }
{
    // `clone_tab` asks that no area is there, and an empty one may be.
    sessions.close(to);
    let keys = tab_keys_under(alloc, sessions, from, site)?;
    sessions.clone_tab(from, to, keys)
}

// Copies of the keys under a site at which a tab has areas.
fn tab_keys_under(
    alloc: Global,
    sessions: &Sessions<StorageKey>,
    tab: u16,
    site: &Site,
) -> Result<Vec<StorageKey>, NoMemory>
    ensures keys { let all = map plain_key (keys_of (areas_of tab sessions.now)) in
        IfOk result (λ keys. AreUnder (plain_site site.now) all (map plain_key keys.items)) }
{
    match sessions.areas(tab) {
        Some(areas) => keys_under(alloc, areas, site),
        None => Ok(Vec::new(alloc)),
    }
}

/// Whether a tab has a session area under a site, which is not empty.
pub fn has_session_under(sessions: &Sessions<StorageKey>, tab: u16, site: &Site) -> bool
    ensures { result ≡ has_session_under (plain_site site.now) tab (sessions_in sessions.now) }
{
    match sessions.areas(tab) {
        Some(areas) => has_pairs_under(areas, site),
        None => false,
    }
}

// Whether some areas have one under a site that is not empty.
fn has_pairs_under(areas: &KeyMap<StorageKey, SharedArea>, site: &Site) -> bool
    ensures pairs { result ≡ list_any (has_pairs_under (plain_site site.now)) areas.now }
    ensures ordered { IsStrictlySortedBy key_cmp (keys_of areas.now) }
{
    let Some(first) = areas.next_key(None) else {
        return false;
    };
    for (key, area) in areas.range_from(first) {
        if has_pairs(key, area, site) {
            return true;
        }
    }
    false
}

// Whether the key of an area is under a site, and the area is not empty.
fn has_pairs(key: &StorageKey, shared: &SharedArea, site: &Site) -> bool
    ensures { result ≡ has_pairs_under (plain_site site.now) (key.now, shared.now) }
{
    !shared.area().is_empty() && same_site(site, &key.top)
}
