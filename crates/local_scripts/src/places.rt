//! Where the open tabs are.
ghost use Rattle.std.specs.Prelude.{◌≡◌, option_map};
ghost use Rattle.origin_site.specs.Plain.{plain_site};
ghost use Rattle.storage_key.specs.Context.{is_of};
ghost use Rattle.local_scripts.specs.Events.{place_in};

use live_state::Live;
use origin_site::{Site, same_site};

/// The site that a tab is at, where it is open.
pub fn place(live: &Live, tab: u16) -> Option<&Site>
    ensures place { option_map (λ s. plain_site s.now) result ≡ place_in live.now.tabs tab }
{
    match live.tab(tab) {
        Some(found) => Some(found.top_site()),
        None => None,
    }
}

/// Whether a tab is open and at this site.
pub fn is_at(live: &Live, tab: u16, site: &Site) -> bool
    ensures at { result ≡ is_of (plain_site site.now) (place_in live.now.tabs tab) }
{
    match place(live, tab) {
        Some(here) => same_site(site, here),
        None => false,
    }
}
