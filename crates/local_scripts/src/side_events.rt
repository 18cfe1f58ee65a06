//! The event that a line has at a site beside the main one.
ghost use Rattle.std.specs.Prelude.{◌≡◌, ◌&&◌, IfOk, is_some, not};
ghost use Rattle.origin_site.specs.Plain.{plain_address, plain_site};
ghost use Rattle.storage_key.specs.Context.{is_of};
ghost use Rattle.script_actions.specs.Plain.{action_of};
ghost use Rattle.local_scripts.specs.Events.{IsSide, place_in};
ghost use Rattle.local_scripts.specs.Sides.{ClosesSide, CopiesSide, LeavesSide};

use crate::SiteEvent;
use crate::places::{is_at, place};
use agent_base::NoMemory;
use frame_tree::site_of_address;
use live_state::Live;
use origin_site::{Address, Site, same_site};
use script_actions::Action;
use std::alloc::Global;
use suffix_list::SuffixList;

/// The event that a line has at a site beside the main one, if it has one. `areas` says whether the
/// site has session areas of the tab that the line closes.
pub fn side_event(
    alloc: Global,
    list: &SuffixList,
    live: &Live,
    action: &Action,
    site: &Site,
    areas: bool,
) -> Result<Option<SiteEvent>, NoMemory>
    ensures event { IfOk result (IsSide list.now.rules live.now.tabs (action_of action.now)
        (plain_site site.now) areas) }
{
    match action {
        Action::Open {
            tab,
            opener,
            noopener,
            ..
        } => Ok(copies(live, site, *tab, *opener, *noopener)),
        Action::Go { tab, url, .. } => leaves(alloc, list, live, site, *tab, url),
        Action::Close { tab } => Ok(closes(live, site, *tab, areas)),
        _ => Ok(None),
    }
}

// A tab that a page at the site opens gets copies of its opener's session areas.
fn copies(
    live: &Live,
    site: &Site,
    tab: u16,
    opener: Option<u16>,
    noopener: bool,
) -> Option<SiteEvent>
    ensures event { CopiesSide live.now.tabs tab opener noopener (plain_site site.now) result }
{
    let opener = opener?;
    if !is_copied(live, site, tab, opener, noopener) {
        return None;
    }
    Some(SiteEvent::Copies {
        from: opener,
        to: tab,
    })
}

// Whether a tab is opened that gets copies under the site.
fn is_copied(live: &Live, site: &Site, tab: u16, opener: u16, noopener: bool) -> bool
    ensures copied { let at = is_of (plain_site site.now) (place_in live.now.tabs opener) in
        result ≡ (not (is_some (place_in live.now.tabs tab)) && (not noopener && at)) }
{
    place(live, tab).is_none() && !noopener && is_at(live, opener, site)
}

// A tab that is at the site leaves it, where it reaches another one.
fn leaves(
    alloc: Global,
    list: &SuffixList,
    live: &Live,
    site: &Site,
    tab: u16,
    url: &Address,
) -> Result<Option<SiteEvent>, NoMemory>
    ensures event { IfOk result (LeavesSide list.now.rules live.now.tabs tab
        (plain_address url.now) (plain_site site.now)) }
{
    if !is_at(live, tab, site) {
        return Ok(None);
    }
    let target = site_of_address(alloc, url, list)?;
    if same_site(site, &target) {
        return Ok(None);
    }
    Ok(Some(SiteEvent::Leaves { tab }))
}

// A tab that is closed has session areas under the site, and is at another one.
fn closes(live: &Live, site: &Site, tab: u16, areas: bool) -> Option<SiteEvent>
    ensures event { ClosesSide live.now.tabs tab (plain_site site.now) areas result }
{
    let here = place(live, tab)?;
    if same_site(site, here) || !areas {
        return None;
    }
    Some(SiteEvent::Closes { tab })
}
