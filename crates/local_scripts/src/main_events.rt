//! The main event of a line: its site, and the unpartitioned cookies that it consults.
ghost use Rattle.std.specs.Prelude.{◌≡◌, Bool, IfOk, List, Some, is_some, option_map, string_bytes};
ghost use Rattle.origin_site.specs.Plain.{plain_address, plain_site};
ghost use Rattle.suffix_list.specs.Suffix.{Rule};
ghost use Rattle.script_actions.specs.declared.words.Method.{Method};
ghost use Rattle.script_actions.specs.Action as plain;
ghost use Rattle.script_actions.specs.Labels.{label_of};
ghost use Rattle.script_actions.specs.Plain.{action_of};
ghost use Rattle.agent_model.specs.Lines.{Starter, is_same_site};
ghost use Rattle.local_scripts.specs.Events.{IsArrival, IsMain, page_of, starter_in};

use crate::cells::consulted;
use crate::places::place;
use agent_base::{Label, NoMemory};
use frame_tree::site_of_address;
use live_state::Live;
use origin_site::{Address, Site, same_site};
use script_actions::Action;
use std::alloc::Global;
use suffix_list::SuffixList;

/// The main event of a line.
#[derive(Debug, Drop)]
pub struct MainEvent {
    /// The site at which it occurs.
    pub site: Site,
    /// Whether a load of a top document is same-site.
    pub same_site: bool,
    /// The domain whose unpartitioned cookies it consults, if it consults any.
    pub domain: Option<String>,
}

/// The main event of a line, if it has one: a line that is refused, or moves the clock, has none.
pub fn main_event(
    alloc: Global,
    list: &SuffixList,
    live: &Live,
    action: &Action,
) -> Result<Option<MainEvent>, NoMemory>
    ensures event { IfOk result (IsMain list.now.rules live.now.tabs (action_of action.now)) }
{
    if let Some(at) = action.label() {
        return of_act(alloc, list, live, at, action);
    }
    match action {
        Action::Tick { .. } => Ok(None),
        Action::Open {
            tab,
            url,
            opener,
            ..
        } => of_opening(alloc, list, live, *tab, url, *opener),
        Action::Close { tab } => of_closing(alloc, live, *tab),
        Action::Go {
            tab,
            url,
            by_page,
            ..
        } => of_going(alloc, list, live, *tab, url, *by_page),
        Action::Evict { site } => Ok(Some(MainEvent {
            site: site.copy(alloc)?,
            same_site: false,
            domain: None,
        })),
        _ => unreachable!(),
    }
}

fn of_opening(
    alloc: Global,
    list: &SuffixList,
    live: &Live,
    tab: u16,
    url: &Address,
    opener: Option<u16>,
) -> Result<Option<MainEvent>, NoMemory>
    ensures event { (noopener : Bool) (method : Method) (head : List plain.HeadField)
        → let line = plain.Open tab (plain_address url.now) opener noopener method head in
        IfOk result (IsMain list.now.rules live.now.tabs line) }
{
    if place(live, tab).is_some() {
        return Ok(None);
    }
    if !can_start(live, opener) {
        return Ok(None);
    }
    Ok(Some(arrival(alloc, list, live, url, opener)?))
}

fn of_going(
    alloc: Global,
    list: &SuffixList,
    live: &Live,
    tab: u16,
    url: &Address,
    by_page: bool,
) -> Result<Option<MainEvent>, NoMemory>
    ensures event { (method : Method) (head : List plain.HeadField)
        → let line = plain.Go tab (plain_address url.now) by_page method head in
        IfOk result (IsMain list.now.rules live.now.tabs line) }
{
    if place(live, tab).is_none() {
        return Ok(None);
    }
    Ok(Some(arrival(alloc, list, live, url, page_of(tab, by_page))?))
}

// The tab whose page starts a load, if a page does.
fn page_of(tab: u16, by_page: bool) -> Option<u16>
    ensures page { result ≡ page_of tab by_page }
{
    if by_page { Some(tab) } else { None }
}

// The load of a top document.
fn arrival(
    alloc: Global,
    list: &SuffixList,
    live: &Live,
    url: &Address,
    starter: Option<u16>,
) -> Result<MainEvent, NoMemory>
    ensures event { IfOk result
        (IsArrival list.now.rules live.now.tabs (plain_address url.now) starter) }
{
    let site = site_of_address(alloc, url, list)?;
    let same_site = is_started_at(live, starter, &site);
    let domain = Some(String::from_str(alloc, site.host.as_str())?);
    Ok(MainEvent {
        site,
        same_site,
        domain,
    })
}

// Whether the page that is to start a load is there, if there is to be one.
fn can_start(live: &Live, starter: Option<u16>) -> bool
    ensures there { result ≡ is_some (starter_in live.now.tabs starter) }
{
    match starter {
        Some(tab) => place(live, tab).is_some(),
        None => true,
    }
}

// Whether the user starts a load, or a page of this site.
fn is_started_at(live: &Live, starter: Option<u16>, target: &Site) -> bool
    ensures started { (who : Starter) → starter_in live.now.tabs starter ≡ Some who
        → result ≡ is_same_site who (plain_site target.now) }
{
    match starter {
        Some(tab) => match place(live, tab) {
            Some(site) => same_site(site, target),
            None => false,
        },
        None => true,
    }
}

fn of_closing(alloc: Global, live: &Live, tab: u16) -> Result<Option<MainEvent>, NoMemory>
    ensures event { (rules : List Rule)
        → IfOk result (IsMain rules live.now.tabs (plain.Close tab)) }
{
    let Some(site) = place(live, tab) else {
        return Ok(None);
    };
    Ok(Some(MainEvent {
        site: site.copy(alloc)?,
        same_site: false,
        domain: None,
    }))
}

fn of_act(
    alloc: Global,
    list: &SuffixList,
    live: &Live,
    at: Label,
    action: &Action,
) -> Result<Option<MainEvent>, NoMemory>
    requires named { label_of (action_of action.now) ≡ Some at }
    ensures event { IfOk result (IsMain list.now.rules live.now.tabs (action_of action.now)) }
{
    let Some(tab) = live.tab(at.tab) else {
        return Ok(None);
    };
    let domain = consulted(alloc, list, tab, action)?;
    Ok(Some(MainEvent {
        site: tab.top_site().copy(alloc)?,
        same_site: false,
        domain: owned(alloc, domain)?,
    }))
}

fn owned(alloc: Global, domain: Option<&str>) -> Result<Option<String>, NoMemory>
    ensures same { IfOk result
        (λ copy. option_map string_bytes copy ≡ option_map (λ d. d.now) domain.entry) }
{
    match domain {
        Some(domain) => Ok(Some(String::from_str(alloc, domain)?)),
        None => Ok(None),
    }
}
