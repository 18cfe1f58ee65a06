//! What a line gives a site.
ghost use Rattle.std.specs.Prelude.{◌≡◌, ◌++◌, IfOk, OnOk, map};
ghost use Rattle.origin_site.specs.Plain.{plain_site};
ghost use Rattle.script_actions.specs.Plain.{action_of};
ghost use Rattle.local_scripts.specs.Items.{entry_of};
ghost use Rattle.local_scripts.specs.Events.{IsMain};
ghost use Rattle.local_scripts.specs.Present.{plain_present};
ghost use Rattle.local_scripts.specs.Seen.{IsGiven};
ghost use Rattle.local_scripts.specs.EntryParts.{IsMainEntry, SideEntry};
ghost use Rattle.local_scripts.specs.EntryParts.{consults, entries_in, is_asked, is_own};

use crate::event::event_of_line;
use crate::held::held_jar;
use crate::present::Present;
use crate::{Entry, MainEvent, SiteEvent, main_event, side_event};
use agent_base::NoMemory;
use origin_site::{Site, same_site};
use script_actions::Action;
use std::alloc::Global;

/// What a line would give a site.
#[derive(Debug, Drop)]
pub struct SeenLine {
    /// The entries that the line has for the site, in order.
    pub entries: Vec<Entry>,
    /// Whether the main event is of another site, and consults the unpartitioned cookies of the
    /// site's domain. Events of other sites leave these different in such a line alone.
    pub asks: bool,
    /// Whether the main event is of the site. The durable change of a line is of the same site.
    pub of_site: bool,
}

/// What a line would give a site from what an agent has at present, which stays as it is.
///
/// `touched` says whether events of other sites have left the cookies of the site's domain
/// different, and `areas` whether the site has session areas of the tab that the line closes.
pub fn seen(
    alloc: Global,
    present: &Present<'_>,
    action: &Action,
    site: &Site,
    touched: bool,
    areas: bool,
) -> Result<SeenLine, NoMemory>
    ensures given { IfOk result (IsGiven (plain_present present.entry.now) (action_of action.now)
        (plain_site site.now) touched areas) }
{
    let side = side_event(alloc, present.list, present.live, action, site, areas)?;
    let main = main_event(alloc, present.list, present.live, action)?;
    let entry = main_entry(alloc, present, action, site, touched, &main)?;
    Ok(SeenLine {
        entries: both(alloc, side_entry(present.now, side), entry)?,
        asks: is_asked(site, &main),
        of_site: is_own(site, &main),
    })
}

// Whether the main event is of the site.
fn is_own(site: &Site, main: &Option<MainEvent>) -> bool
    ensures own { result ≡ is_own (plain_site site.now) main.now }
{
    match main {
        Some(found) => same_site(site, &found.site),
        None => false,
    }
}

// Whether the main event is of another site, and consults the cookies of the site's domain.
fn is_asked(site: &Site, main: &Option<MainEvent>) -> bool
    ensures asks { result ≡ is_asked (plain_site site.now) main.now }
{
    match main {
        Some(found) => !same_site(site, &found.site) && consults(found, site.host.as_str()),
        None => false,
    }
}

fn consults(found: &MainEvent, domain: &str) -> bool
    ensures { result ≡ consults found.now domain.now }
{
    match &found.domain {
        Some(consulted) => domain == consulted.as_str(),
        None => false,
    }
}

// The entry of the event beside the main one, which holds no cookies.
fn side_entry(now: u64, event: Option<SiteEvent>) -> Option<Entry>
    ensures entry { SideEntry now event result }
{
    let event = event?;
    Some(Entry {
        moment: now,
        event,
        held: None,
    })
}

// The entry of the main event, where it is of the site.
fn main_entry(
    alloc: Global,
    present: &Present<'_>,
    action: &Action,
    site: &Site,
    touched: bool,
    main: &Option<MainEvent>,
) -> Result<Option<Entry>, NoMemory>
    requires main { IsMain present.now.list.now.rules present.now.live.now.tabs
        (action_of action.now) main.now }
    ensures entry { let here = plain_present present.entry.now in
        IfOk result (IsMainEntry here (action_of action.now) (plain_site site.now) touched) }
{
    let Some(found) = main else {
        return Ok(None);
    };
    if !same_site(site, &found.site) {
        return Ok(None);
    }
    let held = held_jar(alloc, present.cookies, site, touched, &found.domain)?;
    let event = event_of_line(alloc, action, found.same_site)?;
    Ok(Some(Entry {
        moment: present.now,
        event,
        held,
    }))
}

// Both entries, where they are there.
fn both(alloc: Global, first: Option<Entry>, second: Option<Entry>) -> Result<Vec<Entry>, NoMemory>
    ensures both { let all = entries_in first ++ entries_in second in
        IfOk result (λ entries. map entry_of entries.items ≡ all) }
{
    let mut entries = Vec::new(alloc);
    push_if(&mut entries, first)?;
    push_if(&mut entries, second)?;
    Ok(entries)
}

fn push_if(entries: &mut Vec<Entry>, entry: Option<Entry>) -> Result<(), NoMemory>
    ensures pushed { OnOk result (map entry_of entries.new.items
        ≡ map entry_of entries.old.items ++ entries_in entry) }
{
    let Some(entry) = entry else {
        return Ok(());
    };
    match entries.push(entry) {
        Ok(()) => Ok(()),
        Err(_) => Err(NoMemory),
    }
}
