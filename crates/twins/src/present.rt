//! What is read off what an agent has in memory: what a line would give a site, and the cookies of
//! a domain.
ghost use Rattle.std.specs.Prelude.{◌≡◌, IfOk};
ghost use Rattle.unwinding.specs.FiniteCells.{get_cell};
ghost use Rattle.origin_site.specs.Plain.{plain_site};
ghost use Rattle.script_actions.specs.Plain.{action_of};
ghost use Rattle.agent_model.specs.CookieCells.{domain_order};
ghost use Rattle.agent_memory.specs.AgentState.{world_of};
ghost use Rattle.local_scripts.specs.Events.{HasAreas};
ghost use Rattle.local_scripts.specs.Seen.{IsGivenAt};

use agent_base::NoMemory;
use agent_memory::Memory;
use cookie_jar::Jar;
use local_scripts::{Present, SeenLine};
use origin_site::Site;
use script_actions::Action;
use std::alloc::Global;

/// What a line would give a site. `touched` says whether events of other sites have left the
/// cookies of the site's domain different.
pub fn seen_line(
    alloc: Global,
    memory: &Memory<'_>,
    action: &Action,
    site: &Site,
    touched: bool,
) -> Result<SeenLine, NoMemory>
    ensures given { let here = world_of memory.entry.now in
        let line = action_of action.now in
        IfOk result (IsGivenAt memory.entry.now.rules (plain_site site.now) touched here line) }
{
    let present = Present {
        list: memory.list(),
        now: memory.now(),
        live: memory.live(),
        cookies: memory.cookies(),
    };
    let areas = has_areas(memory, action, site);
    local_scripts::seen(alloc, &present, action, site, touched, areas)
}

// Whether a site has session areas of the tab that a line closes.
fn has_areas(memory: &Memory<'_>, action: &Action, site: &Site) -> bool
    ensures areas { let here = world_of memory.entry.now in
        HasAreas (action_of action.now) (plain_site site.now) here result }
{
    match action {
        Action::Close { tab } => memory.storage().has_session(*tab, site),
        _ => false,
    }
}

/// A copy of the unpartitioned cookies of a domain, which may be none.
pub fn domain_cookies(alloc: Global, memory: &Memory<'_>, domain: &str) -> Result<Jar, NoMemory>
    ensures cookies { let cells = (world_of memory.entry.now).cells in
        let all = get_cell domain_order cells domain.now in
        IfOk result (λ jar. jar.cookies ≡ all) }
{
    local_scripts::domain_cookies(alloc, memory.cookies(), domain)
}
