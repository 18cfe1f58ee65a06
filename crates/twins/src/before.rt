//! What is told of a line before it runs, and what is collected of it afterwards.
ghost use Rattle.std.specs.Prelude.{◌≡◌, not, ◌&&◌, ◌||◌, Bool, IfOk, OnOk, true};
ghost use Rattle.disk_model.specs.MemDisk.{view_of};
ghost use Rattle.origin_site.specs.Plain.{plain_site};
ghost use Rattle.script_actions.specs.Action.{PlainAction};
ghost use Rattle.script_actions.specs.Plain.{action_of};
ghost use Rattle.agent_model.specs.Lines.{AgentWorld};
ghost use Rattle.local_scripts.specs.Laws.{are_same};
ghost use Rattle.agent_core.specs.Seen.{AgentSeen, IsSeen};
ghost use Rattle.twins.specs.Collecting.{HasRun, IsBefore, IsCopied, TakesLine};

use crate::collector::Collector;
use crate::present::{domain_cookies, seen_line};
use agent_base::NoMemory;
use agent_core::Agent;
use cookie_jar::Jar;
use disk_model::MemDisk;
use local_scripts::{SeenLine, same_cookies};
use origin_site::Site;
use script_actions::Action;
use std::alloc::Global;

/// What is told of a line before it runs.
#[derive(Debug, Drop)]
pub struct Before {
    /// What it gives the site.
    pub line: SeenLine,
    /// The cookies of the site's domain, where the line asks for them.
    pub cookies: Option<Jar>,
    /// How many durable changes were made since the last opening.
    pub changes: u64,
}

/// What is told of a line that did not run yet. `changed` says whether events of other sites have
/// left the cookies of the site's domain different.
pub fn look(
    alloc: Global,
    agent: &Agent<'_, MemDisk>,
    site: &Site,
    action: &Action,
    changed: bool,
) -> Result<Before, NoMemory>
    ensures before { let v = agent.entry.now in (a : AgentSeen)
        → IsSeen v (view_of v.disk) a → a.up ≡ true
        → IfOk result (IsBefore v.memory.rules (plain_site site.now) changed a
        (action_of action.now)) }
{
    let memory = agent.memory()?;
    let line = seen_line(alloc, memory, action, site, changed)?;
    let cookies = kept_cookies(alloc, agent, site, line.asks)?;
    Ok(Before {
        line,
        cookies,
        changes: agent.changes(),
    })
}

// The cookies of the site's domain, where a line asks for them.
fn kept_cookies(
    alloc: Global,
    agent: &Agent<'_, MemDisk>,
    site: &Site,
    asks: bool,
) -> Result<Option<Jar>, NoMemory>
    ensures kept { let v = agent.entry.now in (a : AgentSeen)
        → IsSeen v (view_of v.disk) a → a.up ≡ true
        → IfOk result (IsCopied (plain_site site.now) a.world asks) }
{
    if !asks {
        return Ok(None);
    }
    let memory = agent.memory()?;
    Ok(Some(domain_cookies(alloc, memory, site.host.as_str())?))
}

/// What is collected of a line that just ran.
pub fn take_in(
    alloc: Global,
    agent: &Agent<'_, MemDisk>,
    site: &Site,
    before: Before,
    found: &mut Collector,
) -> Result<(), NoMemory>
    ensures taken { let v = agent.entry.now in (a b : AgentSeen) (line : PlainAction)
        → IsBefore v.memory.rules (plain_site site.now) found.old.changed a line before
        → IsSeen v (view_of v.disk) b → b.up ≡ true → HasRun v.memory.rules a line b
        → OnOk result (TakesLine v.memory.rules (plain_site site.now) a.world line
        found.old found.new) }
{
    let changed = is_changed(alloc, agent, site, found.changed, &before.cookies)?;
    let made = if before.line.of_site {
        agent.changes().saturating_sub(before.changes)
    } else {
        0
    };
    found.take_in(before.line.entries, changed, made)
}

// Whether events of other sites have left the cookies of the site's domain different: they had
// before, or the line asked for these cookies, and they are not what they were.
fn is_changed(
    alloc: Global,
    agent: &Agent<'_, MemDisk>,
    site: &Site,
    changed: bool,
    kept: &Option<Jar>,
) -> Result<bool, NoMemory>
    ensures changed { let v = agent.entry.now in (b : AgentSeen) (world : AgentWorld) (asks : Bool)
        → IsSeen v (view_of v.disk) b → b.up ≡ true
        → IsCopied (plain_site site.now) world asks kept.now
        → let different = asks && not (are_same (plain_site site.now) world b.world) in
        IfOk result (λ now. now ≡ (changed || different)) }
{
    let Some(before) = kept else {
        return Ok(changed);
    };
    let memory = agent.memory()?;
    let after = domain_cookies(alloc, memory, site.host.as_str())?;
    Ok(changed || !same_cookies(before, &after))
}
