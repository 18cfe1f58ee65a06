//! Lines, run one by one over an agent on a disk in memory that cannot fail, and what is collected
//! of each.
ghost use Rattle.std.specs.Prelude.{◌≤◌, ◌<◌, ◌+◌, ◌^◌, [], IfOk, OnOk, length};
ghost use Rattle.unwinding.specs.Admissible.{Acts, Reopens};
ghost use Rattle.origin_site.specs.Plain.{plain_site};
ghost use Rattle.origin_site.specs.Site.{PlainSite};
ghost use Rattle.script_actions.specs.Plain.{action_of, step_of};
ghost use Rattle.script_courses.specs.Collected.{nothing_collected};
ghost use Rattle.agent_core.specs.AgentView.{longest_batch};
ghost use Rattle.store_runs.specs.Steps.{steps_of};
ghost use Rattle.twins.specs.Collecting.{EndsAs, IsStill, Leads, StandsOnCourse};
ghost use Rattle.twins.specs.Scripts.{Gives};
ghost use Rattle.twins.specs.Settings.{setting};

use crate::before::{look, take_in};
use crate::collector::Collector;
use crate::counts::replies_of;
use crate::scripts::LocalScript;
use agent_base::NoMemory;
use agent_core::{Agent, Options, Outcome};
use disk_model::MemDisk;
use journal::OpenFault;
use origin_site::Site;
use script_actions::{Action, Line, Step};
use std::alloc::Global;
use suffix_list::SuffixList;

/// The local script that some lines give a site, run over a new store in memory. When a checkpoint
/// is due changes nothing of it.
pub fn local_script(
    alloc: Global,
    list: &SuffixList,
    site: &Site,
    lines: &[Line],
    options: Options,
) -> Result<LocalScript, NoMemory>
    requires batch { (1 ≤ options.batch) × (options.batch ≤ longest_batch) }
    requires fits { length lines.now + 2 < 2 ^ 64 }
    ensures given { let at = setting list.now (plain_site site.now) options in
        IfOk result (Gives at (steps_of lines.now)) }
{
    let mut agent = open(alloc, list, options)?;
    let mut found = Collector::new(alloc);
    for line in lines {
        step(alloc, &mut agent, site, &line.step, &mut found)?;
    }
    close(&mut agent, site, found)
}

/// An agent over a new store. No call of its disk can fail.
pub fn open<'l>(
    alloc: Global,
    list: &'l SuffixList,
    options: Options,
) -> Result<Agent<'l, MemDisk>, NoMemory>
    requires batch { (1 ≤ options.batch) × (options.batch ≤ longest_batch) }
    ensures opened { IfOk result (λ agent. (site : PlainSite)
        → StandsOnCourse (setting list.now site options) agent [] nothing_collected) }
{
    let disk = MemDisk::new(alloc, Vec::new(alloc), Vec::new(alloc), Vec::new(alloc));
    match Agent::open(alloc, disk, list, options) {
        Ok(agent) => Ok(agent),
        Err(refused) => match refused.why {
            OpenFault::NoMemory => Err(NoMemory),
            _ => unreachable!(),
        },
    }
}

/// Runs one line, and collects what it gives the site.
pub fn step(
    alloc: Global,
    agent: &mut Agent<'_, MemDisk>,
    site: &Site,
    step: &Step,
    found: &mut Collector,
) -> Result<(), NoMemory>
    requires still { IsStill agent.old }
    ensures leads { OnOk result (Leads (plain_site site.now) (step_of step.now)
        agent.old found.old agent.new found.new) }
{
    match step {
        Step::Act(action) => act(alloc, agent, site, action, found),
        Step::Restart => reopen(agent, found),
    }
}

// Runs a line that acts.
fn act(
    alloc: Global,
    agent: &mut Agent<'_, MemDisk>,
    site: &Site,
    action: &Action,
    found: &mut Collector,
) -> Result<(), NoMemory>
    requires still { IsStill agent.old }
    ensures leads { OnOk result (Leads (plain_site site.now) (Acts (action_of action.now))
        agent.old found.old agent.new found.new) }
{
    let before = look(alloc, agent, site, action, found.changed)?;
    match agent.line(action) {
        Outcome::Held => take_in(alloc, agent, site, before, found),
        Outcome::Replies(given) => {
            take_in(alloc, agent, site, before, found)?;
            found.commit(replies_of(site, &given));
            Ok(())
        }
        Outcome::NoMemory => Err(NoMemory),
        Outcome::Down => unreachable!(),
    }
}

// Opens the store again. The clock goes on.
fn reopen(agent: &mut Agent<'_, MemDisk>, found: &mut Collector) -> Result<(), NoMemory>
    requires still { IsStill agent.old }
    ensures leads { OnOk result ((site : PlainSite)
        → Leads site Reopens agent.old found.old agent.new found.new) }
{
    let moment = agent.now();
    match agent.restart() {
        Ok(_) => found.restart(moment),
        Err(OpenFault::NoMemory) => Err(NoMemory),
        Err(_) => unreachable!(),
    }
}

// The end: what waits is committed, and the last epoch is closed.
fn close(
    agent: &mut Agent<'_, MemDisk>,
    site: &Site,
    found: Collector,
) -> Result<LocalScript, NoMemory>
    requires still { IsStill agent.old }
    ensures ends { IfOk result (EndsAs (plain_site site.now) agent.old found) }
{
    let mut found = found;
    let moment = agent.now();
    match agent.flush() {
        Outcome::Replies(given) => {
            found.commit(replies_of(site, &given));
            Ok(LocalScript {
                end: found.closing(moment),
                entries: found.items,
            })
        }
        Outcome::NoMemory => Err(NoMemory),
        Outcome::Held | Outcome::Down => unreachable!(),
    }
}
