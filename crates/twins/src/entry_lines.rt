//! Which line of a script gave a site an entry of its local script.
ghost use Rattle.std.specs.Prelude.{◌≤◌, ◌<◌, ◌+◌, ◌^◌, IfOk, length, map};
ghost use Rattle.origin_site.specs.Plain.{plain_site};
ghost use Rattle.script_actions.specs.Plain.{line_of};
ghost use Rattle.agent_core.specs.AgentView.{longest_batch};
ghost use Rattle.twins.specs.EntryLines.{IsNumberAt};
ghost use Rattle.twins.specs.Settings.{setting};

use crate::collector::Collector;
use crate::lines::{open, step};
use agent_base::NoMemory;
use agent_core::Options;
use origin_site::Site;
use script_actions::Line;
use std::alloc::Global;
use suffix_list::SuffixList;

/// The number of the line that gave the site the entry at this place, from 0, and none where the
/// entries of its local script are over. The lines up to it are run over a new store in memory.
pub fn line_of_entry(
    alloc: Global,
    list: &SuffixList,
    site: &Site,
    lines: &[Line],
    options: Options,
    entry: u64,
) -> Result<Option<u32>, NoMemory>
    requires batch { (1 ≤ options.batch) × (options.batch ≤ longest_batch) }
    requires fits { length lines.now + 2 < 2 ^ 64 }
    ensures number { let at = setting list.now (plain_site site.now) options in
        IfOk result (IsNumberAt at (map line_of lines.now) entry) }
{
    let mut agent = open(alloc, list, options)?;
    let mut found = Collector::new(alloc);
    for line in lines {
        step(alloc, &mut agent, site, &line.step, &mut found)?;
        let count = found.items.len() as u64;
        if count > entry {
            return Ok(Some(line.number));
        }
    }
    Ok(None)
}
