//! Two scripts, run and compared.
ghost use Rattle.std.specs.Prelude.{◌≤◌, ◌<◌, ◌+◌, ◌^◌, IfOk, length};
ghost use Rattle.origin_site.specs.Plain.{plain_site};
ghost use Rattle.script_courses.specs.Twins.{IsTwin};
ghost use Rattle.agent_core.specs.AgentView.{longest_batch};
ghost use Rattle.store_runs.specs.Steps.{steps_of};
ghost use Rattle.twins.specs.Plain.{plain_twin};
ghost use Rattle.twins.specs.Settings.{setting};

use crate::Twin;
use crate::answer::compare;
use crate::lines::local_script;
use agent_base::NoMemory;
use agent_core::Options;
use origin_site::Site;
use script_actions::Line;
use std::alloc::Global;
use suffix_list::SuffixList;

/// Whether two scripts give a site the same local script, each run over a new store in memory. No
/// checkpoint is made, whatever the options say: it would change nothing that a site is given.
pub fn twin(
    alloc: Global,
    list: &SuffixList,
    site: &Site,
    first: &[Line],
    second: &[Line],
    options: Options,
) -> Result<Twin, NoMemory>
    requires batch { (1 ≤ options.batch) × (options.batch ≤ longest_batch) }
    requires first { length first.now + 2 < 2 ^ 64 }
    requires second { length second.now + 2 < 2 ^ 64 }
    ensures answer { let at = setting list.now (plain_site site.now) options in
        IfOk result (λ t. IsTwin at (steps_of first.now) (steps_of second.now) (plain_twin t)) }
{
    let options = &Options {
        checkpoint: 0,
        ..options
    };
    let one = local_script(alloc, list, site, first, *options)?;
    let other = local_script(alloc, list, site, second, *options)?;
    Ok(compare(&one, &other))
}
