//! What is shown of one script, and of two.
ghost use Rattle.std.specs.Prelude.{◌≤◌, ◌<◌, ◌+◌, ◌^◌, IfOk, length, map};
ghost use Rattle.agent_core.specs.AgentView.{longest_batch};
ghost use Rattle.origin_site.specs.Plain.{plain_site};
ghost use Rattle.script_actions.specs.Plain.{line_of};
ghost use Rattle.store_runs.specs.Steps.{steps_of};
ghost use Rattle.twins.specs.Plain.{plain_twin};
ghost use Rattle.twins.specs.Settings.{setting};
ghost use Rattle.shown_scripts.specs.Differ.{IsDifference, TakesDifference};
ghost use Rattle.shown_scripts.specs.Shown.{IsShown, ShowCounts, TakesShown};

use crate::ShowFault;
use crate::lines::text_of;
use crate::places::places_text;
use agent_base::{NoMemory, Sink, write_all};
use agent_core::Options;
use origin_site::Site;
use script_actions::Line;
use std::alloc::Global;
use suffix_list::SuffixList;
use twins::{Twin, compare, line_of_entry, local_script};

/// Writes the local script that a script gives a site, run over a new store in memory: a line for
/// each entry and restart, and a line for the end.
///
/// All lines are made before the first is written. By
/// [`shown_texts_differ_as_local_scripts_do`](crate::shown_texts_differ_as_local_scripts_do) what
/// is written of two scripts is equal exactly where they give the site the same local script.
pub fn show<O: Sink>(
    alloc: Global,
    list: &SuffixList,
    site: &Site,
    lines: &[Line],
    options: Options,
    out: &mut O,
) -> Result<(), ShowFault>
    requires batch { (1 ≤ options.batch) × (options.batch ≤ longest_batch) }
    requires fits { length lines.now + 2 < 2 ^ 64 }
    ensures text { TakesShown result (O.taken out.old) (O.taken out.new)
        (IsShown (setting list.now (plain_site site.now) options) (steps_of lines.now)) }
    ensures count { ShowCounts result (O.faults out.old) (O.faults out.new) }
{
    let text = shown(alloc, list, site, lines, options)?;
    Ok(write_all(out, &text)?)
}

// The text of the local script that a script gives a site.
fn shown(
    alloc: Global,
    list: &SuffixList,
    site: &Site,
    lines: &[Line],
    options: Options,
) -> Result<Vec<u8>, NoMemory>
    requires batch { (1 ≤ options.batch) × (options.batch ≤ longest_batch) }
    requires fits { length lines.now + 2 < 2 ^ 64 }
    ensures text { let at = setting list.now (plain_site site.now) options in
        IfOk result (λ text. IsShown at (steps_of lines.now) text.items) }
{
    let script = local_script(alloc, list, site, lines, options)?;
    text_of(alloc, &script)
}

/// Whether two scripts give a site the same local script, each run over a new store in memory.
/// Where they do not, writes at which entry they differ, with the numbers of the scripts' lines
/// that gave it, and the line of each local script there.
///
/// All lines are made before the first is written. Where they give the same, nothing is written.
pub fn differ<O: Sink>(
    alloc: Global,
    list: &SuffixList,
    site: &Site,
    first: &[Line],
    second: &[Line],
    options: Options,
    out: &mut O,
) -> Result<Twin, ShowFault>
    requires batch { (1 ≤ options.batch) × (options.batch ≤ longest_batch) }
    requires first { length first.now + 2 < 2 ^ 64 }
    requires second { length second.now + 2 < 2 ^ 64 }
    ensures text { let at = setting list.now (plain_site site.now) options in
        TakesDifference at (map line_of first.now) (map line_of second.now)
        result (O.taken out.old) (O.taken out.new) }
    ensures count { ShowCounts result (O.faults out.old) (O.faults out.new) }
{
    let found = compare_scripts(alloc, list, site, first, second, &options)?;
    write_all(out, &found.text)?;
    Ok(found.answer)
}

// An answer to two scripts, and the text that is shown with it.
#[derive(Drop)]
struct Difference {
    answer: Twin,
    text: Vec<u8>,
}

// The answer to two scripts, and the text that is shown with it.
fn compare_scripts(
    alloc: Global,
    list: &SuffixList,
    site: &Site,
    first: &[Line],
    second: &[Line],
    options: &Options,
) -> Result<Difference, NoMemory>
    requires batch { (1 ≤ options.now.batch) × (options.now.batch ≤ longest_batch) }
    requires first { length first.now + 2 < 2 ^ 64 }
    requires second { length second.now + 2 < 2 ^ 64 }
    ensures difference { let at = setting list.now (plain_site site.now) options.now in
        IfOk result (λ d. IsDifference at (map line_of first.now) (map line_of second.now)
        (plain_twin d.answer) d.text.items) }
{
    let one = local_script(alloc, list, site, first, *options)?;
    let other = local_script(alloc, list, site, second, *options)?;
    match compare(&one, &other) {
        Twin::Equal { lines } => Ok(Difference {
            answer: Twin::Equal { lines },
            text: Vec::new(alloc),
        }),
        Twin::LocalDiffer { entry } => {
            let line = line_of_entry(alloc, list, site, first, *options, entry)?;
            let other_line = line_of_entry(alloc, list, site, second, *options, entry)?;
            let text = places_text(alloc, entry, &one, line, &other, other_line)?;
            Ok(Difference {
                answer: Twin::LocalDiffer { entry },
                text,
            })
        }
    }
}
