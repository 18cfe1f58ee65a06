//! What is shown of a site, by the scripts of a source.
ghost use Rattle.std.specs.Prelude.{◌≡◌, ◌≤◌, Some};
ghost use Rattle.agent_core.specs.AgentView.{longest_batch};
ghost use Rattle.command_line.specs.Shows.{Shows};
ghost use Rattle.command_line.specs.declared.shows.Shown.TheVariants.{Difference, Script as One};
ghost use Rattle.origin_site.specs.Plain.{plain_site};
ghost use Rattle.replay.specs.BeforeAfter.{from_to};
ghost use Rattle.replay.specs.Causes.{WriteCounts};
ghost use Rattle.replay.specs.Readings.{HasScripts, ScriptCounts};
ghost use Rattle.replay.specs.Runs.{WritesLine};
ghost use Rattle.show_commands.specs.Causes.{CauseOf, IsOf};
ghost use Rattle.show_commands.specs.Serving.{RestCounts, Serves, WritesRest, refusal_status};
ghost use Rattle.show_commands.specs.Serving.{status_of};
ghost use Rattle.show_commands.specs.Shows.{IsTextOfScripts};

use agent_base::{Sink, Source};
use agent_core::Options;
use command_line::Shown;
use hosts::Host;
use origin_site::{Site, SiteFault};
use replay::{Status, read_list, read_script, read_scripts, write_answer};
use shown_scripts::{ShowFault, differ, show};
use std::alloc::Global;
use suffix_list::SuffixList;
use twins::Twin;

/// Writes what scripts give the site of this text under the list of this path, each run over a new
/// store in memory. No store of the host is opened.
pub fn show_site<H: Host, I: Source, O: Sink>(
    alloc: Global,
    what: Shown,
    site: &str,
    list: &str,
    options: Options,
    host: &mut H,
    script: &mut I,
    out: &mut O,
) -> Status
    requires batch { (1 ≤ options.batch) × (options.batch ≤ longest_batch) }
    ensures { let start = options.start in
        let command = Shows what site.now list.now options.batch options.checkpoint start in
        Serves H.Host I.Source O.Sink (Some command) result
        (from_to host.old host.new) (from_to script.old script.new) (from_to out.old out.new) }
{
    match Site::read(alloc, site) {
        Ok(site) => match read_list(alloc, host, list) {
            Ok(list) => write_shown(alloc, what, &site, &list, options, script, out),
            Err(status) => status,
        },
        Err(SiteFault::NotSite) => Status::Usage,
        Err(SiteFault::NoMemory) => Status::Memory,
    }
}

// Reads the script or the two, and writes what is shown of the site.
fn write_shown<I: Source, O: Sink>(
    alloc: Global,
    what: Shown,
    site: &Site,
    list: &SuffixList,
    options: Options,
    script: &mut I,
    out: &mut O,
) -> Status
    requires batch { (1 ≤ options.batch) × (options.batch ≤ longest_batch) }
    ensures text { WritesLine result (from_to (O.taken out.old) (O.taken out.new))
        (IsTextOfScripts what list.now (plain_site site.now) options.start options.batch
        (from_to (I.left script.old) (I.left script.new))) }
    ensures scripts { HasScripts (IsOf what) result }
    ensures script { CauseOf what result (I.left script.old) }
    ensures read { ScriptCounts result (from_to (I.faults script.old) (I.faults script.new)) }
    ensures write { WriteCounts result (from_to (O.faults out.old) (O.faults out.new)) }
{
    match what {
        Shown::Script => write_script(alloc, site, list, options, script, out),
        Shown::Difference => write_difference(alloc, site, list, options, script, out),
    }
}

// Reads one script, and writes the local script that it gives the site.
fn write_script<I: Source, O: Sink>(
    alloc: Global,
    site: &Site,
    list: &SuffixList,
    options: Options,
    script: &mut I,
    out: &mut O,
) -> Status
    requires batch { (1 ≤ options.batch) × (options.batch ≤ longest_batch) }
    ensures text { WritesLine result (from_to (O.taken out.old) (O.taken out.new))
        (IsTextOfScripts One list.now (plain_site site.now) options.start options.batch
        (from_to (I.left script.old) (I.left script.new))) }
    ensures scripts { HasScripts (IsOf One) result }
    ensures script { CauseOf One result (I.left script.old) }
    ensures read { ScriptCounts result (from_to (I.faults script.old) (I.faults script.new)) }
    ensures write { WriteCounts result (from_to (O.faults out.old) (O.faults out.new)) }
{
    match read_script(alloc, script, false) {
        Ok(script) => status(show(alloc, list, site, &script.lines, options, out)),
        Err(status) => status,
    }
}

// Reads two scripts, and writes where the local scripts differ that they give the site.
fn write_difference<I: Source, O: Sink>(
    alloc: Global,
    site: &Site,
    list: &SuffixList,
    options: Options,
    script: &mut I,
    out: &mut O,
) -> Status
    requires batch { (1 ≤ options.batch) × (options.batch ≤ longest_batch) }
    ensures text { WritesLine result (from_to (O.taken out.old) (O.taken out.new))
        (IsTextOfScripts Difference list.now (plain_site site.now) options.start options.batch
        (from_to (I.left script.old) (I.left script.new))) }
    ensures scripts { HasScripts (IsOf Difference) result }
    ensures script { CauseOf Difference result (I.left script.old) }
    ensures read { ScriptCounts result (from_to (I.faults script.old) (I.faults script.new)) }
    ensures write { WriteCounts result (from_to (O.faults out.old) (O.faults out.new)) }
{
    match read_scripts(alloc, script) {
        Ok((first, second)) => {
            let shown = differ(alloc, list, site, &first.lines, &second.lines, options, out);
            write_equal(shown, out)
        }
        Err(status) => status,
    }
}

// Writes the line of an answer to two scripts that give a site the same, behind what was shown. Of
// two that differ, all was.
fn write_equal<O: Sink>(shown: Result<Twin, ShowFault>, out: &mut O) -> Status
    ensures text { WritesRest shown result (from_to (O.taken out.old) (O.taken out.new)) }
    ensures write { RestCounts shown result (from_to (O.faults out.old) (O.faults out.new)) }
{
    match shown {
        Ok(Twin::Equal { lines }) => match write_answer(Twin::Equal { lines }, out) {
            Ok(()) => Status::Done,
            Err(_) => Status::Write,
        },
        Ok(Twin::LocalDiffer { .. }) => Status::Done,
        Err(why) => refusal(why),
    }
}

// The status of what was shown.
fn status(shown: Result<(), ShowFault>) -> Status
    ensures { result ≡ status_of shown }
{
    match shown {
        Ok(()) => Status::Done,
        Err(why) => refusal(why),
    }
}

// The status of what was not shown, or not all of it.
fn refusal(why: ShowFault) -> Status
    ensures { result ≡ refusal_status why }
{
    match why {
        ShowFault::Write => Status::Write,
        ShowFault::NoMemory => Status::Memory,
    }
}
