//! The comparison of two scripts.
ghost use Rattle.std.specs.Prelude.{◌≡◌, ◌≤◌, ◌<◌, ◌+◌, ◌^◌, IfErr, IfOk, None, OnErr, OnOk, Some, length};
ghost use Rattle.agent_base.specs.Counts.{HasCause};
ghost use Rattle.agent_base.specs.Streams.{Takes, TakesPrefix};
ghost use Rattle.agent_core.specs.AgentView.{longest_batch};
ghost use Rattle.command_line.specs.Words as words;
ghost use Rattle.origin_site.specs.Plain.{plain_site};
ghost use Rattle.script_lines.specs.Plain.{script_of};
ghost use Rattle.script_lines.specs.TwoScripts.{two_of_bytes};
ghost use Rattle.replay.specs.BeforeAfter.{from_to};
ghost use Rattle.replay.specs.Causes.{ScriptCauseOf, WriteCounts};
ghost use Rattle.replay.specs.Endings.{IsOfTwoScripts};
ghost use Rattle.replay.specs.Commands.{HasCompared, IsAnswer, Obeys};
ghost use Rattle.replay.specs.Readings.{ScriptCounts, ScriptRefusal, refusal_status};
ghost use Rattle.replay.specs.Runs.{WritesLine};
ghost use Rattle.replay.specs.Twins.{ScriptsRead, twin_line};
ghost use Rattle.twins.specs.Plain.{plain_twin};

use crate::Status;
use crate::lists::read_list;
use crate::told::write_numbered;
use agent_base::{Failed, NoMemory, Sink, Source};
use agent_core::Options;
use hosts::Host;
use origin_site::{Site, SiteFault};
use script_lines::{Script, ScriptFault};
use std::alloc::Global;
use suffix_list::SuffixList;
use twins::{Twin, twin};

/// Writes whether two scripts give the site of this text the same local script, each run under the
/// list of this path and over a new store in memory. No store of the host is opened.
pub fn write_twin<H: Host, I: Source, O: Sink>(
    alloc: Global,
    site: &str,
    list: &str,
    options: Options,
    host: &mut H,
    script: &mut I,
    out: &mut O,
) -> Status
    requires batch { (1 ≤ options.batch) × (options.batch ≤ longest_batch) }
    requires closed { H.store_out host.old ≡ None }
    ensures { let start = options.start in
        let command = words.Twin site.now list.now options.batch options.checkpoint start in
        Obeys H.Host I.Source O.Sink (Some command) result
        (from_to host.old host.new) (from_to script.old script.new) (from_to out.old out.new) }
{
    match Site::read(alloc, site) {
        Ok(site) => match read_list(alloc, host, list) {
            Ok(list) => compare(alloc, &site, &list, options, script, out),
            Err(status) => status,
        },
        Err(SiteFault::NotSite) => Status::Usage,
        Err(SiteFault::NoMemory) => Status::Memory,
    }
}

// Reads the two scripts, and writes the answer to them.
fn compare<I: Source, O: Sink>(
    alloc: Global,
    site: &Site,
    list: &SuffixList,
    options: Options,
    script: &mut I,
    out: &mut O,
) -> Status
    requires batch { (1 ≤ options.batch) × (options.batch ≤ longest_batch) }
    ensures text { WritesLine result (from_to (O.taken out.old) (O.taken out.new))
        (IsAnswer list.now (plain_site site.now) options.start options.batch
        (from_to (I.left script.old) (I.left script.new))) }
    ensures compared { HasCompared result }
    ensures script { ScriptCauseOf two_of_bytes result (I.left script.old) }
    ensures read { ScriptCounts result (from_to (I.faults script.old) (I.faults script.new)) }
    ensures write { WriteCounts result (from_to (O.faults out.old) (O.faults out.new)) }
{
    match read_scripts(alloc, script) {
        Ok((first, second)) => {
            match twin(alloc, list, site, &first.lines, &second.lines, options) {
                Ok(answer) => match write_answer(answer, out) {
                    Ok(()) => Status::Done,
                    Err(_) => Status::Write,
                },
                Err(NoMemory) => Status::Memory,
            }
        }
        Err(status) => status,
    }
}

/// Reads the two scripts of a source to its end. Each has so few lines that all can be run.
pub fn read_scripts<I: Source>(alloc: Global, script: &mut I) -> Result<(Script, Script), Status>
    ensures read { IfOk result (λ s.
        (read : ScriptsRead (from_to (I.left script.old) (I.left script.new)))
        × (read.first ≡ script_of s.0) × (read.second ≡ script_of s.1)) }
    ensures first { IfOk result (λ s. length s.0.lines.items + 2 < 2 ^ 64) }
    ensures second { IfOk result (λ s. length s.1.lines.items + 2 < 2 ^ 64) }
    ensures still { OnOk result (I.faults script.new ≡ I.faults script.old) }
    ensures refused { IfErr result (λ why. ScriptRefusal two_of_bytes IsOfTwoScripts why
        (I.left script.old) (from_to (I.faults script.old) (I.faults script.new))) }
{
    match Script::read_two(alloc, script) {
        Ok(scripts) => Ok(scripts),
        Err(why) => Err(refusal(why)),
    }
}

// The status of scripts that were not read, or are refused.
fn refusal(why: ScriptFault) -> Status
    ensures { result ≡ refusal_status why }
{
    match why {
        ScriptFault::ReadFault => Status::Read,
        ScriptFault::NoMemory => Status::Memory,
        why => Status::Script(why),
    }
}

/// Writes the line of an answer. Takes no memory.
pub fn write_answer<O: Sink>(answer: Twin, out: &mut O) -> Result<(), Failed>
    ensures all { OnOk result
        (Takes (O.taken out.old) (O.taken out.new) (twin_line (plain_twin answer))) }
    ensures prefix { OnErr result
        (TakesPrefix (O.taken out.old) (O.taken out.new) (twin_line (plain_twin answer))) }
    ensures cause { HasCause (O.faults out.old) (O.faults out.new) result }
{
    match answer {
        Twin::Equal { lines } => {
            write_numbered(out, "{\"equal\":", lines, ",\"twin\":\"equal\"}\n")
        }
        Twin::LocalDiffer { entry } => {
            write_numbered(out, "{\"differ\":", entry, ",\"twin\":\"local\"}\n")
        }
    }
}
