//! The run of a script, over a new store in memory or over the store of a path.
ghost use Rattle.std.specs.Prelude.{◌≡◌, ◌≤◌, ◌<◌, ◌+◌, ◌^◌, IfErr, IfOk, None, OnErr, OnOk, Some};
ghost use Rattle.std.specs.Prelude.{length, option_map, true, false};
ghost use Rattle.agent_core.specs.AgentView.{longest_batch};
ghost use Rattle.command_line.specs.Words.{Replay};
ghost use Rattle.disk_model.specs.Schedule.{AreFrom};
ghost use Rattle.replay.specs.BeforeAfter.{from_to};
ghost use Rattle.replay.specs.Causes.{ReadCounts, ScriptCauseOf, WriteCounts};
ghost use Rattle.replay.specs.Endings.{IsOfScript, ScriptCanEnd};
ghost use Rattle.replay.specs.Commands.{HasRun, HostCounts, IsAfterList, LeavesStoreClosed, Obeys};
ghost use Rattle.replay.specs.Commands.{StoreCounts, status_of};
ghost use Rattle.replay.specs.Readings.{ScriptCounts, ScriptRefusal, StoreReadCause};
ghost use Rattle.replay.specs.Runs.{RanInMemory, ScriptRead, TakesNone, Written};
ghost use Rattle.replay.specs.Stores.{LeftAlone, RanLines, RanStored};
ghost use Rattle.script_lines.specs.Grammar.{script_of_bytes};
ghost use Rattle.script_lines.specs.Plain.{script_of};
ghost use Rattle.store_runs.specs.Steps.{steps_of};

use crate::Status;
use crate::lists::read_list;
use agent_base::{Sink, Source};
use agent_core::Options;
use hosts::{Host, StoreFault};
use script_actions::Line;
use script_lines::{Script, ScriptFault};
use std::alloc::Global;
use store_runs::{Ending, run_in_memory, run_on};
use suffix_list::SuffixList;

/// Runs the script under the list of this path: over the store of a path, or over a new one in
/// memory, whose power is cut as the script says.
pub fn replay<H: Host, I: Source, O: Sink>(
    alloc: Global,
    list: &str,
    store: Option<&str>,
    options: Options,
    host: &mut H,
    script: &mut I,
    out: &mut O,
) -> Status
    requires batch { (1 ≤ options.batch) × (options.batch ≤ longest_batch) }
    requires closed { H.store_out host.old ≡ None }
    ensures { let path = option_map (λ path. path.now) store.entry in
        let command = Replay list.now path options.batch options.checkpoint options.start in
        Obeys H.Host I.Source O.Sink (Some command) result
        (from_to host.old host.new) (from_to script.old script.new) (from_to out.old out.new) }
{
    match read_list(alloc, host, list) {
        Ok(list) => match store {
            Some(path) => run_stored(alloc, &list, path, options, host, script, out),
            None => run_in_new(alloc, &list, options, script, out),
        },
        Err(status) => status,
    }
}

// Runs the script over a new store in memory.
fn run_in_new<I: Source, O: Sink>(
    alloc: Global,
    list: &SuffixList,
    options: Options,
    script: &mut I,
    out: &mut O,
) -> Status
    requires batch { (1 ≤ options.batch) × (options.batch ≤ longest_batch) }
    ensures text { Written result (TakesNone (from_to (O.taken out.old) (O.taken out.new)))
        (λ ended. (read : ScriptRead true (from_to (I.left script.old) (I.left script.new)))
        × RanInMemory options.start options.batch options.checkpoint
        (from_to (O.taken out.old) (O.taken out.new)) ended list.now read.script) }
    ensures ends { ScriptCanEnd None result }
    ensures later { IsAfterList result }
    ensures script { ScriptCauseOf (script_of_bytes true) result (I.left script.old) }
    ensures read { ScriptCounts result (from_to (I.faults script.old) (I.faults script.new)) }
    ensures write { WriteCounts result (from_to (O.faults out.old) (O.faults out.new)) }
{
    match read_script(alloc, script, true) {
        Ok(script) => {
            let ending = run_in_memory(alloc, list, options, script.cuts, &script.lines, out);
            status(ending)
        }
        Err(status) => status,
    }
}

// Runs the script over the store of a path.
fn run_stored<H: Host, I: Source, O: Sink>(
    alloc: Global,
    list: &SuffixList,
    path: &str,
    options: Options,
    host: &mut H,
    script: &mut I,
    out: &mut O,
) -> Status
    requires batch { (1 ≤ options.batch) × (options.batch ≤ longest_batch) }
    requires closed { H.store_out host.old ≡ None }
    ensures text { Written result (LeftAlone (from_to (O.taken out.old) (O.taken out.new))
        (H.stores host.old path.now) (H.stores host.new path.now))
        (λ ended. (read : ScriptRead false (from_to (I.left script.old) (I.left script.new)))
        × RanStored options.start options.batch options.checkpoint
        (from_to (O.taken out.old) (O.taken out.new))
        (from_to (H.store_faults host.old) (H.store_faults host.new)) (H.tells_stores host.old)
        (H.stores host.old path.now) (H.stores host.new path.now) ended list.now read.script) }
    ensures ends { ScriptCanEnd (Some path.now) result }
    ensures later { IsAfterList result }
    ensures script { ScriptCauseOf (script_of_bytes false) result (I.left script.old) }
    ensures unread { StoreReadCause result (I.left script.old)
        (from_to (H.faults host.old) (H.faults host.new))
        (from_to (I.faults script.old) (I.faults script.new)) }
    ensures read { ReadCounts result (from_to (H.faults host.old) (H.faults host.new))
        (from_to (H.store_faults host.old) (H.store_faults host.new))
        (from_to (I.faults script.old) (I.faults script.new)) }
    ensures device { StoreCounts result
        (from_to (H.store_faults host.old) (H.store_faults host.new)) }
    ensures write { WriteCounts result (from_to (O.faults out.old) (O.faults out.new)) }
    ensures left { LeavesStoreClosed H.Host path.now (from_to host.old host.new) }
{
    match read_script(alloc, script, false) {
        Ok(script) => run_over(alloc, list, path, options, host, &script.lines, out),
        Err(status) => status,
    }
}

// Runs the lines over the store of a path, and closes it.
fn run_over<H: Host, O: Sink>(
    alloc: Global,
    list: &SuffixList,
    path: &str,
    options: Options,
    host: &mut H,
    lines: &[Line],
    out: &mut O,
) -> Status
    requires batch { (1 ≤ options.batch) × (options.batch ≤ longest_batch) }
    requires fits { length lines.now + 2 < 2 ^ 64 }
    requires closed { H.store_out host.old ≡ None }
    ensures text { Written result (LeftAlone (from_to (O.taken out.old) (O.taken out.new))
        (H.stores host.old path.now) (H.stores host.new path.now)) (λ ended.
        RanLines options.start options.batch options.checkpoint
        (from_to (O.taken out.old) (O.taken out.new))
        (from_to (H.store_faults host.old) (H.store_faults host.new)) (H.tells_stores host.old)
        (H.stores host.old path.now) (H.stores host.new path.now) ended
        list.now (steps_of lines.now)) }
    ensures ran { HasRun result }
    ensures counts { HostCounts result (from_to (H.faults host.old) (H.faults host.new))
        (from_to (H.store_faults host.old) (H.store_faults host.new)) }
    ensures device { StoreCounts result
        (from_to (H.store_faults host.old) (H.store_faults host.new)) }
    ensures write { WriteCounts result (from_to (O.faults out.old) (O.faults out.new)) }
    ensures left { LeavesStoreClosed H.Host path.now (from_to host.old host.new) }
{
    match host.open_store(path) {
        Ok(disk) => {
            let finished = run_on(alloc, disk, list, options, lines, out);
            host.close_store(path, finished.disk);
            status(finished.ending)
        }
        Err(StoreFault::InUse) => Status::InUse,
        Err(StoreFault::Failed) => Status::Read,
        Err(StoreFault::NoMemory) => Status::Memory,
    }
}

/// Reads the script of a source to its end. It has so few lines that all can be run.
pub fn read_script<I: Source>(
    alloc: Global,
    script: &mut I,
    cuts_allowed: bool,
) -> Result<Script, Status>
    ensures read { IfOk result (λ s.
        (read : ScriptRead cuts_allowed (from_to (I.left script.old) (I.left script.new)))
        × (read.script ≡ script_of s)) }
    ensures fits { IfOk result (λ s. length s.lines.items + 2 < 2 ^ 64) }
    ensures cuts { IfOk result (λ s. AreFrom 1 s.cuts.items) }
    ensures still { OnOk result (I.faults script.new ≡ I.faults script.old) }
    ensures refused { IfErr result (λ why.
        ScriptRefusal (script_of_bytes cuts_allowed) IsOfScript why (I.left script.old)
        (from_to (I.faults script.old) (I.faults script.new))) }
{
    match Script::read(alloc, script, cuts_allowed) {
        Ok(script) => Ok(script),
        Err(ScriptFault::ReadFault) => Err(Status::Read),
        Err(ScriptFault::NoMemory) => Err(Status::Memory),
        Err(why) => Err(Status::Script(why)),
    }
}

// The status of a run of lines that ended so.
fn status(ending: Ending) -> Status
    ensures { result ≡ status_of ending }
{
    match ending {
        Ending::Done => Status::Done,
        Ending::Store(why) => Status::Store(why),
        Ending::Device => Status::Device,
        Ending::Write => Status::Write,
        Ending::Memory => Status::Memory,
    }
}
