//! Runs over the store on a disk, and over a new one on a disk in memory.
ghost use Rattle.std.specs.Prelude.{◌≡◌, ◌≤◌, ◌<◌, ◌+◌, ◌⊎◌, ◌^◌, ℕ, List, [], Some, length};
ghost use Rattle.std.specs.Prelude.{true};
ghost use Rattle.agent_base.specs.Counts.{Rose};
ghost use Rattle.agent_base.specs.Streams.{Takes};
ghost use Rattle.agent_core.specs.AgentView.{longest_batch};
ghost use Rattle.disk_model.specs.Schedule.{AreFrom};
ghost use Rattle.durable_model.specs.Saved.{nothing_saved};
ghost use Rattle.journal.specs.Opening.{IsOfFile, IsOver, IsRefusal};
ghost use Rattle.journal.specs.declared.open_fault.OpenFault.{OpenFault};
ghost use Rattle.row_store.specs.Bodies.{Refuses};
ghost use Rattle.row_store.specs.Bodies as bodies;
ghost use Rattle.store_runs.specs.Disks.{WritesInMemory, WritesOn};
ghost use Rattle.store_runs.specs.Endings.{IsLimitEnding, IsStoreEnding, WriteCounts};
ghost use Rattle.store_runs.specs.Fronts.{WritesFromOpening};
ghost use Rattle.store_runs.specs.Steps.{steps_of};
ghost use Rattle.store_runs.specs.Tidy.{LeavesTidy};

use crate::ending::refused;
use crate::{Ending, run_lines};
use agent_base::Sink;
use agent_core::{Agent, Options};
use disk_model::{Cut, Disk, MemDisk};
use script_actions::Line;
use std::alloc::Global;
use suffix_list::SuffixList;

/// A run over a disk: how it ended, and the disk.
#[derive(Debug, Drop)]
pub struct Finished<D: Disk + Drop> {
    pub ending: Ending,
    pub disk: D,
}

/// Opens the store on a disk, or a new one where the file is no store yet, runs the lines over it,
/// writes the replies to `out`, and hands the disk back.
///
/// A store under another suffix list is opened too: the lines run over what stays of it under this
/// one.
pub fn run_on<D: Disk + Drop, O: Sink>(
    alloc: Global,
    disk: D,
    list: &SuffixList,
    options: Options,
    lines: &[Line],
    out: &mut O,
) -> Finished<D>
    requires batch { (1 ≤ options.batch) × (options.batch ≤ longest_batch) }
    requires fits { length lines.now + 2 < 2 ^ 64 }
    ensures written { (D.view disk).tells ≡ true
        → WritesOn result.ending list.now options.start options.batch options.checkpoint
        (D.view disk) (steps_of lines.now) (O.taken out.old) (O.taken out.new)
        (D.view result.disk) }
    // Over any disk, up to the first line that opens the store again.
    ensures first { WritesFromOpening result.ending list.now options.start options.batch
        options.checkpoint (D.view disk) (steps_of lines.now) (O.taken out.old) (O.taken out.new)
        (D.view result.disk) }
    // A file that is no store is refused, whatever the lines are.
    ensures refused { (why : OpenFault) (c : List ℕ) → (D.view disk).contents ≡ Some c
        → IsOfFile why
        → IsRefusal bodies.Takes Refuses nothing_saved true c why
        → Takes (O.taken out.old) (O.taken out.new) []
        × ((result.ending ≡ Ending.Store why)
        ⊎ ((result.ending ≡ Ending.Device) ⊎ (result.ending ≡ Ending.Memory))) }
    // One over the limit of size is told with its length, and never as want of memory.
    ensures limit { (c : List ℕ) → (D.view disk).contents ≡ Some c → IsOver true c
        → IsLimitEnding c result.ending }
    // At `Done` no checkpoint is due for the store that is left.
    ensures tidy { (D.view disk).tells ≡ true → result.ending ≡ Ending.Done
        → LeavesTidy options.checkpoint list.now.digest (D.view result.disk).may_leave }
    ensures store { IsStoreEnding result.ending }
    // A call of the disk failed.
    ensures device { result.ending ≡ Ending.Device
        → Rose (D.view disk).faults (D.view result.disk).faults }
    ensures tells { (D.view result.disk).tells ≡ (D.view disk).tells }
    ensures write { WriteCounts result.ending (O.faults out.old) (O.faults out.new) }
{
    match Agent::open(alloc, disk, list, options) {
        Ok(mut agent) => {
            let ending = run_lines(alloc, &mut agent, lines, out);
            Finished {
                ending,
                disk: agent.into_disk(),
            }
        }
        Err(refusal) => Finished {
            ending: refused(refusal.why),
            disk: refusal.disk,
        },
    }
}

/// Runs the lines over a new store on a disk in memory, whose power is cut in these calls, and
/// writes the replies to `out`.
pub fn run_in_memory<O: Sink>(
    alloc: Global,
    list: &SuffixList,
    options: Options,
    cuts: Vec<Cut>,
    lines: &[Line],
    out: &mut O,
) -> Ending
    requires batch { (1 ≤ options.batch) × (options.batch ≤ longest_batch) }
    requires cuts { AreFrom 1 cuts.items }
    requires fits { length lines.now + 2 < 2 ^ 64 }
    ensures written { WritesInMemory result list.now.rules options.start options.batch
        options.checkpoint cuts.items (steps_of lines.now) (O.taken out.old) (O.taken out.new) }
    ensures write { WriteCounts result (O.faults out.old) (O.faults out.new) }
{
    let disk = MemDisk::new(alloc, Vec::new(alloc), cuts, Vec::new(alloc));
    run_on(alloc, disk, list, options, lines, out).ending
}
