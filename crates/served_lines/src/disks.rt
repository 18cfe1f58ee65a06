//! Serving over the store on a disk.
ghost use Rattle.std.specs.Prelude.{◌≡◌, ◌⊎◌, ℕ, List, [], Some, true};
ghost use Rattle.agent_base.specs.Counts.{Rose};
ghost use Rattle.agent_base.specs.Streams.{Takes};
ghost use Rattle.journal.specs.Opening.{IsOfFile};
ghost use Rattle.journal.specs.declared.open_fault.OpenFault.{OpenFault};
ghost use Rattle.served_lines.specs.Disks.{IsExcusedEnd, IsRefusedFile, IsStoreEnd, ServesOn};
ghost use Rattle.served_lines.specs.Disks.{ended_by};
ghost use Rattle.served_lines.specs.Serving.{SinkCounts, SourceCounts};

use crate::{Served, serve};
use agent_base::{Seconds, Sink, Source};
use disk_model::Disk;
use journal::OpenFault;
use line_session::Session;
use std::alloc::Global;
use suffix_list::SuffixList;

/// Serving over a disk: how it ended, and the disk.
#[derive(Debug, Drop)]
pub struct Finished<D: Disk + Drop> {
    pub ending: Served,
    pub disk: D,
}

/// Opens the store on a disk, or a new one where the file is no store yet, serves the lines of a
/// source over it to the source's end, and hands the disk back. The clock begins at `start`, and a
/// checkpoint is due after `checkpoint` durable changes; 0 is never. A store under another suffix
/// list is opened too: the lines are served over what stays of it under this one.
pub fn serve_on<D: Disk + Drop, I: Source, O: Sink>(
    alloc: Global,
    disk: D,
    list: &SuffixList,
    start: Seconds,
    checkpoint: u32,
    source: &mut I,
    out: &mut O,
) -> Finished<D>
    ensures served { ServesOn D.view result.ending list.now start checkpoint
        disk result.disk (I.left source.old) (I.left source.new)
        (O.taken out.old) (O.taken out.new) }
    // A file that is no store is refused, whatever the lines are.
    ensures refused { (why : OpenFault) (c : List ℕ) → (D.view disk).contents ≡ Some c
        → IsOfFile why → IsRefusedFile c why
        → Takes (O.taken out.old) (O.taken out.new) []
        × ((result.ending ≡ Served.Store why) ⊎ IsExcusedEnd result.ending) }
    // A call of the disk failed.
    ensures device { result.ending ≡ Served.Device
        → Rose (D.view disk).faults (D.view result.disk).faults }
    ensures store { IsStoreEnd result.ending }
    ensures tells { (D.view result.disk).tells ≡ (D.view disk).tells }
    ensures read { SourceCounts result.ending (I.faults source.old) (I.faults source.new) }
    ensures write { SinkCounts result.ending (O.faults out.old) (O.faults out.new) }
{
    match Session::open(alloc, disk, list, start, checkpoint) {
        Ok(mut session) => {
            let ending = serve(alloc, &mut session, source, out);
            Finished {
                ending,
                disk: session.into_disk(),
            }
        }
        Err(refusal) => Finished {
            ending: ended_by(refusal.why),
            disk: refusal.disk,
        },
    }
}

// How serving ends where the store was not opened.
fn ended_by(why: OpenFault) -> Served
    ensures { result ≡ ended_by why }
{
    match why {
        OpenFault::DeviceFault => Served::Device,
        OpenFault::NoMemory => Served::NoMemory,
        OpenFault::NotAStore(_) | OpenFault::TooLarge(_) => Served::Store(why),
    }
}
