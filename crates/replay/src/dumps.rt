//! The rows of a store.
ghost use Rattle.std.specs.Prelude.{◌≡◌, None, Some};
ghost use Rattle.command_line.specs.Words.{Dump};
ghost use Rattle.replay.specs.BeforeAfter.{from_to};
ghost use Rattle.replay.specs.Causes.{DumpCounts, WriteCounts};
ghost use Rattle.replay.specs.Commands.{HasRun, HostCounts, LeavesStoreClosed, Obeys};
ghost use Rattle.replay.specs.Commands.{dump_ending, status_of};
ghost use Rattle.replay.specs.Runs.{Written};
ghost use Rattle.replay.specs.Dumps.{DumpedRows};
ghost use Rattle.replay.specs.Stores.{LeftAlone};

use crate::Status;
use crate::lists::read_list;
use agent_base::{Sink, Source};
use hosts::{Host, StoreFault};
use journal::OpenFault;
use std::alloc::Global;
use store_dumps::{DumpFault, dump};
use suffix_list::SuffixList;

/// Writes the rows of the store of a path, under the list of a path. The script is left alone.
pub fn dump_store<H: Host, I: Source, O: Sink>(
    alloc: Global,
    list: &str,
    store: &str,
    host: &mut H,
    script: &mut I,
    out: &mut O,
) -> Status
    requires closed { H.store_out host.old ≡ None }
    ensures { Obeys H.Host I.Source O.Sink (Some (Dump list.now store.now)) result
        (from_to host.old host.new) (from_to script.old script.new) (from_to out.old out.new) }
{
    match read_list(alloc, host, list) {
        Ok(list) => dump_over(alloc, &list, store, host, out),
        Err(status) => status,
    }
}

// Writes the rows of the store of a path, and closes it.
fn dump_over<H: Host, O: Sink>(
    alloc: Global,
    list: &SuffixList,
    path: &str,
    host: &mut H,
    out: &mut O,
) -> Status
    requires closed { H.store_out host.old ≡ None }
    ensures text { Written result (LeftAlone (from_to (O.taken out.old) (O.taken out.new))
        (H.stores host.old path.now) (H.stores host.new path.now)) (λ ended.
        DumpedRows (from_to (O.taken out.old) (O.taken out.new)) (H.tells_stores host.old)
        (H.stores host.old path.now) (H.stores host.new path.now) ended list.now) }
    ensures ran { HasRun result }
    ensures counts { HostCounts result (from_to (H.faults host.old) (H.faults host.new))
        (from_to (H.store_faults host.old) (H.store_faults host.new)) }
    ensures device { DumpCounts result
        (from_to (H.store_faults host.old) (H.store_faults host.new)) }
    ensures write { WriteCounts result (from_to (O.faults out.old) (O.faults out.new)) }
    ensures left { LeavesStoreClosed H.Host path.now (from_to host.old host.new) }
{
    match host.open_store(path) {
        Ok(mut disk) => {
            let dumped = dump(alloc, &mut disk, list, out);
            host.close_store(path, disk);
            status(dumped)
        }
        Err(StoreFault::InUse) => Status::InUse,
        Err(StoreFault::Failed) => Status::Read,
        Err(StoreFault::NoMemory) => Status::Memory,
    }
}

// The status of a dump that ended so.
fn status(dumped: Result<(), DumpFault>) -> Status
    ensures { result ≡ status_of (dump_ending dumped) }
{
    match dumped {
        Ok(()) => Status::Done,
        Err(DumpFault::Open(OpenFault::DeviceFault)) => Status::Device,
        Err(DumpFault::Open(OpenFault::NoMemory)) => Status::Memory,
        Err(DumpFault::Open(why)) => Status::Store(why),
        Err(DumpFault::Write) => Status::Write,
        Err(DumpFault::NoMemory) => Status::Memory,
    }
}
