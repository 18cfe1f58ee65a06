//! The self-test of a seed.
ghost use Rattle.std.specs.Prelude.{IfOk, Some};
ghost use Rattle.command_line.specs.Words.{Selftest};
ghost use Rattle.replay.specs.BeforeAfter.{from_to};
ghost use Rattle.replay.specs.Causes.{WriteCounts};
ghost use Rattle.replay.specs.Endings.{CanEnd};
ghost use Rattle.replay.specs.Runs.{WritesSelftest};
ghost use Rattle.selftests.specs.Line.{IsLineOf};

use crate::Status;
use agent_base::{NoMemory, Sink, write_all};
use selftests::selftest;
use std::alloc::Global;

/// Runs the self-test of a seed, and writes its line. Host and script are not asked for anything.
pub fn write_selftest<O: Sink>(alloc: Global, seed: u32, out: &mut O) -> Status
    ensures text { WritesSelftest seed result (from_to (O.taken out.old) (O.taken out.new)) }
    ensures status { CanEnd (Some (Selftest seed)) result }
    ensures write { WriteCounts result (from_to (O.faults out.old) (O.faults out.new)) }
{
    match selftest_line(alloc, seed) {
        Ok(line) => match write_all(out, line.as_slice()) {
            Ok(()) => Status::Done,
            Err(_) => Status::Write,
        },
        Err(NoMemory) => Status::Memory,
    }
}

fn selftest_line(alloc: Global, seed: u32) -> Result<Vec<u8>, NoMemory>
    ensures { IfOk result (λ line. IsLineOf seed line.items) }
{
    let found = selftest(alloc, seed)?;
    found.line(alloc)
}
