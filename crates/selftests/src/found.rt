//! The self-test of a seed.
ghost use Rattle.std.specs.Prelude.{◌≡◌, ◌+◌, ◌<◌, ◌^◌, ℕ, List, [], IfOk, OnOk, Some, length, map};
ghost use Rattle.sha2.specs.Sha256.{sha256};
ghost use Rattle.unwinding.specs.Admissible.{Acts};
ghost use Rattle.disk_model.specs.MemDisk.{view_of};
ghost use Rattle.script_actions.specs.Action.{PlainAction};
ghost use Rattle.agent_model.specs.Isolation.{transcript};
ghost use Rattle.store_runs.specs.Steps.{steps_of};
ghost use Rattle.store_runs.specs.Tidy.{LeavesTidy};
ghost use Rattle.generated_day.specs.Day.{day_length, day_lines};
ghost use Rattle.selftests.specs.Days.{day_start, day_text};
ghost use Rattle.selftests.specs.Line.{selftest_line};
ghost use Rattle.selftests.specs.Runs.{RanAnew};
ghost use Rattle.selftests.specs.Store.{IsStoreLength, day_checkpoint};

use crate::ends::{TextSink, empty_list};
use agent_base::{NoMemory, Seconds};
use agent_core::Options;
use disk_model::{Disk, MemDisk};
use generated_day::generated_day;
use itoa::Buffer;
use printed_model::printed_histories_are_isolated;
use script_actions::Line;
use sha2::{Digest, Sha256};
use std::alloc::Global;
use store_runs::{Ending, Finished, run_on};
use suffix_list::SuffixList;

/// The moment at which the clock begins: 2026-01-01 00:00:00 UTC.
const START: u64 = 1_767_225_600;

/// How many lines make a batch.
const BATCH: u16 = 16;

/// After how many durable changes a checkpoint is made.
const CHECKPOINT: u32 = 100;

/// What a self-test found.
#[derive(Debug, Clone, Copy, PartialEq, Eq)]
pub struct Found {
    /// The SHA-256 digest of what the run printed.
    pub digest: [u8; 32],
    /// How many lines ran.
    pub lines: u32,
    /// How many bytes the file of the store has at the end.
    pub store: u64,
}

/// Runs the generated day of a seed over a new store in memory, under the list that has no rules.
///
/// Lines are committed in batches, and checkpoints are made. That decides how long the store is,
/// and changes nothing that is printed.
pub fn selftest(alloc: Global, seed: u32) -> Result<Found, NoMemory>
    ensures digest { IfOk result (λ found. found.digest ≡ sha256 (day_text seed)) }
    ensures lines { IfOk result (λ found. found.lines ≡ day_length) }
    ensures store { IfOk result (λ found. IsStoreLength (day_lines seed) found.store) }
{
    let lines = generated_day(alloc, seed)?;
    let mut printed = TextSink::new(alloc);
    let store = run(alloc, &lines, &mut printed)?;
    Ok(Found {
        digest: Sha256::digest(printed.text.as_slice()),
        lines: lines.len() as u32,
        store,
    })
}

// Runs the lines, none of which opens the store again, and answers the length of the store.
fn run(alloc: Global, lines: &[Line], printed: &mut TextSink) -> Result<u64, NoMemory>
    requires nothing { printed.old.text.items ≡ [] }
    requires fits { length lines.now + 2 < 2 ^ 64 }
    ensures text { OnOk result ((actions : List PlainAction)
        → steps_of lines.now ≡ map Acts actions
        → printed.new.text.items ≡ transcript [] day_start actions) }
    ensures store { IfOk result (IsStoreLength (steps_of lines.now)) }
{
    let list = empty_list(alloc)?;
    let finished = run_anew(alloc, &list, lines, printed);
    printed_histories_are_isolated();
    match finished.ending {
        Ending::Done => Ok(length(finished.disk)),
        Ending::Write | Ending::Memory => Err(NoMemory),
        Ending::Device | Ending::Store(_) => unreachable!(),
    }
}

// Runs the lines over a new store on a disk in memory, which is handed back.
fn run_anew(
    alloc: Global,
    list: &SuffixList,
    lines: &[Line],
    printed: &mut TextSink,
) -> Finished<MemDisk>
    requires fits { length lines.now + 2 < 2 ^ 64 }
    ensures ran { RanAnew result.ending list.now (steps_of lines.now)
        (Some printed.old.text.items) (Some printed.new.text.items)
        (view_of result.disk).may_leave }
    ensures tidy { result.ending ≡ Ending.Done
        → LeavesTidy day_checkpoint list.now.digest (view_of result.disk).may_leave }
{
    let disk = MemDisk::new(alloc, Vec::new(alloc), Vec::new(alloc), Vec::new(alloc));
    let options = Options {
        start: Seconds::new(START),
        batch: BATCH,
        checkpoint: CHECKPOINT,
    };
    run_on(alloc, disk, list, options, lines, printed)
}

// The length of the file that a restart finds.
fn length(disk: MemDisk) -> u64
    ensures { (file : List ℕ) × (length file ≡ result) × (view_of disk).may_leave file }
{
    match disk.reopen().len() {
        Ok(len) => len,
        Err(_) => unreachable!(),
    }
}

impl Found {
    /// The line that is printed of a self-test, with its line feed.
    pub fn line(&self, alloc: Global) -> Result<Vec<u8>, NoMemory>
        ensures text { IfOk result (λ text. text.items
            ≡ selftest_line self.now.digest self.now.lines self.now.store) }
    {
        let digest = hex::encode(alloc, &self.digest)?;
        let mut line = Vec::from_slice(alloc, b"{\"digest\":\"")?;
        line.extend_from_slice(digest.as_bytes())?;
        line.extend_from_slice(b"\",\"lines\":")?;
        line.extend_from_slice(Buffer::new().format(self.lines).as_bytes())?;
        line.extend_from_slice(b",\"store\":")?;
        line.extend_from_slice(Buffer::new().format(self.store).as_bytes())?;
        line.extend_from_slice(b"}\n")?;
        Ok(line)
    }
}
