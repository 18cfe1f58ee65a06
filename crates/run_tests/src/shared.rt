//! Lists, lines, cuts, outputs and runs of the tests.
ghost use Rattle.std.specs.Prelude.{◌≤◌, IfOk};
ghost use Rattle.agent_core.specs.AgentView.{longest_batch};
ghost use Rattle.disk_model.specs.Schedule.{AreFrom};

use agent_base::{MemSink, MemSource, NoMemory, Seconds};
use agent_core::Options;
use disk_model::{Cut, MemDisk};
use script_actions::Line;
use script_lines::Script;
use std::alloc::{AllocError, Global};
use std::test::Fail;
use store_runs::{Ending, Finished, run_on};
use suffix_list::SuffixList;

/// The line that opens the store again.
pub const RESTART: &str = "{\"do\":\"restart\"}";

/// A pair is stored, and read before and after a restart.
pub const STORED: &[&str] = &[
    "{\"do\":\"open\",\"tab\":1,\"url\":\"https://a.test/\"}",
    "{\"do\":\"set\",\"tab\":1,\"key\":\"k\",\"value\":\"v\"}",
    "{\"do\":\"get\",\"tab\":1,\"key\":\"k\"}",
    RESTART,
    "{\"do\":\"open\",\"tab\":1,\"url\":\"https://a.test/\"}",
    "{\"do\":\"get\",\"tab\":1,\"key\":\"k\"}",
];

/// Batches of so many lines, and a checkpoint after so many durable changes, from a moment of the
/// year 2001 on.
pub fn options(batch: u16, checkpoint: u32) -> Options
    ensures batch { (1 ≤ result.batch) × (result.batch ≤ longest_batch) }
{
    Options {
        start: Seconds::new(1_000_000_000),
        batch: batch.max(1).min(256),
        checkpoint,
    }
}

fn source_of(alloc: Global, text: &str) -> Result<MemSource, Fail> {
    let bytes = Vec::from_slice(alloc, text.as_bytes())?;
    Ok(MemSource::new(bytes, Vec::new(alloc)))
}

/// The list that a text is.
pub fn list_of(alloc: Global, text: &str) -> Result<SuffixList, Fail> {
    match SuffixList::read(alloc, &mut source_of(alloc, text)?) {
        Ok(list) => Ok(list),
        Err(_) => Err(Fail::from(AllocError)),
    }
}

// Adds the line that a text is.
fn add(alloc: Global, number: u32, text: &str, lines: &mut Vec<Line>) -> Result<(), Fail> {
    let Ok(script) = Script::read(alloc, &mut source_of(alloc, text)?, false) else {
        return Err(Fail::from(AllocError));
    };
    for line in script.lines {
        lines.push(Line {
            number,
            step: line.step,
        })?;
    }
    Ok(())
}

/// The lines that some texts are.
pub fn lines_of(alloc: Global, texts: &[&str]) -> Result<Vec<Line>, Fail> {
    let mut lines = Vec::new(alloc);
    let mut number = 0u32;
    for text in texts {
        number = number.saturating_add(1);
        add(alloc, number, text, &mut lines)?;
    }
    Ok(lines)
}

// The cut of a case, in a call and with a pick that a disk can have.
fn cuts_of(alloc: Global, cut: Option<Cut>) -> Result<Vec<Cut>, Fail>
    ensures { IfOk result (λ cuts. AreFrom 1 cuts.items) }
{
    let mut cuts = Vec::new(alloc);
    if let Some(cut) = cut {
        if cut.call > 0 && cut.pick < 4 {
            cuts.push(cut)?;
        }
    }
    Ok(cuts)
}

// An output with room for 10,000 bytes.
fn sink(alloc: Global) -> Result<MemSink, Fail> {
    match MemSink::new(alloc, 10_000, Vec::new(alloc)) {
        Ok(sink) => Ok(sink),
        Err(NoMemory) => Err(Fail::from(AllocError)),
    }
}

/// A disk with these bytes and this cut.
pub fn disk_of(alloc: Global, bytes: &[u8], cut: Option<Cut>) -> Result<MemDisk, Fail> {
    let bytes = Vec::from_slice(alloc, bytes)?;
    let cuts = cuts_of(alloc, cut)?;
    Ok(MemDisk::new(alloc, bytes, cuts, Vec::new(alloc)))
}

/// A run over a disk: its list, how many lines are a batch, after how many durable changes a
/// checkpoint is due, its lines, how it ends, and what it prints.
#[derive(Clone, Copy)]
pub struct OnDisk {
    pub list: &'static str,
    pub batch: u16,
    pub checkpoint: u32,
    pub lines: &'static [&'static str],
    pub ending: Ending,
    pub out: &'static str,
}

// Whether a run under a list ended and printed as it has to, and the disk that it left.
fn ran_under(
    alloc: Global,
    disk: MemDisk,
    list: &SuffixList,
    run: &OnDisk,
) -> Result<(bool, MemDisk), Fail> {
    let lines = lines_of(alloc, run.lines)?;
    let mut out = sink(alloc)?;
    let options = options(run.batch, run.checkpoint);
    let Finished { ending, disk } = run_on(alloc, disk, list, options, &lines, &mut out);
    let told = ending == run.ending && out.bytes() == run.out.as_bytes();
    Ok((told, disk))
}

fn ran(alloc: Global, disk: MemDisk, run: &OnDisk) -> Result<(bool, MemDisk), Fail> {
    let list = list_of(alloc, run.list)?;
    ran_under(alloc, disk, &list, run)
}

/// The disk that runs leave one after another, if each ends and prints as it has to.
pub fn left_by(alloc: Global, disk: MemDisk, runs: &[OnDisk]) -> Result<Option<MemDisk>, Fail> {
    let mut left = disk;
    for run in runs {
        let (told, next) = ran(alloc, left, run)?;
        if !told {
            return Ok(None);
        }
        left = next;
    }
    Ok(Some(left))
}

/// Whether runs over a disk one after another end and print as they have to.
pub fn are_told(alloc: Global, disk: MemDisk, runs: &[OnDisk]) -> Result<bool, Fail> {
    Ok(left_by(alloc, disk, runs)?.is_some())
}
