//! One row, and how it is run.
ghost use Rattle.std.specs.Prelude.{◌≡◌, IfOk};

use agent_base::{MemSink, MemSource, NoMemory};
use hosts::MemHost;
use replay::run;
use std::alloc::{AllocError, Global};
use std::process::Abort;
use std::test::Fail;

/// A run: its words, list and script, and all that it has to print.
#[derive(Clone, Copy)]
pub struct Row {
    pub name: &'static str,
    pub words: &'static [&'static str],
    pub list: &'static str,
    pub script: &'static str,
    pub out: &'static str,
    pub err: &'static str,
    pub status: u8,
}

/// The words that run a script under the list of the row.
pub const REPLAY: &[&str] = &["replay", "LIST"];

// A source of a text whose calls of these numbers fail.
fn source(alloc: Global, text: &str, fails: &[u64]) -> Result<MemSource, Fail>
    ensures fresh { IfOk result (λ s. s.faults ≡ 0) }
{
    let bytes = Vec::from_slice(alloc, text.as_bytes())?;
    Ok(MemSource::new(bytes, Vec::from_slice(alloc, fails)?))
}

// Texts of their own.
fn words(alloc: Global, words: &[&str]) -> Result<Vec<String>, Fail> {
    let mut owned = Vec::new(alloc);
    for word in words {
        owned.push(String::from_str(alloc, word)?)?;
    }
    Ok(owned)
}

// Room for so many bytes, where calls of these numbers fail.
fn sink(alloc: Global, room: usize, fails: &[u64]) -> Result<MemSink, Fail> {
    match MemSink::new(alloc, room, Vec::from_slice(alloc, fails)?) {
        Ok(sink) => Ok(sink),
        Err(NoMemory) => Err(Fail::from(AllocError)),
    }
}

/// The numbers of the calls of each stream that fail.
#[derive(Clone, Copy)]
pub struct Fails {
    pub list: &'static [u64],
    pub script: &'static [u64],
    pub out: &'static [u64],
    pub err: &'static [u64],
}

pub const NO_FAILS: Fails = Fails {
    list: &[],
    script: &[],
    out: &[],
    err: &[],
};

/// Room for the replies of a row, and for a fault line.
const ROOM: usize = 100_000;

/// How a run ended, and what it wrote.
#[derive(Drop)]
pub struct Ended {
    pub status: u8,
    pub out: MemSink,
    pub err: MemSink,
}

// Runs the command of some words.
fn run_words(
    alloc: Global,
    line: &[&str],
    list: MemSource,
    mut script: MemSource,
    mut out: MemSink,
    mut err: MemSink,
) -> Result<Ended, Fail>
    requires { list.faults ≡ 0 }
{
    let mut lists = Vec::new(alloc);
    lists.push((String::from_str(alloc, "LIST")?, list))?;
    let mut host = MemHost::new(lists, Vec::new(alloc));
    let status = run(
        alloc,
        &words(alloc, line)?,
        &mut host,
        &mut script,
        &mut out,
        &mut err,
    );
    Ok(Ended {
        status: status.code(),
        out,
        err,
    })
}

/// Runs the command of some words over a list and a script, with room for so many bytes of replies.
pub fn run_texts(
    alloc: Global,
    line: &[&str],
    (list, script): (&str, &str),
    room: usize,
    fails: &Fails,
) -> Result<Ended, Fail> {
    let list = source(alloc, list, fails.list)?;
    let script = source(alloc, script, fails.script)?;
    let out = sink(alloc, room, fails.out)?;
    let err = sink(alloc, ROOM, fails.err)?;
    run_words(alloc, line, list, script, out, err)
}

/// A script, and the replies that it has to print.
#[derive(Drop)]
pub struct Lines {
    pub script: String,
    pub replies: String,
}

impl Lines {
    pub fn new(alloc: Global) -> Lines {
        Lines {
            script: String::new(alloc),
            replies: String::new(alloc),
        }
    }

    /// A line, and its reply.
    pub fn add(&mut self, line: &str, reply: &str) -> Result<(), Fail> {
        self.script.push_str(line)?;
        self.script.push_str("\n")?;
        self.replies.push_str(reply)?;
        self.replies.push_str("\n")?;
        Ok(())
    }
}

// What of a run is not as a row has it, and nothing where all is.
fn wrong_part(ended: &Ended, row: &Row) -> &'static str {
    if ended.status != row.status {
        "the status"
    } else if ended.out.bytes() != row.out.as_bytes() {
        "the replies"
    } else if ended.err.bytes() != row.err.as_bytes() {
        "the fault line"
    } else {
        ""
    }
}

// What is wrong in a run of a row some of whose calls fail.
fn wrong_in(alloc: Global, row: &Row, fails: &Fails) -> Result<&'static str, Fail> {
    let ended = run_texts(alloc, row.words, (row.list, row.script), ROOM, fails)?;
    Ok(wrong_part(&ended, row))
}

/// Runs a row some of whose calls fail, and names it where it ends otherwise.
pub fn check_failing(rt: &impl Abort, alloc: Global, row: &Row, fails: &Fails) -> Result<(), Fail> {
    let wrong = wrong_in(alloc, row, fails)?;
    assert!(rt; wrong.is_empty(), "{wrong} of: {}", row.name);
    Ok(())
}
