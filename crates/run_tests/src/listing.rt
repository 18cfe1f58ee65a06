//! The row changes that an agent lists of what it has in memory.
use crate::shared::{disk_of, lines_of, list_of, options};
use agent_core::Agent;
use disk_model::MemDisk;
use row_changes::Change;
use script_actions::Step;
use std::alloc::{AllocError, Global};
use std::test::Fail;
use suffix_list::SuffixList;

/// A pair, a cookie that outlives a restart and one that does not; a request uses both an hour
/// later. All of it waits for the end of its batch.
const LINES: &[&str] = &[
    "{\"do\":\"open\",\"tab\":1,\"url\":\"https://a.test/\",\"head\":[[\"set-cookie\",\"s=1\"],\
        [\"set-cookie\",\"p=2; Max-Age=90000\"]]}",
    "{\"do\":\"set\",\"tab\":1,\"key\":\"k\",\"value\":\"v\"}",
    "{\"do\":\"tick\",\"s\":3600}",
    "{\"do\":\"fetch\",\"tab\":1,\"url\":\"https://a.test/\"}",
];

// Runs lines that act over an agent.
fn run_all(alloc: Global, agent: &mut Agent<'_, MemDisk>, lines: &[&str]) -> Result<(), Fail> {
    for line in &lines_of(alloc, lines)? {
        if let Step::Act(action) = &line.step {
            let _ = agent.line(action);
        }
    }
    Ok(())
}

// A row change in short: its names and texts, and a cookie's place and last use.
fn short(alloc: Global, change: &Change) -> Result<String, Fail> {
    Ok(match change {
        Change::AreaPut { name, value, .. } => format!(in alloc; "{name}={value}")?,
        Change::CookieInsert { place, cookie, .. } => {
            format!(in alloc;
                "{place}: {}={}, {}",
                cookie.identity.name, cookie.value, cookie.last
            )?
        }
        _ => String::from_str(alloc, "another")?,
    })
}

// The row changes that an agent lists, each in short with a semicolon behind it.
fn listed(alloc: Global, agent: &Agent<'_, MemDisk>) -> Result<String, Fail> {
    let mut text = String::new(alloc);
    for change in &agent.listing()? {
        text.push_str(short(alloc, change)?.as_str())?;
        text.push(';')?;
    }
    Ok(text)
}

fn lists(alloc: Global, agent: &Agent<'_, MemDisk>, text: &str) -> Result<bool, Fail> {
    Ok(listed(alloc, agent)?.as_str() == text)
}

// An agent over a new disk, in batches that are longer than the lines.
fn opened(alloc: Global, list: &SuffixList) -> Result<Agent<'_, MemDisk>, Fail> {
    match Agent::open(alloc, disk_of(alloc, &[], None)?, list, options(16, 0)) {
        Ok(agent) => Ok(agent),
        Err(_) => Err(Fail::from(AllocError)),
    }
}

// Whether an agent lists nothing before the lines, and this behind them.
fn lists_behind_lines(alloc: Global, list: &SuffixList, text: &str) -> Result<bool, Fail> {
    let mut agent = opened(alloc, list)?;
    if !lists(alloc, &agent, "")? {
        return Ok(false);
    }
    run_all(alloc, &mut agent, LINES)?;
    lists(alloc, &agent, text)
}

#[test]
fn an_agent_lists_what_outlives_a_restart(rt: HostRuntime) -> Result<(), Fail> {
    let alloc = rt.alloc();
    let list = list_of(alloc, "")?;
    assert!(rt; lists_behind_lines(alloc, &list, "k=v;0: p=2, 0;")?);
    Ok(())
}
