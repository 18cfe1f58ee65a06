//! Measures four libraries by commands from standard input, one a line.
//!
//! What a command counted comes on standard output, and the time that it took on standard error.
#![tactic(auto)]

mod commits;
mod cookies;
mod jars;
mod suffixes;
mod watch;

use std::io;

fn run_line(rt: &HostRuntime, line: &str) -> io::Result<()> {
    let mut words = line.split(' ');
    let command = words.next().unwrap_or("");
    let first = words.next().unwrap_or("");
    let second = words.next().unwrap_or("");
    let third = words.next().unwrap_or("");
    match command {
        "cookies" => cookies::run(rt, count_of(first)),
        "jars" => jars::run(rt, count_of(first), count_of(second)),
        "suffixes" => suffixes::run(rt, first, count_of(second)),
        "commits" => commits::run(rt, first, count_of(second), count_of(third)),
        "writes" => commits::run_writes(rt, first, count_of(second), count_of(third)),
        _ => Ok(eprintln!(rt; "no command: {line}")?),
    }
}

// The number that a word writes, and 0 where it writes none.
fn count_of(word: &str) -> u32 {
    word.parse().unwrap_or(0)
}

fn main(rt: HostRuntime) -> io::Result<()> {
    for line in rt.lines(rt.alloc()) {
        run_line(&rt, line?.as_str())?;
    }
    Ok(())
}
