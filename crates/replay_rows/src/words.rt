//! Words that are a command, and words that are none.
use Want::{Dump, Help, Replay, Selftest, Twin};
use command_line::{Command, read_words};
use std::alloc::Global;
use std::test::Fail;

const USUAL: u64 = 1_767_225_600;

const LAST: u64 = 253_402_300_799;

// What lines ask for, in short: the paths of list and store, how many lines are a batch, after how
// many durable changes a checkpoint is made, and where the clock begins.
#[derive(Clone, Copy)]
enum Want {
    Help,
    Replay(&'static str, Option<&'static str>, u16, u32, u64),
    /// Of the site of this text, under the list `l`.
    Twin(&'static str, u16, u32, u64),
    Dump(&'static str, &'static str),
    Selftest(u32),
}

fn command_of(want: Want) -> Command<'static> {
    match want {
        Help => Command::Help,
        Replay(list, store, batch, checkpoint, start) => Command::Replay {
            list,
            store,
            batch,
            checkpoint,
            start,
        },
        Twin(site, batch, checkpoint, start) => Command::Twin {
            site,
            list: "l",
            batch,
            checkpoint,
            start,
        },
        Dump(list, store) => Command::Dump { list, store },
        Selftest(seed) => Command::Selftest { seed },
    }
}

const COMMANDS: &[(&str, Want)] = &[
    ("--help", Help),
    ("replay l", Replay("l", None, 1, 1_000, USUAL)),
    ("replay help", Replay("help", None, 1, 1_000, USUAL)),
    ("replay dump", Replay("dump", None, 1, 1_000, USUAL)),
    ("replay help --start 5", Replay("help", None, 1, 1_000, 5)),
    (
        "replay l --start 000000000000",
        Replay("l", None, 1, 1_000, 0),
    ),
    (
        "replay l --start 253402300799",
        Replay("l", None, 1, 1_000, LAST),
    ),
    (
        "replay l --store s",
        Replay("l", Some("s"), 1, 1_000, USUAL),
    ),
    (
        "replay l --store help",
        Replay("l", Some("help"), 1, 1_000, USUAL),
    ),
    (
        "replay l --store a=b",
        Replay("l", Some("a=b"), 1, 1_000, USUAL),
    ),
    ("replay l --batch 1", Replay("l", None, 1, 1_000, USUAL)),
    (
        "replay l --batch 000000000256",
        Replay("l", None, 256, 1_000, USUAL),
    ),
    (
        "replay l --store s --batch 3 --start 5",
        Replay("l", Some("s"), 3, 1_000, 5),
    ),
    (
        "replay l --batch 3 --start 5 --store s",
        Replay("l", Some("s"), 3, 1_000, 5),
    ),
    ("replay l --checkpoint 0", Replay("l", None, 1, 0, USUAL)),
    (
        "replay l --checkpoint 000001000000",
        Replay("l", None, 1, 1_000_000, USUAL),
    ),
    (
        "replay l --batch 3 --checkpoint 7 --start 5 --store s",
        Replay("l", Some("s"), 3, 7, 5),
    ),
    ("dump l s", Dump("l", "s")),
    ("dump help dump", Dump("help", "dump")),
    ("dump s l", Dump("s", "l")),
    ("replay selftest", Replay("selftest", None, 1, 1_000, USUAL)),
    (
        "twin https://a.test l",
        Twin("https://a.test", 1, 1_000, USUAL),
    ),
    ("twin dump l", Twin("dump", 1, 1_000, USUAL)),
    (
        "twin s l --start 5 --batch 256 --checkpoint 0",
        Twin("s", 256, 0, 5),
    ),
    ("twin s l --checkpoint 7", Twin("s", 1, 7, USUAL)),
    ("selftest 7", Selftest(7)),
    ("selftest 0", Selftest(0)),
    ("selftest 004294967295", Selftest(u32::MAX)),
];

const NO_COMMANDS: &[&str] = &[
    "replay l --batch 0",
    "replay l --batch 257",
    "replay l --batch 65537",
    "replay l --batch 2 --start 5 --batch 2",
    "replay l --store s --store s",
    "replay l --store -s",
    "replay l --store --batch",
    "replay l --store ",
    "replay l --store",
    "replay l --store=s",
    "replay l --checkpoint 1000001",
    "replay l --checkpoint -1",
    "replay l --checkpoint 5 --checkpoint 5",
    "replay --store s l",
    "replay l --start 253402300800",
    "replay l --start 0000000000000",
    "replay l --start 1e3",
    "replay l --start +5",
    "replay l --start ",
    "replay l --start=5",
    "replay l --start 5 --start 5",
    "replay --start 5 l",
    "replay -l",
    "replay ",
    "replay",
    "dump l",
    "dump l -s",
    "dump -l s",
    "dump l s --start 5",
    "selftest",
    "selftest 4294967296",
    "selftest -1",
    "selftest 7 --batch 1",
    "selftest seven",
    "selftest 0000000000007",
    "--help replay l",
    "twin",
    "twin https://a.test",
    "twin --batch l",
    "twin  l",
    "twin s -l",
    "twin s l --store p",
    "twin s l --batch 2 --store p",
    "twin s l --batch 2 --batch 2",
    "twin s l 7",
];

fn words(alloc: Global, line: &str) -> Result<Vec<String>, Fail> {
    let mut words = Vec::new(alloc);
    for word in line.split(' ') {
        words.push(String::from_str(alloc, word)?)?;
    }
    Ok(words)
}

// Whether a line is this command.
fn is_command(alloc: Global, line: &str, want: Want) -> Result<bool, Fail> {
    let words = words(alloc, line)?;
    Ok(read_words(alloc, &words)? == Some(command_of(want)))
}

fn is_none(alloc: Global, line: &str) -> Result<bool, Fail> {
    let words = words(alloc, line)?;
    Ok(read_words(alloc, &words)?.is_none())
}

#[test]
fn words_of_the_command_line(rt: HostRuntime) -> Result<(), Fail> {
    let alloc = rt.alloc();
    for (line, want) in COMMANDS {
        assert!(rt; is_command(alloc, line, *want)?, "{line}");
    }
    for line in NO_COMMANDS {
        assert!(rt; is_none(alloc, line)?, "{line}");
    }
    assert!(rt; read_words(alloc, &[])?.is_none());
    Ok(())
}
