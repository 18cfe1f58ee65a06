//! Checkpoints of a run: how long they leave the store, and what a cut within one leaves.
use crate::shared::{OnDisk, RESTART, STORED, are_told, disk_of, left_by};
use disk_model::{Cut, Disk};
use std::alloc::Global;
use std::test::Fail;
use store_runs::Ending;

/// A pair is stored, and its value changed.
const LINES: &[&str] = &[
    "{\"do\":\"open\",\"tab\":1,\"url\":\"https://a.test/\"}",
    "{\"do\":\"set\",\"tab\":1,\"key\":\"k\",\"value\":\"v\"}",
    "{\"do\":\"set\",\"tab\":1,\"key\":\"k\",\"value\":\"w\"}",
];

/// What they print.
const CHANGED: &str = concat!(
    "{\"cookie\":null,\"do\":\"open\",\"is\":\"ok\",\"set\":[],\"site\":\"https://a.test\"}\n",
    "{\"do\":\"set\",\"is\":\"ok\",\"site\":\"https://a.test\"}\n",
    "{\"do\":\"set\",\"is\":\"ok\",\"site\":\"https://a.test\"}\n",
);

/// The first line, and what it prints.
const FIRST: &[&str] = &["{\"do\":\"open\",\"tab\":1,\"url\":\"https://a.test/\"}"];

const OPENED: &str =
    "{\"cookie\":null,\"do\":\"open\",\"is\":\"ok\",\"set\":[],\"site\":\"https://a.test\"}\n";

/// The first two lines.
const BOTH: &[&str] = &[
    "{\"do\":\"open\",\"tab\":1,\"url\":\"https://a.test/\"}",
    "{\"do\":\"set\",\"tab\":1,\"key\":\"k\",\"value\":\"v\"}",
];

/// What they print: the reply to the second one is given before the checkpoint.
const SET: &str = concat!(
    "{\"cookie\":null,\"do\":\"open\",\"is\":\"ok\",\"set\":[],\"site\":\"https://a.test\"}\n",
    "{\"do\":\"set\",\"is\":\"ok\",\"site\":\"https://a.test\"}\n",
);

/// Lines that run, what they print, in batches of how many, after how many durable changes a
/// checkpoint is due, and how long the store is afterwards.
const LENGTHS: &[(&[&str], &str, u16, u32, u64)] = &[
    (FIRST, OPENED, 1, 1, 129),
    (BOTH, SET, 1, 0, 199),
    (BOTH, SET, 1, 1, 298),
    (BOTH, SET, 1, 2, 199),
    (LINES, CHANGED, 1, 1, 467),
    (LINES, CHANGED, 1, 0, 269),
    (LINES, CHANGED, 5, 0, 251),
    (BOTH, SET, 5, 1, 298),
];

/// What the lines of `STORED` print where the checkpoint behind the second one is cut.
const CUT: &str = concat!(
    "{\"cookie\":null,\"do\":\"open\",\"is\":\"ok\",\"set\":[],\"site\":\"https://a.test\"}\n",
    "{\"do\":\"set\",\"is\":\"ok\",\"site\":\"https://a.test\"}\n",
    "{\"do\":\"get\",\"is\":\"down\",\"site\":null}\n",
    "{\"do\":\"restart\",\"is\":\"ok\",\"kept\":1,\"site\":null}\n",
    "{\"cookie\":null,\"do\":\"open\",\"is\":\"ok\",\"set\":[],\"site\":\"https://a.test\"}\n",
    "{\"do\":\"get\",\"is\":\"ok\",\"site\":\"https://a.test\",\"value\":\"v\"}\n",
);

/// The calls of a checkpoint behind a commit on a new store: 7 made it, and 4 committed.
const CHECKPOINT: &[u64] = &[12, 13, 14, 15, 16, 17, 18];

/// The picks that a disk can have.
const PICKS: &[u8] = &[0, 1, 2, 3];

/// How many lines are a batch.
const BATCHES: &[u16] = &[1, 5];

/// The pair is read behind a restart, and then once more.
const READ: &[&str] = &[
    RESTART,
    "{\"do\":\"open\",\"tab\":1,\"url\":\"https://a.test/\"}",
    "{\"do\":\"get\",\"tab\":1,\"key\":\"k\"}",
];

/// What that prints, and what it prints where the first call behind its restart is cut.
const FOUND: &str = concat!(
    "{\"do\":\"restart\",\"is\":\"ok\",\"kept\":0,\"site\":null}\n",
    "{\"cookie\":null,\"do\":\"open\",\"is\":\"ok\",\"set\":[],\"site\":\"https://a.test\"}\n",
    "{\"do\":\"get\",\"is\":\"ok\",\"site\":\"https://a.test\",\"value\":\"v\"}\n",
);

const BEHIND_A_LINE: &str = concat!(
    "{\"do\":\"restart\",\"is\":\"ok\",\"kept\":0,\"site\":null}\n",
    "{\"cookie\":null,\"do\":\"open\",\"is\":\"ok\",\"set\":[],\"site\":\"https://a.test\"}\n",
    "{\"do\":\"get\",\"is\":\"down\",\"site\":null}\n",
);

// A run under the empty list.
fn run_of(
    lines: &'static [&'static str],
    batch: u16,
    checkpoint: u32,
    ending: Ending,
    out: &'static str,
) -> OnDisk {
    OnDisk {
        list: "",
        batch,
        checkpoint,
        lines,
        ending,
        out,
    }
}

// Whether a run ends and prints as it has to, and leaves a store of this length.
fn is_as_long(alloc: Global, run: OnDisk, length: u64) -> Result<bool, Fail> {
    let disk = disk_of(alloc, &[], None)?;
    match left_by(alloc, disk, &[run])? {
        Some(mut left) => Ok(left.len() == Ok(length)),
        None => Ok(false),
    }
}

#[test]
fn a_due_checkpoint_is_made(rt: HostRuntime) -> Result<(), Fail> {
    let alloc = rt.alloc();
    for (lines, out, batch, checkpoint, length) in LENGTHS {
        let run = run_of(lines, *batch, *checkpoint, Ending::Done, out);
        assert!(rt;
            is_as_long(alloc, run, *length)?,
            "a checkpoint after {checkpoint}, batches of {batch}"
        );
    }
    Ok(())
}

fn is_kept(alloc: Global, call: u64, pick: u8) -> Result<bool, Fail> {
    let disk = disk_of(alloc, &[], Some(Cut { call, pick }))?;
    let run = run_of(STORED, 1, 1, Ending::Done, CUT);
    are_told(alloc, disk, &[run])
}

#[test]
fn a_cut_within_a_checkpoint_loses_nothing(rt: HostRuntime) -> Result<(), Fail> {
    let alloc = rt.alloc();
    for call in CHECKPOINT {
        for pick in PICKS {
            assert!(rt; is_kept(alloc, *call, *pick)?, "cut {call}, {pick}");
        }
    }
    Ok(())
}

fn is_found_again(alloc: Global, batch: u16, call: u64) -> Result<bool, Fail> {
    let disk = disk_of(alloc, &[], Some(Cut { call, pick: 0 }))?;
    let run = run_of(BOTH, batch, 1, Ending::Device, SET);
    let again = run_of(READ, 1, 0, Ending::Done, FOUND);
    match left_by(alloc, disk, &[run])? {
        Some(left) => are_told(alloc, left.reopen(), &[again]),
        None => Ok(false),
    }
}

#[test]
fn a_last_checkpoint_that_is_cut_ends_as_a_device_fault(rt: HostRuntime) -> Result<(), Fail> {
    let alloc = rt.alloc();
    for batch in BATCHES {
        for call in CHECKPOINT {
            let found = is_found_again(alloc, *batch, *call)?;
            assert!(rt; found, "cut {call}, batches of {batch}");
        }
    }
    Ok(())
}

// The store is left by a run without checkpoints, in 11 calls. One opens it again, one is that of
// the restart, and the next is the first one of the checkpoint.
fn is_left_behind_a_restart(alloc: Global) -> Result<bool, Fail> {
    let disk = disk_of(alloc, &[], Some(Cut { call: 14, pick: 0 }))?;
    let runs = [
        run_of(BOTH, 1, 0, Ending::Done, SET),
        run_of(READ, 1, 1, Ending::Device, BEHIND_A_LINE),
    ];
    are_told(alloc, disk, &runs)
}

#[test]
fn no_checkpoint_is_made_right_behind_a_restart(rt: HostRuntime) -> Result<(), Fail> {
    assert!(rt; is_left_behind_a_restart(rt.alloc())?);
    Ok(())
}
