//! Frames one after another: what they lead to, and their first faults.
use crate::applying::{applied, is_as_taken, taken};
use crate::bodies::Edit::{Clear, Grant, Insert, Mode, Put, Remove, Replace, TakeOut};
use crate::bodies::{Edit, change_of, snapshot_of};
use Body::{Change, Empty, Snapshot, Two, Worked};
use journal::{Replay, ReplayFault};
use row_store::Rows;
use std::alloc::Global;
use std::test::Fail;

/// The worked body of one pair: 52 bytes.
const WORKED: &[u8] = b"\x01\x00\x00\x00\
    \x01\x0e\x00\x00\x00https://a.test\x0e\x00\x00\x00https://a.test\x00\
    \x01\x00\x00\x00k\x01\x00\x00\x00v";

/// Row changes of one durable change.
#[derive(Clone, Copy)]
struct Case {
    name: &'static str,
    edits: &'static [Edit],
}

const CASES: &[Case] = &[
    Case {
        name: "pairs in the order in which their names came",
        edits: &[Put("k", "v"), Put("l", "w"), Put("k", "x")],
    },
    Case {
        name: "a removal",
        edits: &[Put("k", "v"), Put("l", "w"), Remove("k")],
    },
    Case {
        name: "a clear leaves the mode",
        edits: &[Put("k", "v"), Mode, Clear],
    },
    Case {
        name: "a mode without an area",
        edits: &[Mode],
    },
    Case {
        name: "cookies before, between and behind others",
        edits: &[
            Insert(false, 0, "m", 1),
            Insert(false, 0, "a", 2),
            Insert(false, 2, "z", 1),
            Insert(false, 1, "b", 0),
        ],
    },
    Case {
        name: "a cookie in the place of the same one",
        edits: &[
            Insert(false, 0, "m", 1),
            Insert(false, 1, "n", 1),
            Replace(false, 0, "m", 3),
        ],
    },
    Case {
        name: "a cookie that goes",
        edits: &[
            Insert(true, 0, "m", 1),
            Insert(true, 1, "n", 1),
            TakeOut(true, 0),
        ],
    },
    Case {
        name: "the same cookie in two cells",
        edits: &[Insert(true, 0, "m", 1), Insert(false, 0, "m", 2)],
    },
    Case {
        name: "a permission in the place of its pair's",
        edits: &[
            Grant("https://w.test", true),
            Grant("https://x.test", true),
            Grant("https://w.test", false),
        ],
    },
];

/// The body of a frame.
#[derive(Clone, Copy)]
enum Body {
    Empty,
    Worked,
    /// One durable change.
    Change(&'static [Edit]),
    /// One durable change behind another.
    Two(&'static [Edit], &'static [Edit]),
    /// A snapshot of these row changes.
    Snapshot(&'static [Edit]),
}

/// What is done with rows.
#[derive(Clone, Copy)]
enum Step {
    /// A frame is taken, of so many durable changes.
    Taken(Body, u64),
    /// A frame is refused, for a fault at this offset.
    Refused(Body, u64),
    Begin,
}

/// What is done one after another with rows that are empty at first.
#[derive(Clone, Copy)]
struct Course {
    name: &'static str,
    steps: &'static [Step],
}

const COURSES: &[Course] = &[
    Course {
        name: "the worked body is one change",
        steps: &[
            Step::Taken(Worked, 1),
            Step::Taken(Change(&[Remove("k")]), 1),
            Step::Refused(Change(&[Remove("k")]), 4),
        ],
    },
    Course {
        name: "a snapshot is read from nothing",
        steps: &[
            Step::Taken(Change(&[Put("gone", "x")]), 1),
            Step::Taken(Snapshot(&[Put("k", "v"), Mode]), 0),
            Step::Refused(Change(&[Remove("gone")]), 4),
        ],
    },
    Course {
        name: "durable changes are counted, and not row changes",
        steps: &[
            Step::Taken(Two(&[Put("k", "v"), Put("l", "w")], &[Mode]), 2),
            Step::Taken(Empty, 0),
        ],
    },
    Course {
        name: "a refusal leaves nothing, and frames go on",
        steps: &[
            Step::Taken(Change(&[Put("k", "v"), Insert(false, 0, "m", 1)]), 1),
            Step::Refused(Two(&[Put("l", "w")], &[]), 52),
            Step::Refused(Change(&[Clear]), 4),
            Step::Taken(Change(&[Put("k", "v"), Insert(false, 0, "m", 1)]), 1),
        ],
    },
    Course {
        name: "a begin forgets all",
        steps: &[
            Step::Taken(Change(&[Put("k", "v"), Grant("https://w.test", true)]), 1),
            Step::Begin,
            Step::Refused(Change(&[Clear]), 4),
        ],
    },
];

fn body_of(alloc: Global, body: Body) -> Result<Vec<u8>, Fail> {
    match body {
        Empty => Ok(Vec::new(alloc)),
        Worked => Ok(Vec::from_slice(alloc, WORKED)?),
        Change(edits) => change_of(alloc, edits),
        Two(first, second) => {
            let mut bytes = change_of(alloc, first)?;
            bytes.extend_from_slice(change_of(alloc, second)?.as_slice())?;
            Ok(bytes)
        }
        Snapshot(edits) => snapshot_of(alloc, edits),
    }
}

// What rows answer to a frame.
fn answer(alloc: Global, rows: &mut Rows, body: Body) -> Result<Result<u64, ReplayFault>, Fail> {
    let bytes = body_of(alloc, body)?;
    Ok(rows.frame(matches!(body, Snapshot(_)), bytes.as_slice()))
}

fn is_done(alloc: Global, rows: &mut Rows, step: Step) -> Result<bool, Fail> {
    match step {
        Step::Taken(body, changes) => Ok(answer(alloc, rows, body)? == Ok(changes)),
        Step::Refused(body, offset) => {
            Ok(answer(alloc, rows, body)? == Err(ReplayFault::Bad(offset)))
        }
        Step::Begin => {
            rows.begin();
            Ok(true)
        }
    }
}

fn are_done(alloc: Global, steps: &[Step]) -> Result<bool, Fail> {
    let mut rows = Rows::new(alloc);
    for step in steps {
        if !is_done(alloc, &mut rows, *step)? {
            return Ok(false);
        }
    }
    Ok(true)
}

#[test]
fn frames_one_after_another(rt: HostRuntime) -> Result<(), Fail> {
    let alloc = rt.alloc();
    for course in COURSES {
        assert!(rt; are_done(alloc, course.steps)?, "{}", course.name);
    }
    Ok(())
}

// Whether a frame of row changes is taken as one durable change.
fn is_taken(alloc: Global, edits: &[Edit]) -> Result<bool, Fail> {
    let body = change_of(alloc, edits)?;
    Ok(taken(alloc, false, body.as_slice()) == Ok(1))
}

// Whether row changes by themselves lead to what a frame of them leads to.
fn are_applied(alloc: Global, edits: &[Edit]) -> Result<bool, Fail> {
    let rows = applied(alloc, edits)?;
    let body = snapshot_of(alloc, edits)?;
    is_as_taken(alloc, &rows, body.as_slice())
}

#[test]
fn each_kind_is_taken_and_applied_by_itself(rt: HostRuntime) -> Result<(), Fail> {
    let alloc = rt.alloc();
    for case in CASES {
        assert!(rt; is_taken(alloc, case.edits)?, "{}", case.name);
        assert!(rt; are_applied(alloc, case.edits)?, "{}, by itself", case.name);
    }
    Ok(())
}
