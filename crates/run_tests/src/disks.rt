//! Runs over a disk that other runs had: what a run leaves, and what is refused.
use crate::shared::{OnDisk, are_told, disk_of, left_by};
use disk_model::Cut;
use journal::OpenFault;
use std::alloc::Global;
use std::test::Fail;
use store_runs::Ending;

/// A pair is stored.
const STORE: &[&str] = &[
    "{\"do\":\"open\",\"tab\":1,\"url\":\"https://a.test/\"}",
    "{\"do\":\"set\",\"tab\":1,\"key\":\"k\",\"value\":\"v\"}",
];

/// What that prints, and what it prints where the commit of the pair is cut.
const STORED: &str = concat!(
    "{\"cookie\":null,\"do\":\"open\",\"is\":\"ok\",\"set\":[],\"site\":\"https://a.test\"}\n",
    "{\"do\":\"set\",\"is\":\"ok\",\"site\":\"https://a.test\"}\n",
);

const DOWN: &str = concat!(
    "{\"cookie\":null,\"do\":\"open\",\"is\":\"ok\",\"set\":[],\"site\":\"https://a.test\"}\n",
    "{\"do\":\"set\",\"is\":\"down\",\"site\":null}\n",
);

/// The pair is read.
const READ: &[&str] = &[
    "{\"do\":\"open\",\"tab\":1,\"url\":\"https://a.test/\"}",
    "{\"do\":\"get\",\"tab\":1,\"key\":\"k\"}",
];

/// What that prints where the pair is there, and where it is not.
const FOUND: &str = concat!(
    "{\"cookie\":null,\"do\":\"open\",\"is\":\"ok\",\"set\":[],\"site\":\"https://a.test\"}\n",
    "{\"do\":\"get\",\"is\":\"ok\",\"site\":\"https://a.test\",\"value\":\"v\"}\n",
);

const MISSED: &str = concat!(
    "{\"cookie\":null,\"do\":\"open\",\"is\":\"ok\",\"set\":[],\"site\":\"https://a.test\"}\n",
    "{\"do\":\"get\",\"is\":\"ok\",\"site\":\"https://a.test\",\"value\":null}\n",
);

/// Runs over a disk with these bytes and this cut, and those over what they leave once its power is
/// on again.
#[derive(Clone, Copy)]
struct Course {
    name: &'static str,
    bytes: &'static str,
    cut: Option<Cut>,
    runs: &'static [OnDisk],
    reopened: &'static [OnDisk],
}

/// A run that stores the pair.
const STORES: OnDisk = OnDisk {
    list: "",
    batch: 1,
    checkpoint: 0,
    lines: STORE,
    ending: Ending::Done,
    out: STORED,
};

/// One whose commit of the pair is cut.
const IS_CUT: OnDisk = OnDisk {
    list: "",
    batch: 1,
    checkpoint: 0,
    lines: STORE,
    ending: Ending::Device,
    out: DOWN,
};

/// A run that finds the pair.
const FINDS: OnDisk = OnDisk {
    list: "",
    batch: 1,
    checkpoint: 0,
    lines: READ,
    ending: Ending::Done,
    out: FOUND,
};

/// A run that does not find it.
const MISSES: OnDisk = OnDisk {
    list: "",
    batch: 1,
    checkpoint: 0,
    lines: READ,
    ending: Ending::Done,
    out: MISSED,
};

/// A run under another list, by which the pair's site is what it was.
const FINDS_UNDER_ANOTHER: OnDisk = OnDisk {
    list: "com\n",
    batch: 1,
    checkpoint: 0,
    lines: READ,
    ending: Ending::Done,
    out: FOUND,
};

/// A run over a file that is no store.
const NO_STORE: OnDisk = OnDisk {
    list: "",
    batch: 1,
    checkpoint: 0,
    lines: READ,
    ending: Ending::Store(OpenFault::NotAStore(0)),
    out: "",
};

const COURSES: &[Course] = &[
    Course {
        name: "a run goes on with the store that another left",
        bytes: "",
        cut: None,
        runs: &[STORES, FINDS],
        reopened: &[],
    },
    Course {
        name: "a commit that was cut is not left at all",
        bytes: "",
        cut: Some(Cut { call: 11, pick: 0 }),
        runs: &[IS_CUT],
        reopened: &[MISSES],
    },
    Course {
        name: "a commit that was cut is left whole",
        bytes: "",
        cut: Some(Cut { call: 11, pick: 1 }),
        runs: &[IS_CUT],
        reopened: &[FINDS],
    },
    Course {
        name: "a store of another list is opened, and then under its own again",
        bytes: "",
        cut: None,
        runs: &[STORES, FINDS_UNDER_ANOTHER, FINDS],
        reopened: &[],
    },
    Course {
        name: "a file that is no store is refused",
        bytes: "not a store",
        cut: None,
        runs: &[NO_STORE],
        reopened: &[],
    },
];

fn is_as_told(alloc: Global, course: &Course) -> Result<bool, Fail> {
    let disk = disk_of(alloc, course.bytes.as_bytes(), course.cut)?;
    match left_by(alloc, disk, course.runs)? {
        Some(left) => are_told(alloc, left.reopen(), course.reopened),
        None => Ok(false),
    }
}

#[test]
fn runs_over_a_disk_that_others_left(rt: HostRuntime) -> Result<(), Fail> {
    let alloc = rt.alloc();
    for course in COURSES {
        assert!(rt; is_as_told(alloc, course)?, "{}", course.name);
    }
    Ok(())
}
