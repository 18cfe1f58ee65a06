//! Stores under another suffix list: what stays, how many calls an opening makes, and what a cut
//! within one leaves.
use crate::shared::{OnDisk, are_told, disk_of, left_by, list_of, options};
use agent_core::Agent;
use disk_model::{Cut, Disk, MemDisk};
use std::alloc::{AllocError, Global};
use std::test::Fail;
use store_runs::Ending;

/// A pair at each of two sites.
const PAIRS: &[&str] = &[
    "{\"do\":\"open\",\"tab\":1,\"url\":\"https://www.shop.co.uk/\"}",
    "{\"do\":\"set\",\"tab\":1,\"key\":\"k\",\"value\":\"v\"}",
    "{\"do\":\"open\",\"tab\":2,\"url\":\"https://a.test/\"}",
    "{\"do\":\"set\",\"tab\":2,\"key\":\"k\",\"value\":\"w\"}",
];

/// What that prints under no rules: the first site is that of all of `co.uk`.
const PAIRS_OUT: &str = concat!(
    "{\"cookie\":null,\"do\":\"open\",\"is\":\"ok\",\"set\":[],\"site\":\"https://co.uk\"}\n",
    "{\"do\":\"set\",\"is\":\"ok\",\"site\":\"https://co.uk\"}\n",
    "{\"cookie\":null,\"do\":\"open\",\"is\":\"ok\",\"set\":[],\"site\":\"https://a.test\"}\n",
    "{\"do\":\"set\",\"is\":\"ok\",\"site\":\"https://a.test\"}\n",
);

/// The pairs are read.
const READ: &[&str] = &[
    "{\"do\":\"open\",\"tab\":1,\"url\":\"https://www.shop.co.uk/\"}",
    "{\"do\":\"get\",\"tab\":1,\"key\":\"k\"}",
    "{\"do\":\"open\",\"tab\":2,\"url\":\"https://a.test/\"}",
    "{\"do\":\"get\",\"tab\":2,\"key\":\"k\"}",
];

/// What that prints under the rule `co.uk`, and again under no rules.
const DIVIDED: &str = concat!(
    "{\"cookie\":null,\"do\":\"open\",\"is\":\"ok\",\"set\":[],\"site\":\"https://shop.co.uk\"}\n",
    "{\"do\":\"get\",\"is\":\"ok\",\"site\":\"https://shop.co.uk\",\"value\":null}\n",
    "{\"cookie\":null,\"do\":\"open\",\"is\":\"ok\",\"set\":[],\"site\":\"https://a.test\"}\n",
    "{\"do\":\"get\",\"is\":\"ok\",\"site\":\"https://a.test\",\"value\":\"w\"}\n",
);

const GONE: &str = concat!(
    "{\"cookie\":null,\"do\":\"open\",\"is\":\"ok\",\"set\":[],\"site\":\"https://co.uk\"}\n",
    "{\"do\":\"get\",\"is\":\"ok\",\"site\":\"https://co.uk\",\"value\":null}\n",
    "{\"cookie\":null,\"do\":\"open\",\"is\":\"ok\",\"set\":[],\"site\":\"https://a.test\"}\n",
    "{\"do\":\"get\",\"is\":\"ok\",\"site\":\"https://a.test\",\"value\":\"w\"}\n",
);

/// A cookie of each of two sites, and the loads by which they go out.
const COOKIES: &[&str] = &[
    concat!(
        "{\"do\":\"open\",\"tab\":1,\"url\":\"https://www.shop.co.uk/\",",
        "\"head\":[[\"Set-Cookie\",\"s=1; Max-Age=1000\"]]}"
    ),
    concat!(
        "{\"do\":\"open\",\"tab\":2,\"url\":\"https://a.test/\",",
        "\"head\":[[\"Set-Cookie\",\"t=1; Max-Age=1000\"]]}"
    ),
];

const COOKIES_OUT: &str = concat!(
    "{\"cookie\":null,\"do\":\"open\",\"is\":\"ok\",\"set\":[\"added\"],",
    "\"site\":\"https://co.uk\"}\n",
    "{\"cookie\":null,\"do\":\"open\",\"is\":\"ok\",\"set\":[\"added\"],",
    "\"site\":\"https://a.test\"}\n",
);

const LOADS: &[&str] = &[
    "{\"do\":\"open\",\"tab\":1,\"url\":\"https://www.shop.co.uk/\"}",
    "{\"do\":\"open\",\"tab\":2,\"url\":\"https://a.test/\"}",
];

const LOADS_OUT: &str = concat!(
    "{\"cookie\":null,\"do\":\"open\",\"is\":\"ok\",\"set\":[],\"site\":\"https://shop.co.uk\"}\n",
    "{\"cookie\":\"t=1\",\"do\":\"open\",\"is\":\"ok\",\"set\":[],\"site\":\"https://a.test\"}\n",
);

/// The list whose only line is `co.uk`, with no line feed behind it.
const DIVIDING: &str = "co.uk";

/// A run that stores the pairs under no rules.
const STORES: OnDisk = OnDisk {
    list: "",
    batch: 1,
    checkpoint: 0,
    lines: PAIRS,
    ending: Ending::Done,
    out: PAIRS_OUT,
};

/// One that reads them under the rule `co.uk`.
const DIVIDES: OnDisk = OnDisk {
    list: DIVIDING,
    batch: 1,
    checkpoint: 0,
    lines: READ,
    ending: Ending::Done,
    out: DIVIDED,
};

/// One that reads them under no rules again.
const GOES_BACK: OnDisk = OnDisk {
    list: "",
    batch: 1,
    checkpoint: 0,
    lines: READ,
    ending: Ending::Done,
    out: GONE,
};

/// A run that stores the cookies under no rules.
const SETS_COOKIES: OnDisk = OnDisk {
    list: "",
    batch: 1,
    checkpoint: 0,
    lines: COOKIES,
    ending: Ending::Done,
    out: COOKIES_OUT,
};

/// One that sends them under the rule `co.uk`.
const SENDS_COOKIES: OnDisk = OnDisk {
    list: DIVIDING,
    batch: 1,
    checkpoint: 0,
    lines: LOADS,
    ending: Ending::Done,
    out: LOADS_OUT,
};

/// Runs one after another over one store, each under its list.
#[derive(Clone, Copy)]
struct Course {
    name: &'static str,
    runs: &'static [OnDisk],
}

const COURSES: &[Course] = &[
    Course {
        name: "an area of a site that is divided goes, and another site's stays",
        runs: &[STORES, DIVIDES, DIVIDES],
    },
    Course {
        name: "what went does not come back with the old list",
        runs: &[STORES, DIVIDES, GOES_BACK],
    },
    Course {
        name: "a cell of cookies goes and stays so too",
        runs: &[SETS_COOKIES, SENDS_COOKIES],
    },
];

fn is_as_told(alloc: Global, course: &Course) -> Result<bool, Fail> {
    let disk = disk_of(alloc, &[], None)?;
    are_told(alloc, disk, course.runs)
}

#[test]
fn what_a_list_divides_goes(rt: HostRuntime) -> Result<(), Fail> {
    let alloc = rt.alloc();
    for course in COURSES {
        assert!(rt; is_as_told(alloc, course)?, "{}", course.name);
    }
    Ok(())
}

/// Where the version stands in a file.
const VERSION_AT: usize = 8;

/// How long the store of the two pairs is, and how long it is with the snapshot behind it.
const LENGTH: usize = 276;

const LONGER: usize = 375;

/// The snapshot of what stays, with both its gates, under the rule `co.uk`: its kind is 3, two
/// changes came before it, and behind its size stands the SHA-256 of `co.uk`.
const SNAPSHOT: &[u8] = b"\x01\x03\x02\x00\x00\x00\x00\x00\x00\x00\
\x50\x00\x00\x00\x00\x00\x00\x00\
\xad\x4f\xad\x2f\x5e\x5f\xb4\x80\xff\x7f\x9f\x64\x8c\x6b\x20\xbb\
\xd5\xe4\x43\x62\xd8\x68\x21\xe2\x9d\x30\xe6\x5e\x62\x62\x99\xb0\
\x01\x0e\x00\x00\x00https://a.test\x0e\x00\x00\x00https://a.test\x00\
\x01\x00\x00\x00k\x01\x00\x00\x00w\x00";

// The bytes of a disk.
fn file_of(alloc: Global, disk: &mut MemDisk) -> Result<Vec<u8>, Fail> {
    let Ok(len) = disk.len() else {
        return Err(Fail::from(AllocError));
    };
    let mut bytes = Vec::new(alloc);
    bytes.resize(len as usize, 0)?;
    match disk.read_at(0, &mut bytes) {
        Ok(()) => Ok(bytes),
        Err(_) => Err(Fail::from(AllocError)),
    }
}

// The store of the two pairs, of version 1 or of version 2.
fn store_of(alloc: Global, is_first: bool) -> Result<Vec<u8>, Fail> {
    let disk = disk_of(alloc, &[], None)?;
    let Some(mut left) = left_by(alloc, disk, &[STORES])? else {
        return Err(Fail::from(AllocError));
    };
    let mut file = file_of(alloc, &mut left)?;
    if is_first && file.len() > VERSION_AT {
        file[VERSION_AT] = 1;
    }
    Ok(file)
}

// A disk behind an opening under a list, which was cut or not.
fn opened(alloc: Global, disk: MemDisk, list: &str) -> Result<MemDisk, Fail> {
    let list = list_of(alloc, list)?;
    match Agent::open(alloc, disk, &list, options(1, 0)) {
        Ok(agent) => Ok(agent.into_disk()),
        Err(refused) => Ok(refused.disk),
    }
}

// How many changing calls an opening of these bytes makes under a list.
fn calls_under(alloc: Global, bytes: &[u8], list: &str) -> Result<u64, Fail> {
    let disk = disk_of(alloc, bytes, None)?;
    Ok(opened(alloc, disk, list)?.changing_calls())
}

/// How many changing calls an opening under the rule `co.uk` makes, of a store of version 1 or of
/// version 2.
const OPENINGS: &[(bool, u64)] = &[(false, 8), (true, 10)];

#[test]
fn a_snapshot_of_what_stays_is_written_once(rt: HostRuntime) -> Result<(), Fail> {
    let alloc = rt.alloc();
    for (is_first, calls) in OPENINGS {
        let store = store_of(alloc, *is_first)?;
        assert_eq!(rt; store.len(), LENGTH);
        let disk = disk_of(alloc, &store, None)?;
        let mut left = opened(alloc, disk, DIVIDING)?;
        assert_eq!(rt; left.changing_calls(), *calls);
        let file = file_of(alloc, &mut left)?;
        assert_eq!(rt; file.len(), LONGER);
        assert!(rt; &file[LENGTH..] == SNAPSHOT);
        assert_eq!(rt; calls_under(alloc, &file, DIVIDING)?, 1);
    }
    Ok(())
}

/// Cuts within an opening under the rule `co.uk` of the store of the two pairs, of version 1 or of
/// version 2: the calls that are cut and the picks, and how many calls the next opening of what is
/// left makes, under the old list and under the new one.
#[derive(Clone, Copy)]
struct Cuts {
    is_first: bool,
    calls: &'static [u64],
    picks: &'static [u8],
    old: u64,
    new: u64,
}

const CUTS: &[Cuts] = &[
    Cuts {
        is_first: false,
        calls: &[1, 2, 3, 4, 5, 6],
        picks: &[0, 1, 2, 3],
        old: 1,
        new: 8,
    },
    Cuts {
        is_first: false,
        calls: &[7, 8],
        picks: &[0],
        old: 1,
        new: 8,
    },
    Cuts {
        is_first: false,
        calls: &[7, 8],
        picks: &[1, 2, 3],
        old: 8,
        new: 1,
    },
    Cuts {
        is_first: true,
        calls: &[1],
        picks: &[0, 1, 2, 3],
        old: 3,
        new: 10,
    },
    Cuts {
        is_first: true,
        calls: &[2, 3],
        picks: &[0],
        old: 3,
        new: 10,
    },
    Cuts {
        is_first: true,
        calls: &[2, 3],
        picks: &[1, 2, 3],
        old: 1,
        new: 8,
    },
    Cuts {
        is_first: true,
        calls: &[4, 5, 6, 7, 8],
        picks: &[0, 1, 2, 3],
        old: 1,
        new: 8,
    },
    Cuts {
        is_first: true,
        calls: &[9, 10],
        picks: &[0],
        old: 1,
        new: 8,
    },
    Cuts {
        is_first: true,
        calls: &[9, 10],
        picks: &[1, 2, 3],
        old: 8,
        new: 1,
    },
];

// Whether what one cut leaves is opened by as many calls as it has to be, and has what stays.
fn is_left(alloc: Global, store: &[u8], cut: Cut, cuts: &Cuts) -> Result<bool, Fail> {
    let disk = disk_of(alloc, store, Some(cut))?;
    let mut left = opened(alloc, disk, DIVIDING)?.reopen();
    let file = file_of(alloc, &mut left)?;
    let old = calls_under(alloc, &file, "")?;
    let new = calls_under(alloc, &file, DIVIDING)?;
    let told = are_told(alloc, left, &[DIVIDES])?;
    Ok(old == cuts.old && new == cuts.new && told)
}

#[test]
fn a_cut_within_an_update_leaves_one_list_or_the_other(rt: HostRuntime) -> Result<(), Fail> {
    let alloc = rt.alloc();
    for cuts in CUTS {
        let store = store_of(alloc, cuts.is_first)?;
        for call in cuts.calls {
            for pick in cuts.picks {
                let cut = Cut {
                    call: *call,
                    pick: *pick,
                };
                assert!(rt; is_left(alloc, &store, cut, cuts)?, "cut {call}, {pick}");
            }
        }
    }
    Ok(())
}
