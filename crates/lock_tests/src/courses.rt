//! Courses of calls, each with its answers.
use agent_base::Label;
use std::alloc::Global;
use std::test::Fail;
use web_locks::{
    LockAnswer, LockFault, LockMode, LockOptions, LockRow, LockState, LockTable, NoLock,
};

// A call with its answer: the document first, then what the call takes, then what it answers.
enum Step {
    Request(Label, u32, u32, &'static str, LockOptions, Result<LockAnswer, LockFault>),
    Release(Label, u32, Result<(), NoLock>),
    DropOwner(Label),
    Rows(Label, &'static [(u32, &'static str, LockState)]),
    Next(Option<Label>, Option<Label>),
}

const ONE: Label = Label { tab: 1, frame: 0 };

const TWO: Label = Label { tab: 2, frame: 0 };

const THREE: Label = Label { tab: 3, frame: 0 };

const FRAME: Label = Label { tab: 1, frame: 1 };

const INNER: Label = Label { tab: 1, frame: 2 };

const LAST: Label = Label {
    tab: 65_535,
    frame: 255,
};

const ALONE: LockOptions = LockOptions {
    mode: LockMode::Exclusive,
    if_available: false,
    steal: false,
};

const SHARED: LockOptions = LockOptions {
    mode: LockMode::Shared,
    if_available: false,
    steal: false,
};

const AT_ONCE: LockOptions = LockOptions {
    mode: LockMode::Exclusive,
    if_available: true,
    steal: false,
};

const SHARED_AT_ONCE: LockOptions = LockOptions {
    mode: LockMode::Shared,
    if_available: true,
    steal: false,
};

const STEAL: LockOptions = LockOptions {
    mode: LockMode::Exclusive,
    if_available: false,
    steal: true,
};

const STEAL_AT_ONCE: LockOptions = LockOptions {
    mode: LockMode::Exclusive,
    if_available: true,
    steal: true,
};

const SHARED_STEAL: LockOptions = LockOptions {
    mode: LockMode::Shared,
    if_available: false,
    steal: true,
};

const HELD: LockState = LockState::Held;

const WAITS: LockState = LockState::Waiting;

const GIVEN: Result<LockAnswer, LockFault> = Ok(LockAnswer::Held);

const QUEUED: Result<LockAnswer, LockFault> = Ok(LockAnswer::Waiting);

const MISSED: Result<LockAnswer, LockFault> = Ok(LockAnswer::Unavailable);

// Two documents, a request that does not wait, and refusals.
const TWO_DOCUMENTS: &[Step] = &[
    Step::Request(ONE, 1, 5, "n", ALONE, GIVEN),
    Step::Request(TWO, 7, 5, "n", SHARED, QUEUED),
    Step::Request(TWO, 8, 5, "n", AT_ONCE, MISSED),
    Step::Release(ONE, 1, Ok(())),
    Step::Rows(TWO, &[(7, "n", HELD)]),
    Step::Release(ONE, 1, Err(NoLock)),
    Step::Request(ONE, 2, 5, "-x", ALONE, Err(LockFault::NotSupported)),
    Step::Request(TWO, 7, 5, "m", ALONE, Err(LockFault::IdUsed)),
    Step::Request(ONE, 3, 5, "n", STEAL, GIVEN),
    Step::Rows(TWO, &[]),
    Step::DropOwner(ONE),
    Step::Request(TWO, 9, 5, "n", ALONE, GIVEN),
];

// A steal takes all that hold the lock, its own document's too, and stands last. Those that wait
// stay, and a number whose lock was stolen is free.
const STEALS: &[Step] = &[
    Step::Request(ONE, 1, 5, "n", ALONE, GIVEN),
    Step::Request(TWO, 2, 5, "n", ALONE, QUEUED),
    Step::Request(THREE, 3, 5, "n", SHARED, QUEUED),
    Step::Request(ONE, 4, 5, "n", SHARED, QUEUED),
    Step::Request(THREE, 9, 5, "n", STEAL, GIVEN),
    Step::Rows(ONE, &[(4, "n", WAITS)]),
    Step::Rows(TWO, &[(2, "n", WAITS)]),
    Step::Rows(THREE, &[(3, "n", WAITS), (9, "n", HELD)]),
    Step::Release(ONE, 1, Err(NoLock)),
    Step::Request(ONE, 1, 5, "n", STEAL, GIVEN),
    Step::Rows(THREE, &[(3, "n", WAITS)]),
    Step::Rows(ONE, &[(4, "n", WAITS), (1, "n", HELD)]),
    Step::Release(ONE, 1, Ok(())),
    Step::Rows(TWO, &[(2, "n", HELD)]),
    Step::Rows(THREE, &[(3, "n", WAITS)]),
    Step::Release(TWO, 2, Ok(())),
    Step::Rows(THREE, &[(3, "n", HELD)]),
    Step::Rows(ONE, &[(4, "n", HELD)]),
    Step::Request(ONE, 5, 5, "n", STEAL, GIVEN),
    Step::Rows(ONE, &[(5, "n", HELD)]),
    Step::Rows(THREE, &[]),
];

// What is not supported is refused before a number that is used, and before anything goes.
const REFUSALS: &[Step] = &[
    Step::Request(ONE, 1, 5, "n", ALONE, GIVEN),
    Step::Request(ONE, 1, 5, "n", STEAL, Err(LockFault::IdUsed)),
    Step::Rows(ONE, &[(1, "n", HELD)]),
    Step::Request(ONE, 2, 5, "n", STEAL_AT_ONCE, Err(LockFault::NotSupported)),
    Step::Request(ONE, 2, 5, "n", SHARED_STEAL, Err(LockFault::NotSupported)),
    Step::Request(ONE, 1, 5, "n", SHARED_STEAL, Err(LockFault::NotSupported)),
    Step::Request(ONE, 1, 5, "-n", ALONE, Err(LockFault::NotSupported)),
    Step::Request(ONE, 2, 5, "m", STEAL, GIVEN),
    Step::Request(ONE, 3, 5, "", ALONE, GIVEN),
    Step::Request(ONE, 4, 5, "n-", ALONE, GIVEN),
    Step::Request(TWO, 1, 5, "\0", SHARED, GIVEN),
    Step::Request(ONE, 4_294_967_295, 5, "n", SHARED, QUEUED),
    Step::Rows(
        ONE,
        &[
            (1, "n", HELD),
            (2, "m", HELD),
            (3, "", HELD),
            (4, "n-", HELD),
            (4_294_967_295, "n", WAITS),
        ],
    ),
    Step::Release(ONE, 9, Err(NoLock)),
    Step::Release(THREE, 1, Err(NoLock)),
];

// A request that waits leaves, and the shared one behind it is given its lock.
const WAITING_LEAVES: &[Step] = &[
    Step::Request(ONE, 1, 5, "n", SHARED, GIVEN),
    Step::Request(TWO, 2, 5, "n", ALONE, QUEUED),
    Step::Request(THREE, 3, 5, "n", SHARED, QUEUED),
    Step::Release(TWO, 2, Ok(())),
    Step::Rows(THREE, &[(3, "n", HELD)]),
    Step::Release(ONE, 1, Ok(())),
    Step::Release(THREE, 3, Ok(())),
    Step::Request(TWO, 2, 5, "n", ALONE, GIVEN),
];

// Shared ones are given their locks together, up to an exclusive one.
const SHARED_RUN: &[Step] = &[
    Step::Request(ONE, 1, 5, "n", ALONE, GIVEN),
    Step::Request(TWO, 1, 5, "n", SHARED, QUEUED),
    Step::Request(TWO, 2, 5, "n", SHARED, QUEUED),
    Step::Request(TWO, 3, 5, "n", ALONE, QUEUED),
    Step::Request(TWO, 4, 5, "n", SHARED, QUEUED),
    Step::Release(ONE, 1, Ok(())),
    Step::Rows(
        TWO,
        &[
            (1, "n", HELD),
            (2, "n", HELD),
            (3, "n", WAITS),
            (4, "n", WAITS),
        ],
    ),
    Step::Release(TWO, 1, Ok(())),
    Step::Rows(TWO, &[(2, "n", HELD), (3, "n", WAITS), (4, "n", WAITS)]),
    Step::Release(TWO, 2, Ok(())),
    Step::Rows(TWO, &[(3, "n", HELD), (4, "n", WAITS)]),
    Step::Release(TWO, 3, Ok(())),
    Step::Rows(TWO, &[(4, "n", HELD)]),
];

// A shared one is not given its lock where an exclusive one waits, and then leaves no row.
const AVAILABLE: &[Step] = &[
    Step::Request(ONE, 1, 5, "n", SHARED, GIVEN),
    Step::Request(TWO, 1, 5, "n", SHARED_AT_ONCE, GIVEN),
    Step::Request(ONE, 2, 5, "n", ALONE, QUEUED),
    Step::Request(TWO, 2, 5, "n", SHARED_AT_ONCE, MISSED),
    Step::Rows(TWO, &[(1, "n", HELD)]),
    Step::Request(TWO, 2, 5, "n", SHARED, QUEUED),
    Step::Request(TWO, 3, 5, "m", AT_ONCE, GIVEN),
];

// A key and a name together tell locks apart.
const KEYS: &[Step] = &[
    Step::Request(ONE, 1, 5, "n", ALONE, GIVEN),
    Step::Request(FRAME, 1, 6, "n", ALONE, GIVEN),
    Step::Request(INNER, 1, 7, "n", ALONE, GIVEN),
    Step::Request(TWO, 1, 5, "m", ALONE, GIVEN),
    Step::Request(THREE, 1, 7, "n", ALONE, QUEUED),
    Step::Release(FRAME, 1, Ok(())),
    Step::Release(ONE, 1, Ok(())),
    Step::Rows(THREE, &[(1, "n", WAITS)]),
    Step::Release(INNER, 1, Ok(())),
    Step::Rows(THREE, &[(1, "n", HELD)]),
];

// The requests of a document go with it, and others are given their locks.
const DOCUMENTS_GO: &[Step] = &[
    Step::Next(None, None),
    Step::Request(ONE, 1, 5, "n", ALONE, GIVEN),
    Step::Request(TWO, 1, 5, "n", ALONE, QUEUED),
    Step::Request(ONE, 2, 5, "n", ALONE, QUEUED),
    Step::DropOwner(ONE),
    Step::Rows(ONE, &[]),
    Step::Rows(TWO, &[(1, "n", HELD)]),
    Step::Next(None, Some(TWO)),
    Step::Request(ONE, 1, 5, "n", ALONE, QUEUED),
    Step::Request(INNER, 1, 5, "n", ALONE, QUEUED),
    Step::Request(FRAME, 7, 5, "m", ALONE, GIVEN),
    Step::Next(None, Some(ONE)),
    Step::Next(Some(ONE), Some(FRAME)),
    Step::Next(Some(FRAME), Some(INNER)),
    Step::Next(Some(INNER), Some(TWO)),
    Step::Next(Some(TWO), None),
    Step::DropOwner(FRAME),
    Step::DropOwner(INNER),
    Step::Rows(FRAME, &[]),
    Step::Release(TWO, 1, Ok(())),
    Step::Rows(ONE, &[(1, "n", HELD)]),
    Step::Request(LAST, 0, 5, "m", ALONE, GIVEN),
    Step::Next(Some(ONE), Some(LAST)),
    Step::Next(Some(LAST), None),
    Step::DropOwner(THREE),
    Step::DropOwner(ONE),
    Step::DropOwner(LAST),
    Step::Next(None, None),
];

// Asks for a lock with ample memory.
fn request(
    alloc: Global,
    table: &mut LockTable<u32>,
    owner: Label,
    id: u32,
    key: u32,
    name: &str,
    options: LockOptions,
) -> Result<LockAnswer, LockFault> {
    match String::from_str(alloc, name) {
        Ok(name) => table.request(key, name, owner, id, options),
        Err(_) => Err(LockFault::NoMemory),
    }
}

fn are_rows(rows: &[LockRow], want: &[(u32, &str, LockState)]) -> bool {
    rows.len() == want.len()
        && rows.iter().zip(want).all(|(row, (id, name, state))| {
            row.id == *id && row.name.as_str() == *name && row.state == *state
        })
}

// Whether a document has these requests.
fn has(
    alloc: Global,
    table: &LockTable<u32>,
    owner: Label,
    want: &[(u32, &str, LockState)],
) -> bool {
    match table.rows(alloc, owner) {
        Ok(rows) => are_rows(&rows, want),
        Err(_) => false,
    }
}

// Whether a call answers as it has to.
fn answers(alloc: Global, table: &mut LockTable<u32>, step: &Step) -> bool {
    match step {
        Step::Request(owner, id, key, name, options, want) => {
            request(alloc, table, *owner, *id, *key, name, *options) == *want
        }
        Step::Release(owner, id, want) => table.release(*owner, *id) == *want,
        Step::DropOwner(owner) => {
            table.drop_owner(*owner);
            true
        }
        Step::Rows(owner, want) => has(alloc, table, *owner, want),
        Step::Next(after, want) => table.next_owner(*after) == *want,
    }
}

// Whether each call is answered as it has to be.
fn are_answered(alloc: Global, steps: &[Step]) -> bool {
    let mut table = LockTable::new(alloc);
    for step in steps {
        if !answers(alloc, &mut table, step) {
            return false;
        }
    }
    true
}

#[test]
fn courses_are_answered(rt: HostRuntime) -> Result<(), Fail> {
    let alloc = rt.alloc();
    assert!(rt; are_answered(alloc, TWO_DOCUMENTS));
    assert!(rt; are_answered(alloc, STEALS));
    assert!(rt; are_answered(alloc, REFUSALS));
    assert!(rt; are_answered(alloc, WAITING_LEAVES));
    assert!(rt; are_answered(alloc, SHARED_RUN));
    assert!(rt; are_answered(alloc, AVAILABLE));
    assert!(rt; are_answered(alloc, KEYS));
    assert!(rt; are_answered(alloc, DOCUMENTS_GO));
    Ok(())
}
