//! The conditions on the state, each just inside and just outside. The row change that is tested is
//! the last of a body, so that its offset is the length of the body without it.
use crate::applying::{applied, apply, change_by, is_as_taken, taken};
use crate::bodies::Edit::{Clear, Insert, Mode, Numbered, Put, Remove, Replace, TakeOut, Weigh};
use crate::bodies::{Edit, front_of, put, snapshot_of};
use journal::ReplayFault;
use row_store::RowFault;
use std::alloc::Global;
use std::test::Fail;

/// Row changes that are done, the last one, and whether it is valid behind them.
#[derive(Clone, Copy)]
struct Case {
    name: &'static str,
    done: &'static [Edit],
    last: Edit,
    valid: bool,
}

const CASES: &[Case] = &[
    Case {
        name: "an area of 5,242,880 bytes",
        done: &[],
        last: Weigh(5_242_879),
        valid: true,
    },
    Case {
        name: "an area of one byte more",
        done: &[],
        last: Weigh(5_242_880),
        valid: false,
    },
    Case {
        name: "a pair that fills an area up",
        done: &[Weigh(5_242_877)],
        last: Put("l", "w"),
        valid: true,
    },
    Case {
        name: "a pair that passes the quota",
        done: &[Weigh(5_242_878)],
        last: Put("l", "w"),
        valid: false,
    },
    Case {
        name: "a value that is the same",
        done: &[Put("k", "v")],
        last: Put("k", "v"),
        valid: true,
    },
    Case {
        name: "a name that is there is removed",
        done: &[Put("k", "v")],
        last: Remove("k"),
        valid: true,
    },
    Case {
        name: "a name that is absent is removed",
        done: &[Put("k", "v")],
        last: Remove("l"),
        valid: false,
    },
    Case {
        name: "an area is cleared",
        done: &[Put("", "")],
        last: Clear,
        valid: true,
    },
    Case {
        name: "an empty area is cleared",
        done: &[],
        last: Clear,
        valid: false,
    },
    Case {
        name: "an area that became empty is cleared",
        done: &[Put("k", "v"), Remove("k")],
        last: Clear,
        valid: false,
    },
    Case {
        name: "a bucket becomes persistent",
        done: &[Put("k", "v")],
        last: Mode,
        valid: true,
    },
    Case {
        name: "a bucket is persistent already",
        done: &[Mode],
        last: Mode,
        valid: false,
    },
    Case {
        name: "a cookie at the end",
        done: &[Insert(false, 0, "m", 1)],
        last: Insert(false, 1, "n", 1),
        valid: true,
    },
    Case {
        name: "a cookie past the end",
        done: &[Insert(false, 0, "m", 1)],
        last: Insert(false, 2, "n", 1),
        valid: false,
    },
    Case {
        name: "a cookie in a cell that is empty, past its end",
        done: &[],
        last: Insert(true, 1, "n", 1),
        valid: false,
    },
    Case {
        name: "the same cookie is there",
        done: &[Insert(false, 0, "m", 1), Insert(false, 1, "n", 1)],
        last: Insert(false, 0, "n", 2),
        valid: false,
    },
    Case {
        name: "the same cookie is in another cell",
        done: &[Insert(true, 0, "m", 1)],
        last: Insert(false, 0, "m", 1),
        valid: true,
    },
    Case {
        name: "the same cookie is replaced",
        done: &[Insert(false, 0, "m", 1), Insert(false, 1, "n", 1)],
        last: Replace(false, 1, "n", 9),
        valid: true,
    },
    Case {
        name: "another cookie is replaced",
        done: &[Insert(false, 0, "m", 1), Insert(false, 1, "n", 1)],
        last: Replace(false, 0, "n", 9),
        valid: false,
    },
    Case {
        name: "a cookie is replaced at the end",
        done: &[Insert(false, 0, "m", 1)],
        last: Replace(false, 1, "m", 9),
        valid: false,
    },
    Case {
        name: "a cookie is replaced in a cell that is empty",
        done: &[],
        last: Replace(true, 0, "m", 9),
        valid: false,
    },
    Case {
        name: "the last cookie goes",
        done: &[Insert(true, 0, "m", 1), Insert(true, 1, "n", 1)],
        last: TakeOut(true, 1),
        valid: true,
    },
    Case {
        name: "a cookie at the end goes",
        done: &[Insert(true, 0, "m", 1)],
        last: TakeOut(true, 1),
        valid: false,
    },
    Case {
        name: "a cookie of a cell that is empty goes",
        done: &[Insert(false, 0, "m", 1)],
        last: TakeOut(true, 0),
        valid: false,
    },
    Case {
        name: "10,240 bytes in a partition",
        done: &[Insert(true, 0, "a", 4_095), Insert(true, 1, "b", 4_095)],
        last: Insert(true, 2, "c", 2_047),
        valid: true,
    },
    Case {
        name: "a byte more in a partition",
        done: &[Insert(true, 0, "a", 4_095), Insert(true, 1, "b", 4_095)],
        last: Insert(true, 2, "c", 2_048),
        valid: false,
    },
    Case {
        name: "bytes do not count in an unpartitioned cell",
        done: &[Insert(false, 0, "a", 4_095), Insert(false, 1, "b", 4_095)],
        last: Insert(false, 2, "c", 4_095),
        valid: true,
    },
    Case {
        name: "a partition of 10,240 bytes after a replacement",
        done: &[
            Insert(true, 0, "a", 4_095),
            Insert(true, 1, "b", 4_095),
            Insert(true, 2, "c", 1),
        ],
        last: Replace(true, 2, "c", 2_047),
        valid: true,
    },
    Case {
        name: "a partition of a byte more after a replacement",
        done: &[
            Insert(true, 0, "a", 4_095),
            Insert(true, 1, "b", 4_095),
            Insert(true, 2, "c", 1),
        ],
        last: Replace(true, 2, "c", 2_048),
        valid: false,
    },
];

// Whether the last row change is taken, or is a fault where it begins.
fn is_answered(alloc: Global, case: &Case) -> Result<bool, Fail> {
    let mut body = front_of(alloc, case.done.len() + 1, case.done)?;
    let offset = body.len() as u64;
    put(&mut body, case.last)?;
    let wanted = if case.valid {
        Ok(1)
    } else {
        Err(ReplayFault::Bad(offset))
    };
    Ok(taken(alloc, false, body.as_slice()) == wanted)
}

#[test]
fn a_row_change_is_valid_by_the_state(rt: HostRuntime) -> Result<(), Fail> {
    let alloc = rt.alloc();
    for case in CASES {
        assert!(rt; is_answered(alloc, case)?, "{}", case.name);
    }
    Ok(())
}

// The row changes that are done, and the last one where it is valid.
fn left_by(alloc: Global, case: &Case) -> Result<Vec<u8>, Fail> {
    let mut body = snapshot_of(alloc, case.done)?;
    if case.valid {
        put(&mut body, case.last)?;
    }
    Ok(body)
}

// Whether the last row change by itself is applied, or is not valid and leaves the state.
fn is_applied(alloc: Global, case: &Case) -> Result<bool, Fail> {
    let mut rows = applied(alloc, case.done)?;
    let wanted = if case.valid {
        Ok(())
    } else {
        Err(RowFault::Invalid)
    };
    if apply(&mut rows, change_by(alloc, case.last)?)? != wanted {
        return Ok(false);
    }
    is_as_taken(alloc, &rows, &left_by(alloc, case)?)
}

#[test]
fn a_row_change_by_itself_is_valid_by_the_state(rt: HostRuntime) -> Result<(), Fail> {
    let alloc = rt.alloc();
    for case in CASES {
        assert!(rt; is_applied(alloc, case)?, "{}", case.name);
    }
    Ok(())
}

// The row changes of so many cookies of one cell, whose names are the letters of their places.
fn rows_of_cookies(alloc: Global, partitioned: bool, count: u8) -> Result<Vec<u8>, Fail> {
    let mut rows = Vec::new(alloc);
    for place in 0..count {
        put(&mut rows, Numbered(partitioned, place))?;
    }
    Ok(rows)
}

// Whether so many cookies are a snapshot, and one more is a fault where it begins.
fn is_filled_by(alloc: Global, partitioned: bool, count: u8) -> Result<bool, Fail> {
    let mut body = rows_of_cookies(alloc, partitioned, count)?;
    let offset = body.len() as u64;
    let full = taken(alloc, true, body.as_slice());
    put(&mut body, Numbered(partitioned, count))?;
    let past = taken(alloc, true, body.as_slice());
    Ok(full == Ok(0) && past == Err(ReplayFault::Bad(offset)))
}

#[test]
fn a_cell_holds_180_cookies(rt: HostRuntime) -> Result<(), Fail> {
    let alloc = rt.alloc();
    assert!(rt; is_filled_by(alloc, false, 180)?);
    assert!(rt; is_filled_by(alloc, true, 180)?);
    Ok(())
}
