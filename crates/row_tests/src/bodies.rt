//! Bodies read piece by piece, whole and cut.
use Want::{Begins, Fault, Row};
use row_changes::{Piece, Reader};
use std::alloc::Global;
use std::test::Fail;

/// A piece that is wanted. Of a row change its offset is looked at alone.
#[derive(Clone, Copy, Debug, PartialEq, Eq)]
enum Want {
    Begins,
    Row(usize),
    Fault(usize),
}

fn pieces_of(alloc: Global, snapshot: bool, body: &[u8]) -> Result<Vec<Want>, Fail> {
    let mut wants = Vec::new(alloc);
    let mut reader = Reader::new(snapshot, body);
    for _ in 0..body.len() + 2 {
        match reader.next(alloc)? {
            Some(Piece::Begins) => wants.push(Begins)?,
            Some(Piece::Row { at, .. }) => wants.push(Row(at))?,
            Some(Piece::Fault { at }) => wants.push(Fault(at))?,
            None => break,
        }
    }
    Ok(wants)
}

/// A clear of the local area of `https://a.test`: 38 bytes.
const CLEAR: &[u8] = b"\x03\x0e\x00\x00\x00https://a.test\x0e\x00\x00\x00https://a.test\x00";

const ONE: &[u8] = b"\x01\x00\x00\x00";

const TWO: &[u8] = b"\x02\x00\x00\x00";

const NONE: &[u8] = b"\x00\x00\x00\x00";

/// The parts of a body, whether it is a snapshot's, and its pieces.
#[derive(Clone, Copy)]
struct Case {
    name: &'static str,
    snapshot: bool,
    parts: &'static [&'static [u8]],
    pieces: &'static [Want],
}

const CASES: &[Case] = &[
    Case {
        name: "no change",
        snapshot: false,
        parts: &[],
        pieces: &[],
    },
    Case {
        name: "one change of two row changes, and one of one",
        snapshot: false,
        parts: &[TWO, CLEAR, CLEAR, ONE, CLEAR],
        pieces: &[Begins, Row(4), Row(42), Begins, Row(84)],
    },
    Case {
        name: "a count of 0",
        snapshot: false,
        parts: &[NONE],
        pieces: &[Fault(0)],
    },
    Case {
        name: "a count of 0 behind a change",
        snapshot: false,
        parts: &[ONE, CLEAR, NONE, ONE, CLEAR],
        pieces: &[Begins, Row(4), Fault(42)],
    },
    Case {
        name: "a count that is cut off",
        snapshot: false,
        parts: &[ONE, CLEAR, b"\x01\x00\x00"],
        pieces: &[Begins, Row(4), Fault(42)],
    },
    Case {
        name: "a row change fewer than the count says",
        snapshot: false,
        parts: &[TWO, CLEAR],
        pieces: &[Begins, Row(4), Fault(42)],
    },
    Case {
        name: "a count and no row change",
        snapshot: false,
        parts: &[ONE],
        pieces: &[Begins, Fault(4)],
    },
    Case {
        name: "a row change that is cut off",
        snapshot: false,
        parts: &[TWO, CLEAR, b"\x03\x0e\x00\x00\x00https"],
        pieces: &[Begins, Row(4), Fault(42)],
    },
    Case {
        name: "a code that is none",
        snapshot: false,
        parts: &[ONE, b"\x09", CLEAR],
        pieces: &[Begins, Fault(4)],
    },
    Case {
        name: "an empty snapshot",
        snapshot: true,
        parts: &[],
        pieces: &[],
    },
    Case {
        name: "a snapshot",
        snapshot: true,
        parts: &[CLEAR, CLEAR],
        pieces: &[Row(0), Row(38)],
    },
    Case {
        name: "a snapshot with a count",
        snapshot: true,
        parts: &[ONE, CLEAR],
        pieces: &[Fault(0)],
    },
    Case {
        name: "a snapshot that is cut off",
        snapshot: true,
        parts: &[CLEAR, b"\x03"],
        pieces: &[Row(0), Fault(38)],
    },
];

fn joined(alloc: Global, parts: &[&[u8]]) -> Result<Vec<u8>, Fail> {
    let mut body = Vec::new(alloc);
    for part in parts {
        body.extend_from_slice(part)?;
    }
    Ok(body)
}

// Whether a body is read in these pieces.
fn has_pieces(alloc: Global, snapshot: bool, body: &[u8], want: &[Want]) -> Result<bool, Fail> {
    Ok(pieces_of(alloc, snapshot, body)?.as_slice() == want)
}

fn is_read(alloc: Global, case: &Case) -> Result<bool, Fail> {
    let body = joined(alloc, case.parts)?;
    has_pieces(alloc, case.snapshot, body.as_slice(), case.pieces)
}

#[test]
fn pieces_and_first_faults(rt: HostRuntime) -> Result<(), Fail> {
    let alloc = rt.alloc();
    for case in CASES {
        assert!(rt; is_read(alloc, case)?, "{}", case.name);
    }
    Ok(())
}

// The pieces of a body of one row change that is cut in its count, or behind it.
const CUT: &[Want] = &[Fault(0)];

const CUT_BEHIND: &[Want] = &[Begins, Fault(4)];

#[test]
fn a_cut_body_has_its_fault_where_its_row_begins(rt: HostRuntime) -> Result<(), Fail> {
    let alloc = rt.alloc();
    let body = joined(alloc, &[ONE, CLEAR])?;
    for count in 1..body.len() {
        let want = if count < 4 { CUT } else { CUT_BEHIND };
        let found = has_pieces(alloc, false, &body[..count], want)?;
        assert!(rt; found, "{count} bytes");
    }
    Ok(())
}
