//! Row changes, written by hand field by field: each kind, and each condition on a key, a cell
//! and a permission, just inside and outside.
use crate::parts::Part::{Byte, Raw, Signed, Text};
use crate::parts::{HTTP_A, HTTPS_A, Part, Row, bytes_of, is_change};
use access_grants::GrantRow;
use origin_site::{Address, Site};
use row_changes::{Change, read_change, write_changes, write_rows};
use std::alloc::Global;
use std::test::Fail;
use storage_key::StorageKey;

const KINDS: &[Row] = &[
    Row {
        name: "a pair",
        parts: &[Byte(1), HTTPS_A, HTTPS_A, Byte(0), Text("k"), Text("v")],
        taken: true,
    },
    Row {
        name: "an empty name and an empty value",
        parts: &[Byte(1), HTTPS_A, HTTPS_A, Byte(0), Text(""), Text("")],
        taken: true,
    },
    Row {
        name: "a removal of a pair whose name is not ASCII",
        parts: &[Byte(2), HTTPS_A, HTTPS_A, Byte(0), Text("é")],
        taken: true,
    },
    Row {
        name: "a clear",
        parts: &[Byte(3), HTTP_A, HTTP_A, Byte(0)],
        taken: true,
    },
    Row {
        name: "a mode, of an origin with a port under another site",
        parts: &[Byte(4), Text("http://x.w.test:8080"), HTTPS_A, Byte(1)],
        taken: true,
    },
    Row {
        name: "an unpartitioned cookie at the last place, with times before 1970",
        parts: &[
            Byte(5),
            Byte(0),
            Text("a.test"),
            Byte(255),
            Text(""),
            Text("v"),
            Text("x.a.test"),
            Text("/p"),
            Byte(0),
            Byte(0),
            Signed(-1),
            Signed(i64::MIN),
        ],
        taken: true,
    },
    Row {
        name: "a partitioned cookie in the place of another",
        parts: &[
            Byte(6),
            Byte(1),
            HTTPS_A,
            Byte(1),
            Text("w.test"),
            Byte(0),
            Text("n"),
            Text("1"),
            Text("w.test"),
            Text("/"),
            Byte(7),
            Byte(3),
            Signed(1),
            Signed(2),
        ],
        taken: true,
    },
    Row {
        name: "a cookie that goes",
        parts: &[Byte(7), Byte(1), HTTPS_A, Byte(0), Text("w.test"), Byte(3)],
        taken: true,
    },
    Row {
        name: "a denial",
        parts: &[Byte(8), HTTPS_A, Text("https://w.test"), Byte(2), Signed(9)],
        taken: true,
    },
];

const KEYS: &[Row] = &[
    Row {
        name: "the code 0",
        parts: &[Byte(0), HTTPS_A, HTTPS_A, Byte(0)],
        taken: false,
    },
    Row {
        name: "the code 9",
        parts: &[Byte(9), HTTPS_A, HTTPS_A, Byte(0)],
        taken: false,
    },
    Row {
        name: "a bit of 2",
        parts: &[Byte(3), HTTPS_A, HTTPS_A, Byte(2)],
        taken: false,
    },
    Row {
        name: "the bit clear under another site",
        parts: &[Byte(3), HTTPS_A, Text("https://b.test"), Byte(0)],
        taken: true,
    },
    Row {
        name: "the bit clear under the other scheme",
        parts: &[Byte(3), HTTP_A, HTTPS_A, Byte(0)],
        taken: true,
    },
    Row {
        name: "the bit set under the own site",
        parts: &[Byte(3), HTTPS_A, HTTPS_A, Byte(1)],
        taken: true,
    },
    Row {
        name: "an origin below the site",
        parts: &[Byte(3), Text("https://x.a.test"), HTTPS_A, Byte(0)],
        taken: true,
    },
    Row {
        name: "an origin with a path",
        parts: &[Byte(3), Text("https://a.test/"), HTTPS_A, Byte(0)],
        taken: false,
    },
    Row {
        name: "an origin with its default port",
        parts: &[Byte(3), Text("https://a.test:443"), HTTPS_A, Byte(0)],
        taken: false,
    },
    Row {
        name: "an origin in upper case",
        parts: &[Byte(3), Text("https://A.test"), HTTPS_A, Byte(0)],
        taken: false,
    },
    Row {
        name: "an origin of another scheme",
        parts: &[Byte(3), Text("ftp://a.test"), HTTPS_A, Byte(1)],
        taken: false,
    },
    Row {
        name: "a top-level site of a host below a domain",
        parts: &[Byte(3), HTTPS_A, Text("https://x.a.test"), Byte(1)],
        taken: true,
    },
    Row {
        name: "a top-level site of a part of the origin's host",
        parts: &[
            Byte(3),
            Text("https://y.x.a.test"),
            Text("https://x.a.test"),
            Byte(0),
        ],
        taken: true,
    },
    Row {
        name: "a top-level site of the origin's last label",
        parts: &[Byte(3), HTTPS_A, Text("https://test"), Byte(0)],
        taken: true,
    },
    Row {
        name: "a top-level site of an empty host",
        parts: &[Byte(3), HTTPS_A, Text("https://"), Byte(0)],
        taken: false,
    },
    Row {
        name: "a top-level site that begins with the origin's dot",
        parts: &[Byte(3), HTTPS_A, Text("https://.test"), Byte(0)],
        taken: true,
    },
    Row {
        name: "a top-level site with a port",
        parts: &[Byte(3), HTTPS_A, Text("https://a.test:8443"), Byte(1)],
        taken: false,
    },
    Row {
        name: "a public suffix as the top-level site",
        parts: &[Byte(3), HTTPS_A, Text("https://co.uk"), Byte(1)],
        taken: true,
    },
    Row {
        name: "an IP address as both",
        parts: &[
            Byte(3),
            Text("https://192.0.2.7:1"),
            Text("https://192.0.2.7"),
            Byte(0),
        ],
        taken: true,
    },
    Row {
        name: "the last labels of an IP address",
        parts: &[
            Byte(3),
            Text("https://192.0.2.7"),
            Text("https://2.7"),
            Byte(0),
        ],
        taken: false,
    },
    Row {
        name: "a name that is not UTF-8",
        parts: &[Byte(2), HTTPS_A, HTTPS_A, Byte(0), Raw(&[1, 0, 0, 0, 0xff])],
        taken: false,
    },
];

const CELLS: &[Row] = &[
    Row {
        name: "a cell of the kind 2",
        parts: &[Byte(7), Byte(2), Text("a.test"), Byte(0)],
        taken: false,
    },
    Row {
        name: "a domain",
        parts: &[Byte(7), Byte(0), Text("a.co.uk"), Byte(0)],
        taken: true,
    },
    Row {
        name: "a public suffix",
        parts: &[Byte(7), Byte(0), Text("co.uk"), Byte(0)],
        taken: true,
    },
    Row {
        name: "a host below its domain",
        parts: &[Byte(7), Byte(0), Text("x.a.co.uk"), Byte(0)],
        taken: true,
    },
    Row {
        name: "a domain with a port",
        parts: &[Byte(7), Byte(0), Text("a.test:80"), Byte(0)],
        taken: false,
    },
    Row {
        name: "an empty domain",
        parts: &[Byte(7), Byte(0), Text(""), Byte(0)],
        taken: false,
    },
    Row {
        name: "an IPv6 address",
        parts: &[Byte(7), Byte(0), Text("[2001:db8::1]"), Byte(0)],
        taken: true,
    },
    Row {
        name: "an IPv4 address in a short form",
        parts: &[Byte(7), Byte(0), Text("192.0.519"), Byte(0)],
        taken: false,
    },
    Row {
        name: "a bit of 2 in a partition",
        parts: &[Byte(7), Byte(1), HTTPS_A, Byte(2), Text("w.test"), Byte(0)],
        taken: false,
    },
    Row {
        name: "a permission of an http site",
        parts: &[Byte(8), HTTPS_A, Text("http://w.test"), Byte(1), Signed(9)],
        taken: false,
    },
    Row {
        name: "a permission under an http site",
        parts: &[Byte(8), HTTP_A, Text("https://w.test"), Byte(1), Signed(9)],
        taken: false,
    },
    Row {
        name: "a permission that says 0",
        parts: &[Byte(8), HTTPS_A, Text("https://w.test"), Byte(0), Signed(9)],
        taken: false,
    },
];

const TABLES: &[&[Row]] = &[KINDS, KEYS, CELLS];

// Whether fields are taken as a row change, or not.
fn is_as_told(alloc: Global, row: &Row) -> Result<bool, Fail> {
    let bytes = bytes_of(alloc, row.parts)?;
    Ok(is_change(alloc, bytes.as_slice())? == row.taken)
}

#[test]
fn each_kind_and_condition(rt: HostRuntime) -> Result<(), Fail> {
    let alloc = rt.alloc();
    for rows in TABLES {
        for row in *rows {
            assert!(rt; is_as_told(alloc, row)?, "{}", row.name);
        }
    }
    Ok(())
}

// Whether fields that are cut short are a row change at some length.
fn has_front(alloc: Global, row: &Row) -> Result<bool, Fail> {
    let bytes = bytes_of(alloc, row.parts)?;
    for count in 0..bytes.len() {
        if read_change(alloc, &bytes[..count])?.is_some() {
            return Ok(true);
        }
    }
    Ok(false)
}

#[test]
fn no_front_of_a_row_change_is_one(rt: HostRuntime) -> Result<(), Fail> {
    let alloc = rt.alloc();
    for row in KINDS {
        assert!(rt; !has_front(alloc, row)?, "{}", row.name);
    }
    Ok(())
}

/// `v` under `k` in the local area of `https://a.test`: a durable change of one row change.
const WORKED: &[u8] = b"\x01\x00\x00\x00\
    \x01\x0e\x00\x00\x00https://a.test\x0e\x00\x00\x00https://a.test\x00\
    \x01\x00\x00\x00k\x01\x00\x00\x00v";

// The row change of that body.
fn worked(alloc: Global) -> Result<Vec<Change>, Fail> {
    let origin = Address::read(alloc, "https://a.test/")?.origin(alloc)?;
    let top = Site::read(alloc, "https://a.test")?;
    let key = StorageKey {
        top,
        origin,
        bit: false,
    };
    let name = String::from_str(alloc, "k")?;
    let value = String::from_str(alloc, "v")?;
    let mut changes = Vec::new(alloc);
    changes.push(Change::AreaPut { key, name, value })?;
    Ok(changes)
}

// Whether row changes are written as these bytes.
fn are_written(alloc: Global, changes: &[Change], bytes: &[u8]) -> Result<bool, Fail> {
    Ok(write_rows(alloc, changes)?.as_slice() == bytes)
}

// Whether the worked row change is written as that body.
fn is_worked_body(alloc: Global) -> Result<bool, Fail> {
    let changes = worked(alloc)?;
    if changes.is_empty() {
        return Ok(false);
    }
    let rows = are_written(alloc, changes.as_slice(), &WORKED[4..])?;
    Ok(rows && write_changes(alloc, changes.as_slice())?.as_slice() == WORKED)
}

#[test]
fn the_worked_body(rt: HostRuntime) -> Result<(), Fail> {
    let alloc = rt.alloc();
    assert_eq!(rt; WORKED.len(), 52);
    assert!(rt; is_worked_body(alloc)?);
    assert!(rt; is_change(alloc, &WORKED[4..])?);
    Ok(())
}

// The fields of one row change of each kind, one behind another.
fn all_kinds(alloc: Global) -> Result<Vec<u8>, Fail> {
    let mut bytes = Vec::new(alloc);
    for row in KINDS {
        bytes.extend_from_slice(bytes_of(alloc, row.parts)?.as_slice())?;
    }
    Ok(bytes)
}

// Copies of so many row changes that stand in bytes, or nothing where they are no more, no fewer.
fn read_all(alloc: Global, bytes: &[u8], count: usize) -> Result<Option<Vec<Change>>, Fail> {
    let mut changes = Vec::new(alloc);
    let mut rest = bytes;
    for _ in 0..count {
        let Some((change, behind)) = read_change(alloc, rest)? else {
            return Ok(None);
        };
        changes.push(change.copy(alloc)?)?;
        rest = behind;
    }
    Ok(rest.is_empty().then_some(changes))
}

// Whether row changes one behind another are written again as they were read.
fn are_written_again(alloc: Global) -> Result<bool, Fail> {
    let bytes = all_kinds(alloc)?;
    match read_all(alloc, bytes.as_slice(), KINDS.len())? {
        Some(changes) => are_written(alloc, changes.as_slice(), bytes.as_slice()),
        None => Ok(false),
    }
}

#[test]
fn what_stands_behind_is_left(rt: HostRuntime) -> Result<(), Fail> {
    let alloc = rt.alloc();
    assert!(rt; are_written_again(alloc)?);
    Ok(())
}

// A permission of two sites.
fn granted(alloc: Global) -> Result<Vec<Change>, Fail> {
    let row = GrantRow {
        top: Site::read(alloc, "https://a.test")?,
        site: Site::read(alloc, "https://w.test")?,
        granted: true,
        until: 1_769_817_600,
    };
    let mut changes = Vec::new(alloc);
    changes.push(Change::Grant { row })?;
    Ok(changes)
}

/// The fields of that permission, with the bytes of its end.
const GRANTED: &[Part] = &[
    Byte(8),
    HTTPS_A,
    Text("https://w.test"),
    Byte(1),
    Raw(&[0x00, 0x46, 0x7d, 0x69, 0, 0, 0, 0]),
];

fn grant_is_written(alloc: Global) -> Result<bool, Fail> {
    let changes = granted(alloc)?;
    let bytes = bytes_of(alloc, GRANTED)?;
    are_written(alloc, changes.as_slice(), bytes.as_slice())
}

#[test]
fn a_row_of_two_sites(rt: HostRuntime) -> Result<(), Fail> {
    assert!(rt; grant_is_written(rt.alloc())?);
    Ok(())
}
