//! Cookies in row changes: each condition just inside and outside.
use crate::parts::Part::{Byte, Letters, Signed, Text};
use crate::parts::{HTTPS_A, is_change, put};
use std::alloc::Global;
use std::test::Fail;

/// What of a cookie differs from row to row.
#[derive(Clone, Copy)]
struct CookieRow {
    name: &'static str,
    partition: bool,
    pair: (u32, u32),
    domain: &'static str,
    path: &'static str,
    flags: u8,
    same_site: u8,
    taken: bool,
}

const PLAIN: CookieRow = CookieRow {
    name: "a cookie",
    partition: false,
    pair: (1, 0),
    domain: "w.test",
    path: "/",
    flags: 0,
    same_site: 0,
    taken: true,
};

const COOKIES: &[CookieRow] = &[
    PLAIN,
    CookieRow {
        name: "no name and no value",
        pair: (0, 0),
        taken: false,
        ..PLAIN
    },
    CookieRow {
        name: "4,096 bytes",
        pair: (96, 4000),
        ..PLAIN
    },
    CookieRow {
        name: "4,097 bytes",
        pair: (97, 4000),
        taken: false,
        ..PLAIN
    },
    CookieRow {
        name: "a path without a slash",
        path: "p/",
        taken: false,
        ..PLAIN
    },
    CookieRow {
        name: "an empty path",
        path: "",
        taken: false,
        ..PLAIN
    },
    CookieRow {
        name: "a host of the domain",
        domain: "x.y.w.test",
        ..PLAIN
    },
    CookieRow {
        name: "a host of another domain",
        domain: "v.test",
        ..PLAIN
    },
    CookieRow {
        name: "the suffix of the domain",
        domain: "test",
        ..PLAIN
    },
    CookieRow {
        name: "a host with a port",
        domain: "w.test:80",
        taken: false,
        ..PLAIN
    },
    CookieRow {
        name: "a host in upper case",
        domain: "W.test",
        taken: false,
        ..PLAIN
    },
    CookieRow {
        name: "an empty host",
        domain: "",
        taken: false,
        ..PLAIN
    },
    CookieRow {
        name: "the last flags",
        flags: 7,
        ..PLAIN
    },
    CookieRow {
        name: "a flag that is none",
        flags: 8,
        taken: false,
        ..PLAIN
    },
    CookieRow {
        name: "a SameSite attribute that is none",
        same_site: 4,
        taken: false,
        ..PLAIN
    },
    CookieRow {
        name: "a partitioned cookie that is Secure",
        partition: true,
        flags: 2,
        ..PLAIN
    },
    CookieRow {
        name: "a partitioned cookie that is not",
        partition: true,
        flags: 5,
        taken: false,
        ..PLAIN
    },
];

fn cookie_bytes(alloc: Global, row: &CookieRow) -> Result<Vec<u8>, Fail> {
    let mut out = Vec::new(alloc);
    put(&mut out, Byte(5))?;
    if row.partition {
        put(&mut out, Byte(1))?;
        put(&mut out, HTTPS_A)?;
        put(&mut out, Byte(1))?;
    } else {
        put(&mut out, Byte(0))?;
    }
    let (name, value) = row.pair;
    let parts = [
        Text("w.test"),
        Byte(0),
        Letters(name),
        Letters(value),
        Text(row.domain),
        Text(row.path),
        Byte(row.flags),
        Byte(row.same_site),
        Signed(1),
        Signed(2),
    ];
    for part in &parts {
        put(&mut out, *part)?;
    }
    Ok(out)
}

fn is_as_told(alloc: Global, row: &CookieRow) -> Result<bool, Fail> {
    let bytes = cookie_bytes(alloc, row)?;
    Ok(is_change(alloc, bytes.as_slice())? == row.taken)
}

#[test]
fn each_condition_on_a_cookie(rt: HostRuntime) -> Result<(), Fail> {
    let alloc = rt.alloc();
    for row in COOKIES {
        assert!(rt; is_as_told(alloc, row)?, "{}", row.name);
    }
    Ok(())
}
