//! What of rows stays under a suffix list.
use crate::applying::{apply, change_by, have_one_state};
use crate::bodies::Edit::Insert;
use crate::bodies::list_of;
use crate::spellings::Flaw::Domain;
use crate::spellings::{grant_of, key_of, with_flaw};
use Row::{Mode, Own, Pair, Partition, Permission};
use cookie_jar::{CellKey, Cookie};
use origin_site::Site;
use row_changes::Change;
use row_store::Rows;
use std::alloc::Global;
use std::test::Fail;

/// A row by what of it a list decides.
#[derive(Clone, Copy)]
enum Row {
    /// A pair in the area of an address under a top-level site, with a bit.
    Pair(&'static str, &'static str, bool),
    /// The mode of the same bucket.
    Mode(&'static str, &'static str, bool),
    /// A cookie of a host in the unpartitioned cell of a domain.
    Own(&'static str, &'static str),
    /// A cookie of a host in the cell of a domain under a top-level site.
    Partition(&'static str, &'static str, &'static str),
    /// A permission under a top-level site for an embedded one.
    Permission(&'static str, &'static str),
}

/// Rows, the text of a list, and the rows that stay under it.
#[derive(Clone, Copy)]
struct Case {
    name: &'static str,
    rows: &'static [Row],
    list: &'static str,
    left: &'static [Row],
}

const CASES: &[Case] = &[
    Case {
        name: "nothing",
        rows: &[],
        list: "",
        left: &[],
    },
    Case {
        name: "an area under its own site",
        rows: &[Pair("https://www.a.test/", "https://a.test", false)],
        list: "",
        left: &[Pair("https://www.a.test/", "https://a.test", false)],
    },
    Case {
        name: "an area and its mode whose origin has another site",
        rows: &[
            Pair("https://www.a.test/", "https://a.test", false),
            Mode("https://www.a.test/", "https://a.test", false),
        ],
        list: "a.test",
        left: &[],
    },
    Case {
        name: "a mode alone whose origin has another site",
        rows: &[Mode("https://www.a.test/", "https://a.test", false)],
        list: "a.test",
        left: &[],
    },
    Case {
        name: "an area with the bit set whose origin has another site",
        rows: &[Pair("https://www.a.test/", "https://a.test", true)],
        list: "a.test",
        left: &[Pair("https://www.a.test/", "https://a.test", true)],
    },
    Case {
        name: "an area under a host below its domain",
        rows: &[Pair("https://a.test/", "https://x.b.test", true)],
        list: "",
        left: &[],
    },
    Case {
        name: "an area under a host whose parent is a public suffix",
        rows: &[Pair("https://a.test/", "https://x.b.test", true)],
        list: "b.test",
        left: &[Pair("https://a.test/", "https://x.b.test", true)],
    },
    Case {
        name: "an area of an address of IP",
        rows: &[Pair("http://1.2.3.4/", "http://1.2.3.4", false)],
        list: "3.4",
        left: &[Pair("http://1.2.3.4/", "http://1.2.3.4", false)],
    },
    Case {
        name: "a cell of its domain",
        rows: &[Own("a.test", "a.test"), Own("a.test", "x.a.test")],
        list: "",
        left: &[Own("a.test", "a.test"), Own("a.test", "x.a.test")],
    },
    Case {
        name: "a cell with one cookie of another domain",
        rows: &[Own("a.test", "a.test"), Own("a.test", "x.a.test")],
        list: "a.test",
        left: &[],
    },
    Case {
        name: "a cell of a public suffix with cookies of this host",
        rows: &[Own("a.test", "a.test")],
        list: "a.test",
        left: &[Own("a.test", "a.test")],
    },
    Case {
        name: "a cell of a host below its domain",
        rows: &[Own("x.a.test", "x.a.test")],
        list: "",
        left: &[],
    },
    Case {
        name: "a partition of its domain",
        rows: &[Partition("https://a.test", "w.test", "w.test")],
        list: "",
        left: &[Partition("https://a.test", "w.test", "w.test")],
    },
    Case {
        name: "a partition with a cookie of another domain",
        rows: &[
            Partition("https://a.test", "w.test", "w.test"),
            Partition("https://a.test", "w.test", "x.w.test"),
        ],
        list: "w.test",
        left: &[],
    },
    Case {
        name: "a partition under a host below its domain",
        rows: &[Partition("https://x.a.test", "w.test", "w.test")],
        list: "",
        left: &[],
    },
    Case {
        name: "permissions of two sites",
        rows: &[Permission("https://a.test", "https://w.test")],
        list: "",
        left: &[Permission("https://a.test", "https://w.test")],
    },
    Case {
        name: "a permission under a host below its domain",
        rows: &[Permission("https://x.a.test", "https://w.test")],
        list: "",
        left: &[],
    },
    Case {
        name: "a permission for a host below its domain",
        rows: &[Permission("https://a.test", "https://x.w.test")],
        list: "",
        left: &[],
    },
    Case {
        name: "one of each kind that goes, beside one that stays",
        rows: &[
            Pair("https://www.a.test/", "https://a.test", false),
            Pair("https://b.test/", "https://b.test", false),
            Own("a.test", "x.a.test"),
            Own("b.test", "b.test"),
            Permission("https://b.test", "https://w.test"),
            Permission("https://b.test", "https://x.w.test"),
            Permission("https://w.test", "https://b.test"),
        ],
        list: "a.test",
        left: &[
            Pair("https://b.test/", "https://b.test", false),
            Own("b.test", "b.test"),
            Permission("https://b.test", "https://w.test"),
            Permission("https://w.test", "https://b.test"),
        ],
    },
];

fn cookie_of(alloc: Global, host: &'static str) -> Result<Cookie, Fail> {
    match change_by(alloc, Insert(false, 0, "n", 1))? {
        Change::CookieInsert { cookie, .. } => with_flaw(alloc, &cookie, Domain(host)),
        _ => Err(Fail::new("no cookie")),
    }
}

// A cookie at the front of a cell.
fn insertion(alloc: Global, cell: CellKey, host: &'static str) -> Result<Change, Fail> {
    Ok(Change::CookieInsert {
        cell,
        place: 0,
        cookie: cookie_of(alloc, host)?,
    })
}

fn change_of(alloc: Global, row: Row) -> Result<Change, Fail> {
    match row {
        Pair(address, top, bit) => Ok(Change::AreaPut {
            key: key_of(alloc, address, top, bit)?,
            name: String::from_str(alloc, "k")?,
            value: String::from_str(alloc, "v")?,
        }),
        Mode(address, top, bit) => Ok(Change::SetMode {
            key: key_of(alloc, address, top, bit)?,
        }),
        Own(domain, host) => {
            let domain = String::from_str(alloc, domain)?;
            insertion(alloc, CellKey::Own { domain }, host)
        }
        Partition(top, domain, host) => {
            let cell = CellKey::Partition {
                top: Site::read(alloc, top)?,
                bit: true,
                domain: String::from_str(alloc, domain)?,
            };
            insertion(alloc, cell, host)
        }
        Permission(top, site) => grant_of(alloc, top, site),
    }
}

fn rows_of(alloc: Global, listed: &[Row]) -> Result<Rows, Fail> {
    let mut rows = Rows::new(alloc);
    for row in listed {
        if apply(&mut rows, change_of(alloc, *row)?)?.is_err() {
            return Err(Fail::new("not applied"));
        }
    }
    Ok(rows)
}

// Whether those rows stay that have to, it is told whether some went, and once is enough.
fn is_migrated(alloc: Global, case: &Case) -> Result<bool, Fail> {
    let list = list_of(alloc, case.list.as_bytes())?;
    let mut rows = rows_of(alloc, case.rows)?;
    let went = rows.migrate(&list);
    let left = rows_of(alloc, case.left)?;
    Ok(
        went == (case.left.len() < case.rows.len())
            && have_one_state(alloc, &rows, &left)?
            && !rows.migrate(&list),
    )
}

#[test]
fn rows_stay_or_go_whole(rt: HostRuntime) -> Result<(), Fail> {
    let alloc = rt.alloc();
    for case in CASES {
        assert!(rt; is_migrated(alloc, case)?, "{}", case.name);
    }
    Ok(())
}
