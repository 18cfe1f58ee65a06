//! The conditions on the fields of a row change by itself, each just inside and just outside.
use crate::applying::change_by;
use crate::bodies::Edit::Insert;
use Fields::{Key, Own, Partition, Permission};
use Flaw::{Domain, Letters, NoExpiry, NotSecure, Nothing, Path, Used};
use access_grants::GrantRow;
use cookie_jar::{CellKey, Cookie, CookieIdentity};
use origin_site::{Address, Site};
use row_changes::Change;
use row_store::Rows;
use std::alloc::Global;
use std::rc::Rc;
use std::test::Fail;
use storage_key::StorageKey;

/// What is unlike in a Secure cookie of the path `/`.
#[derive(Clone, Copy, PartialEq, Eq)]
pub enum Flaw {
    Nothing,
    /// The name is empty, and the value has so many letters.
    Letters(u32),
    Domain(&'static str),
    Path(&'static str),
    NotSecure,
    NoExpiry,
    Used,
}

/// A row change by its own fields.
#[derive(Clone, Copy)]
enum Fields {
    /// A clear of the area of an address under a top-level site, with a bit.
    Key(&'static str, &'static str, bool),
    /// A removal from the unpartitioned cell of a domain.
    Own(&'static str),
    /// A removal from the cell of a domain under a top-level site.
    Partition(&'static str, &'static str),
    /// A cookie of the cell of `a.test`, or of that of `w.test` under `https://a.test`.
    Cookie(bool, Flaw),
    /// A grant under a top-level site to an embedded site.
    Permission(&'static str, &'static str),
}

/// A row change, and whether it has a spelling.
#[derive(Clone, Copy)]
struct Case {
    name: &'static str,
    fields: Fields,
    spelled: bool,
}

const CASES: &[Case] = &[
    Case {
        name: "the bit clear under the own site",
        fields: Key("https://a.test/", "https://a.test", false),
        spelled: true,
    },
    Case {
        name: "the bit clear under another site",
        fields: Key("https://a.test/", "https://b.test", false),
        spelled: true,
    },
    Case {
        name: "the bit set under another site",
        fields: Key("https://a.test/", "https://b.test", true),
        spelled: true,
    },
    Case {
        name: "a host below its domain as a top-level site",
        fields: Key("https://a.test/", "https://x.b.test", true),
        spelled: true,
    },
    Case {
        name: "the cell of a domain",
        fields: Own("a.test"),
        spelled: true,
    },
    Case {
        name: "the cell of a host below its domain",
        fields: Own("x.a.test"),
        spelled: true,
    },
    Case {
        name: "the cell of a text that is no host",
        fields: Own("A.test"),
        spelled: false,
    },
    Case {
        name: "the cell of a host with a port",
        fields: Own("a.test:80"),
        spelled: false,
    },
    Case {
        name: "a partition of a domain",
        fields: Partition("https://a.test", "w.test"),
        spelled: true,
    },
    Case {
        name: "a partition of a host below its domain",
        fields: Partition("https://a.test", "x.w.test"),
        spelled: true,
    },
    Case {
        name: "a partition under a host below its domain",
        fields: Partition("https://x.a.test", "w.test"),
        spelled: true,
    },
    Case {
        name: "a partition of a text that is no host",
        fields: Partition("https://a.test", ""),
        spelled: false,
    },
    Case {
        name: "a cookie",
        fields: Fields::Cookie(false, Nothing),
        spelled: true,
    },
    Case {
        name: "a cookie of a host below the cell's domain",
        fields: Fields::Cookie(false, Domain("x.a.test")),
        spelled: true,
    },
    Case {
        name: "a cookie of another domain",
        fields: Fields::Cookie(false, Domain("b.test")),
        spelled: true,
    },
    Case {
        name: "a cookie of a text that is no host",
        fields: Fields::Cookie(false, Domain("A.test")),
        spelled: false,
    },
    Case {
        name: "a path that begins with a slash",
        fields: Fields::Cookie(false, Path("/p")),
        spelled: true,
    },
    Case {
        name: "a path that begins with none",
        fields: Fields::Cookie(false, Path("p")),
        spelled: false,
    },
    Case {
        name: "an empty path",
        fields: Fields::Cookie(false, Path("")),
        spelled: false,
    },
    Case {
        name: "a name and a value of 4,096 bytes",
        fields: Fields::Cookie(false, Letters(4_096)),
        spelled: true,
    },
    Case {
        name: "a name and a value of one byte more",
        fields: Fields::Cookie(false, Letters(4_097)),
        spelled: false,
    },
    Case {
        name: "an empty name and an empty value",
        fields: Fields::Cookie(false, Letters(0)),
        spelled: false,
    },
    Case {
        name: "no expiry",
        fields: Fields::Cookie(false, NoExpiry),
        spelled: false,
    },
    Case {
        name: "a last use",
        fields: Fields::Cookie(false, Used),
        spelled: false,
    },
    Case {
        name: "a cookie that is not Secure",
        fields: Fields::Cookie(false, NotSecure),
        spelled: true,
    },
    Case {
        name: "a partitioned cookie",
        fields: Fields::Cookie(true, Nothing),
        spelled: true,
    },
    Case {
        name: "a partitioned cookie that is not Secure",
        fields: Fields::Cookie(true, NotSecure),
        spelled: false,
    },
    Case {
        name: "a permission of two https sites",
        fields: Permission("https://a.test", "https://w.test"),
        spelled: true,
    },
    Case {
        name: "a permission of an http site",
        fields: Permission("https://a.test", "http://w.test"),
        spelled: false,
    },
    Case {
        name: "a permission under an http site",
        fields: Permission("http://a.test", "https://w.test"),
        spelled: false,
    },
];

fn letters(alloc: Global, count: u32) -> Result<String, Fail> {
    let mut text = String::new(alloc);
    for _ in 0..count {
        text.push('x')?;
    }
    Ok(text)
}

/// The cookie with what is unlike.
pub fn with_flaw(alloc: Global, cookie: &Cookie, flaw: Flaw) -> Result<Cookie, Fail> {
    let count = if let Letters(count) = flaw { count } else { 1 };
    let path = if let Path(path) = flaw { path } else { "/" };
    let domain = match flaw {
        Domain(domain) => domain,
        _ => cookie.identity.domain.as_str(),
    };
    let identity = CookieIdentity {
        name: String::new(alloc),
        domain: String::from_str(alloc, domain)?,
        path: String::from_str(alloc, path)?,
    };
    Ok(Cookie {
        identity: Rc::new(alloc, identity)?,
        value: Rc::new(alloc, letters(alloc, count)?)?,
        host_only: cookie.host_only,
        secure: flaw != NotSecure,
        http_only: cookie.http_only,
        same_site: cookie.same_site,
        creation: cookie.creation,
        expiry: if flaw == NoExpiry { None } else { Some(9) },
        last: if flaw == Used { 1 } else { 0 },
    })
}

fn cookie_with(alloc: Global, partitioned: bool, flaw: Flaw) -> Result<Change, Fail> {
    match change_by(alloc, Insert(partitioned, 0, "n", 1))? {
        Change::CookieInsert {
            cell,
            place,
            cookie,
        } => Ok(Change::CookieInsert {
            cell,
            place,
            cookie: with_flaw(alloc, &cookie, flaw)?,
        }),
        _ => Err(Fail::new("no cookie")),
    }
}

fn removal(cell: CellKey) -> Change {
    Change::CookieRemove { cell, place: 0 }
}

fn removal_under(alloc: Global, top: &str, domain: &str) -> Result<Change, Fail> {
    Ok(removal(CellKey::Partition {
        top: Site::read(alloc, top)?,
        bit: true,
        domain: String::from_str(alloc, domain)?,
    }))
}

/// The key of an address under a top-level site, with a bit.
pub fn key_of(alloc: Global, address: &str, top: &str, bit: bool) -> Result<StorageKey, Fail> {
    let top = Site::read(alloc, top)?;
    let origin = Address::read(alloc, address)?.origin(alloc)?;
    Ok(StorageKey { top, origin, bit })
}

/// A permission under a top-level site for an embedded one.
pub fn grant_of(alloc: Global, top: &str, site: &str) -> Result<Change, Fail> {
    Ok(Change::Grant {
        row: GrantRow {
            top: Site::read(alloc, top)?,
            site: Site::read(alloc, site)?,
            granted: true,
            until: 9,
        },
    })
}

fn change_with(alloc: Global, fields: Fields) -> Result<Change, Fail> {
    match fields {
        Key(address, top, bit) => Ok(Change::AreaClear {
            key: key_of(alloc, address, top, bit)?,
        }),
        Own(domain) => Ok(removal(CellKey::Own {
            domain: String::from_str(alloc, domain)?,
        })),
        Partition(top, domain) => removal_under(alloc, top, domain),
        Fields::Cookie(partitioned, flaw) => cookie_with(alloc, partitioned, flaw),
        Permission(top, site) => grant_of(alloc, top, site),
    }
}

// Whether a row change has a spelling.
fn is_spelled(alloc: Global, fields: Fields) -> Result<bool, Fail> {
    let change = change_with(alloc, fields)?;
    Ok(Rows::new(alloc).has_spelling(&change)?)
}

#[test]
fn a_row_change_has_a_spelling_by_its_own_fields(rt: HostRuntime) -> Result<(), Fail> {
    let alloc = rt.alloc();
    for case in CASES {
        let spelled = is_spelled(alloc, case.fields)?;
        assert!(rt; spelled == case.spelled, "{}", case.name);
    }
    Ok(())
}
