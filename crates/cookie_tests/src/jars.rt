//! Cookies of texts, stored in a jar or dropped, and sent.
use agent_base::MemSource;
use cookie_jar::{
    Access, CellKey, CookieDrop, Jar, JarStep, Plan, Stored, StoredKind, domain_of_cell, header,
};
use origin_site::Site;
use partition_limits::CellKind;
use setcookie_parse::{Parsed, parse};
use std::alloc::Global;
use std::test::Fail;
use suffix_list::SuffixList;

fn list_of(alloc: Global) -> Result<SuffixList, Fail> {
    list_of_text(alloc, "co.uk")
}

fn list_of_text(alloc: Global, text: &str) -> Result<SuffixList, Fail> {
    let bytes = Vec::from_slice(alloc, text.as_bytes())?;
    let mut source = MemSource::new(bytes, Vec::new(alloc));
    Ok(SuffixList::read(alloc, &mut source)?)
}

// A first-party request for an http URL of this host and path.
fn access_of<'a>(host: &'a str, path: &'a str) -> Access<'a> {
    Access {
        https: false,
        host,
        ip: false,
        path,
        first: true,
        same_site: true,
        top_load: true,
        safe: true,
        script: false,
        granted: false,
    }
}

// Whether the cookie of a text is planned for an empty jar as its only one, with this path, or why
// it is dropped.
fn is_planned(
    alloc: Global,
    list: &SuffixList,
    jar: &Jar,
    (host, text, want): (&str, &str, Result<&str, CookieDrop>),
) -> Result<bool, Fail> {
    let Parsed::Kept(cookie) = parse(text, 1) else {
        return Ok(false);
    };
    Ok(
        match jar.plan(alloc, &cookie, &access_of(host, "/"), list, 1) {
            Ok(plan) => is_only_one(&plan) && want == Ok(plan.fresh().identity.path.as_str()),
            Err(why) => want == Err(why),
        },
    )
}

// Whether a cookie is added to an empty jar.
fn is_only_one(plan: &Plan) -> bool {
    plan.kind() == StoredKind::Added
        && plan.steps() == [JarStep::Insert { place: 0, rank: 0 }].as_slice()
}

// Whether a copy of a jar has nothing to send.
fn copy_is_silent(alloc: Global, jar: &Jar) -> Result<bool, Fail> {
    let copy = jar.copy(alloc)?;
    Ok(
        copy.pick(alloc, &access_of("www.host.test", "/"), 1)?
            .is_empty(),
    )
}

// A host, the text of a cookie, and the path that it has in an empty jar, or why that drops it.
const PLANS: &[(&str, &str, Result<&str, CookieDrop>)] = &[
    (
        "google.co.uk",
        "a=1; domain=.co.uk",
        Err(CookieDrop::PublicSuffix),
    ),
    ("a.b.c.d.com", "b=2; domain=.b.c.d.com", Ok("/")),
    (
        "foo.com.com",
        "a=1; domain=.foo.com.com.com",
        Err(CookieDrop::DomainMismatch),
    ),
    ("www.google.com", "a=1; domain=www.google.com", Ok("/")),
    ("co.uk", "a=1", Ok("/")),
    (
        "www.host.test",
        "a=1; secure",
        Err(CookieDrop::NotSecureUrl),
    ),
    ("www.host.test", "A=a; path=/foo/bar", Ok("/foo/bar")),
];

#[test]
fn plans_of_outside_cases(rt: HostRuntime) -> Result<(), Fail> {
    let alloc = rt.alloc();
    let list = list_of(alloc)?;
    let jar = Jar::new(alloc, CellKind::Own);
    for case in PLANS {
        let planned = is_planned(alloc, &list, &jar, *case)?;
        assert!(rt; planned, "{} from {}", case.1, case.0);
    }
    assert!(rt; copy_is_silent(alloc, &jar)?);
    Ok(())
}

// Stores the cookies of these texts, which stand between bars, and gives what goes out a second
// later to a host and a path.
fn sent_after(
    alloc: Global,
    list: &SuffixList,
    from: &Access<'_>,
    texts: &str,
    to: &Access<'_>,
) -> Result<String, Fail> {
    let mut jar = Jar::new(alloc, CellKind::Own);
    for text in texts.split('|') {
        store(alloc, &mut jar, list, from, text, 1)?;
    }
    let places = jar.pick(alloc, to, 2)?;
    Ok(header(
        alloc,
        &jar,
        &places,
        &Jar::new(alloc, CellKind::Partition),
        &[],
    )?)
}

// Stores the cookie of a text, which is read in second 1.
fn store(
    alloc: Global,
    jar: &mut Jar,
    list: &SuffixList,
    access: &Access<'_>,
    text: &str,
    now: i64,
) -> Result<Stored, Fail> {
    match parse(text, 1) {
        Parsed::Kept(cookie) => Ok(jar.store(alloc, &cookie, access, list, now)?),
        _ => Err(Fail::new("no cookie")),
    }
}

/// Texts stored from a host and a path, divided by `|`, and the header that goes to others.
#[derive(Clone, Copy)]
struct Case {
    name: &'static str,
    from: (&'static str, &'static str),
    texts: &'static str,
    to: (&'static str, &'static str),
    header: &'static str,
}

const HEADERS: &[Case] = &[
    Case {
        name: "the longer path goes first",
        from: ("www.host.test", "/"),
        texts: "A=a; path=/foo/bar|B=b; path=/foo/bar/baz/qux|C=c; path=/foo/bar/baz|D=d; path=/foo",
        to: ("www.host.test", "/foo/bar/baz/qux"),
        header: "B=b; C=c; A=a; D=d",
    },
    Case {
        name: "cookies of one path go by their age",
        from: ("www.host.test", "/"),
        texts: "A=1; path=/|A=2; path=/path|A=3; path=/quux|A=4; domain=.host.test; path=/path",
        to: ("www.host.test", "/path/foo"),
        header: "A=2; A=4; A=1",
    },
    Case {
        name: "a path of the segments before",
        from: ("www.google.izzle", "/"),
        texts: "a=1; path=/wee",
        to: ("www.google.izzle", "/wee/war"),
        header: "a=1",
    },
    Case {
        name: "a path that ends within a segment",
        from: ("www.google.izzle", "/"),
        texts: "a=1; path=/wee",
        to: ("www.google.izzle", "/weehee"),
        header: "",
    },
    Case {
        name: "a domain is for the hosts below it",
        from: ("www.host.test", "/"),
        texts: "a=1; domain=host.test",
        to: ("bar.host.test", "/"),
        header: "a=1",
    },
    Case {
        name: "the default path is the folder",
        from: ("www.example.com", "/dir/index.html"),
        texts: "a=b",
        to: ("www.example.com", "/dir/x"),
        header: "a=b",
    },
    Case {
        name: "a cookie without a domain is for its host alone",
        from: ("www.example.com", "/dir/index.html"),
        texts: "a=b",
        to: ("x.www.example.com", "/dir/x"),
        header: "",
    },
    Case {
        name: "a cookie without a name stays where another one goes",
        from: ("www.example.com", "/"),
        texts: "a=b|=c|a=; Max-Age=-1",
        to: ("www.example.com", "/"),
        header: "c",
    },
];

fn is_sent(alloc: Global, list: &SuffixList, case: &Case) -> Result<bool, Fail> {
    let from = access_of(case.from.0, case.from.1);
    let to = access_of(case.to.0, case.to.1);
    Ok(sent_after(alloc, list, &from, case.texts, &to)?.as_str() == case.header)
}

#[test]
fn headers_of_outside_cases(rt: HostRuntime) -> Result<(), Fail> {
    let alloc = rt.alloc();
    let list = list_of(alloc)?;
    for case in HEADERS {
        assert!(rt; is_sent(alloc, &list, case)?, "{}", case.name);
    }
    Ok(())
}

// Texts stored one after another, each in its second, with what is answered and the step.
const STORES: &[(&str, i64, StoredKind, JarStep)] = &[
    (
        "p=1; Max-Age=90",
        1,
        StoredKind::Added,
        JarStep::Insert { place: 0, rank: 0 },
    ),
    (
        "a=1",
        2,
        StoredKind::Added,
        JarStep::Insert { place: 1, rank: 1 },
    ),
    (
        "p=2",
        3,
        StoredKind::Replaced,
        JarStep::Replace {
            place: 0,
            rank: 0,
            was_persistent: true,
        },
    ),
    (
        "a=; Max-Age=0",
        4,
        StoredKind::Removed,
        JarStep::Remove {
            place: 1,
            rank: 0,
            was_persistent: false,
        },
    ),
];

// Whether storing a text answers this, and takes this step alone.
fn is_stored(
    alloc: Global,
    jar: &mut Jar,
    list: &SuffixList,
    (text, now, kind, step): (&str, i64, StoredKind, JarStep),
) -> Result<bool, Fail> {
    let access = access_of("www.host.test", "/");
    let stored = store(alloc, jar, list, &access, text, now)?.copy(alloc)?;
    Ok(stored.kind == kind && stored.steps.as_slice() == [step].as_slice())
}

// Whether the first cookie is marked, and not that of a copy.
fn is_marked_apart(alloc: Global, jar: &mut Jar) -> Result<bool, Fail> {
    let before = jar.copy(alloc)?;
    jar.mark(&[0], 9);
    let (Some(cookie), Some(copy)) = (jar.cookie(0), before.cookie(0)) else {
        return Ok(false);
    };
    let marked = cookie.creation == 1 && cookie.last == 9;
    Ok(marked && copy.value.as_str() == "2" && copy.last == 3)
}

#[test]
fn a_cookie_is_added_replaced_and_removed(rt: HostRuntime) -> Result<(), Fail> {
    let alloc = rt.alloc();
    let list = list_of(alloc)?;
    let mut jar = Jar::new(alloc, CellKind::Own);
    for row in STORES {
        assert!(rt; is_stored(alloc, &mut jar, &list, *row)?, "{}", row.0);
    }
    assert!(rt; is_marked_apart(alloc, &mut jar)?);
    Ok(())
}

/// A list, the top-level site of a cell with a cookie of `www.shop.co.uk`, if it is a partition,
/// the cell's domain, and whether the list has it.
type CellCase = (&'static str, Option<&'static str>, &'static str, bool);

const CELLS: &[CellCase] = &[
    ("co.uk", None, "shop.co.uk", true),
    ("co.uk", None, "co.uk", false),
    ("", None, "co.uk", true),
    ("", None, "shop.co.uk", false),
    ("co.uk", Some("https://a.test"), "shop.co.uk", true),
    ("co.uk", Some("https://x.a.test"), "shop.co.uk", false),
    ("", Some("https://a.test"), "shop.co.uk", false),
];

fn key_of(alloc: Global, top: Option<&str>, domain: &str) -> Result<CellKey, Fail> {
    let domain = String::from_str(alloc, domain)?;
    match top {
        None => Ok(CellKey::Own { domain }),
        Some(top) => Ok(CellKey::Partition {
            top: Site::read(alloc, top)?,
            bit: false,
            domain,
        }),
    }
}

// Whether a list has a cell just where it should.
fn is_told(alloc: Global, (rules, top, domain, stays): CellCase) -> Result<bool, Fail> {
    let key = key_of(alloc, top, domain)?;
    let list = list_of_text(alloc, rules)?;
    let mut jar = Jar::new(alloc, CellKind::Own);
    let page = access_of("www.shop.co.uk", "/");
    store(alloc, &mut jar, &list, &page, "a=1", 1)?;
    Ok(domain_of_cell(&key) == domain && jar.stays(&key, &list) == stays)
}

#[test]
fn cells_of_lists(rt: HostRuntime) -> Result<(), Fail> {
    let alloc = rt.alloc();
    for case in CELLS {
        assert!(rt; is_told(alloc, *case)?, "{} under {}", case.2, case.0);
    }
    Ok(())
}
