//! A course of requests, and each call that takes memory with ample memory.
use access_grants::{
    Answer, Decision, Facts, GrantRow, GrantState, Grants, Outcome, Permission, Refusal,
};
use agent_base::{MemSource, NoMemory};
use origin_site::Site;
use std::alloc::Global;
use std::test::Fail;
use suffix_list::SuffixList;

/// A third-party document that was just activated, and may ask.
const ASKS: Facts = Facts {
    opaque: false,
    secure: true,
    deny: false,
    sandbox_allows: true,
    first: false,
    flag: false,
    active: true,
};

/// The moment of the first answer, and those at which 30 days are nearly over and over.
const NOW: i64 = 1_767_225_600;

const NEARLY: i64 = 1_769_817_599;

const OVER: i64 = 1_769_817_600;

// Keeps what a request left for a pair, with room for it.
fn keep(
    grants: &mut Grants,
    alloc: Global,
    top: &Site,
    site: &Site,
    kept: Option<Permission>,
) -> Result<(), NoMemory> {
    if let Some(permission) = kept {
        let row = GrantRow::new(alloc, top, site, permission)?;
        grants.reserve(1)?;
        grants.keep(row);
    }
    Ok(())
}

/// The texts of the sites of a row, and its permission.
type Kept = (&'static str, &'static str, bool, i64);

// Whether a row is that of these sites, with this permission.
fn is_row(alloc: Global, row: &GrantRow, (top, site, granted, until): Kept) -> Result<bool, Fail> {
    let found_top = row.top.text(alloc)?;
    let found_site = row.site.text(alloc)?;
    let sites = found_top.as_str() == top && found_site.as_str() == site;
    Ok(sites && row.granted == granted && row.until == until)
}

// Whether that row is at a place, and so is a copy of it.
fn has_row(alloc: Global, grants: &Grants, place: usize, kept: Kept) -> Result<bool, Fail> {
    match grants.row(place) {
        Some(row) => Ok(is_row(alloc, row, kept)? && is_row(alloc, &row.copy(alloc)?, kept)?),
        None => Ok(false),
    }
}

fn refused(why: Refusal, consumes: bool) -> Outcome {
    Outcome {
        decision: Decision::Refused(why),
        kept: None,
        sets_flag: false,
        consumes,
    }
}

// Whether a request is denied, which is kept.
fn is_denied(alloc: Global, grants: &mut Grants, top: &Site, site: &Site) -> Result<bool, Fail> {
    let denied = grants.request(top, site, &ASKS, Answer::Deny, NOW);
    keep(grants, alloc, top, site, denied.kept)?;
    let kept = Some(Permission {
        granted: false,
        until: OVER,
    });
    Ok(
        denied
            == Outcome {
                kept,
                ..refused(Refusal::DeniedNow, true)
            },
    )
}

#[test]
fn denial_is_kept_for_thirty_days(rt: HostRuntime) -> Result<(), Fail> {
    let alloc = rt.alloc();
    let top = Site::read(alloc, "https://a.test")?;
    let site = Site::read(alloc, "https://x.test")?;
    let mut grants = Grants::new(alloc);
    assert!(rt; is_denied(alloc, &mut grants, &top, &site)?);
    let again = grants.request(&top, &site, &ASKS, Answer::Grant, NEARLY);
    assert!(rt; again == refused(Refusal::Denied, false));
    let later = grants.request(&top, &site, &ASKS, Answer::Grant, OVER);
    assert!(rt; later.decision == Decision::Granted { prompted: true });
    assert!(rt; grants.state(&top, &site, NEARLY) == GrantState::Denied);
    assert!(rt; grants.state(&site, &top, NEARLY) == GrantState::Unset);
    Ok(())
}

// Keeps a permission for sites of these texts.
fn keep_at(
    alloc: Global,
    grants: &mut Grants,
    top: &str,
    site: &str,
    permission: Permission,
) -> Result<(), Fail> {
    let top = Site::read(alloc, top)?;
    let site = Site::read(alloc, site)?;
    Ok(keep(grants, alloc, &top, &site, Some(permission))?)
}

// Rows of two pairs.
fn two_rows(alloc: Global) -> Result<Grants, Fail> {
    let mut grants = Grants::new(alloc);
    let denied = Permission::at(false, NOW);
    keep_at(
        alloc,
        &mut grants,
        "https://a.test",
        "https://x.test",
        denied,
    )?;
    let granted = Permission::at(true, NOW);
    keep_at(
        alloc,
        &mut grants,
        "https://b.test",
        "https://x.test",
        granted,
    )?;
    Ok(grants)
}

const FIRST: Kept = ("https://a.test", "https://x.test", false, OVER);

const AGAIN: Kept = ("https://a.test", "https://x.test", true, 2_592_007);

const SECOND: Kept = ("https://b.test", "https://x.test", true, OVER);

#[test]
fn rows_keep_their_places(rt: HostRuntime) -> Result<(), Fail> {
    let alloc = rt.alloc();
    let mut grants = two_rows(alloc)?;
    let copy = grants.copy()?;
    let granted = Permission::at(true, 7);
    keep_at(
        alloc,
        &mut grants,
        "https://a.test",
        "https://x.test",
        granted,
    )?;
    assert!(rt; has_row(alloc, &grants, 0, AGAIN)?);
    assert!(rt; has_row(alloc, &grants, 1, SECOND)?);
    assert!(rt; grants.row(2).is_none());
    assert!(rt; has_row(alloc, &copy, 0, FIRST)?);
    assert!(rt; has_row(alloc, &copy, 1, SECOND)?);
    Ok(())
}

// The list that a text is.
fn list_of(alloc: Global, text: &str) -> Result<SuffixList, Fail> {
    let bytes = Vec::from_slice(alloc, text.as_bytes())?;
    let mut source = MemSource::new(bytes, Vec::new(alloc));
    Ok(SuffixList::read(alloc, &mut source)?)
}

// Top-level sites and embedded sites.
const PAIRS: &[(&str, &str)] = &[
    ("https://shop.co.uk", "https://x.test"),
    ("https://a.test", "https://x.test"),
    ("https://a.test", "https://shop.co.uk"),
];

// A list, and which of these pairs are of its sites.
const LISTS: &[(&str, &[bool])] = &[
    ("co.uk", &[true, true, true]),
    ("", &[false, true, false]),
    ("co.uk\na.test", &[true, true, true]),
];

// Permissions of these pairs.
fn of_pairs(alloc: Global) -> Result<Grants, Fail> {
    let mut grants = Grants::new(alloc);
    for (top, site) in PAIRS {
        keep_at(alloc, &mut grants, top, site, Permission::at(true, NOW))?;
    }
    Ok(grants)
}

// Whether there are permissions of those of these pairs, and of no others.
fn has_only(alloc: Global, grants: &Grants, stay: &[bool]) -> Result<bool, Fail> {
    for (pair, stays) in PAIRS.iter().zip(stay) {
        let top = Site::read(alloc, pair.0)?;
        let site = Site::read(alloc, pair.1)?;
        if (grants.state(&top, &site, NOW) == GrantState::Granted) != *stays {
            return Ok(false);
        }
    }
    Ok(grants.rows().len() == stay.iter().filter(|stays| **stays).count())
}

#[test]
fn permissions_of_lists(rt: HostRuntime) -> Result<(), Fail> {
    let alloc = rt.alloc();
    for (rules, stay) in LISTS {
        let mut grants = of_pairs(alloc)?;
        let went = grants.migrate(&list_of(alloc, rules)?);
        assert!(rt; went == stay.iter().any(|stays| !*stays), "{rules}");
        assert!(rt; has_only(alloc, &grants, stay)?, "{rules}");
    }
    Ok(())
}
