//! The caller that the README of `access_grants` shows.
use access_grants::{Answer, Decision, Facts, GrantRow, GrantState, Grants};
use origin_site::Site;
use std::test::Fail;

#[test]
fn access_is_asked_for_and_kept(rt: HostRuntime) -> Result<(), Fail> {
    let alloc = rt.alloc();
    let now = 1_767_225_600;
    let mut grants = Grants::new(alloc);
    let top = Site::read(alloc, "https://news.test")?;
    let site = Site::read(alloc, "https://widget.test")?;
    let facts = Facts {
        opaque: false,
        secure: true,
        deny: false,
        sandbox_allows: true,
        first: false,
        flag: false,
        active: true,
    };
    let outcome = grants.request(&top, &site, &facts, Answer::Grant, now);
    if let Some(permission) = outcome.kept {
        let row = GrantRow::new(alloc, &top, &site, permission)?;
        grants.reserve(1)?;
        grants.keep(row);
    }
    let later = grants.state(&top, &site, now + 60);
    assert!(rt; outcome.decision == Decision::Granted { prompted: true });
    assert!(rt; later == GrantState::Granted);
    Ok(())
}
