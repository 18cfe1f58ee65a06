//! The caller that the README of `web_locks` shows.
use agent_base::Label;
use std::test::Fail;
use web_locks::{LockAnswer, LockMode, LockOptions, LockTable};

#[test]
fn a_lock_goes_from_one_document_to_another(rt: HostRuntime) -> Result<(), Fail> {
    let alloc = rt.alloc();
    let one = Label { tab: 1, frame: 0 };
    let two = Label { tab: 2, frame: 0 };
    let exclusive = LockOptions {
        mode: LockMode::Exclusive,
        if_available: false,
        steal: false,
    };
    let key = String::from_str(alloc, "https://a.test")?;
    let name = String::from_str(alloc, "draft")?;
    let mut table: LockTable<String> = LockTable::new(alloc);
    let first = table.request(key.clone()?, name.clone()?, one, 1, exclusive)?;
    let second = table.request(key, name, two, 7, exclusive)?;
    assert!(rt; first == LockAnswer::Held && second == LockAnswer::Waiting);
    table.release(one, 1)?;
    let rows = table.rows(alloc, two)?;
    assert!(rt; rows.len() == 1 && rows[0].id == 7);
    if let Some(owner) = table.next_owner(None) {
        table.drop_owner(owner);
    }
    assert!(rt; table.next_owner(None).is_none());
    Ok(())
}
