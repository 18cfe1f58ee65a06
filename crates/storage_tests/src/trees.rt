//! Worked frame trees, and each call with ample memory.
use crate::shared::list_of;
use frame_tree::{NoFrame, Sandbox, Tab, TreeFault};
use origin_site::Address;
use std::alloc::Global;
use std::process::Abort;
use std::test::Fail;
use suffix_list::SuffixList;

// A tab of `https://a.test/` with these frames: parent, frame, address, and the sandbox's text.
fn tab_with(
    alloc: Global,
    list: &SuffixList,
    frames: &[(u8, u8, &str, Option<&str>)],
) -> Result<Tab, Fail> {
    let mut tab = Tab::new(alloc, Address::read(alloc, "https://a.test/")?, list)?;
    for (parent, frame, text, sandbox) in frames {
        let address = Address::read(alloc, text)?;
        tab.add(
            *parent,
            *frame,
            address,
            Sandbox::read(*sandbox),
            false,
            list,
        )?;
    }
    Ok(tab)
}

// The sites of a frame's chain, each with a blank behind it; `-` is an opaque document.
fn shown(alloc: Global, tab: &Tab, frame: u8) -> Result<String, Fail> {
    let mut text = String::new(alloc);
    for site in &tab.chain(frame)? {
        match site {
            Some(site) => text.push_str(site.text(alloc)?.as_str())?,
            None => text.push('-')?,
        }
        text.push(' ')?;
    }
    Ok(text)
}

// The text of a sandbox, and whether it allows the same origin and storage access.
const SANDBOXES: &[(Option<&str>, bool, bool)] = &[
    (None, true, true),
    (Some(""), false, false),
    (Some("allow-scripts"), false, false),
    (Some("\tALLOW-Same-Origin\r\n"), true, false),
    (Some("allow-same-origin\u{b}"), false, false),
    (
        Some("x allow-storage-access-by-user-activation\u{c}allow-same-origin"),
        true,
        true,
    ),
    (
        Some("allow-same-originx allow-storage-access-by-user-activatio"),
        false,
        false,
    ),
];

#[test]
fn texts_of_sandboxes(rt: HostRuntime) -> Result<(), Fail> {
    for (place, (text, same_origin, storage_access)) in SANDBOXES.iter().enumerate() {
        let read = Sandbox::read(*text);
        assert!(rt; read.same_origin == *same_origin, "sandbox {place}");
        assert!(rt; read.storage_access == *storage_access, "sandbox {place}");
    }
    Ok(())
}

// Frames below the top of a tab, some of them below one another, and some sandboxed.
const FRAMES: &[(u8, u8, &str, Option<&str>)] = &[
    (0, 1, "https://x.b.test/", None),
    (1, 2, "https://a.test/inner", None),
    (0, 3, "https://a.test/", Some("allow-scripts")),
    (3, 4, "https://a.test/", Some("allow-same-origin")),
    (0, 9, "http://a.test/", None),
];

// The chains of these frames, and whether each document of them is https.
const CHAINS: &[(u8, &str, bool)] = &[
    (0, "https://a.test ", true),
    (1, "https://a.test https://b.test ", true),
    (2, "https://a.test https://b.test https://a.test ", true),
    (3, "https://a.test - ", true),
    (4, "https://a.test - - ", true),
    (9, "https://a.test http://a.test ", false),
];

// Whether a frame has this chain.
fn has_chain(
    alloc: Global,
    tab: &Tab,
    (frame, chain, https): (u8, &str, bool),
) -> Result<bool, Fail> {
    let text = shown(alloc, tab, frame)?;
    Ok(text.as_str() == chain && tab.https_chain(frame) == https)
}

// Whether there is no frame 5, and the last one is 9.
fn is_without_five(tab: &Tab) -> bool {
    matches!(tab.chain(5), Err(TreeFault::NoFrame))
        && !tab.https_chain(5)
        && tab.document(5).is_none()
        && tab.last_frame() == 9
}

// A copy of a tab with those frames.
fn worked_tab(alloc: Global) -> Result<Tab, Fail> {
    let list = list_of(alloc, "test")?;
    Ok(tab_with(alloc, &list, FRAMES)?.copy()?)
}

#[test]
fn chains_of_worked_trees(rt: HostRuntime) -> Result<(), Fail> {
    let alloc = rt.alloc();
    let tab = worked_tab(alloc)?;
    for row in CHAINS {
        assert!(rt; has_chain(alloc, &tab, *row)?, "at {}", row.0);
    }
    assert!(rt; is_without_five(&tab));
    Ok(())
}

// Four frames, each but the last below the one before it.
const ROW: &[(u8, u8, &str, Option<&str>)] = &[
    (0, 1, "https://b.test/", Some("allow-same-origin")),
    (1, 2, "https://b.test/", None),
    (2, 3, "https://c.test/", None),
    (0, 4, "https://a.test/", None),
];

// Whether a frame of `https://a.test/` is refused for this fault.
fn is_refused(
    alloc: Global,
    tab: &mut Tab,
    list: &SuffixList,
    (parent, frame): (u8, u8),
    why: TreeFault,
) -> Result<bool, Fail> {
    let address = Address::read(alloc, "https://a.test/")?;
    Ok(tab.add(parent, frame, address, Sandbox::read(None), true, list) == Err(why))
}

// Whether no frame is added at the place of another, and none below a frame that is not there.
fn are_refused(alloc: Global, tab: &mut Tab, list: &SuffixList) -> Result<bool, Fail> {
    Ok(
        is_refused(alloc, tab, list, (0, 4), TreeFault::FrameExists)?
            && is_refused(alloc, tab, list, (7, 4), TreeFault::NoFrame)?,
    )
}

// Which frames are active once frame 1 is activated.
const ACTIVE: &[(u8, bool)] = &[(0, true), (1, true), (2, true), (3, false), (4, false)];

fn check_activation(rt: &impl Abort, tab: &mut Tab) {
    assert!(rt; tab.activate(1, 100).is_ok());
    for (frame, active) in ACTIVE {
        assert!(rt; tab.is_active(*frame, 104) == *active, "at {frame}");
        assert!(rt; !tab.is_active(*frame, 105));
    }
    tab.consume();
    assert!(rt; !tab.is_active(1, 100));
}

// Whether a frame that is there takes the flag, and no other.
fn is_flagged(tab: &mut Tab) -> bool {
    tab.set_flag(1) == Ok(()) && tab.set_flag(8) == Err(NoFrame)
}

// Whether frame 1 is as its navigation leaves it, and the frames below it are gone.
fn is_navigated(tab: &Tab) -> bool {
    let Some(document) = tab.document(1) else {
        return false;
    };
    document.flag
        && !document.sandbox.storage_access
        && document.mark.is_none()
        && document.address.path.as_str() == "/next"
        && tab.document(2).is_none()
        && tab.document(3).is_none()
}

// Navigates frame 1 to another path, and tells whether it is as that leaves it.
fn navigates(alloc: Global, tab: &mut Tab, list: &SuffixList) -> Result<bool, Fail> {
    let address = Address::read(alloc, "https://b.test/next")?;
    tab.navigate(1, address, true, list)?;
    Ok(is_navigated(tab))
}

fn is_removed_once(tab: &mut Tab) -> bool {
    let removed = tab.remove(4) == Ok(()) && tab.remove(4) == Err(NoFrame);
    removed && tab.document(0).is_some() && tab.document(1).is_some()
}

#[test]
fn changes_of_a_tree(rt: HostRuntime) -> Result<(), Fail> {
    let alloc = rt.alloc();
    let list = list_of(alloc, "test")?;
    let mut tab = tab_with(alloc, &list, ROW)?;
    assert!(rt; are_refused(alloc, &mut tab, &list)?);
    check_activation(&rt, &mut tab);
    assert!(rt; is_flagged(&mut tab));
    assert!(rt; navigates(alloc, &mut tab, &list)?);
    assert!(rt; is_removed_once(&mut tab));
    Ok(())
}
