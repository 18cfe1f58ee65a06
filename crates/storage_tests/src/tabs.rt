//! Worked tabs and queues, and each call that takes memory with ample memory.
ghost use Rattle.std.specs.Prelude.{◌≡◌, true, IsTrue};
ghost use Rattle.live_state.specs.Queues.{has_document};

use crate::shared::list_of;
use agent_base::Label;
use frame_tree::{Sandbox, Tab};
use live_state::Live;
use origin_site::Address;
use std::alloc::Global;
use std::process::Abort;
use std::test::Fail;
use storage_events::{AreaKind, Event};
use suffix_list::SuffixList;

// A tab of `https://a.test/` with these frames below the top; those over 200 are sandboxed.
fn tab_with(alloc: Global, list: &SuffixList, frames: &[u8]) -> Result<Tab, Fail> {
    let mut tab = Tab::new(alloc, Address::read(alloc, "https://a.test/")?, list)?;
    for frame in frames {
        let address = Address::read(alloc, "https://b.test/")?;
        let sandbox = match *frame > 200 {
            true => Sandbox::read(Some("allow-scripts")),
            false => Sandbox::read(None),
        };
        tab.add(0, *frame, address, sandbox, false, list)?;
    }
    Ok(tab)
}

// Puts a tab with these frames, with ample memory.
fn put(
    alloc: Global,
    live: &mut Live,
    list: &SuffixList,
    tab: u16,
    frames: &[u8],
    fresh: Option<u8>,
) -> Result<bool, Fail> {
    let made = tab_with(alloc, list, frames)?;
    Ok(match live.reserve(tab, &made) {
        Ok(()) => {
            live.put_tab(tab, made, fresh);
            true
        }
        Err(_) => false,
    })
}

fn has_document(live: &Live, at: Label) -> bool
    ensures { IsTrue result → has_document live.now.tabs at ≡ true }
{
    match live.tab(at.tab) {
        Some(tab) => tab.document(at.frame).is_some(),
        None => false,
    }
}

// The clear of an area.
fn cleared(alloc: Global) -> Result<Event, Fail> {
    Ok(Event::new(alloc, AreaKind::Local, None, None, None, "https://a.test/")?)
}

// Tells a document of a clear, if it is there and memory is ample.
fn tell(alloc: Global, live: &mut Live, tab: u16, frame: u8) -> Result<bool, Fail> {
    let at = Label { tab, frame };
    let to = [at];
    if !has_document(live, at) || live.reserve_queues(&to).is_err() {
        return Ok(false);
    }
    let mut events = Vec::new(alloc);
    events.push((at, cleared(alloc)?))?;
    live.send(events);
    Ok(true)
}

// The number of events that wait for a document, and of those that were lost.
fn taken(live: &mut Live, tab: u16, frame: u8) -> (usize, u32) {
    let (events, lost) = live.take_events(Label { tab, frame });
    (events.len(), lost)
}

// The number of a tab or none, and the tab that follows.
const NEXT: &[(Option<u16>, Option<u16>)] = &[
    (None, Some(0)),
    (Some(0), Some(2)),
    (Some(3), Some(700)),
    (Some(700), Some(65535)),
    (Some(65535), None),
];

fn check_next(rt: &impl Abort, live: &Live) {
    for (place, (after, next)) in NEXT.iter().enumerate() {
        assert!(rt; live.next_tab(*after) == *next, "tab {place}");
    }
}

// The documents that have a key once tab 700 is dropped.
const DOCUMENTS: &[(u16, u8)] = &[
    (0, 0),
    (0, 3),
    (0, 9),
    (2, 0),
    (2, 3),
    (2, 9),
    (65535, 0),
    (65535, 3),
    (65535, 9),
];

// Whether these are the documents, each but the top with the ancestor bit.
fn are_documents(live: &Live) -> bool {
    let Ok(documents) = live.documents() else {
        return false;
    };
    documents.len() == DOCUMENTS.len()
        && documents.iter().zip(DOCUMENTS).all(|((at, key), (tab, frame))| {
            at.tab == *tab && at.frame == *frame && key.bit == (*frame != 0)
        })
}

// A frame of tab 0, a kind of area, and how many documents hear of a write there.
const HEARERS: &[(u8, AreaKind, usize)] = &[
    (0, AreaKind::Local, 2),
    (0, AreaKind::Session, 0),
    (3, AreaKind::Local, 5),
    (3, AreaKind::Session, 1),
];

fn has_hearers(live: &Live, frame: u8, area: AreaKind, count: usize) -> bool {
    let Some(tab) = live.tab(0) else {
        return false;
    };
    let Some(key) = tab.key(frame) else {
        return false;
    };
    match live.hearers(area, Label { tab: 0, frame }, key) {
        Ok(to) => to.len() == count,
        Err(_) => false,
    }
}

fn check_hearers(rt: &impl Abort, live: &Live) {
    for (place, (frame, area, count)) in HEARERS.iter().enumerate() {
        let heard = has_hearers(live, *frame, *area, *count);
        assert!(rt; heard, "write {place}");
    }
}

// Whether each of these tabs is put, with these frames.
fn are_put(
    alloc: Global,
    live: &mut Live,
    list: &SuffixList,
    tabs: &[u16],
    frames: &[u8],
) -> Result<bool, Fail> {
    let mut done = true;
    for tab in tabs {
        done = done && put(alloc, live, list, *tab, frames, None)?;
    }
    Ok(done)
}

#[test]
fn tabs_by_number(rt: HostRuntime) -> Result<(), Fail> {
    let alloc = rt.alloc();
    let list = list_of(alloc, "test")?;
    let mut live = Live::new(alloc);
    assert!(rt; are_put(alloc, &mut live, &list, &[700, 2, 65535, 0], &[9, 250, 3])?);
    check_next(&rt, &live);
    live.drop_tab(700);
    live.drop_tab(1);
    assert!(rt; live.tab(700).is_none() && live.tab(2).is_some());
    assert!(rt; are_documents(&live));
    check_hearers(&rt, &live);
    Ok(())
}

// Whether the first document of tab 1 is told of one event more than wait for it.
fn is_filled(alloc: Global, live: &mut Live) -> Result<bool, Fail> {
    let mut told = true;
    for _ in 0..1025 {
        told = told && tell(alloc, live, 1, 0)?;
    }
    Ok(told)
}

// A tab, a frame, and whether its document is told of an event.
const TOLD: &[(u16, u8, bool)] = &[
    (1, 5, true),
    (1, 6, true),
    (2, 5, true),
    (3, 0, false),
    (2, 7, false),
];

fn check_told(rt: &impl Abort, alloc: Global, live: &mut Live) -> Result<(), Fail> {
    assert!(rt; is_filled(alloc, live)?);
    for (tab, frame, told) in TOLD {
        let is_told = tell(alloc, live, *tab, *frame)?;
        assert!(rt; is_told == *told, "at {tab}.{frame}");
    }
    Ok(())
}

// Whether the events are lost of frame 5 of tab 1, which is navigated, and then of frame 6, which
// goes and comes back.
fn are_lost(alloc: Global, live: &mut Live, list: &SuffixList) -> Result<bool, Fail> {
    let navigated = put(alloc, live, list, 1, &[5, 6], Some(5))?;
    let first = taken(live, 1, 5) == (0, 0);
    let gone = put(alloc, live, list, 1, &[5], None)?;
    let back = put(alloc, live, list, 1, &[5, 6], None)?;
    Ok(navigated && first && gone && back && taken(live, 1, 6) == (0, 0))
}

// Whether what waits is taken once.
fn are_taken(live: &mut Live) -> bool {
    taken(live, 1, 0) == (1024, 1)
        && taken(live, 1, 0) == (0, 0)
        && taken(live, 2, 5) == (1, 0)
        && taken(live, 9, 0) == (0, 0)
}

#[test]
fn queues_of_documents(rt: HostRuntime) -> Result<(), Fail> {
    let alloc = rt.alloc();
    let list = list_of(alloc, "test")?;
    let mut live = Live::new(alloc);
    assert!(rt; are_put(alloc, &mut live, &list, &[1, 2], &[5, 6])?);
    check_told(&rt, alloc, &mut live)?;
    assert!(rt; are_lost(alloc, &mut live, &list)?);
    assert!(rt; are_taken(&mut live));
    Ok(())
}
