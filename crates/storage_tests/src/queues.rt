//! A full queue, and an audience with ample memory.
use agent_base::{Label, NoMemory};
use std::alloc::Global;
use std::test::Fail;
use storage_events::{AreaKind, Event, Queue, audience};

// A name that was given a value.
fn stored(alloc: Global) -> Result<Event, NoMemory> {
    Event::new(
        alloc,
        AreaKind::Local,
        Some("k"),
        None,
        Some("v"),
        "https://a.test/",
    )
}

// A queue after 1,025 pushes, with ample memory.
fn filled(alloc: Global, event: &Event) -> Queue {
    let mut queue = Queue::new(alloc);
    for _ in 0..1025 {
        if let Ok(copy) = event.copy()
            && let Ok(()) = queue.reserve()
        {
            queue.push(copy);
        }
    }
    queue
}

// The number of events that are taken, and of those that were lost.
fn taken(queue: &mut Queue) -> (usize, u32) {
    let (events, lost) = queue.take();
    (events.len(), lost)
}

// Whether a full queue with this event gives what it kept once, and so does a copy.
fn is_taken_once(alloc: Global, event: &Event) -> bool {
    let mut queue = filled(alloc, event);
    let Ok(mut copy) = queue.copy() else {
        return false;
    };
    let (events, lost) = queue.take();
    let full = events.len() == 1024 && lost == 1 && events.last() == Some(event);
    full && taken(&mut queue) == (0, 0) && taken(&mut copy) == (1024, 1)
}

#[test]
fn full_queue_counts_later_events(rt: HostRuntime) -> Result<(), Fail> {
    let alloc = rt.alloc();
    let event = stored(alloc)?;
    assert!(rt; is_taken_once(alloc, &event));
    Ok(())
}

/// Who writes.
const WRITER: Label = Label { tab: 1, frame: 0 };

const DOCUMENTS: &[(Label, u32)] = &[
    (WRITER, 7),
    (Label { tab: 1, frame: 1 }, 7),
    (Label { tab: 2, frame: 0 }, 7),
    (Label { tab: 2, frame: 1 }, 8),
];

// How many documents hear of a write under the key 7.
fn hearers(alloc: Global, area: AreaKind) -> Option<usize> {
    match audience(alloc, area, WRITER, &7, DOCUMENTS) {
        Ok(labels) => Some(labels.len()),
        Err(_) => None,
    }
}

#[test]
fn audience_shares_the_key(rt: HostRuntime) -> Result<(), Fail> {
    let alloc = rt.alloc();
    assert!(rt; hearers(alloc, AreaKind::Local) == Some(2));
    assert!(rt; hearers(alloc, AreaKind::Session) == Some(1));
    Ok(())
}
