//! The queues that a tab holds.
ghost use Rattle.std.specs.Prelude.{◌≡◌, ◌==◌, ◌<◌, ◌≤◌, ℕ, List, IfOk, MatchResult, OnErr, OnOk, Some, false, filter, is_some, length, map, true, vec_len};
ghost use Rattle.std.specs.List.{insert, position};
ghost use Rattle.storage_events.specs.Event.{plain_event};
ghost use Rattle.frame_tree.specs.Tree.{IsTree, PlainFrame, has_frame};
ghost use Rattle.live_state.specs.ExistingQueues.{IsBetween, IsChangedAt, SeenAlike, StayOfFrames, StaysReady, are_of_frames, are_sorted, existing_at, plain_by, ready_by};
ghost use Rattle.live_state.specs.Queues.{queue_told};
ghost use Rattle.live_state.specs.Tabs.{empty_queue, is_fresh, stays};

use agent_base::NoMemory;
use frame_tree::Tab;
use std::alloc::Global;
use storage_events::{Event, Queue};

/// The queue of a frame's document.
#[derive(Debug, Drop)]
pub struct FrameQueue {
    pub frame: u8,
    pub queue: Queue,
}

/// Drops the queues of documents that are fresh or gone.
pub fn keep_queues(queues: &mut Vec<FrameQueue>, made: &Tab, fresh: Option<u8>)
    requires sorted { are_sorted queues.old.items ≡ true }
    ensures kept { queues.new.items ≡ filter (λ q. stays fresh made.now q.frame) queues.old.items }
    ensures of_frames { are_of_frames made.now queues.new.items ≡ true }
    ensures sorted { are_sorted queues.new.items ≡ true }
{
    queues.retain(|q| !is_fresh(fresh, q.frame) && has_frame(made, q.frame));
}

/// Makes room for one event in the queue of a frame, which is made where there is none.
pub fn reserve_queue(queues: &mut Vec<FrameQueue>, alloc: Global, frame: u8) -> Result<(), NoMemory>
    requires sorted { are_sorted queues.old.items ≡ true }
    ensures reserved { OnOk result (ready_by (existing_at frame queues.new.items) ≡ true) }
    ensures memory { OnErr result (ready_by (existing_at frame queues.old.items) ≡ false) }
    ensures same { SeenAlike queues.old.items queues.new.items }
    ensures ready { (n : ℕ) → StaysReady n queues.old.items queues.new.items }
    ensures of_frames { (frames : List PlainFrame) → has_frame frame frames ≡ true
        → StayOfFrames frames queues.old.items queues.new.items }
    ensures sorted { are_sorted queues.new.items ≡ true }
{
    let place = make_queue(queues, alloc, frame)?;
    queues[place].queue.reserve()
}

// Makes a queue for a frame that has none, and gives the place of the frame's queue.
fn make_queue(queues: &mut Vec<FrameQueue>, alloc: Global, frame: u8) -> Result<usize, NoMemory>
    requires sorted { are_sorted queues.old.items ≡ true }
    ensures place { IfOk result (λ place.
        position (λ q. q.frame == frame) queues.new.items ≡ Some place) }
    ensures fits { IfOk result (λ place. place < length queues.new.items) }
    ensures memory { OnErr result (is_some (existing_at frame queues.old.items) ≡ false) }
    ensures same { SeenAlike queues.old.items queues.new.items }
    ensures ready { (n : ℕ) → StaysReady n queues.old.items queues.new.items }
    ensures of_frames { (frames : List PlainFrame) → has_frame frame frames ≡ true
        → StayOfFrames frames queues.old.items queues.new.items }
    ensures sorted { are_sorted queues.new.items ≡ true }
{
    match find_place(queues.as_slice(), frame) {
        Ok(place) => Ok(place),
        Err(place) => {
            let queue = Queue::new(alloc);
            insert_at(queues, place, FrameQueue { frame, queue })?;
            Ok(place)
        }
    }
}

// Puts a queue at a place.
fn insert_at(queues: &mut Vec<FrameQueue>, place: usize, made: FrameQueue) -> Result<(), NoMemory>
    requires within { place ≤ vec_len queues.old }
    ensures inserted { OnOk result (queues.new.items ≡ insert queues.old.items place made) }
    ensures unchanged { OnErr result (queues.new.items ≡ queues.old.items) }
{
    match queues.insert(place, made) {
        Ok(()) => Ok(()),
        Err(_) => Err(NoMemory),
    }
}

/// Puts an event into the queue of a frame, or counts it as lost.
pub fn push_event(queues: &mut Vec<FrameQueue>, frame: u8, event: Event)
    requires sorted { are_sorted queues.old.items ≡ true }
    requires ready { ready_by (existing_at frame queues.old.items) ≡ true }
    ensures pushed { IsChangedAt frame (queue_told (Some (plain_event event)))
        queues.old.items queues.new.items }
    ensures of_frames { (frames : List PlainFrame)
        → StayOfFrames frames queues.old.items queues.new.items }
    ensures sorted { are_sorted queues.new.items ≡ true }
{
    if let Ok(place) = find_place(queues.as_slice(), frame) {
        queues[place].queue.push(event);
    }
}

/// Gives the events of a frame's queue and the number of lost ones, and leaves none.
pub fn take_events(queues: &mut Vec<FrameQueue>, frame: u8) -> (Vec<Event>, u32)
    requires sorted { are_sorted queues.old.items ≡ true }
    ensures given { let before = plain_by frame (existing_at frame queues.old.items) in
        (map plain_event result.0.items ≡ before.events) × (result.1 ≡ before.lost) }
    ensures emptied { IsChangedAt frame (λ queue. empty_queue queue.frame)
        queues.old.items queues.new.items }
    ensures of_frames { (frames : List PlainFrame)
        → StayOfFrames frames queues.old.items queues.new.items }
    ensures sorted { are_sorted queues.new.items ≡ true }
{
    match find_place(queues.as_slice(), frame) {
        Ok(place) => queues[place].queue.take(),
        Err(_) => (Vec::new(*queues.allocator()), 0),
    }
}

/// Whether a frame is there.
pub fn has_frame(tab: &Tab, frame: u8) -> bool
    ensures there { result ≡ has_frame frame tab.now }
    ensures tree { IsTree tab.now }
{
    tab.document(frame).is_some()
}

fn is_fresh(fresh: Option<u8>, frame: u8) -> bool
    ensures { result ≡ is_fresh fresh frame }
{
    match fresh {
        Some(fresh) => frame == fresh,
        None => false,
    }
}

// The place of the queue of a frame, or the place where it would stand.
fn find_place(queues: &[FrameQueue], frame: u8) -> Result<usize, usize>
    requires sorted { are_sorted queues.now ≡ true }
    ensures place { MatchResult result
        (λ place. position (λ q. q.frame == frame) queues.now ≡ Some place)
        (IsBetween frame queues.now) }
    ensures fits { MatchResult result (λ place. place < length queues.now)
        (λ place. place ≤ length queues.now) }
{
    queues.binary_search_by_key(&frame, |q| q.frame)
}
