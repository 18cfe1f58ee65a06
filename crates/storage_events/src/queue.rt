//! The events that wait for one document.
ghost use Rattle.std.specs.Prelude.{◌≡◌, ◌≤◌, ◌<◌, ◌+◌, [], IfOk, IsOk, IsTrue, OnOk, map, length};
ghost use Rattle.storage_events.specs.Event.{plain_event};
ghost use Rattle.storage_events.specs.Queue.{events_after, lost_after, most_events};

use crate::Event;
use agent_base::NoMemory;
use std::alloc::Global;
use std::marker::Model;
use std::mem;

/// The number of events that a queue holds.
pub const EVENTS: usize = 1024;

/// Events of one document, in the order in which they came, and how many more were lost.
///
/// A queue holds 1,024 events, and counts those that come later. A push takes no memory: its room
/// is made by `reserve` before.
#[derive(Debug, Drop)]
pub struct Queue {
    events: Vec<Event>,
    lost: u32,
}

impl Model for Queue {
    ghost use Rattle.std.specs.Prelude.{◌≤◌, map, vec_capacity, length};
    ghost use Rattle.storage_events.specs.Event.{plain_event};
    ghost use Rattle.storage_events.specs.Queue.{PlainQueue, has_room, most_events};

    ghost Value = { PlainQueue };

    ghost view = { λ q. record {
      events = map plain_event q.events.items;
      lost = q.lost;
      reserved = has_room (length q.events.items) (vec_capacity q.events);
    } };

    ghost invariant = { λ q. length q.events.items ≤ most_events };
}

impl Queue {
    /// A queue without events, that lost none.
    pub fn new(alloc: Global) -> Queue
        ensures empty { (result.events ≡ []) × (result.lost ≡ 0) }
    {
        Queue {
            events: Vec::new(alloc),
            lost: 0,
        }
    }

    /// Makes room for one push. The events stay, also where memory is wanting.
    pub fn reserve(&mut self) -> Result<(), NoMemory>
        ensures reserved { OnOk result (IsTrue self.new.reserved) }
        ensures ready { IsTrue self.old.reserved → IsOk result }
        ensures same { (self.new.events ≡ self.old.events) × (self.new.lost ≡ self.old.lost) }
    {
        if self.events.len() < EVENTS {
            self.events.reserve(1)?;
        }
        Ok(())
    }

    /// Puts an event last, or counts it as lost where 1,024 are there.
    pub fn push(&mut self, event: Event)
        requires reserved { IsTrue self.old.reserved }
        ensures events { self.new.events ≡ events_after self.old.events (plain_event event) }
        ensures lost { self.new.lost ≡ lost_after self.old.events self.old.lost }
    {
        if self.events.len() < EVENTS {
            self.events.push_reserved(event);
        } else {
            self.lost = self.lost.saturating_add(1);
        }
    }

    /// Gives the events and the number of lost ones, and leaves none.
    pub fn take(&mut self) -> (Vec<Event>, u32)
        ensures given { (map plain_event result.0.items ≡ self.old.events)
            × (result.1 ≡ self.old.lost) }
        ensures within { length self.old.events ≤ most_events }
        ensures emptied { (self.new.events ≡ []) × (self.new.lost ≡ 0) }
    {
        let empty = Vec::new(*self.events.allocator());
        let events = mem::replace(&mut self.events, empty);
        let lost = mem::replace(&mut self.lost, 0);
        (events, lost)
    }

    /// A queue with the same events, whose texts it shares.
    pub fn copy(&self) -> Result<Queue, NoMemory>
        ensures same { IfOk result (λ q. (q.events ≡ self.now.events) × (q.lost ≡ self.now.lost)) }
    {
        let mut events = Vec::new(*self.events.allocator());
        for event in &self.events {
            if events.push(event.copy()?).is_err() {
                return Err(NoMemory);
            }
        }
        Ok(Queue {
            events,
            lost: self.lost,
        })
    }
}
