//! What is sent to documents, and taken.
ghost use Rattle.std.specs.Prelude.{◌≡◌, ◌<◌, Err, [], ◌∷◌, false, true, map, OnErr, OnOk};
ghost use Rattle.std.specs.List.{list_all};
ghost use Rattle.storage_events.specs.Audience.{same_label};
ghost use Rattle.storage_events.specs.Event.{plain_event};
ghost use Rattle.live_state.specs.Documents.{documents};
ghost use Rattle.live_state.specs.Queues.{StayReadyBut, are_distinct, has_document, is_ready, is_told, plain_sent, queue_at, sent, taken};

use crate::Live;
use crate::live::{place_behind, place_by};
use agent_base::{Label, NoMemory};
use storage_events::Event;

impl Live {
    /// Makes room for one event in the queue of each of these documents, which are there.
    pub fn reserve_queues(&mut self, to: &[Label]) -> Result<(), NoMemory>
        requires there { list_all (has_document self.old.tabs) to.now ≡ true }
        ensures ready { OnOk result (list_all (is_ready self.new) to.now ≡ true) }
        ensures memory { OnErr result (list_all (is_ready self.old) to.now ≡ false) }
        ensures kept { StayReadyBut (λ at. false) self.old self.new }
        ensures same { (self.new.tabs ≡ self.old.tabs) × (self.new.room ≡ self.old.room) }
    {
        let mut place = 0;
        for at in to {
            place = place_behind(&self.tabs, place, at.tab);
            self.reserve_queue(*at, place)?;
        }
        Ok(())
    }

    /// Puts each event into the queue of its document, or counts it as lost where 1,024 wait.
    pub fn send(&mut self, events: Vec<(Label, Event)>)
        requires ready { list_all (λ entry. is_ready self.old entry.0) events.items ≡ true }
        requires distinct { are_distinct (map (λ entry. entry.0) events.items) ≡ true }
        ensures sent { self.new.tabs ≡ sent (map plain_sent events.items) self.old.tabs }
        ensures kept { StayReadyBut (is_told (map plain_sent events.items)) self.old self.new }
        ensures room { self.new.room ≡ self.old.room }
    {
        let mut place = 0;
        for (at, event) in events {
            place = place_behind(&self.tabs, place, at.tab);
            self.push_event(at, place, event);
        }
    }

    /// Gives the events that wait for a document, the oldest first, and the number of lost ones,
    /// and leaves none. A document that is not there has none.
    pub fn take_events(&mut self, at: Label) -> (Vec<Event>, u32)
        ensures given { let before = queue_at self.old.tabs at in
            (map plain_event result.0.items ≡ before.events) × (result.1 ≡ before.lost) }
        ensures taken { self.new.tabs ≡ taken at self.old.tabs }
        ensures kept { StayReadyBut (λ other. same_label other at) self.old self.new }
        ensures room { self.new.room ≡ self.old.room }
    {
        match self.tabs.place_of(at.tab) {
            Ok(place) => self.tabs.at_mut(place).take(at.frame),
            Err(_) => (Vec::new(self.tabs.allocator()), 0),
        }
    }

    // Makes room for one event in the queue of a document. Its tab is looked for at a given place
    // first.
    fn reserve_queue(&mut self, at: Label, given: usize) -> Result<(), NoMemory>
        requires there { has_document self.old.tabs at ≡ true }
        ensures reserved { OnOk result (is_ready self.new at ≡ true) }
        ensures memory { OnErr result (is_ready self.old at ≡ false) }
        ensures kept { StayReadyBut (λ other. false) self.old self.new }
        ensures same { (self.new.tabs ≡ self.old.tabs) × (self.new.room ≡ self.old.room) }
    {
        let alloc = self.tabs.allocator();
        match place_by(&self.tabs, given, at.tab) {
            Ok(place) => self.tabs.at_mut(place).reserve(alloc, at.frame),
            Err(_) => Ok(()),
        }
    }

    // Puts an event into the queue of a document, or counts it as lost. Its tab is looked for at a
    // given place first.
    fn push_event(&mut self, at: Label, given: usize, event: Event)
        requires ready { is_ready self.old at ≡ true }
        ensures sent { self.new.tabs ≡ sent ((at, plain_event event) ∷ []) self.old.tabs }
        ensures kept { StayReadyBut (λ other. same_label other at) self.old self.new }
        ensures room { self.new.room ≡ self.old.room }
    {
        if let Ok(place) = place_by(&self.tabs, given, at.tab) {
            self.tabs.at_mut(place).push(at.frame, event);
        }
    }
}
