//! An open tab, with the queues of its documents.
ghost use Rattle.std.specs.Prelude.{◌≡◌, ◌≢◌, ◌==◌, ◌++◌, Err, IfOk, OnErr, OnOk, None, Some, false, if◌then◌else◌, map, not, true};
ghost use Rattle.agent_base.specs.Answers.{Answers};
ghost use Rattle.storage_events.specs.Event.{plain_event};
ghost use Rattle.storage_key.specs.Plain.{plain_key};
ghost use Rattle.origin_site.specs.Plain.{plain_address, plain_site};
ghost use Rattle.frame_tree.specs.Calls.{IsDoneAt, activated, added, consumed, navigated, without};
ghost use Rattle.frame_tree.specs.Tree.{IsTree, has_frame, top_site};
ghost use Rattle.frame_tree.specs.Plain.{plain_sandbox};
ghost use Rattle.frame_tree.specs.declared.tab.TreeFault.{TreeFault};
ghost use Rattle.live_state.specs.Documents.{documents_in, plain_keyed};
ghost use Rattle.live_state.specs.ExistingQueues.{ChangesFrames, FramesStayReadyBut, changed_at};
ghost use Rattle.live_state.specs.FramesInPlace.{given, requested};
ghost use Rattle.live_state.specs.Hearers.{hearers_in};
ghost use Rattle.live_state.specs.Queues.{is_among, queue_told};
ghost use Rattle.live_state.specs.Tabs.{HasQueues, empty_queue, made_tab, queue_of, stays};

use crate::frame_queue::{
    FrameQueue, has_frame, keep_queues, push_event, reserve_queue, take_events,
};
use crate::listed::{list_document, list_hearer};
use agent_base::{Label, NoMemory};
use frame_tree::{NoFrame, Sandbox, Tab, TreeFault};
use origin_site::{Address, Site};
use std::alloc::Global;
use std::marker::Model;
use storage_events::{AreaKind, Event};
use storage_key::StorageKey;
use suffix_list::SuffixList;

/// An open tab. A frame whose document has heard of no event may have no queue yet.
#[derive(Debug, Drop)]
pub struct OpenTab {
    number: u16,
    tab: Tab,
    queues: Vec<FrameQueue>,
}

impl Model for OpenTab {
    ghost use Rattle.std.specs.Prelude.{◌≡◌, true};
    ghost use Rattle.live_state.specs.ExistingQueues.{PlainOpenTab, are_of_frames, are_sorted, queues_of, ready_of};

    ghost Value = { PlainOpenTab };

    ghost view = { λ t. record {
      plain = record { number = t.number; frames = t.tab; queues = queues_of t.tab t.queues.items };
      ready = ready_of t.tab t.queues.items;
    } };

    ghost invariant = { λ t. (are_of_frames t.tab t.queues.items ≡ true)
        × (are_sorted t.queues.items ≡ true) };
}

impl OpenTab {
    /// A tab whose documents have heard of nothing.
    pub fn new(alloc: Global, number: u16, tab: Tab) -> OpenTab
        ensures opened { result.plain ≡ made_tab number tab None None }
    {
        OpenTab {
            number,
            tab,
            queues: Vec::new(alloc),
        }
    }

    /// The number of the tab.
    pub fn number(&self) -> u16
        ensures number { result ≡ self.now.plain.number }
    {
        self.number
    }

    /// The documents of the tab.
    pub fn tab(&self) -> &Tab
        ensures tab { result.now ≡ self.now.plain.frames }
        ensures queues { HasQueues self.now.plain }
    {
        &self.tab
    }

    /// Puts these frames into the tab.
    pub fn put(&mut self, made: Tab, fresh: Option<u8>)
        ensures put { self.new.plain
            ≡ made_tab self.old.plain.number made fresh (Some self.old.plain) }
        ensures kept { FramesStayReadyBut (λ n. not (stays fresh made n)) self.old self.new }
    {
        keep_queues(&mut self.queues, &made, fresh);
        self.tab = made;
    }

    /// Adds a frame, as `Tab::add` does. Its queue is empty, and the others stay.
    pub fn add_frame(
        &mut self,
        parent: u8,
        frame: u8,
        address: Address,
        sandbox: Sandbox,
        deny: bool,
        list: &SuffixList,
    ) -> Result<(), TreeFault>
        ensures answer { Answers (λ _. self.new.plain.frames) TreeFault.NoMemory
            (added list.now.rules parent frame (plain_address address) (plain_sandbox sandbox) deny
            self.old.plain.frames) result }
        ensures decided { (why : TreeFault) → added list.now.rules parent frame
            (plain_address address) (plain_sandbox sandbox) deny self.old.plain.frames ≡ Err why
            → result ≡ Err why }
        ensures changes { ChangesFrames result None self.old self.new }
    {
        self.tab.add(parent, frame, address, sandbox, deny, list)?;
        keep_queues(&mut self.queues, &self.tab, None);
        Ok(())
    }

    /// Loads a document into a frame below the top, as `Tab::navigate` does. Its queue is empty,
    /// and those of frames that are there still stay.
    pub fn navigate_frame(
        &mut self,
        frame: u8,
        address: Address,
        keep_flag: bool,
        list: &SuffixList,
    ) -> Result<(), TreeFault>
        requires { frame ≢ 0 }
        ensures answer { Answers (λ _. self.new.plain.frames) TreeFault.NoMemory
            (navigated list.now.rules frame (plain_address address) keep_flag
            self.old.plain.frames) result }
        ensures decided { (why : TreeFault) → navigated list.now.rules frame
            (plain_address address) keep_flag self.old.plain.frames ≡ Err why
            → result ≡ Err why }
        ensures changes { ChangesFrames result (Some frame) self.old self.new }
    {
        self.tab.navigate(frame, address, keep_flag, list)?;
        keep_queues(&mut self.queues, &self.tab, Some(frame));
        Ok(())
    }

    /// Removes a frame below the top, as `Tab::remove` does. The queues of frames that are there
    /// still stay.
    pub fn remove_frame(&mut self, frame: u8) -> Result<(), NoFrame>
        requires { frame ≢ 0 }
        ensures removed { IsDoneAt frame self.old.plain.frames self.new.plain.frames
            (without frame self.old.plain.frames) result }
        ensures changes { ChangesFrames result None self.old self.new }
    {
        self.tab.remove(frame)?;
        keep_queues(&mut self.queues, &self.tab, None);
        Ok(())
    }

    /// Activates a document, as `Tab::activate` does. Every queue stays.
    pub fn activate(&mut self, frame: u8, now: i64) -> Result<(), NoFrame>
        ensures activated { IsDoneAt frame self.old.plain.frames self.new.plain.frames
            (activated frame now self.old.plain.frames) result }
        ensures changes { ChangesFrames result None self.old self.new }
    {
        self.tab.activate(frame, now)?;
        keep_queues(&mut self.queues, &self.tab, None);
        Ok(())
    }

    /// Ends a request for storage access: its document has the access where it is given, and no
    /// document of the tab is active where that is consumed. Every queue stays.
    pub fn finish_request(&mut self, frame: u8, gives: bool, consumes: bool) -> Result<(), NoFrame>
        ensures requested { IsDoneAt frame self.old.plain.frames self.new.plain.frames
            (requested gives consumes frame self.old.plain.frames) result }
        ensures changes { ChangesFrames result None self.old self.new }
    {
        finish_request(&mut self.tab, frame, gives, consumes)?;
        keep_queues(&mut self.queues, &self.tab, None);
        Ok(())
    }

    /// Makes room for one event in the queue of a frame that is there.
    pub fn reserve(&mut self, alloc: Global, frame: u8) -> Result<(), NoMemory>
        requires there { has_frame frame self.old.plain.frames ≡ true }
        ensures reserved { OnOk result (is_among frame self.new.ready ≡ true) }
        ensures memory { OnErr result (is_among frame self.old.ready ≡ false) }
        ensures kept { FramesStayReadyBut (λ n. false) self.old self.new }
        ensures same { self.new.plain ≡ self.old.plain }
    {
        reserve_queue(&mut self.queues, alloc, frame)
    }

    /// Puts an event into the queue of a frame, or counts it as lost.
    pub fn push(&mut self, frame: u8, event: Event)
        requires ready { is_among frame self.old.ready ≡ true }
        ensures pushed { self.new.plain
            ≡ changed_at frame (queue_told (Some (plain_event event))) self.old.plain }
        ensures kept { FramesStayReadyBut (λ n. n == frame) self.old self.new }
    {
        push_event(&mut self.queues, frame, event);
    }

    /// Gives the events of a frame's queue and the number of lost ones, and leaves none.
    pub fn take(&mut self, frame: u8) -> (Vec<Event>, u32)
        ensures given { let before = queue_of frame self.old.plain.queues in
            (map plain_event result.0.items ≡ before.events) × (result.1 ≡ before.lost) }
        ensures emptied { self.new.plain
            ≡ changed_at frame (λ queue. empty_queue queue.frame) self.old.plain }
        ensures kept { FramesStayReadyBut (λ n. n == frame) self.old self.new }
    {
        take_events(&mut self.queues, frame)
    }

    /// The site of the top document.
    pub fn top_site(&self) -> &Site
        ensures site { top_site self.now.plain.frames ≡ Some (plain_site result.now) }
        ensures tree { IsTree self.now.plain.frames }
    {
        self.tab.top_site()
    }

    /// Puts the documents that hear of a change behind the others, by their frames' numbers.
    pub fn list_hearers(
        &self,
        kind: AreaKind,
        writer: Label,
        key: &StorageKey,
        to: &mut Vec<Label>,
    ) -> Result<(), NoMemory>
        ensures listed { OnOk result (to.new.items
            ≡ to.old.items ++ hearers_in kind writer (plain_key key.now) self.now.plain) }
    {
        let frames = self.tab.by_number();
        for frame in 0..=frames.last_frame() {
            let at = self.label(frame);
            list_hearer(kind, writer, key, at, frames.key(frame), to)?;
        }
        Ok(())
    }

    /// Puts the documents that have a key behind the others, in the order of the frames' numbers.
    pub fn list_documents(
        &self,
        alloc: Global,
        documents: &mut Vec<(Label, StorageKey)>,
    ) -> Result<(), NoMemory>
        ensures listed { OnOk result (map plain_keyed documents.new.items
            ≡ map plain_keyed documents.old.items ++ documents_in self.now.plain) }
    {
        let frames = self.tab.by_number();
        for frame in 0..=frames.last_frame() {
            list_document(alloc, self.label(frame), frames.key(frame), documents)?;
        }
        Ok(())
    }

    // The document of a frame.
    fn label(&self, frame: u8) -> Label
        ensures label { result ≡ record { tab = self.now.plain.number; frame = frame } }
    {
        Label {
            tab: self.number,
            frame,
        }
    }
}

// The frames of a tab after a request for storage access came to its end.
fn finish_request(tab: &mut Tab, frame: u8, gives: bool, consumes: bool) -> Result<(), NoFrame>
    ensures requested { IsDoneAt frame tab.old tab.new (requested gives consumes frame tab.old)
        result }
    ensures site { top_site tab.new ≡ top_site tab.old }
    ensures tree { IsTree tab.new }
{
    give(tab, frame, gives)?;
    consume(tab, consumes);
    Ok(())
}

// Gives a document storage access, where it is given.
fn give(tab: &mut Tab, frame: u8, gives: bool) -> Result<(), NoFrame>
    ensures given { IsDoneAt frame tab.old tab.new (given gives frame tab.old) result }
    ensures site { top_site tab.new ≡ top_site tab.old }
    ensures tree { IsTree tab.old }
{
    if !has_frame(tab, frame) {
        return Err(NoFrame);
    }
    if gives { tab.set_flag(frame) } else { Ok(()) }
}

// Takes the activation of every document, where it is consumed.
fn consume(tab: &mut Tab, consumes: bool)
    ensures consumed { tab.new ≡ (if consumes then consumed tab.old else tab.old) }
    ensures site { top_site tab.new ≡ top_site tab.old }
{
    if consumes {
        tab.consume();
    }
}
