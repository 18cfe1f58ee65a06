//! Changes of the frames of an open tab, in its place.
ghost use Rattle.std.specs.Prelude.{◌≡◌, ◌≢◌, ◌<◌, Err, None, Some};
ghost use Rattle.agent_base.specs.Answers.{Answers};
ghost use Rattle.origin_site.specs.Plain.{plain_address};
ghost use Rattle.frame_tree.specs.Calls.{IsDoneAt, activated, added, navigated, without};
ghost use Rattle.frame_tree.specs.Plain.{plain_sandbox};
ghost use Rattle.frame_tree.specs.declared.tab.TreeFault.{TreeFault};
ghost use Rattle.live_state.specs.FramesInPlace.{ChangesTab, frames_at, requested};

use crate::Live;
use agent_base::Label;
use frame_tree::{NoFrame, Sandbox, TreeFault};
use origin_site::Address;
use suffix_list::SuffixList;

impl Live {
    /// Adds a frame to an open tab, as `Tab::add` does. Its queue is empty, and the others stay.
    ///
    /// A tab that is not open has no frame, and so no parent.
    pub fn add_frame(
        &mut self,
        at: Label,
        parent: u8,
        address: Address,
        sandbox: Sandbox,
        deny: bool,
        list: &SuffixList,
    ) -> Result<(), TreeFault>
        ensures answer { let before = frames_at at.tab self.old.tabs in
            Answers (λ _. frames_at at.tab self.new.tabs) TreeFault.NoMemory
            (added list.now.rules parent at.frame (plain_address address) (plain_sandbox sandbox)
            deny before) result }
        ensures decided { let before = frames_at at.tab self.old.tabs in
            (why : TreeFault) → added list.now.rules parent at.frame (plain_address address)
            (plain_sandbox sandbox) deny before ≡ Err why → result ≡ Err why }
        ensures changes { ChangesTab at.tab None result self.old self.new }
    {
        match self.tabs.place_of(at.tab) {
            Ok(place) => {
                self.tabs
                    .at_mut(place)
                    .add_frame(parent, at.frame, address, sandbox, deny, list)
            }
            Err(_) => Err(TreeFault::NoFrame),
        }
    }

    /// Loads a document into a frame below the top, as `Tab::navigate` does. Its queue is empty,
    /// those of frames that go are gone, and the others stay.
    pub fn navigate_frame(
        &mut self,
        at: Label,
        address: Address,
        keep_flag: bool,
        list: &SuffixList,
    ) -> Result<(), TreeFault>
        requires { at.frame ≢ 0 }
        ensures answer { let before = frames_at at.tab self.old.tabs in
            Answers (λ _. frames_at at.tab self.new.tabs) TreeFault.NoMemory
            (navigated list.now.rules at.frame (plain_address address) keep_flag before) result }
        ensures decided { let before = frames_at at.tab self.old.tabs in
            (why : TreeFault) → navigated list.now.rules at.frame (plain_address address)
            keep_flag before ≡ Err why → result ≡ Err why }
        ensures changes { ChangesTab at.tab (Some at.frame) result self.old self.new }
    {
        match self.tabs.place_of(at.tab) {
            Ok(place) => self
                .tabs
                .at_mut(place)
                .navigate_frame(at.frame, address, keep_flag, list),
            Err(_) => Err(TreeFault::NoFrame),
        }
    }

    /// Removes a frame below the top, as `Tab::remove` does. The queues of the frames that go are
    /// gone, and the others stay.
    pub fn remove_frame(&mut self, at: Label) -> Result<(), NoFrame>
        requires { at.frame ≢ 0 }
        ensures removed { let before = frames_at at.tab self.old.tabs in
            IsDoneAt at.frame before (frames_at at.tab self.new.tabs) (without at.frame before)
            result }
        ensures changes { ChangesTab at.tab None result self.old self.new }
    {
        match self.tabs.place_of(at.tab) {
            Ok(place) => self.tabs.at_mut(place).remove_frame(at.frame),
            Err(_) => Err(NoFrame),
        }
    }

    /// Marks a document as activated, as `Tab::activate` does. Every queue stays.
    pub fn activate(&mut self, at: Label, now: i64) -> Result<(), NoFrame>
        ensures activated { let before = frames_at at.tab self.old.tabs in
            IsDoneAt at.frame before (frames_at at.tab self.new.tabs)
            (activated at.frame now before) result }
        ensures changes { ChangesTab at.tab None result self.old self.new }
    {
        match self.tabs.place_of(at.tab) {
            Ok(place) => self.tabs.at_mut(place).activate(at.frame, now),
            Err(_) => Err(NoFrame),
        }
    }

    /// Ends a request for storage access: the document that made it has the access where it is
    /// given, as by `Tab::set_flag`, and no document of its tab is active where that is consumed,
    /// as by `Tab::consume`. Every queue stays.
    pub fn finish_request(&mut self, at: Label, gives: bool, consumes: bool) -> Result<(), NoFrame>
        ensures requested { let before = frames_at at.tab self.old.tabs in
            IsDoneAt at.frame before (frames_at at.tab self.new.tabs)
            (requested gives consumes at.frame before) result }
        ensures changes { ChangesTab at.tab None result self.old self.new }
    {
        match self.tabs.place_of(at.tab) {
            Ok(place) => self
                .tabs
                .at_mut(place)
                .finish_request(at.frame, gives, consumes),
            Err(_) => Err(NoFrame),
        }
    }
}
