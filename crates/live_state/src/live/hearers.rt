//! The documents of the open tabs, and those that hear of a change.
ghost use Rattle.std.specs.Prelude.{◌≡◌, ◌<◌, Err, ◌++◌, true, map, IfOk, OnOk};
ghost use Rattle.std.specs.List.{list_all};
ghost use Rattle.storage_events.specs.declared.event.AreaKind.TheVariants.{Local, Session};
ghost use Rattle.storage_key.specs.Plain.{plain_key};
ghost use Rattle.live_state.specs.Documents.{documents, plain_keyed};
ghost use Rattle.live_state.specs.Hearers.{hearers, hearers_by};
ghost use Rattle.live_state.specs.Queues.{are_distinct, has_document};
ghost use Rattle.live_state.specs.Tabs.{is_rising, tab_at};

use crate::Live;
use crate::live::{place_behind, place_by};
use agent_base::{Label, NoMemory};
use storage_events::AreaKind;
use storage_key::StorageKey;

impl Live {
    /// Every document that has a storage key, once, with that key: by tab number and then by frame
    /// number. An opaque document has none.
    ///
    /// Each tab is asked for the numbers from 0 to its highest.
    pub fn documents(&self) -> Result<Vec<(Label, StorageKey)>, NoMemory>
        ensures documents { IfOk result (λ list.
            map plain_keyed list.items ≡ documents self.now.tabs) }
        ensures once { IfOk result (λ list. are_distinct (map (λ d. d.0) list.items) ≡ true) }
        ensures there { IfOk result (λ list.
            list_all (λ d. has_document self.now.tabs d.0) list.items ≡ true) }
        ensures rising { is_rising self.now.tabs ≡ true }
    {
        let alloc = self.tabs.allocator();
        let mut documents = Vec::new(alloc);
        for place in 0..self.tabs.len() {
            self.tabs.at(place).list_documents(alloc, &mut documents)?;
        }
        Ok(documents)
    }

    /// The documents that hear of a change which `writer` made in an area of this storage key, by
    /// tab number and then by frame number.
    ///
    /// A session area asks the writer's tab alone, and a local one the tabs at the key's site.
    pub fn hearers(
        &self,
        kind: AreaKind,
        writer: Label,
        key: &StorageKey,
    ) -> Result<Vec<Label>, NoMemory>
        ensures hearers { IfOk result (λ to.
            to.items ≡ hearers kind writer (plain_key key.now) self.now.tabs) }
        ensures once { IfOk result (λ to. are_distinct to.items ≡ true) }
        ensures there { IfOk result (λ to. list_all (has_document self.now.tabs) to.items ≡ true) }
        ensures rising { is_rising self.now.tabs ≡ true }
    {
        match kind {
            AreaKind::Local => self.local_hearers(writer, key),
            AreaKind::Session => self.session_hearers(writer, key),
        }
    }

    // The documents that hear of a change of a local area.
    fn local_hearers(&self, writer: Label, key: &StorageKey) -> Result<Vec<Label>, NoMemory>
        ensures hearers { IfOk result (λ to.
            to.items ≡ hearers Local writer (plain_key key.now) self.now.tabs) }
        ensures rising { is_rising self.now.tabs ≡ true }
    {
        let mut to = Vec::new(self.tabs.allocator());
        let mut place = 0;
        for number in self.sites.at(&key.top) {
            place = place_behind(&self.tabs, place, *number);
            self.list_hearers(AreaKind::Local, writer, key, *number, place, &mut to)?;
        }
        Ok(to)
    }

    // The documents that hear of a change of a session area.
    fn session_hearers(&self, writer: Label, key: &StorageKey) -> Result<Vec<Label>, NoMemory>
        ensures hearers { IfOk result (λ to.
            to.items ≡ hearers Session writer (plain_key key.now) self.now.tabs) }
        ensures rising { is_rising self.now.tabs ≡ true }
    {
        let mut to = Vec::new(self.tabs.allocator());
        self.list_hearers(AreaKind::Session, writer, key, writer.tab, 0, &mut to)?;
        Ok(to)
    }

    // Puts the documents of a tab that hear of a change behind the others. The tab is looked for at
    // a given place first.
    fn list_hearers(
        &self,
        kind: AreaKind,
        writer: Label,
        key: &StorageKey,
        number: u16,
        given: usize,
        to: &mut Vec<Label>,
    ) -> Result<(), NoMemory>
        ensures listed { let found = tab_at number self.now.tabs in
            OnOk result (to.new.items
            ≡ to.old.items ++ hearers_by kind writer (plain_key key.now) found) }
    {
        match place_by(&self.tabs, given, number) {
            Ok(place) => self.tabs.at(place).list_hearers(kind, writer, key, to),
            Err(_) => Ok(()),
        }
    }
}
