//! The durable state that frames lead to.
ghost use Rattle.std.specs.Prelude.{◌≡◌, ◌↔◌, Err, IfOk, IsTrue, OnErr, OnOk};
ghost use Rattle.std.specs.Prelude.{false, map, not, true};
ghost use Rattle.row_changes.specs.Body.{rows_bytes};
ghost use Rattle.row_changes.specs.Plain.{plain_change};
ghost use Rattle.row_changes.specs.Spelled.{IsSpelled};
ghost use Rattle.durable_model.specs.Migrate.{IsUnder, migrate, stays_whole};
ghost use Rattle.durable_model.specs.RowEdits.{edited, is_valid};
ghost use Rattle.durable_model.specs.Saved.{IsValid, nothing_saved};
ghost use Rattle.spelled_model.specs.Rows.{IsReadSaved, IsReadSavedUnder};
ghost use Rattle.row_store.specs.Applying.{IsReady, PutsNewName};
ghost use Rattle.row_store.specs.Bodies.{from};
ghost use Rattle.row_store.specs.Laws.{IsSpelledState, IsSpelledStateUnder, IsStorable};
ghost use Rattle.row_store.specs.Listing.{listed};
ghost use Rattle.row_store.specs.Stored.{HasNoSession, saved_of};

use crate::RowFault;
use crate::parts::Parts;
use crate::reading::read_body;
use crate::spelling::has_spelling;
use agent_base::NoMemory;
use durable_model::lines_keep_durable_states;
use journal::{Replay, ReplayFault};
use row_changes::Change;
use spelled_model::lines_have_spellings;
use std::alloc::Global;
use std::marker::Model;
use suffix_list::SuffixList;

/// The durable state that the frames of a store lead to.
#[derive(Debug, Drop)]
pub struct Rows {
    alloc: Global,
    parts: Parts,
}

impl Model for Rows {
    ghost use Rattle.row_store.specs.Edits.{IsStanding};
    ghost use Rattle.row_store.specs.Stored.{PlainRows};

    ghost Value = { PlainRows };

    ghost view = { λ r. record { parts = r.parts } };

    ghost invariant = { λ r. IsStanding r.parts };
}

impl Rows {
    /// No rows.
    pub fn new(alloc: Global) -> Rows
        ensures empty { saved_of result.parts ≡ nothing_saved }
    {
        Rows {
            alloc,
            parts: Parts::new(alloc),
        }
    }

    /// The parts, to be read.
    pub fn parts(&self) -> &Parts
        ensures parts { result.now ≡ self.now.parts }
    {
        &self.parts
    }

    /// The parts, for an agent that goes on with them.
    pub fn into_parts(self) -> Parts
        ensures parts { result ≡ self.parts }
        ensures valid { IsValid (saved_of self.parts) }
        ensures read { IsReadSaved (saved_of self.parts) }
        ensures storable { IsStorable (saved_of self.parts) }
        ensures spelled { IsSpelledState (saved_of self.parts) }
        ensures sessions { HasNoSession self.parts.storage }
    {
        self.parts
    }

    /// The parts, for an agent that goes on with them under a list. Where all of their state stays
    /// under it, as after a [`migrate`](Rows::migrate), it is one that was read under it, and the
    /// row changes that make it again have a spelling under it.
    pub fn into_parts_under(self, list: &SuffixList) -> Parts
        ensures parts { result ≡ self.parts }
        ensures valid { IsValid (saved_of self.parts) }
        ensures read { IsReadSaved (saved_of self.parts) }
        ensures storable { IsStorable (saved_of self.parts) }
        ensures spelled { IsSpelledState (saved_of self.parts) }
        ensures sessions { HasNoSession self.parts.storage }
        ensures read_under { IsUnder list.now.rules (saved_of self.parts)
            → IsReadSavedUnder list.now.rules (saved_of self.parts) }
        ensures spelled_under { IsUnder list.now.rules (saved_of self.parts)
            → IsSpelledStateUnder list.now.rules (saved_of self.parts) }
    {
        lines_have_spellings();
        let _ = list;
        self.parts
    }

    /// Drops what of the rows is none under a list, and tells whether something went. What stays is
    /// as it was. Takes no memory.
    pub fn migrate(&mut self, list: &SuffixList) -> bool
        ensures state { let saved = saved_of self.old.parts in
            saved_of self.new.parts ≡ migrate list.now.rules saved }
        ensures went { result ≡ not (stays_whole list.now.rules (saved_of self.old.parts)) }
    {
        self.parts.migrate(list)
    }

    /// The row changes of a snapshot, in the order in which they are written.
    pub fn listing(&self, alloc: Global) -> Result<Vec<Change>, NoMemory>
        ensures rows { IfOk result
            (λ rows. map plain_change rows.items ≡ listed (saved_of self.now.parts)) }
    {
        self.parts.listing(alloc)
    }

    /// The body of a snapshot.
    pub fn snapshot(&self, alloc: Global) -> Result<Vec<u8>, NoMemory>
        ensures bytes { IfOk result
            (λ body. body.items ≡ rows_bytes (listed (saved_of self.now.parts))) }
    {
        self.parts.snapshot(alloc)
    }

    /// Whether a row change has a spelling: what its own fields decide, and nothing of the state or
    /// of a suffix list.
    ///
    /// It writes the row change and reads it back, in memory of its own. A text of 4 GiB or more is
    /// answered as want of memory.
    pub fn has_spelling(&self, change: &Change) -> Result<bool, NoMemory>
        ensures spelled { IfOk result
            (λ is. IsTrue is ↔ IsSpelled (plain_change change.now)) }
    {
        has_spelling(self.alloc, change)
    }

    /// Makes room for a row change, so that applying it takes no memory, but for a new name of an
    /// area. The state stays.
    pub fn reserve(&mut self, change: &Change) -> Result<(), NoMemory>
        ensures ready { OnOk result (IsReady change.now self.new.parts) }
        ensures same { saved_of self.new.parts ≡ saved_of self.old.parts }
    {
        self.parts.reserve(self.alloc, change)
    }

    /// Applies a row change that has a spelling, where it is valid in the state. A refusal leaves
    /// the state.
    ///
    /// Without room for a row change, want of memory may come first.
    pub fn apply(&mut self, change: Change) -> Result<(), RowFault>
        requires spelled { IsSpelled (plain_change change) }
        ensures applied { let state = edited (plain_change change) (saved_of self.old.parts) in
            OnOk result (saved_of self.new.parts ≡ state) }
        ensures valid { let valid = is_valid (plain_change change) (saved_of self.old.parts) in
            OnOk result (valid ≡ true) }
        ensures invalid { let valid = is_valid (plain_change change) (saved_of self.old.parts) in
            result ≡ Err RowFault.Invalid → valid ≡ false }
        ensures refused { let valid = is_valid (plain_change change) (saved_of self.old.parts) in
            IsReady change self.old.parts → valid ≡ false → result ≡ Err RowFault.Invalid }
        ensures unchanged { OnErr result (saved_of self.new.parts ≡ saved_of self.old.parts) }
        ensures memory { IsReady change self.old.parts → result ≡ Err RowFault.NoMemory
            → PutsNewName (plain_change change) (saved_of self.old.parts) }
    {
        lines_keep_durable_states();
        lines_have_spellings();
        match self.parts.edit(self.alloc, change) {
            Ok(true) => Ok(()),
            Ok(false) => Err(RowFault::Invalid),
            Err(NoMemory) => Err(RowFault::NoMemory),
        }
    }

    // Stands for the state from which a frame of this kind is read.
    fn begin_frame(&mut self, snapshot: bool)
        ensures saved { saved_of self.new.parts ≡ from snapshot (saved_of self.old.parts) }
    {
        if snapshot {
            self.begin();
        }
    }
}

impl Replay for Rows {
    ghost use Rattle.durable_model.specs.Saved.{Saved, nothing_saved};
    ghost use Rattle.row_store.specs.Bodies.{Refuses, Takes};
    ghost use Rattle.row_store.specs.OneMeaning as meant;
    ghost use Rattle.row_store.specs.Stored.{saved_of};

    ghost State = { Saved };

    ghost state = { λ r. saved_of r.parts };

    ghost empty = { nothing_saved };

    ghost Rules = { Unit {0} };

    ghost rules = { λ r. tt };

    ghost takes = { λ by. Takes };

    ghost refuses = { λ by. Refuses };

    ghost one_state = { λ by. meant.one_state };

    ghost one_count = { λ by. meant.one_count };

    ghost one_fault = { λ by. meant.one_fault };

    ghost apart = { λ by. meant.apart };

    ghost either = { λ by. meant.either };

    fn begin(&mut self) {
        self.parts = Parts::new(self.alloc);
    }

    fn frame(&mut self, snapshot: bool, body: &[u8]) -> Result<u64, ReplayFault> {
        self.begin_frame(snapshot);
        let read = read_body(&mut self.parts, self.alloc, snapshot, body);
        if read.is_err() {
            self.parts = Parts::new(self.alloc);
        }
        read
    }
}
