//! The body of the open batch: the bytes of its durable changes, up to a limit.
ghost use Rattle.std.specs.Prelude.{◌≡◌, ◌≤◌, ◌⊎◌, ◌<◌, ◌∷◌, [], Ok, OnErr, OnOk, length, map, take};
ghost use Rattle.row_changes.specs.Appended.{Appends};
ghost use Rattle.row_changes.specs.Plain.{plain_change, plain_ref};
ghost use Rattle.agent_memory.specs.Body.{BodyView, IsRefused};

use agent_base::NoMemory;
use row_changes::{Change, ChangeRef, append_change, append_changes};
use std::alloc::Global;
use std::marker::Model;

/// The bytes of the durable changes of a batch. What would make them more than the limit is
/// refused, and leaves them.
#[derive(Debug, Drop)]
pub struct Body {
    bytes: Vec<u8>,
    limit: usize,
    wanted: usize,
}

impl Model for Body {
    ghost use Rattle.std.specs.Prelude.{◌≤◌, length};
    ghost use Rattle.agent_memory.specs.Body.{BodyView};

    ghost Value = { BodyView };

    ghost view = { λ b. record { bytes = b.bytes.items; limit = b.limit; wanted = b.wanted } };

    ghost invariant = { λ b. length b.bytes.items ≤ b.limit };
}

impl Body {
    /// No bytes, and at most so many. Takes no memory.
    pub fn new(alloc: Global, limit: usize) -> Body
        ensures empty { result ≡ record { bytes = []; limit = limit; wanted = 0 } }
    {
        Body {
            bytes: Vec::new(alloc),
            limit,
            wanted: 0,
        }
    }

    /// The bytes.
    pub fn bytes(&self) -> &[u8]
        ensures bytes { result.now ≡ self.now.bytes }
    {
        self.bytes.as_slice()
    }

    /// How many bytes there are.
    pub fn len(&self) -> usize
        ensures len { result ≡ length self.now.bytes }
        ensures within { result ≤ self.now.limit }
    {
        self.bytes.len()
    }

    /// How many bytes there may be.
    pub fn limit(&self) -> usize
        ensures limit { result ≡ self.now.limit }
    {
        self.limit
    }

    /// How many bytes there would have been at the last refusal for the limit, and 0 where there
    /// was none since the body was empty.
    pub fn wanted(&self) -> usize
        ensures wanted { result ≡ self.now.wanted }
    {
        self.wanted
    }

    /// Takes away all bytes.
    pub fn clear(&mut self)
        ensures empty { self.new ≡ record { bytes = []; limit = self.old.limit; wanted = 0 } }
    {
        self.bytes.clear();
        self.wanted = 0;
    }

    /// Cuts the bytes back to so many, where there are more.
    pub fn truncate(&mut self, len: usize)
        ensures bytes { self.new.bytes ≡ take len self.old.bytes }
        ensures limit { self.new.limit ≡ self.old.limit }
    {
        self.bytes.truncate(len);
    }

    /// Allows so many bytes.
    pub fn set_limit(&mut self, limit: usize)
        requires within { length self.old.bytes ≤ limit }
        ensures limit { self.new ≡ record self.old { limit = limit } }
    {
        self.limit = limit;
    }

    /// Adds one row change, as a durable change of its own.
    pub fn append(&mut self, change: ChangeRef<'_>) -> Result<(), NoMemory>
        ensures appended { Appends (plain_ref change.entry ∷ []) self.old.bytes self.new.bytes
            result }
        ensures refused { OnErr result (IsRefused self.old self.new) }
        ensures limit { self.new.limit ≡ self.old.limit }
    {
        let before = self.bytes.len();
        let written = append_change(&mut self.bytes, change);
        kept(
            &mut self.bytes,
            before,
            self.limit,
            &mut self.wanted,
            written,
        )
    }

    /// Adds the row changes of a line, as one durable change, or nothing where there is none.
    pub fn append_all(&mut self, changes: &[Change]) -> Result<(), NoMemory>
        ensures appended { Appends (map plain_change changes.now) self.old.bytes self.new.bytes
            result }
        ensures refused { OnErr result (IsRefused self.old self.new) }
        ensures limit { self.new.limit ≡ self.old.limit }
    {
        let before = self.bytes.len();
        let written = append_changes(&mut self.bytes, changes);
        kept(
            &mut self.bytes,
            before,
            self.limit,
            &mut self.wanted,
            written,
        )
    }
}

// Keeps what was written, where that is no refusal and the limit allows it. Else the bytes are cut
// back to those before.
fn kept(
    bytes: &mut Vec<u8>,
    before: usize,
    limit: usize,
    wanted: &mut usize,
    written: Result<(), NoMemory>,
) -> Result<(), NoMemory>
    ensures same { OnOk result ((written ≡ Ok tt) × (bytes.new.items ≡ bytes.old.items)) }
    ensures within { OnOk result (length bytes.new.items ≤ limit) }
    ensures cut { OnErr result (bytes.new.items ≡ take before bytes.old.items) }
    ensures wanted { OnErr result ((wanted.new ≡ wanted.old) ⊎ (limit < wanted.new)) }
{
    match written {
        Ok(()) if bytes.len() <= limit => return Ok(()),
        Ok(()) => *wanted = bytes.len(),
        Err(NoMemory) => {}
    }
    bytes.truncate(before);
    Err(NoMemory)
}
