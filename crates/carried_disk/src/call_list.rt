//! The changing calls that are not carried out yet, in order.
ghost use Rattle.std.specs.Prelude.{◌≡◌, ◌↔◌, ◌+◌, ◌-◌, ◌*◌, ◌<◌, ◌≤◌, ◌++◌, ◌∷◌, [], List, ℕ, drop};
ghost use Rattle.std.specs.Prelude.{IsOk, IsTrue, MatchOption, OnErr, OnOk, length, vec_capacity};
ghost use Rattle.std.specs.Prelude.{vec_len};
ghost use Rattle.disk_model.specs.History.{Event, wrote, synced};
ghost use Rattle.carried_disk.specs.Calls.{event_of};
ghost use Rattle.carried_disk.specs.CallBuffers.{CallList, events_of, written};

use agent_base::NoMemory;
use std::alloc::Global;
use std::marker::Model;

/// A call that the owner of a [`CarriedDisk`](crate::CarriedDisk) carries out on its file.
#[derive(Clone, Copy, Debug, Drop)]
pub enum CarriedCall<'a> {
    /// Write these bytes at this offset, in bytes from the file's beginning, over what is there and
    /// past the end.
    Write { at: u64, bytes: &'a [u8] },
    /// Bring all that was written to the medium.
    Sync,
}

// A call of the list. The bytes of its write stand with those of the others.
#[derive(Clone, Copy, Debug, Drop)]
enum ListedCall {
    Write { at: u64, len: usize },
    Sync,
}

// The calls from `next` on are left, and the bytes of their writes stand behind one another from
// `from` on.
#[derive(Debug, Drop)]
pub struct Calls {
    calls: Vec<ListedCall>,
    next: usize,
    bytes: Vec<u8>,
    from: usize,
}

impl Model for Calls {
    ghost use Rattle.std.specs.Prelude.{◌≡◌, ◌-◌, ◌≤◌, drop, length, vec_capacity, vec_len};
    ghost use Rattle.carried_disk.specs.CallBuffers.{CallList, events_of, written};

    ghost Value = { CallList };

    ghost view = { λ c. record {
      left = events_of (drop c.next c.calls.items) (drop c.from c.bytes.items);
      room = vec_capacity c.calls - vec_len c.calls;
      byte_room = vec_capacity c.bytes - vec_len c.bytes;
    } };

    ghost invariant = { λ c. (c.next ≤ vec_len c.calls) × (c.from ≤ vec_len c.bytes)
        × (written (drop c.next c.calls.items) ≡ length (drop c.from c.bytes.items)) };
}

impl Calls {
    /// None.
    pub fn new(alloc: Global) -> Calls
        ensures left { result.left ≡ [] }
    {
        Calls {
            calls: Vec::new(alloc),
            next: 0,
            bytes: Vec::new(alloc),
            from: 0,
        }
    }

    /// Whether none is left.
    pub fn is_empty(&self) -> bool
        ensures { IsTrue result ↔ (self.now.left ≡ []) }
    {
        self.next == self.calls.len()
    }

    /// The first of those left.
    pub fn next(&self) -> Option<CarriedCall<'_>>
        ensures { MatchOption result (self.now.left ≡ [])
            (λ call. (rest : List Event) × (self.now.left ≡ event_of call ∷ rest)) }
    {
        match *self.calls.get(self.next)? {
            ListedCall::Write { at, len } => Some(CarriedCall::Write {
                at,
                bytes: &self.bytes[self.from..self.from + len],
            }),
            ListedCall::Sync => Some(CarriedCall::Sync),
        }
    }

    /// The first of those left is carried out. Where none is left, nothing.
    pub fn done(&mut self)
        ensures left { self.new.left ≡ drop 1 self.old.left }
        ensures room { self.old.room ≤ self.new.room }
        ensures byte_room { self.old.byte_room ≤ self.new.byte_room }
    {
        let Some(call) = self.calls.get(self.next) else {
            return;
        };
        if let ListedCall::Write { len, .. } = *call {
            self.from += len;
        }
        self.next += 1;
        if self.next == self.calls.len() {
            self.clear();
        }
    }

    // Where each was carried out, the list begins anew in the room that is there.
    fn clear(&mut self)
        requires { self.old.left ≡ [] }
        ensures left { self.new.left ≡ [] }
        ensures room { self.old.room ≤ self.new.room }
        ensures byte_room { self.old.byte_room ≤ self.new.byte_room }
    {
        self.calls.clear();
        self.next = 0;
        self.bytes.clear();
        self.from = 0;
    }

    /// A write more, in the room that is there.
    pub fn push_write(&mut self, at: u64, bytes: &[u8])
        requires room { 0 < self.old.room }
        requires byte_room { length bytes.now ≤ self.old.byte_room }
        ensures left { self.new.left ≡ self.old.left ++ wrote at bytes.now ∷ [] }
        ensures room { self.new.room + 1 ≡ self.old.room }
        ensures byte_room { self.old.byte_room ≤ self.new.byte_room + length bytes.now }
    {
        let len = bytes.len();
        self.calls.push_reserved(ListedCall::Write { at, len });
        let _ = self.bytes.extend_from_slice(bytes);
    }

    /// A sync more, in the room that is there.
    pub fn push_sync(&mut self)
        requires room { 0 < self.old.room }
        ensures left { self.new.left ≡ self.old.left ++ synced ∷ [] }
        ensures room { self.new.room + 1 ≡ self.old.room }
        ensures byte_room { self.new.byte_room ≡ self.old.byte_room }
    {
        self.calls.push_reserved(ListedCall::Sync);
    }

    /// Makes room for so many writes of so many bytes each, and for a sync before the first and
    /// behind each.
    pub fn reserve(&mut self, writes: usize, len: usize) -> Result<(), NoMemory>
        ensures left { self.new.left ≡ self.old.left }
        ensures room { OnOk result (writes * 2 + 1 ≤ self.new.room) }
        ensures byte_room { OnOk result (writes * len ≤ self.new.byte_room) }
        ensures kept { (self.old.room ≤ self.new.room)
            × (self.old.byte_room ≤ self.new.byte_room) }
    {
        let Some(bytes) = writes.checked_mul(len) else {
            return Err(NoMemory);
        };
        let calls = writes.saturating_mul(2).saturating_add(1);
        if self.calls.reserve(calls).is_err() || self.bytes.reserve(bytes).is_err() {
            return Err(NoMemory);
        }
        Ok(())
    }
}
