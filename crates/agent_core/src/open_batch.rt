//! The open batch: lines that ran in memory, and wait for their commit.
ghost use Rattle.std.specs.Prelude.{◌≡◌, ◌↔◌, ◌≤◌, ◌+◌, ◌<◌, ◌∷◌, ◌++◌, [], IsTrue, OnOk, length};
ghost use Rattle.std.specs.Prelude.{if◌then◌else◌, map};
ghost use Rattle.reply_lines.specs.Plain.{reply_of};

use agent_base::NoMemory;
use agent_memory::Body;
use reply_lines::Reply;
use std::alloc::Global;
use std::marker::Model;
use std::mem;

/// Lines that ran in memory, and wait for their commit.
#[derive(Debug, Drop)]
pub struct OpenBatch {
    pub size: u16,
    pub body: Body,
    pub changes: u64,
    pub held: Vec<Reply>,
}

impl Model for OpenBatch {
    ghost use Rattle.std.specs.Prelude.{◌-◌, ◌≤◌, length, map, vec_capacity};
    ghost use Rattle.reply_lines.specs.Plain.{reply_of};
    ghost use Rattle.agent_core.specs.Batch.{PlainBatch};

    ghost Value = { PlainBatch };

    ghost view = { λ b. record {
      size = b.size;
      body = b.body.bytes;
      limit = b.body.limit;
      changes = b.changes;
      held = map reply_of b.held.items;
      spare = vec_capacity b.held - length b.held.items;
    } };

    ghost invariant = { λ b. b.changes ≤ length b.held.items };
}

impl OpenBatch {
    /// No line waits. A batch is to have so many.
    pub fn new(alloc: Global, size: u16) -> OpenBatch
        ensures size { result.size ≡ size }
        ensures body { result.body ≡ [] }
        ensures limit { result.limit ≡ 0 }
        ensures changes { result.changes ≡ 0 }
        ensures held { result.held ≡ [] }
        ensures spare { result.spare ≡ 0 }
    {
        OpenBatch {
            size,
            body: Body::new(alloc, 0),
            changes: 0,
            held: Vec::new(alloc),
        }
    }

    /// The bytes of the durable changes.
    pub fn bytes(&self) -> &[u8]
        ensures bytes { result.now ≡ self.now.body }
    {
        self.body.bytes()
    }

    /// How many durable changes there are.
    pub fn changes(&self) -> u64
        ensures changes { result ≡ self.now.changes }
    {
        self.changes
    }

    /// Whether no line waits. Then there is no durable change.
    pub fn is_empty(&self) -> bool
        ensures empty { IsTrue result ↔ (self.now.held ≡ []) }
        ensures none { IsTrue result → self.now.changes ≡ 0 }
    {
        self.held.is_empty()
    }

    /// Whether the batch has all its lines.
    pub fn is_full(&self) -> bool
        ensures { IsTrue result ↔ (self.now.size ≤ length self.now.held) }
    {
        self.held.len() >= self.size as usize
    }

    /// Makes room for one reply.
    pub fn reserve(&mut self) -> Result<(), NoMemory>
        ensures room { OnOk result (0 < self.new.spare) }
        ensures same { self.new ≡ record self.old { spare = self.new.spare } }
    {
        Ok(self.held.reserve(1)?)
    }

    /// Raises the limit of the body.
    pub fn widen(&mut self, limit: usize)
        requires more { self.old.limit ≤ limit }
        ensures same { self.new ≡ record self.old { limit = limit } }
    {
        let _len = self.body.len();
        self.body.set_limit(limit);
    }

    /// Holds the reply of a line, which wrote a durable change or none.
    pub fn hold(&mut self, reply: Reply, has_change: bool)
        requires room { 0 < self.old.spare }
        ensures held { self.new.held ≡ self.old.held ++ reply_of reply ∷ [] }
        ensures changes { self.new.changes ≡ self.old.changes + (if has_change then 1 else 0) }
        ensures body { self.new.body ≡ self.old.body }
        ensures limit { self.new.limit ≡ self.old.limit }
        ensures size { self.new.size ≡ self.old.size }
        ensures spare { self.new.spare + 1 ≡ self.old.spare }
    {
        self.held.push_reserved(reply);
        if has_change {
            self.changes += 1;
        }
    }

    /// No line waits any more.
    pub fn clear(&mut self)
        ensures held { self.new.held ≡ [] }
        ensures body { self.new.body ≡ [] }
        ensures changes { self.new.changes ≡ 0 }
        ensures size { self.new.size ≡ self.old.size }
        ensures limit { self.new.limit ≡ self.old.limit }
        ensures spare { self.new.spare ≡ self.old.spare + length self.old.held }
    {
        self.held.clear();
        self.body.clear();
        self.changes = 0;
    }

    /// Gives out the replies. No line waits any more.
    pub fn give(&mut self) -> Vec<Reply>
        ensures replies { map reply_of result.items ≡ self.old.held }
        ensures held { self.new.held ≡ [] }
        ensures body { self.new.body ≡ [] }
        ensures changes { self.new.changes ≡ 0 }
        ensures size { self.new.size ≡ self.old.size }
        ensures limit { self.new.limit ≡ self.old.limit }
        ensures spare { self.new.spare ≡ 0 }
    {
        let none = Vec::new(*self.held.allocator());
        self.body.clear();
        self.changes = 0;
        mem::replace(&mut self.held, none)
    }
}
