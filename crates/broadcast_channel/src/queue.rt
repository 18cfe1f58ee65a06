//! The messages that wait in one channel.
ghost use Rattle.std.specs.Prelude.{◌≡◌};
ghost use Rattle.broadcast_channel.specs.Queue.{IsOffered, is_ready, accepted, empty_queue, withdrawn};

use crate::Message;
use std::alloc::Global;
use std::marker::Model;
use std::mem;

/// The number of messages that wait in a channel at most.
pub const MESSAGES: usize = 1024;

// The messages of a channel that is open, how many more were lost, and a message that is offered,
// with its room.
#[derive(Debug, Drop)]
pub(crate) struct Queue {
    messages: Vec<Message>,
    lost: u32,
    offered: Option<Message>,
}

impl Model for Queue {
    ghost use Rattle.std.specs.Prelude.{◌≡◌, ◌<◌, true, is_some, vec_capacity, length};
    ghost use Rattle.broadcast_channel.specs.Queue.{PlainQueue};

    ghost Value = { PlainQueue };

    ghost view = { λ q. record {
      messages = q.messages.items;
      lost = q.lost;
      offered = q.offered;
    } };

    ghost invariant = { λ q. is_some q.offered ≡ true
        → length q.messages.items < vec_capacity q.messages };
}

impl Queue {
    // A queue without messages, that lost none.
    pub(crate) fn new(alloc: Global) -> Queue
        ensures empty { result ≡ empty_queue }
    {
        Queue {
            messages: Vec::new(alloc),
            lost: 0,
            offered: None,
        }
    }

    // Makes room for a message, and keeps a handle on it for `accept`. A full queue needs none.
    pub(crate) fn offer(&mut self, message: &Message)
        ensures offered { IsOffered message.now self.old self.new }
    {
        self.offered = None;
        if self.messages.len() < MESSAGES && self.messages.reserve(1).is_ok() {
            self.offered = match message.copy() {
                Ok(message) => Some(message),
                Err(_) => None,
            };
        }
    }

    // Whether the next message has its room, or is lost.
    pub(crate) fn is_ready(&self) -> bool
        ensures ready { result ≡ is_ready self.now }
    {
        self.messages.len() >= MESSAGES || self.offered.is_some()
    }

    // Puts the message that is offered last, or counts one as lost where the queue is full.
    pub(crate) fn accept(&mut self)
        ensures accepted { self.new ≡ accepted self.old }
    {
        if self.messages.len() >= MESSAGES {
            self.lost = self.lost.saturating_add(1);
            return;
        }
        if let Some(message) = self.offered.take() {
            self.messages.push_reserved(message);
        }
    }

    // Drops the message that is offered.
    pub(crate) fn withdraw(&mut self)
        ensures withdrawn { self.new ≡ withdrawn self.old }
    {
        self.offered = None;
    }

    // Gives the messages and the number of lost ones, and leaves none.
    pub(crate) fn take(&mut self) -> (Vec<Message>, u32)
        ensures given { (result.0.items ≡ self.old.messages) × (result.1 ≡ self.old.lost) }
        ensures emptied { self.new ≡ empty_queue }
    {
        let empty = Vec::new(*self.messages.allocator());
        self.offered = None;
        let messages = mem::replace(&mut self.messages, empty);
        let lost = mem::replace(&mut self.lost, 0);
        (messages, lost)
    }
}
