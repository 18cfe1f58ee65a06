//! The channels that are open under one storage key and one channel name.
ghost use Rattle.std.specs.Prelude.{◌≡◌, ◌==◌, [], length, IfOk, OnOk, OnErr, is_some, true};
ghost use Rattle.std.specs.Map.{keys_of, values_of};
ghost use Rattle.std.specs.List.Sorted.{IsStrictlySortedBy};
ghost use Rattle.std.specs.List.{list_all, AllZip};
ghost use Rattle.key_map.specs.Entries.{map_get, map_put, map_remove, map_set};
ghost use Rattle.broadcast_channel.specs.Queue.{PlainQueue, IsOffered, IsTold, WaitsSame, is_ready, settled, empty_queue};
ghost use Rattle.broadcast_channel.specs.Hearers.{by_id, IsOfferedTo, IsSettled, waiting_at, GivenTo};

use crate::Message;
use crate::queue::Queue;
use agent_base::NoMemory;
use std::alloc::Global;
use std::collections::BTreeMap;
use std::marker::Model;

// A channel, named by its owner and by the id that the owner gave it.
#[derive(Clone, Copy, Debug, PartialEq, Eq, PartialOrd, Ord)]
pub(crate) struct ChannelId<O> {
    pub(crate) owner: O,
    pub(crate) id: u32,
}

// What channels hear each other by: a storage key and a channel name.
#[derive(Debug, Drop, PartialEq, Eq, PartialOrd, Ord)]
pub(crate) struct Line<K> {
    pub(crate) key: K,
    pub(crate) name: String,
}

// The queues of the channels that are open in a line.
#[derive(Debug, Drop)]
pub(crate) struct Hearers<O: Ord + Copy + Drop> {
    queues: BTreeMap<ChannelId<O>, Queue>,
}

impl<O: Ord + Copy + Drop> Model for Hearers<O> {
    ghost use Rattle.std.specs.Prelude.{List};
    ghost use Rattle.broadcast_channel.specs.Queue.{PlainQueue};
    ghost use Rattle.broadcast_channel.specs.declared.hearers.ChannelId.{ChannelId};

    ghost Value = { List (ChannelId O × PlainQueue) };

    ghost view = { λ h. h.queues.entries };
}

impl<O: Ord + Copy + Drop> Hearers<O> {
    // No channel.
    pub(crate) fn new(alloc: Global) -> Hearers<O>
        ensures empty { result ≡ [] }
    {
        Hearers {
            queues: BTreeMap::new(alloc),
        }
    }

    // Whether no channel is open.
    pub(crate) fn is_empty(&self) -> bool
        ensures empty { result ≡ (length self.now == 0) }
    {
        self.queues.len() == 0
    }

    // Whether a channel is open.
    pub(crate) fn contains(&self, id: &ChannelId<O>) -> bool
        ensures contains { result ≡ is_some (map_get (by_id O.cmp) id.now self.now) }
    {
        self.queues.contains_key(id)
    }

    // A channel opens, and nothing waits in it.
    pub(crate) fn join(&mut self, id: ChannelId<O>, alloc: Global) -> Result<(), NoMemory>
        ensures joined { OnOk result (self.new ≡ map_put (by_id O.cmp) id empty_queue self.old) }
        ensures unchanged { OnErr result (self.new ≡ self.old) }
    {
        match self.queues.insert(id, Queue::new(alloc)) {
            Ok(_) => Ok(()),
            Err(_) => Err(NoMemory),
        }
    }

    // A channel closes.
    pub(crate) fn leave(&mut self, id: &ChannelId<O>)
        ensures left { self.new ≡ map_remove (by_id O.cmp) id.now self.old }
    {
        prove_eq!(self.queues.len(), self.queues.len());
        let _ = self.queues.remove(id);
    }

    // Gives what waits in a channel, and leaves nothing there.
    pub(crate) fn take(&mut self, id: &ChannelId<O>, alloc: Global) -> (Vec<Message>, u32)
        ensures given { GivenTo (map_get (by_id O.cmp) id.now self.old) result.0.items result.1 }
        ensures emptied { self.new ≡ map_set (by_id O.cmp) id.now empty_queue self.old }
    {
        match self.queues.get_mut(id) {
            Some(queue) => queue.take(),
            None => (Vec::new(alloc), 0),
        }
    }

    // Puts a message last in every channel but the one that it is posted on, or counts it as lost
    // where 1,024 wait. Gives the number of these channels.
    pub(crate) fn post(&mut self, from: &ChannelId<O>, message: &Message) -> Result<u32, NoMemory>
        ensures told { OnOk result
            (AllZip (IsTold (by_id O.cmp) from.now message.now) self.old self.new) }
        ensures reached { IfOk result (λ count. count
            ≡ length (map_remove (by_id O.cmp) from.now self.old)) }
        ensures unchanged { OnErr result (AllZip WaitsSame self.old self.new) }
        ensures ordered { IsStrictlySortedBy (by_id O.cmp) (keys_of self.old) }
    {
        let others = self.others(from)?;
        self.offer(message);
        let ready = self.is_ready();
        self.settle(from, ready);
        if ready { Ok(others) } else { Err(NoMemory) }
    }

    // The number of the other channels.
    fn others(&self, from: &ChannelId<O>) -> Result<u32, NoMemory>
        ensures others { IfOk result (λ count. count
            ≡ length (map_remove (by_id O.cmp) from.now self.now)) }
        ensures ordered { IsStrictlySortedBy (by_id O.cmp) (keys_of self.now) }
    {
        let all = self.queues.len();
        let own = usize::from(self.contains(from));
        match u32::try_from(all.saturating_sub(own)) {
            Ok(others) => Ok(others),
            Err(_) => Err(NoMemory),
        }
    }

    // Offers a message to every channel.
    fn offer(&mut self, message: &Message)
        ensures offered { AllZip (IsOfferedTo message.now) self.old self.new }
    {
        self.queues.retain(|_, queue| {
            queue.offer(message);
            true
        });
    }

    // Whether every channel takes or loses the next message without more memory.
    fn is_ready(&self) -> bool
        ensures ready { result ≡ list_all is_ready (values_of self.now) }
    {
        self.queues.values().all(|queue| queue.is_ready())
    }

    // Puts what was offered last in every other channel where all are ready, and drops it else.
    fn settle(&mut self, from: &ChannelId<O>, ready: bool)
        ensures settled { AllZip (IsSettled (by_id O.cmp) from.now ready) self.old self.new }
    {
        self.queues.retain(|id, queue| {
            settle_queue(from, ready, id, queue);
            true
        });
    }
}

// Puts what was offered last in another channel, where all are ready, and drops it else.
fn settle_queue<O: Ord>(from: &ChannelId<O>, ready: bool, id: &ChannelId<O>, queue: &mut Queue)
    ensures settled { queue.new ≡ settled (by_id O.cmp) from.now ready id.now queue.old }
{
    if ready && !from.cmp(id).is_eq() {
        queue.accept();
    } else {
        queue.withdraw();
    }
}
