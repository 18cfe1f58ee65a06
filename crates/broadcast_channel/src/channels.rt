//! The channels of one agent.
ghost use Rattle.std.specs.Prelude.{◌≡◌, ◌↔◌, [], ◌∷◌, Err, IfOk, OnErr, OnOk, IsErr, MatchOption, option_map, Some, None, is_some, true, false, not, find, filter, string_bytes};
ghost use Rattle.std.specs.Ordering.{is_eq};
ghost use Rattle.std.specs.Rc.{rc_value};
ghost use Rattle.broadcast_channel.specs.Channel.{channel_at, is_open_at, fresh, channel_opened, posted, reached, received, closed, without_owner, waits_at, is_channel_of};

use crate::Message;
use crate::hearers::{ChannelId, Hearers, Line};
use crate::lines::{self, Lines};
use agent_base::NoMemory;
use key_map::KeyMap;
use std::alloc::Global;
use std::marker::Model;
use std::rc::Rc;

/// The owner has no channel of this id.
#[derive(Clone, Copy, Debug, PartialEq, Eq)]
pub struct NoChannel;

/// Why no channel was opened. The channels are as they were.
#[derive(Clone, Copy, Debug, PartialEq, Eq)]
pub enum OpenFault {
    /// The owner has a channel of this id, open or closed.
    IdUsed,
    /// A growth of memory was refused.
    NoMemory,
}

/// Why a text was not posted. The channels are as they were.
#[derive(Clone, Copy, Debug, PartialEq, Eq)]
pub enum PostFault {
    /// The owner has no channel of this id.
    NoChannel,
    /// The channel is closed, which the standard names an InvalidStateError.
    Closed,
    /// A growth of memory was refused.
    NoMemory,
}

/// Broadcast channels. Each has an owner, and an id that the owner gave it.
#[derive(Debug, Drop)]
pub struct Channels<O: Ord + Copy + Drop, K: Ord + Drop> {
    own: KeyMap<ChannelId<O>, Rc<Line<K>>>,
    lines: KeyMap<Rc<Line<K>>, Hearers<O>>,
    alloc: Global,
}

impl<O: Ord + Copy + Drop, K: Ord + Drop> Model for Channels<O, K> {
    ghost use Rattle.std.specs.Prelude.{List};
    ghost use Rattle.broadcast_channel.specs.Channel.{PlainChannel};
    ghost use Rattle.broadcast_channel.specs.Hearers.{channels_of, AreOwned, by_id, by_line};

    ghost Value = { List (PlainChannel O K) };

    ghost view = { λ c. channels_of O.cmp K.cmp c.own c.lines };

    ghost invariant = { λ c. AreOwned (by_line K.cmp) (by_id O.cmp) c.own c.lines };
}

impl<O: Ord + Copy + Drop, K: Ord + Drop> Channels<O, K> {
    /// No channels.
    pub fn new(alloc: Global) -> Channels<O, K>
        ensures empty { result ≡ [] }
    {
        Channels {
            own: KeyMap::new(alloc),
            lines: KeyMap::new(alloc),
            alloc,
        }
    }

    /// Opens a channel of an owner under an id, for a storage key and a channel name.
    pub fn open(&mut self, owner: O, id: u32, key: K, name: String) -> Result<(), OpenFault>
        ensures opened { OnOk result
            (self.new ≡ channel_opened O.cmp (fresh owner id key (string_bytes name)) self.old) }
        ensures id_used { (result ≡ Err OpenFault.IdUsed)
            ↔ (is_some (channel_at O.cmp owner id self.old) ≡ true) }
        ensures unchanged { OnErr result (self.new ≡ self.old) }
    {
        let channel = ChannelId { owner, id };
        if self.own.contains(&channel) {
            return Err(OpenFault::IdUsed);
        }
        let Ok(line) = Rc::new(self.alloc, Line { key, name }) else {
            return Err(OpenFault::NoMemory);
        };
        match self.admit(channel, line) {
            Ok(()) => Ok(()),
            Err(NoMemory) => Err(OpenFault::NoMemory),
        }
    }

    // Opens a channel of an id that is not used.
    fn admit(&mut self, channel: ChannelId<O>, line: Rc<Line<K>>) -> Result<(), NoMemory>
        requires unused { channel_at O.cmp channel.owner channel.id self.old ≡ None }
        ensures opened { OnOk result (self.new
            ≡ channel_opened O.cmp (fresh channel.owner channel.id (rc_value line).key
            (string_bytes (rc_value line).name)) self.old) }
        ensures unchanged { OnErr result (self.new ≡ self.old) }
    {
        self.own.insert(channel, line.clone()?)?;
        match lines::join(&mut self.lines, line, channel, self.alloc) {
            Ok(()) => Ok(()),
            Err(NoMemory) => {
                let _ = self.own.remove(&channel);
                Err(NoMemory)
            }
        }
    }

    /// Posts a message on a channel. It waits in every other channel of the same storage key and
    /// channel name that is open, or is counted as lost there where 1,024 wait. Gives the number
    /// of these channels.
    pub fn post(&mut self, owner: O, id: u32, message: &Message) -> Result<u32, PostFault>
        ensures posted { OnOk result
            (self.new ≡ posted O.cmp K.cmp owner id message.now self.old) }
        ensures reached { IfOk result (λ count. count
            ≡ reached O.cmp K.cmp owner id self.old) }
        ensures no_channel { (result ≡ Err PostFault.NoChannel)
            ↔ (is_open_at O.cmp owner id self.old ≡ None) }
        ensures closed { (result ≡ Err PostFault.Closed)
            ↔ (is_open_at O.cmp owner id self.old ≡ Some false) }
        ensures unchanged { OnErr result (self.new ≡ self.old) }
    {
        let from = ChannelId { owner, id };
        let Some(line) = self.own.get(&from) else {
            return Err(PostFault::NoChannel);
        };
        if !lines::is_open(&self.lines, line, &from) {
            return Err(PostFault::Closed);
        }
        match lines::post(&mut self.lines, line, &from, message) {
            Ok(reached) => Ok(reached),
            Err(NoMemory) => Err(PostFault::NoMemory),
        }
    }

    /// Gives what waits in a channel, in the order in which it was posted, and how many messages
    /// were lost since. Both are none afterwards, as they are of a closed channel.
    pub fn receive(&mut self, owner: O, id: u32) -> Result<(Vec<Message>, u32), NoChannel>
        ensures given { IfOk result (λ given. Some (given.0.items, given.1)
            ≡ waits_at O.cmp owner id self.old) }
        ensures received { self.new ≡ received O.cmp owner id self.old }
        ensures no_channel { IsErr result
            ↔ (channel_at O.cmp owner id self.old ≡ None) }
    {
        let channel = ChannelId { owner, id };
        match self.own.get(&channel) {
            Some(line) => Ok(lines::take(&mut self.lines, line, &channel, self.alloc)),
            None => Err(NoChannel),
        }
    }

    /// Closes a channel. What waits in it is dropped, and its id stays used.
    pub fn close(&mut self, owner: O, id: u32) -> Result<(), NoChannel>
        ensures closed { self.new ≡ closed O.cmp owner id self.old }
        ensures no_channel { IsErr result
            ↔ (channel_at O.cmp owner id self.old ≡ None) }
    {
        let channel = ChannelId { owner, id };
        match self.own.get(&channel) {
            Some(line) => {
                lines::leave(&mut self.lines, line, &channel);
                Ok(())
            }
            None => Err(NoChannel),
        }
    }

    /// Drops all channels of an owner, with what waits in them.
    pub fn drop_owner(&mut self, owner: O)
        ensures dropped { self.new ≡ without_owner O.cmp owner self.old }
    {
        while let Some(id) = self.first_of(owner) {
            self.forget(ChannelId { owner, id });
        }
    }

    // The least id of an owner's channels.
    fn first_of(&self, owner: O) -> Option<u32>
        ensures first { MatchOption result (without_owner O.cmp owner self.now ≡ self.now)
            (λ id. is_some (channel_at O.cmp owner id self.now) ≡ true) }
    {
        let least = ChannelId { owner, id: 0 };
        match self.own.range_from(&least).next() {
            Some((channel, _)) if channel.owner.cmp(&owner).is_eq() => Some(channel.id),
            _ => None,
        }
    }

    // Drops a channel.
    fn forget(&mut self, channel: ChannelId<O>)
        ensures forgotten { self.new
            ≡ filter (λ c. not (is_channel_of O.cmp channel.owner channel.id c)) self.old }
    {
        if let Some(line) = self.own.remove(&channel) {
            lines::leave(&mut self.lines, &line, &channel);
        }
    }
}
