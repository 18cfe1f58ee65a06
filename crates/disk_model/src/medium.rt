// The bytes of a disk in memory, with the history of its changing calls.
ghost use Rattle.std.specs.Prelude.{◌≡◌, ◌+◌, ◌<◌, ◌≤◌, ◌++◌, ◌∷◌, [], List, ℕ, length};
ghost use Rattle.std.specs.Prelude.{true, false, OnOk, OnErr, IsOk, vec_capacity, vec_len};
ghost use Rattle.disk_model.specs.Image.{greatest_end};
ghost use Rattle.disk_model.specs.History.{overlaid, wrote, synced, after, Past, held, Grows};
ghost use Rattle.disk_model.specs.Recovery.{Recovered};
ghost use Rattle.disk_model.specs.MediumBuffers.{IsPlaced, AreBuffersOf, HasRoom, unless_fresh};

use crate::history::{Change, History};
use crate::recovery::{keep_each, recover};
use std::alloc::{AllocError, Global};
use std::marker::Model;

// Puts these bytes in the place of those that are there, in the room that is there.
pub fn copy(into: &mut Vec<u8>, bytes: &[u8]) -> Result<(), AllocError>
    ensures items { OnOk result (into.new.items ≡ bytes.now) }
    ensures capacity { vec_capacity into.old ≤ vec_capacity into.new }
    ensures full { OnErr result (vec_capacity into.old < length bytes.now) }
{
    into.clear();
    into.extend_from_slice(bytes)
}

// Writes over what is there, and past the end.
#[tactic(auto, unfolding(crate::specs::History::overlaid))]
fn overlay(contents: &mut Vec<u8>, at: usize, bytes: &[u8]) -> Result<(), AllocError>
    requires place { at ≤ vec_len contents.old }
    requires fits { at + length bytes.now < 18446744073709551616 }
    ensures items { OnOk result (contents.new.items ≡ overlaid contents.old.items at bytes.now) }
    ensures capacity { vec_capacity contents.old ≤ vec_capacity contents.new }
    ensures full { OnErr result (vec_capacity contents.old < at + length bytes.now) }
{
    let end = at + bytes.len();
    if end <= contents.len() {
        contents[at..end].copy_from_slice(bytes);
        return Ok(());
    }
    contents.truncate(at);
    contents.extend_from_slice(bytes)
}

// Before the first write: what is on the disk is what is there.
fn begin(fresh: bool, contents: &[u8], synced: &mut Vec<u8>) -> Result<(), AllocError>
    ensures synced { OnOk result
        (synced.new.items ≡ unless_fresh fresh contents.now synced.old.items) }
    ensures capacity { vec_capacity synced.old ≤ vec_capacity synced.new }
    ensures full { OnErr result (vec_capacity synced.old < length contents.now) }
{
    if fresh {
        copy(synced, contents)?;
    }
    Ok(())
}

// After a sync: what is on the disk is what is there. Only the ranges written since the last sync
// that succeeded are brought over.
fn settle(
    fresh: bool,
    contents: &[u8],
    synced: &mut Vec<u8>,
    ranges: &[(usize, usize)],
) -> Result<(), AllocError>
    requires within { greatest_end 0 ranges.now ≤ length contents.now }
    requires placed { fresh ≡ false
        → IsPlaced synced.old.items contents.now ranges.now contents.now }
    ensures synced { OnOk result (unless_fresh fresh contents.now synced.new.items ≡ contents.now) }
    ensures capacity { vec_capacity synced.old ≤ vec_capacity synced.new }
    ensures full { OnErr result ((fresh ≡ false)
        × (vec_capacity synced.old < length contents.now)) }
{
    if fresh {
        return Ok(());
    }
    keep_each(synced, contents, ranges)
}

// The bytes. Until the first write the contents stand for what is on the disk too. The history is
// that of all changing calls since the last restart; the ranges are those written since the last
// sync that succeeded.
#[derive(Debug, Drop)]
pub struct Medium {
    contents: Vec<u8>,
    synced: Vec<u8>,
    fresh: bool,
    ranges: Vec<(usize, usize)>,
    history: History,
    room_end: usize,
    room_writes: usize,
}

impl Model for Medium {
    ghost Value = { Past };

    ghost view = { λ m. record {
      first = m.history.first;
      events = m.history.events;
      room_end = m.room_end;
      room_writes = m.room_writes;
    } };

    ghost invariant = { λ m. AreBuffersOf m.contents.items m.synced.items m.fresh m.ranges.items
        m.history.first m.history.events
        × HasRoom m.contents m.synced m.fresh m.ranges m.room_end m.room_writes };
}

impl Medium {
    /// Writes over what is there, and past the end.
    pub fn write(&mut self, at: usize, bytes: &[u8]) -> Result<(), AllocError>
        requires place { at ≤ length (held self.old).contents }
        requires room { at + length bytes.now ≤ self.old.room_end }
        requires writes { 0 < self.old.room_writes }
        ensures ok { IsOk result }
        ensures grows { Grows self.old self.new (after (held self.old) (wrote at bytes.now)) }
        ensures end { self.new.room_end ≡ self.old.room_end }
        ensures writes { self.new.room_writes + 1 ≡ self.old.room_writes }
    {
        begin(self.fresh, &self.contents, &mut self.synced)?;
        self.fresh = false;
        overlay(&mut self.contents, at, bytes)?;
        self.ranges.push((at, bytes.len()))?;
        self.history = self.history.then(&Change::Wrote(at, bytes));
        self.room_writes -= 1;
        Ok(())
    }

    /// All that is there is on the disk. Takes the time of what was written since the last sync.
    pub fn sync(&mut self) -> Result<(), AllocError>
        ensures ok { IsOk result }
        ensures grows { Grows self.old self.new (after (held self.old) synced) }
        ensures end { self.new.room_end ≡ self.old.room_end }
        ensures writes { self.new.room_writes ≡ self.old.room_writes }
    {
        settle(self.fresh, &self.contents, &mut self.synced, &self.ranges)?;
        self.ranges.clear();
        self.history = self.history.then(&Change::Synced);
        Ok(())
    }

    /// A sync that failed.
    pub fn miss(&mut self)
        ensures grows { Grows self.old self.new (held self.old) }
        ensures end { self.new.room_end ≡ self.old.room_end }
        ensures writes { self.new.room_writes ≡ self.old.room_writes }
    {
        self.history = self.history.then(&Change::Missed);
    }

    /// The power was cut, and comes back. The history begins anew.
    pub fn restart(&mut self, pick: u8) -> Result<(), AllocError>
        ensures ok { IsOk result }
        ensures recovered { Recovered pick (held self.old) self.new.first }
        ensures events { self.new.events ≡ [] }
        ensures end { self.new.room_end ≡ self.old.room_end }
        ensures writes { self.new.room_writes ≡ self.old.room_writes }
    {
        recover(
            self.fresh,
            &mut self.contents,
            &mut self.synced,
            &mut self.ranges,
            pick,
        )?;
        self.fresh = true;
        self.ranges.clear();
        self.history = self.history.then(&Change::Began(&self.contents));
        Ok(())
    }

    pub fn bytes(&self) -> &[u8]
        ensures { result.now ≡ (held self.now).contents }
    {
        &self.contents
    }

    pub fn new(alloc: Global, contents: Vec<u8>) -> Medium
        ensures first { result.first ≡ contents.items }
        ensures events { result.events ≡ [] }
        ensures writes { result.room_writes ≡ 0 }
    {
        let history = History::new().then(&Change::Began(&contents));
        Medium {
            contents,
            synced: Vec::new(alloc),
            fresh: true,
            ranges: Vec::new(alloc),
            history,
            room_end: 0,
            room_writes: 0,
        }
    }

    /// Makes room for so many writes that end at most there. Where a buffer grows, it doubles at
    /// least. Room that is never written takes addresses rather than memory.
    pub fn reserve(&mut self, end: usize, writes: usize) -> Result<(), AllocError>
        ensures first { self.new.first ≡ self.old.first }
        ensures events { self.new.events ≡ self.old.events }
        ensures end { OnOk result (end ≤ self.new.room_end) }
        ensures writes { OnOk result (self.new.room_writes ≡ writes) }
        ensures err { OnErr result ((self.new.room_end ≡ self.old.room_end)
            × (self.new.room_writes ≡ self.old.room_writes)) }
    {
        let end = end.max(self.contents.len()).max(self.room_end);
        widen(&mut self.contents, end)?;
        widen(&mut self.synced, end)?;
        self.ranges.reserve(writes)?;
        self.room_end = end;
        self.room_writes = writes;
        Ok(())
    }
}

// Room for so many bytes in all.
fn widen(bytes: &mut Vec<u8>, end: usize) -> Result<(), AllocError>
    ensures items { bytes.new.items ≡ bytes.old.items }
    ensures room { OnOk result (end ≤ vec_capacity bytes.new) }
    ensures capacity { vec_capacity bytes.old ≤ vec_capacity bytes.new }
{
    if bytes.len() < end {
        bytes.reserve(end - bytes.len())?;
    }
    Ok(())
}
