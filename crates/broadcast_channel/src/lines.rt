//! The channels that are open, by storage key and channel name.
ghost use Rattle.std.specs.Prelude.{◌≡◌, ◌≢◌, ◌==◌, [], length, IfOk, OnOk, OnErr, Some, None, option_map, is_some, unwrap_or, true};
ghost use Rattle.std.specs.Map.{keys_of};
ghost use Rattle.std.specs.List.Sorted.{IsStrictlySortedBy};
ghost use Rattle.key_map.specs.Entries.{map_get, map_remove};
ghost use Rattle.broadcast_channel.specs.Hearers.{by_id, by_line, queues_of, waiting_at, ChangesAt, WaitsAsBefore, TellsLine};

use crate::Message;
use crate::hearers::{ChannelId, Hearers, Line};
use agent_base::NoMemory;
use key_map::KeyMap;
use std::alloc::Global;
use std::rc::Rc;

// The lines in which channels are open.
pub(crate) type Lines<O, K> = KeyMap<Rc<Line<K>>, Hearers<O>>;

// A channel opens in a line, and nothing waits in it.
pub(crate) fn join<O: Ord + Copy + Drop, K: Ord + Drop>(
    lines: &mut Lines<O, K>,
    line: Rc<Line<K>>,
    id: ChannelId<O>,
    alloc: Global,
) -> Result<(), NoMemory>
    ensures joined { OnOk result
        (ChangesAt (by_line K.cmp) (by_id O.cmp) line id (Some ([], 0)) lines.old lines.new) }
    ensures unchanged { OnErr result
        (WaitsAsBefore (by_line K.cmp) (by_id O.cmp) lines.old lines.new) }
{
    make_line(lines, line.clone()?, alloc)?;
    match lines.get_mut(&line) {
        Some(hearers) => hearers.join(id, alloc),
        None => Err(NoMemory),
    }
}

// Makes a line in which no channel is open, where it is not there.
fn make_line<O: Ord + Copy + Drop, K: Ord + Drop>(
    lines: &mut Lines<O, K>,
    line: Rc<Line<K>>,
    alloc: Global,
) -> Result<(), NoMemory>
    ensures same { WaitsAsBefore (by_line K.cmp) (by_id O.cmp) lines.old lines.new }
{
    if lines.contains(&line) {
        return Ok(());
    }
    lines.insert(line, Hearers::new(alloc))
}

// A channel closes. A line goes with the last one that is open in it.
pub(crate) fn leave<O: Ord + Copy + Drop, K: Ord + Drop>(
    lines: &mut Lines<O, K>,
    line: &Rc<Line<K>>,
    id: &ChannelId<O>,
)
    ensures left { ChangesAt (by_line K.cmp) (by_id O.cmp) line.now id.now None
        lines.old lines.new }
{
    if leave_line(lines, line, id) {
        let _ = lines.remove(line);
    }
}

// A channel closes. Tells whether none is open in its line.
fn leave_line<O: Ord + Copy + Drop, K: Ord + Drop>(
    lines: &mut Lines<O, K>,
    line: &Rc<Line<K>>,
    id: &ChannelId<O>,
) -> bool
    ensures left { ChangesAt (by_line K.cmp) (by_id O.cmp) line.now id.now None
        lines.old lines.new }
    ensures none { result ≡ true → queues_of (by_line K.cmp) (by_id O.cmp) line.now lines.new ≡ [] }
{
    match lines.get_mut(line) {
        Some(hearers) => {
            hearers.leave(id);
            hearers.is_empty()
        }
        None => false,
    }
}

// Whether a channel is open in a line.
pub(crate) fn is_open<O: Ord + Copy + Drop, K: Ord + Drop>(
    lines: &Lines<O, K>,
    line: &Rc<Line<K>>,
    id: &ChannelId<O>,
) -> bool
    ensures there { result
        ≡ is_some (waiting_at (by_line K.cmp) (by_id O.cmp) line.now id.now lines.now) }
{
    match lines.get(line) {
        Some(hearers) => hearers.contains(id),
        None => false,
    }
}

// Gives what waits in a channel, and leaves nothing there.
pub(crate) fn take<O: Ord + Copy + Drop, K: Ord + Drop>(
    lines: &mut Lines<O, K>,
    line: &Rc<Line<K>>,
    id: &ChannelId<O>,
    alloc: Global,
) -> (Vec<Message>, u32)
    ensures given { (result.0.items, result.1)
        ≡ unwrap_or (waiting_at (by_line K.cmp) (by_id O.cmp) line.now id.now lines.old) ([], 0) }
    ensures emptied { let found
        = waiting_at (by_line K.cmp) (by_id O.cmp) line.now id.now lines.old in
        ChangesAt (by_line K.cmp) (by_id O.cmp) line.now id.now (option_map (λ _. ([], 0)) found)
        lines.old lines.new }
{
    match lines.get_mut(line) {
        Some(hearers) => hearers.take(id, alloc),
        None => (Vec::new(alloc), 0),
    }
}

// Posts a message on a channel to all others of its line, and gives their number.
pub(crate) fn post<O: Ord + Copy + Drop, K: Ord + Drop>(
    lines: &mut Lines<O, K>,
    line: &Rc<Line<K>>,
    from: &ChannelId<O>,
    message: &Message,
) -> Result<u32, NoMemory>
    ensures told { OnOk result (TellsLine (by_line K.cmp) (by_id O.cmp) line.now from.now
        message.now lines.old lines.new) }
    ensures reached { IfOk result (λ count. count
        ≡ length (map_remove (by_id O.cmp) from.now
        (queues_of (by_line K.cmp) (by_id O.cmp) line.now lines.old))) }
    ensures unchanged { OnErr result
        (WaitsAsBefore (by_line K.cmp) (by_id O.cmp) lines.old lines.new) }
    ensures ordered { OnOk result (IsStrictlySortedBy (by_id O.cmp)
        (keys_of (queues_of (by_line K.cmp) (by_id O.cmp) line.now lines.old))) }
{
    match lines.get_mut(line) {
        Some(hearers) => hearers.post(from, message),
        None => Ok(0),
    }
}
