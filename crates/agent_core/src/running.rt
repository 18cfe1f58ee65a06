//! A line runs in memory, and waits in the open batch.
ghost use Rattle.std.specs.Prelude.{◌≡◌, ◌≤◌, ◌<◌, length, OnErr, OnOk};
ghost use Rattle.script_actions.specs.Plain.{action_of};
ghost use Rattle.agent_core.specs.Batch.{HasNotRun, HasRun};
ghost use Rattle.open_store.specs.Commits.{HasRoomFor};
ghost use Rattle.open_store.specs.Standing.{IsRoomier};

use crate::open_batch::OpenBatch;
use agent_base::NoMemory;
use agent_memory::Memory;
use disk_model::Disk;
use open_store::Store;
use script_actions::Action;

// The least limit of a body that is not empty.
const LEAST: usize = 4096;

/// Runs a line in memory. Its reply and its durable change wait in the open batch, whose commit
/// takes no memory afterwards.
///
/// There is room for the batch's body up to a limit. A line that would pass it changes nothing:
/// room is made, and it runs once more.
pub fn run_line<D: Disk + Drop>(
    memory: &mut Memory,
    batch: &mut OpenBatch,
    store: &mut Store<D>,
    action: &Action,
) -> Result<(), NoMemory>
    ensures ran { OnOk result
        (HasRun (action_of action.now) memory.old memory.new batch.old batch.new) }
    ensures unchanged { OnErr result (HasNotRun memory.old memory.new batch.old batch.new) }
    ensures room { OnOk result
        (HasRoomFor store.new.journal (D.view store.new.disk) (length batch.new.body)) }
    ensures roomier { IsRoomier store.old.journal store.new.journal
        (D.view store.old.disk) (D.view store.new.disk) }
{
    make_room(batch, store)?;
    match run_once(memory, batch, action) {
        Ok(()) => Ok(()),
        Err(NoMemory) => run_again(memory, batch, store, action),
    }
}

// Runs a line that did not run, once more room was made for it.
fn run_again<D: Disk + Drop>(
    memory: &mut Memory,
    batch: &mut OpenBatch,
    store: &mut Store<D>,
    action: &Action,
) -> Result<(), NoMemory>
    requires room { 0 < batch.old.spare }
    ensures ran { OnOk result
        (HasRun (action_of action.now) memory.old memory.new batch.old batch.new) }
    ensures unchanged { OnErr result (HasNotRun memory.old memory.new batch.old batch.new) }
    ensures room { OnOk result
        (HasRoomFor store.new.journal (D.view store.new.disk) (length batch.new.body)) }
    ensures roomier { IsRoomier store.old.journal store.new.journal
        (D.view store.old.disk) (D.view store.new.disk) }
{
    widen(batch, store)?;
    run_once(memory, batch, action)
}

// Makes room for a reply, and for a body up to the limit.
fn make_room<D: Disk + Drop>(batch: &mut OpenBatch, store: &mut Store<D>) -> Result<(), NoMemory>
    ensures spare { OnOk result (0 < batch.new.spare) }
    ensures room { OnOk result
        (HasRoomFor store.new.journal (D.view store.new.disk) batch.new.limit) }
    ensures same { batch.new ≡ record batch.old { spare = batch.new.spare } }
    ensures roomier { IsRoomier store.old.journal store.new.journal
        (D.view store.old.disk) (D.view store.new.disk) }
{
    store.reserve(batch.body.limit())?;
    batch.reserve()
}

// Runs a line, where its durable change has room in the body.
fn run_once(memory: &mut Memory, batch: &mut OpenBatch, action: &Action) -> Result<(), NoMemory>
    requires room { 0 < batch.old.spare }
    ensures ran { OnOk result
        (HasRun (action_of action.now) memory.old memory.new batch.old batch.new) }
    ensures within { OnOk result (length batch.new.body ≤ batch.old.limit) }
    ensures unchanged { OnErr result (HasNotRun memory.old memory.new batch.old batch.new) }
    ensures spare { OnErr result (batch.new.spare ≡ batch.old.spare) }
    ensures limit { batch.new.limit ≡ batch.old.limit }
{
    let before = batch.body.len();
    let reply = memory.line(action, &mut batch.body)?;
    let has_change = batch.body.len() > before;
    batch.hold(reply, has_change);
    Ok(())
}

// Makes room for what the last line wanted, and raises the limit to it.
fn widen<D: Disk + Drop>(batch: &mut OpenBatch, store: &mut Store<D>) -> Result<(), NoMemory>
    ensures room { OnOk result
        (HasRoomFor store.new.journal (D.view store.new.disk) batch.new.limit) }
    ensures same { batch.new ≡ record batch.old { limit = batch.new.limit } }
    ensures roomier { IsRoomier store.old.journal store.new.journal
        (D.view store.old.disk) (D.view store.new.disk) }
{
    let limit = batch.body.limit();
    let wanted = batch.body.wanted();
    if wanted <= limit {
        return Err(NoMemory);
    }
    let wider = wider(limit, wanted);
    store.reserve(wider)?;
    batch.widen(wider);
    Ok(())
}

// A limit that is enough, and twice the last one at least, so that a batch rarely needs another.
fn wider(limit: usize, wanted: usize) -> usize
    ensures { limit ≤ result }
{
    limit.saturating_mul(2).max(wanted).max(limit).max(LEAST)
}
