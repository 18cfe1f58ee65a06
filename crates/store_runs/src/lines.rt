//! Lines, run one by one over an agent. Their replies wait in memory, and are written together.
ghost use Rattle.std.specs.Prelude.{◌≡◌, ◌<◌, ◌+◌, ◌^◌, [], IfErr, OnErr, OnOk, false, length};
ghost use Rattle.std.specs.Prelude.{true};
ghost use Rattle.agent_base.specs.Counts.{Rose};
ghost use Rattle.durable_model.specs.Histories.{AgentOpening};
ghost use Rattle.script_actions.specs.Plain.{step_of};
ghost use Rattle.agent_core.specs.AgentView.{list_of, owes};
ghost use Rattle.agent_core.specs.declared.agent.Power.TheVariants as power;
ghost use Rattle.store_runs.specs.FaultCounts.{KeepsCount};
ghost use Rattle.store_runs.specs.Calls.{Settled, Stepped, Stops, Unsettled};
ghost use Rattle.store_runs.specs.Closing.{Closes, Ends, IsEnd};
ghost use Rattle.store_runs.specs.Endings.{IsStoreEnding, TellsPower, WriteCounts};
ghost use Rattle.store_runs.specs.Fronts.{LeavesCount, WritesFirst};
ghost use Rattle.store_runs.specs.Openings.{GoesOn, IsJustOpened, IsOpenedAt, calls_before};
ghost use Rattle.store_runs.specs.Disks.{LeavesDisk};
ghost use Rattle.store_runs.specs.Runs.{HasNoCuts};
ghost use Rattle.store_runs.specs.Runs.{WritesLines};
ghost use Rattle.store_runs.specs.Steps.{steps_of};
ghost use Rattle.store_runs.specs.Tidy.{IsTidyAt};
ghost use Rattle.store_runs.specs.Waiting.{Lengthens};

use crate::waiting::{end, hold_all};
use crate::{Ending, run_line};
use agent_base::{Failed, NoMemory, Sink, write_all};
use agent_core::{Agent, Outcome};
use disk_model::Disk;
use script_actions::{Line, Step};
use std::alloc::Global;
use waiting_lines::write_many;

/// Runs the lines over an agent, and writes the replies to `out`.
///
/// The replies wait in memory, and are written together. Where the run ends or stops, what waits
/// is written. After the last line the agent commits the lines that wait for their batch.
///
/// A checkpoint that is due is made behind the next line that acts, once the replies are written,
/// and after the last commit.
pub fn run_lines<D: Disk + Drop, O: Sink>(
    alloc: Global,
    agent: &mut Agent<'_, D>,
    lines: &[Line],
    out: &mut O,
) -> Ending
    requires fits { length lines.now + 2 < 2 ^ 64 }
    // It is told of an agent that was just opened, and of a disk that tells its contents.
    ensures written { (opening : AgentOpening)
        → IsOpenedAt agent.old (D.view agent.old.disk) opening
        → WritesLines result agent.old.memory.rules agent.old.batch agent.old.checkpoint opening
        (HasNoCuts (D.view agent.old.disk)) (steps_of lines.now)
        (O.taken out.old) (O.taken out.new)
        (LeavesDisk result (list_of agent.old) agent.old.batch opening
        (calls_before agent.old (D.view agent.old.disk))
        (D.view agent.old.disk) (D.view agent.new.disk)) }
    // Over any disk, up to the first line that opens the store again.
    ensures first { (opening : AgentOpening)
        → IsJustOpened agent.old (D.view agent.old.disk) opening
        → WritesFirst result agent.old.memory.rules agent.old.batch agent.old.checkpoint opening
        (HasNoCuts (D.view agent.old.disk)) (steps_of lines.now)
        (O.taken out.old) (O.taken out.new)
        (LeavesCount result (D.view agent.old.disk) (D.view agent.new.disk)) }
    ensures power { (opening : AgentOpening)
        → IsOpenedAt agent.old (D.view agent.old.disk) opening
        → TellsPower result agent.new.power }
    // A call of the disk failed.
    ensures device { agent.old.power ≡ power.Up → result ≡ Ending.Device
        → Rose (D.view agent.old.disk).faults (D.view agent.new.disk).faults }
    // At `Done` no checkpoint is due for the store that is left.
    ensures tidy { (opening : AgentOpening)
        → IsOpenedAt agent.old (D.view agent.old.disk) opening
        → result ≡ Ending.Done → IsTidyAt agent.new (D.view agent.new.disk) }
    ensures store { IsStoreEnding result }
    ensures goes_on { GoesOn D.view agent.old agent.new }
    ensures write { WriteCounts result (O.faults out.old) (O.faults out.new) }
{
    let mut text = Vec::new(alloc);
    let mut waiting = Vec::new(alloc);
    for line in lines {
        match step(agent, &line.step, &mut text, &mut waiting) {
            Ok(()) => {}
            Err(ending) => return end(out, &waiting, ending),
        }
        match settle(agent, &line.step, out, &mut waiting) {
            Ok(()) => {}
            Err(ending) => return ending,
        }
    }
    let ending = last_commit(agent, &mut text, &mut waiting);
    let ending = end(out, &waiting, ending);
    last_checkpoint(agent, ending)
}

// Runs one line. The text of what it answers waits behind what waits already.
fn step<D: Disk + Drop>(
    agent: &mut Agent<'_, D>,
    step: &Step,
    text: &mut Vec<u8>,
    waiting: &mut Vec<u8>,
) -> Result<(), Ending>
    ensures stepped { OnOk result (Stepped D.view agent.old agent.new (step_of step.now)
        waiting.old.items waiting.new.items) }
    ensures stops { IfErr result (Stops D.view agent.old agent.new (step_of step.now)) }
    ensures goes_on { GoesOn D.view agent.old agent.new }
    ensures counts { KeepsCount D.view agent.old agent.new }
    ensures unchanged { OnErr result (waiting.new.items ≡ waiting.old.items) }
{
    let answer = run_line(agent, step)?;
    Ok(answer.hold(text, waiting)?)
}

// Behind a line. Where the agent owes a checkpoint all that waits is written, and then it is made,
// but not behind a line that opened the store again. Else what waits is written once it is much.
fn settle<D: Disk + Drop, O: Sink>(
    agent: &mut Agent<'_, D>,
    step: &Step,
    out: &mut O,
    waiting: &mut Vec<u8>,
) -> Result<(), Ending>
    ensures settled { OnOk result (Settled D.view agent.old agent.new
        (O.taken out.old) (O.taken out.new) (O.faults out.old) (O.faults out.new)
        waiting.old.items waiting.new.items) }
    ensures stops { IfErr result (Unsettled D.view agent.old agent.new
        (O.taken out.old) (O.taken out.new) (O.faults out.old) (O.faults out.new)
        waiting.old.items) }
    ensures goes_on { GoesOn D.view agent.old agent.new }
    ensures counts { KeepsCount D.view agent.old agent.new }
{
    match step {
        Step::Act(_) if agent.owes_checkpoint() => write_and_checkpoint(agent, out, waiting),
        Step::Act(_) | Step::Restart => match write_many(out, waiting) {
            Ok(()) => Ok(()),
            Err(Failed) => Err(Ending::Write),
        },
    }
}

// Writes what waits, and then makes the checkpoint that the agent owes. Where writing fails, none
// is made.
fn write_and_checkpoint<D: Disk + Drop, O: Sink>(
    agent: &mut Agent<'_, D>,
    out: &mut O,
    waiting: &mut Vec<u8>,
) -> Result<(), Ending>
    requires { owes agent.old ≡ true }
    ensures settled { OnOk result (Settled D.view agent.old agent.new
        (O.taken out.old) (O.taken out.new) (O.faults out.old) (O.faults out.new)
        waiting.old.items waiting.new.items) }
    ensures stops { IfErr result (Unsettled D.view agent.old agent.new
        (O.taken out.old) (O.taken out.new) (O.faults out.old) (O.faults out.new)
        waiting.old.items) }
    ensures goes_on { GoesOn D.view agent.old agent.new }
    ensures counts { KeepsCount D.view agent.old agent.new }
{
    match write_all(out, waiting) {
        Ok(()) => waiting.clear(),
        Err(Failed) => return Err(Ending::Write),
    }
    match make_checkpoint(agent) {
        Ending::Memory => Err(Ending::Memory),
        _ => Ok(()),
    }
}

// Makes the checkpoint that the agent owes. `Device`: a call of the disk failed.
fn make_checkpoint<D: Disk + Drop>(agent: &mut Agent<'_, D>) -> Ending
    requires { owes agent.old ≡ true }
    ensures ends { Ends D.view agent.old agent.new result [] [] }
    ensures tidy { result ≡ Ending.Done → owes agent.new ≡ false }
    ensures goes_on { GoesOn D.view agent.old agent.new }
    ensures counts { KeepsCount D.view agent.old agent.new }
    ensures fell { result ≡ Ending.Device → agent.new.power ≡ power.Down }
    ensures ending { IsEnd result }
{
    match agent.flush() {
        Outcome::Replies(_none) => Ending::Done,
        Outcome::Down => Ending::Device,
        Outcome::Held => Ending::Memory,
        Outcome::NoMemory => Ending::Memory,
    }
}

// After the last line: the lines that wait for their batch are committed, and their replies
// wait to be written. Where a checkpoint is owed, no line waits, and it is not made yet.
fn last_commit<D: Disk + Drop>(
    agent: &mut Agent<'_, D>,
    text: &mut Vec<u8>,
    waiting: &mut Vec<u8>,
) -> Ending
    ensures ends { Ends D.view agent.old agent.new result waiting.old.items waiting.new.items }
    ensures lengthens { Lengthens waiting.old.items waiting.new.items }
    ensures goes_on { GoesOn D.view agent.old agent.new }
    ensures counts { KeepsCount D.view agent.old agent.new }
    ensures fell { result ≡ Ending.Device → agent.new.power ≡ power.Down }
    ensures ending { IsEnd result }
{
    if agent.owes_checkpoint() {
        return Ending::Done;
    }
    match agent.flush() {
        Outcome::Replies(replies) => match hold_all(&replies, text, waiting) {
            Ok(()) => Ending::Done,
            Err(NoMemory) => Ending::Memory,
        },
        Outcome::Down => Ending::Device,
        Outcome::Held => Ending::Memory,
        Outcome::NoMemory => Ending::Memory,
    }
}

/// Makes the checkpoint that the agent owes, if it owes one. `Device`: a call of the disk failed.
pub fn tend<D: Disk + Drop>(agent: &mut Agent<'_, D>) -> Ending
    ensures closes { Closes D.view agent.old agent.new Ending.Done result }
    ensures tidy { result ≡ Ending.Done → owes agent.new ≡ false }
    ensures goes_on { GoesOn D.view agent.old agent.new }
    ensures counts { KeepsCount D.view agent.old agent.new }
    ensures fell { result ≡ Ending.Device → agent.new.power ≡ power.Down }
{
    if agent.owes_checkpoint() {
        make_checkpoint(agent)
    } else {
        Ending::Done
    }
}

// Once all replies are written: the checkpoint that the agent owes, where the run was not stopped.
fn last_checkpoint<D: Disk + Drop>(agent: &mut Agent<'_, D>, ending: Ending) -> Ending
    ensures closes { Closes D.view agent.old agent.new ending result }
    ensures tidy { result ≡ Ending.Done → owes agent.new ≡ false }
    ensures goes_on { GoesOn D.view agent.old agent.new }
    ensures counts { KeepsCount D.view agent.old agent.new }
    ensures fell { (ending ≡ Ending.Device → agent.old.power ≡ power.Down)
        → result ≡ Ending.Device → agent.new.power ≡ power.Down }
{
    match ending {
        Ending::Done => tend(agent),
        _ => ending,
    }
}
