//! Answering a line.
ghost use Rattle.std.specs.Prelude.{◌≡◌, ◌+◌, ◌<◌, ◌^◌, ℕ, List, IfErr, OnOk, Some, false, true};
ghost use Rattle.agent_core.specs.AgentView.{owes};
ghost use Rattle.served_lines.specs.Refusal.{fault_words};
ghost use Rattle.served_lines.specs.Steps.{Answered, Gave, Stopped};
ghost use Rattle.served_lines.specs.Endings.{CountsSink, IsOfLine};
ghost use Rattle.served_lines.specs.Steps.{WritesAnswer};
ghost use Rattle.served_lines.specs.Waiting.{Waits};

use crate::Served;
use crate::refusal::put_refusal;
use crate::waiting::WaitingLine;
use agent_base::{Sink, write_all};
use disk_model::Disk;
use line_session::{LineRefused, Session, Untended};

/// Gives the line that waits to the session, writes what it is answered, and makes the checkpoint
/// that is due.
pub fn answer<D: Disk + Drop, O: Sink>(
    session: &mut Session<'_, D>,
    waiting: &WaitingLine,
    number: u64,
    text: &mut Vec<u8>,
    out: &mut O,
) -> Result<(), Served>
    requires printed { session.old.printed ≡ true }
    requires few { number + 2 < 2 ^ 64 }
    ensures answered { OnOk result ((line : List ℕ) → Waits line waiting.now
        → Answered D.view session.old session.new number line
        (O.taken out.old) (O.taken out.new)) }
    ensures stopped { IfErr result (λ ending. (line : List ℕ) → Waits line waiting.now
        → Stopped D.view ending session.old session.new number line
        (O.taken out.old) (O.taken out.new)) }
    ensures printed { OnOk result (session.new.printed ≡ true) }
    ensures tidy { OnOk result (owes session.new.agent ≡ false) }
    ensures kind { IfErr result IsOfLine }
    ensures counts { CountsSink result (O.faults out.old) (O.faults out.new) }
{
    let given = give(session, waiting);
    write_answer(session, given, number, text, out)?;
    match session.tend() {
        Ok(()) | Err(Untended::Device) => Ok(()),
        Err(Untended::NoMemory) => Err(Served::NoMemory),
    }
}

// Gives the line that waits to the session.
fn give<D: Disk + Drop>(
    session: &mut Session<'_, D>,
    waiting: &WaitingLine,
) -> Result<(), LineRefused>
    requires printed { session.old.printed ≡ true }
    ensures gave { (line : List ℕ) → Waits line waiting.now
        → Gave D.view session.old session.new line result }
    ensures printed { OnOk result (session.new.printed ≡ true) }
    ensures still { IfErr result (λ why. (words : List ℕ) → fault_words why ≡ Some words
        → session.new ≡ session.old) }
{
    if waiting.long && !waiting.blank {
        return Err(LineRefused::TooLong);
    }
    // Spaces that are too long to be held are as good as none.
    session.line(&waiting.bytes)
}

// Writes what a line was answered, by what the session gave for it.
fn write_answer<D: Disk + Drop, O: Sink>(
    session: &Session<'_, D>,
    given: Result<(), LineRefused>,
    number: u64,
    text: &mut Vec<u8>,
    out: &mut O,
) -> Result<(), Served>
    requires printed { OnOk given (session.now.printed ≡ true) }
    ensures writes { WritesAnswer result given number session.now.reply
        (O.taken out.old) (O.taken out.new) }
    ensures counts { CountsSink result (O.faults out.old) (O.faults out.new) }
{
    match given {
        Ok(()) => Ok(write_all(out, session.reply())?),
        Err(why) => {
            text.clear();
            put_refusal(text, number, &why)?;
            Ok(write_all(out, text)?)
        }
    }
}
