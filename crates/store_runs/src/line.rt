//! One line, run over an agent.
ghost use Rattle.std.specs.Prelude.{◌≡◌, ◌∷◌, [], IfErr, IfOk};
ghost use Rattle.unwinding.specs.Admissible.{Acts, Reopens};
ghost use Rattle.script_actions.specs.Plain.{action_of, step_of};
ghost use Rattle.store_runs.specs.Answers.{answer_text};
ghost use Rattle.store_runs.specs.Calls.{Called, ToldAt};
ghost use Rattle.store_runs.specs.FaultCounts.{KeepsCount};
ghost use Rattle.store_runs.specs.Moments.{AnyMoment, StopsBefore};
ghost use Rattle.store_runs.specs.Openings.{GoesOn};

use crate::ending::refused;
use crate::replies::{down, restarted};
use crate::{Answer, Ending};
use agent_core::{Agent, Outcome};
use disk_model::Disk;
use journal::OpenFault;
use script_actions::{Action, Step};

/// Runs one line over an agent.
///
/// A line for which memory is wanting changes nothing. One that opens the store again leaves the
/// agent spoilt then: each line is answered by want of memory, until one opens the store.
pub fn run_line<D: Disk + Drop>(agent: &mut Agent<'_, D>, step: &Step) -> Result<Answer, Ending>
    ensures ran { IfOk result (λ answer. Called D.view agent.old agent.new
        (ToldAt (step_of step.now) (D.view agent.old.disk)) (Unit {0}) (step_of step.now ∷ [])
        (answer_text answer)) }
    ensures stops { IfErr result (StopsBefore D.view agent.old agent.new (step_of step.now)) }
    ensures any_moment { AnyMoment D.view agent.old agent.new (step_of step.now) }
    ensures goes_on { GoesOn D.view agent.old agent.new }
    ensures counts { KeepsCount D.view agent.old agent.new }
{
    match step {
        Step::Act(action) => act(agent, step, action),
        Step::Restart => reopen(agent, step),
    }
}

// Runs a line that acts.
fn act<D: Disk + Drop>(
    agent: &mut Agent<'_, D>,
    step: &Step,
    action: &Action,
) -> Result<Answer, Ending>
    requires { step_of step.now ≡ Acts (action_of action.now) }
    ensures ran { IfOk result (λ answer. Called D.view agent.old agent.new
        (ToldAt (step_of step.now) (D.view agent.old.disk)) (Unit {0}) (step_of step.now ∷ [])
        (answer_text answer)) }
    ensures stops { IfErr result (StopsBefore D.view agent.old agent.new (step_of step.now)) }
    ensures any_moment { AnyMoment D.view agent.old agent.new (step_of step.now) }
    ensures goes_on { GoesOn D.view agent.old agent.new }
    ensures counts { KeepsCount D.view agent.old agent.new }
{
    match agent.line(action) {
        Outcome::Replies(replies) => Ok(Answer::Batch(replies)),
        Outcome::Held => Ok(Answer::Waits),
        Outcome::Down => Ok(Answer::One(down(step))),
        Outcome::NoMemory => Err(Ending::Memory),
    }
}

// Runs a line that opens the store again. Over a disk that tells its contents, the store of an
// agent is never refused.
fn reopen<D: Disk + Drop>(agent: &mut Agent<'_, D>, step: &Step) -> Result<Answer, Ending>
    requires { step_of step.now ≡ Reopens }
    ensures ran { IfOk result (λ answer. Called D.view agent.old agent.new
        (ToldAt (step_of step.now) (D.view agent.old.disk)) (Unit {0}) (step_of step.now ∷ [])
        (answer_text answer)) }
    ensures stops { IfErr result (StopsBefore D.view agent.old agent.new (step_of step.now)) }
    ensures any_moment { AnyMoment D.view agent.old agent.new (step_of step.now) }
    ensures goes_on { GoesOn D.view agent.old agent.new }
    ensures counts { KeepsCount D.view agent.old agent.new }
{
    match agent.restart() {
        Ok(kept) => Ok(Answer::One(restarted(kept))),
        Err(why) => match why {
            OpenFault::DeviceFault => Ok(Answer::One(down(step))),
            _ => Err(refused(why)),
        },
    }
}
