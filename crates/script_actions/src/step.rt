//! Lines: what the agent does, or a restart.
ghost use Rattle.std.specs.Prelude.{◌≡◌, IfOk};
ghost use Rattle.script_actions.specs.ActionNames.{step_name};
ghost use Rattle.script_actions.specs.Plain.{line_of, step_of};

use crate::Action;
use agent_base::NoMemory;
use std::alloc::Global;

/// What a line asks for.
#[derive(Debug, Drop, PartialEq, Eq)]
pub enum Step {
    /// The agent acts.
    Act(Action),
    /// The power of the disk fails and comes back, and the store is opened again.
    Restart,
}

/// A line of a script, with its number from 1.
#[derive(Debug, Drop, PartialEq, Eq)]
pub struct Line {
    pub number: u32,
    pub step: Step,
}

impl Step {
    /// The name of the line, as scripts and replies have it.
    pub fn name(&self) -> &'static str
        ensures name { result.now ≡ step_name (step_of self.now) }
    {
        match self {
            Step::Act(action) => action.name(),
            Step::Restart => "restart",
        }
    }

    /// The same step, over memory of its own.
    pub fn copy(&self, alloc: Global) -> Result<Step, NoMemory>
        ensures same { IfOk result (λ step. step_of step ≡ step_of self.now) }
    {
        match self {
            Step::Act(action) => Ok(Step::Act(action.copy(alloc)?)),
            Step::Restart => Ok(Step::Restart),
        }
    }
}

impl Line {
    /// The same line, over memory of its own.
    pub fn copy(&self, alloc: Global) -> Result<Line, NoMemory>
        ensures same { IfOk result (λ l. line_of l ≡ line_of self.now) }
    {
        Ok(Line {
            number: self.number,
            step: self.step.copy(alloc)?,
        })
    }
}
