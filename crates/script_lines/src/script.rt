//! A script, and why there is none.
ghost use Rattle.std.specs.Prelude.{◌≡◌, IfOk};
ghost use Rattle.script_lines.specs.Plain.{fault_of, script_of};

use agent_base::NoMemory;
use disk_model::Cut;
use script_actions::Line;
use std::alloc::{AllocError, Global};
use thiserror::Error;

/// The cuts of the power that a script asks for, and its lines that are not skipped.
#[derive(Debug, Drop, PartialEq, Eq)]
pub struct Script {
    pub cuts: Vec<Cut>,
    pub lines: Vec<Line>,
}

/// Why no script was read. A number is that of the line, from 1, and a text the name of the member.
#[derive(Debug, Drop, PartialEq, Eq, Error)]
pub enum ScriptFault {
    /// The line is no JSON.
    #[error("script line {0}: not json")]
    NotJson(u32),
    /// No action has the name that the line gives.
    #[error("script line {0}: unknown action")]
    UnknownAction(u32),
    /// A member is missing, is of another form, or belongs to no field of the action.
    #[error("script line {0}: bad field {1}")]
    BadField(u32, String),
    /// The line has over 1,048,576 bytes.
    #[error("script line {0}: too long")]
    LineTooLong(u32),
    /// The script has over 16,777,216 bytes.
    #[error("script: too long")]
    TooLong,
    /// The line is not UTF-8.
    #[error("script line {0}: not utf-8")]
    NotUtf8(u32),
    /// The source failed, and its count of faults rose.
    #[error("script: the source failed")]
    ReadFault,
    /// A pair of a header list has a name that is no header name, or a value with U+0000, a line
    /// feed or a carriage return.
    #[error("script line {0}: bad header")]
    BadHeader(u32),
    /// No line divides the input into two scripts.
    #[error("script: no divider")]
    NoDivider,
    /// A growth of memory was refused.
    #[error("script: out of memory")]
    NoMemory,
}

impl From<AllocError> for ScriptFault {
    ghost use Rattle.std.specs.Prelude.{◌≡◌};
    ghost use Rattle.script_lines.specs.declared.script.ScriptFault.TheVariants.{NoMemory};

    ghost from_gives = { λ _ e. e ≡ NoMemory };

    fn from(_: AllocError) -> ScriptFault {
        ScriptFault::NoMemory
    }
}

impl From<NoMemory> for ScriptFault {
    ghost use Rattle.std.specs.Prelude.{◌≡◌};
    ghost use Rattle.script_lines.specs.declared.script.ScriptFault.TheVariants.{NoMemory};

    ghost from_gives = { λ _ e. e ≡ NoMemory };

    fn from(_: NoMemory) -> ScriptFault {
        ScriptFault::NoMemory
    }
}

impl Script {
    /// The same script, over memory of its own.
    pub fn copy(&self, alloc: Global) -> Result<Script, NoMemory>
        ensures same { IfOk result (λ s. script_of s ≡ script_of self.now) }
    {
        let cuts = Vec::from_slice(alloc, &self.cuts)?;
        let mut lines = Vec::new(alloc);
        for line in &self.lines {
            if lines.push(line.copy(alloc)?).is_err() {
                return Err(NoMemory);
            }
        }
        Ok(Script { cuts, lines })
    }
}

impl ScriptFault {
    /// The same fault, over memory of its own.
    pub fn copy(&self, alloc: Global) -> Result<ScriptFault, NoMemory>
        ensures same { IfOk result (λ f. fault_of f ≡ fault_of self.now) }
    {
        match self {
            ScriptFault::NotJson(line) => Ok(ScriptFault::NotJson(*line)),
            ScriptFault::UnknownAction(line) => Ok(ScriptFault::UnknownAction(*line)),
            ScriptFault::BadField(line, name) => Ok(ScriptFault::BadField(
                *line,
                String::from_str(alloc, name.as_str())?,
            )),
            ScriptFault::LineTooLong(line) => Ok(ScriptFault::LineTooLong(*line)),
            ScriptFault::TooLong => Ok(ScriptFault::TooLong),
            ScriptFault::NotUtf8(line) => Ok(ScriptFault::NotUtf8(*line)),
            ScriptFault::ReadFault => Ok(ScriptFault::ReadFault),
            ScriptFault::BadHeader(line) => Ok(ScriptFault::BadHeader(*line)),
            ScriptFault::NoDivider => Ok(ScriptFault::NoDivider),
            ScriptFault::NoMemory => Ok(ScriptFault::NoMemory),
        }
    }
}
