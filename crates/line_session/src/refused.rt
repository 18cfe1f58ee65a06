//! Why a line has no reply.
ghost use Rattle.std.specs.Prelude.{◌≡◌};
ghost use Rattle.line_session.specs.Refusals.{TellsFault, stop_of};

use journal::OpenFault;
use script_lines::ScriptFault;
use store_runs::Ending;
use thiserror::Error;

/// Why a line has no reply.
#[derive(Debug, Drop, PartialEq, Eq, Error)]
pub enum LineRefused {
    /// The bytes have a line feed: they are more than one line.
    #[error("line feed")]
    LineFeed,
    /// The line has over 1,048,576 bytes.
    #[error("too long")]
    TooLong,
    /// The line is not UTF-8.
    #[error("not utf-8")]
    NotUtf8,
    /// The line is no JSON.
    #[error("not json")]
    NotJson,
    /// No action has the name that the line gives.
    #[error("unknown action")]
    UnknownAction,
    /// A member of this name is missing, is of another form, or belongs to no field of the action.
    #[error("bad field {0}")]
    BadField(String),
    /// A pair of a header list has a name that is no header name, or a value with U+0000, a line
    /// feed or a carriage return.
    #[error("bad header")]
    BadHeader,
    /// What a line found that opens the store again is no store.
    #[error("no store")]
    Store(OpenFault),
    /// The reply of the line before is still to be printed.
    #[error("a reply is still to be printed")]
    Owed,
    /// The line ran, and a growth of memory for its reply was refused. The reply is still to be
    /// printed.
    #[error("the reply is still to be printed")]
    Unprinted,
    /// A growth of memory was refused.
    #[error("out of memory")]
    NoMemory,
}

/// Why no checkpoint was made that is due.
#[derive(Clone, Copy, Debug, PartialEq, Eq)]
pub enum Untended {
    /// A call of the disk failed, and the agent is down.
    Device,
    /// A growth of memory was refused.
    NoMemory,
}

/// The fault of a line. A line has none of those of a whole script.
pub fn refused(fault: ScriptFault) -> LineRefused
    ensures { TellsFault fault result }
{
    match fault {
        ScriptFault::NotJson(_) => LineRefused::NotJson,
        ScriptFault::UnknownAction(_) => LineRefused::UnknownAction,
        ScriptFault::BadField(_, name) => LineRefused::BadField(name),
        ScriptFault::LineTooLong(_) => LineRefused::TooLong,
        ScriptFault::NotUtf8(_) => LineRefused::NotUtf8,
        ScriptFault::BadHeader(_) => LineRefused::BadHeader,
        ScriptFault::TooLong
        | ScriptFault::ReadFault
        | ScriptFault::NoDivider
        | ScriptFault::NoMemory => LineRefused::NoMemory,
    }
}

/// Why a line stopped before it ran.
pub fn stopped(ending: Ending) -> LineRefused
    ensures { result ≡ stop_of ending }
{
    match ending {
        Ending::Store(why) => LineRefused::Store(why),
        Ending::Done | Ending::Device | Ending::Write | Ending::Memory => LineRefused::NoMemory,
    }
}
