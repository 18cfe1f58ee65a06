//! How a run ended.
ghost use Rattle.std.specs.Prelude.{◌≡◌, IfOk};
ghost use Rattle.replay.specs.FaultLines.{SameStatus, exit_status};

use agent_base::NoMemory;
use journal::OpenFault;
use script_lines::ScriptFault;
use std::alloc::Global;
use suffix_list::ListFault;

/// How a run ended.
#[derive(Debug, Drop, PartialEq, Eq)]
pub enum Status {
    /// Every line ran, and every reply was written.
    Done,
    /// The words are no command.
    Usage,
    /// The script, read to its end or past its limit, is refused for this fault.
    Script(ScriptFault),
    /// The list, read to its end or past its limit, is refused for this fault.
    List(ListFault),
    /// The store, read to its end or past its limit, is refused for this fault.
    Store(OpenFault),
    /// Opening or reading the list, reading the script, or opening the store's file failed.
    Read,
    /// The store's file is open already, here or in another process.
    InUse,
    /// Writing a line failed.
    Write,
    /// A call of the store's disk failed in the first opening, or the agent is down at the end.
    Device,
    /// A growth of memory was refused.
    Memory,
}

impl Status {
    /// The exit status of the program.
    pub fn code(&self) -> u8
        ensures code { result ≡ exit_status self.now }
    {
        match self {
            Status::Done => 0,
            Status::Usage => 2,
            Status::Script(_) => 3,
            Status::List(_) => 4,
            Status::Store(_) => 5,
            Status::Read | Status::InUse => 6,
            Status::Write => 7,
            Status::Device => 8,
            Status::Memory => 9,
        }
    }

    /// The same status, over memory of its own.
    pub fn copy(&self, alloc: Global) -> Result<Status, NoMemory>
        ensures same { IfOk result (λ status. SameStatus self.now status) }
    {
        match self {
            Status::Done => Ok(Status::Done),
            Status::Usage => Ok(Status::Usage),
            Status::Script(why) => Ok(Status::Script(why.copy(alloc)?)),
            Status::List(why) => Ok(Status::List(*why)),
            Status::Store(why) => Ok(Status::Store(*why)),
            Status::Read => Ok(Status::Read),
            Status::InUse => Ok(Status::InUse),
            Status::Write => Ok(Status::Write),
            Status::Device => Ok(Status::Device),
            Status::Memory => Ok(Status::Memory),
        }
    }
}
