//! How a run ended.
ghost use Rattle.std.specs.Prelude.{◌≡◌};
ghost use Rattle.store_runs.specs.Endings.{ending_of};

use agent_base::NoMemory;
use journal::OpenFault;

/// How a run ended.
#[derive(Clone, Copy, Debug, PartialEq, Eq)]
pub enum Ending {
    /// Every line ran, the agent is up, and every reply was written.
    Done,
    /// Every line ran and every reply was written, and the agent is down. Of a run over a disk
    /// also: a call of the disk failed in the first opening.
    Device,
    /// What was found at an opening is no store. The fault is one of the file.
    Store(OpenFault),
    /// Writing a reply failed.
    Write,
    /// A growth of memory was refused.
    Memory,
}

impl From<NoMemory> for Ending {
    ghost use Rattle.std.specs.Prelude.{◌≡◌};
    ghost use Rattle.store_runs.specs.declared.ending.Ending.TheVariants.{Memory};

    ghost from_gives = { λ _ e. e ≡ Memory };

    fn from(_: NoMemory) -> Ending {
        Ending::Memory
    }
}

/// How a run ends whose opening was refused so.
pub fn refused(why: OpenFault) -> Ending
    ensures { result ≡ ending_of why }
{
    match why {
        OpenFault::DeviceFault => Ending::Device,
        OpenFault::NoMemory => Ending::Memory,
        OpenFault::NotAStore(_) | OpenFault::TooLarge(_) => Ending::Store(why),
    }
}
