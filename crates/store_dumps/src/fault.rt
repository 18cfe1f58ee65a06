//! Why a dump did not come to its end.
use agent_base::{Failed, NoMemory};
use journal::OpenFault;

/// Why a dump did not come to its end.
#[derive(Clone, Copy, Debug, PartialEq, Eq)]
pub enum DumpFault {
    /// The store was not opened.
    Open(OpenFault),
    /// Writing a line failed.
    Write,
    /// A growth of memory was refused, once the store was open.
    NoMemory,
}

impl From<OpenFault> for DumpFault {
    ghost use Rattle.std.specs.Prelude.{◌≡◌};
    ghost use Rattle.store_dumps.specs.declared.fault.DumpFault.TheVariants.{Open};

    ghost from_gives = { λ why e. e ≡ Open why };

    fn from(why: OpenFault) -> DumpFault {
        DumpFault::Open(why)
    }
}

impl From<Failed> for DumpFault {
    ghost use Rattle.std.specs.Prelude.{◌≡◌};
    ghost use Rattle.store_dumps.specs.declared.fault.DumpFault.TheVariants.{Write};

    ghost from_gives = { λ _ e. e ≡ Write };

    fn from(_: Failed) -> DumpFault {
        DumpFault::Write
    }
}

impl From<NoMemory> for DumpFault {
    ghost use Rattle.std.specs.Prelude.{◌≡◌};
    ghost use Rattle.store_dumps.specs.declared.fault.DumpFault.TheVariants.{NoMemory};

    ghost from_gives = { λ _ e. e ≡ NoMemory };

    fn from(_: NoMemory) -> DumpFault {
        DumpFault::NoMemory
    }
}
