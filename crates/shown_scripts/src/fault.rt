//! Why not all was written.
use agent_base::{Failed, NoMemory};

/// Why not all was written.
#[derive(Clone, Copy, Debug, PartialEq, Eq)]
pub enum ShowFault {
    /// Writing failed.
    Write,
    /// A growth of memory was refused, before anything was written.
    NoMemory,
}

impl From<Failed> for ShowFault {
    ghost use Rattle.std.specs.Prelude.{◌≡◌};
    ghost use Rattle.shown_scripts.specs.declared.fault.ShowFault.TheVariants.{Write};

    ghost from_gives = { λ _ e. e ≡ Write };

    fn from(_: Failed) -> ShowFault {
        ShowFault::Write
    }
}

impl From<NoMemory> for ShowFault {
    ghost use Rattle.std.specs.Prelude.{◌≡◌};
    ghost use Rattle.shown_scripts.specs.declared.fault.ShowFault.TheVariants.{NoMemory};

    ghost from_gives = { λ _ e. e ≡ NoMemory };

    fn from(_: NoMemory) -> ShowFault {
        ShowFault::NoMemory
    }
}
