//! How serving ended.
use agent_base::{Failed, NoMemory};
use journal::OpenFault;

/// How serving ended.
#[derive(Clone, Copy, Debug, PartialEq, Eq)]
pub enum Served {
    /// The source is at its end, and every line was answered.
    Done,
    /// So it is, and the session is down: a call of its disk failed.
    Device,
    /// The source failed, and its count of faults rose.
    Read,
    /// Writing an answer failed, and the sink's count of faults rose.
    Write,
    /// What was found where the store was opened is no store.
    Store(OpenFault),
    /// A growth of memory was refused, or there were 2^64 - 3 lines.
    NoMemory,
}

impl From<NoMemory> for Served {
    ghost use Rattle.std.specs.Prelude.{◌≡◌};
    ghost use Rattle.served_lines.specs.declared.ending.Served.TheVariants.{NoMemory};

    ghost from_gives = { λ _ e. e ≡ NoMemory };

    fn from(_: NoMemory) -> Served {
        Served::NoMemory
    }
}

impl From<Failed> for Served {
    ghost use Rattle.std.specs.Prelude.{◌≡◌};
    ghost use Rattle.served_lines.specs.declared.ending.Served.TheVariants.{Write};

    ghost from_gives = { λ _ e. e ≡ Write };

    fn from(_: Failed) -> Served {
        Served::Write
    }
}
