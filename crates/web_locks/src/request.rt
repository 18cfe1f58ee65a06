//! What a request for a lock asks, and what it is answered.
ghost use Rattle.std.specs.Prelude.{◌≡◌};

use agent_base::NoMemory;

/// Whether a lock may be held beside others of its name.
#[derive(Clone, Copy, Debug, PartialEq, Eq)]
pub enum LockMode {
    /// Held alone.
    Exclusive,
    /// Held beside other shared ones.
    Shared,
}

/// How a lock is asked for.
#[derive(Clone, Copy, Debug, PartialEq, Eq)]
pub struct LockOptions {
    pub mode: LockMode,
    /// The request does not wait: it is held at once, or leaves nothing.
    pub if_available: bool,
    /// The request takes the lock from all that hold it.
    pub steal: bool,
}

/// What a request came to.
#[derive(Clone, Copy, Debug, PartialEq, Eq)]
pub enum LockAnswer {
    Held,
    Waiting,
    /// It could not be held at once, and was to be held at once or not at all.
    Unavailable,
}

/// Whether a request holds its lock.
#[derive(Clone, Copy, Debug, PartialEq, Eq)]
pub enum LockState {
    Held,
    Waiting,
}

/// A request of a document, as [`rows`](crate::LockTable::rows) lists it.
#[derive(Debug, Drop)]
pub struct LockRow {
    pub id: u32,
    pub name: String,
    pub state: LockState,
}

/// Why a request is refused. The table is as it was.
#[derive(Clone, Copy, Debug, PartialEq, Eq)]
pub enum LockFault {
    /// The name begins with a hyphen, or a steal is shared or is to leave nothing.
    NotSupported,
    /// The document has a request of that number.
    IdUsed,
    /// A growth of memory was refused.
    NoMemory,
}

/// The document has no request of that number.
#[derive(Clone, Copy, Debug, PartialEq, Eq)]
pub struct NoLock;

impl From<NoMemory> for LockFault {
    ghost use Rattle.std.specs.Prelude.{◌≡◌};
    ghost use Rattle.web_locks.specs.declared.request.LockFault.TheVariants as fault;

    ghost from_gives = { λ _ e. e ≡ fault.NoMemory };

    fn from(_: NoMemory) -> LockFault {
        LockFault::NoMemory
    }
}
