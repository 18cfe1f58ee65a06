//! Why a store was not opened.
use std::alloc::AllocError;

/// Why a store was not opened by its host.
#[derive(Clone, Copy, Debug, PartialEq, Eq)]
pub enum StoreFault {
    /// The store is open already, here or in another process. The count of faults rose.
    InUse,
    /// A call failed. The count of faults rose.
    Failed,
    /// A growth of memory was refused.
    NoMemory,
}

impl From<AllocError> for StoreFault {
    ghost use Rattle.std.specs.Prelude.{◌≡◌};
    ghost use Rattle.hosts.specs.declared.store_fault.StoreFault.TheVariants.{NoMemory};

    ghost from_gives = { λ _ e. e ≡ NoMemory };

    fn from(_: AllocError) -> StoreFault {
        StoreFault::NoMemory
    }
}
