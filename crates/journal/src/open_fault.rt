//! Why a store was not opened.
use thiserror::Error;

/// Why a store was not opened. `begin` makes the value that took its frames usable again.
///
/// Counted from 1 these are the numbers 1, 2, 4 and 5. Number 3 was the refusal of a store under
/// another suffix list, which opens now: it is not used again.
#[derive(Clone, Copy, Debug, PartialEq, Eq, Error)]
pub enum OpenFault {
    /// A call of the disk failed, and its count of faults rose.
    #[error("device fault")]
    DeviceFault,
    /// The file is no store. Its first fault is at this offset.
    #[error("store: not a store at {0}")]
    NotAStore(u64),
    /// The file has so many bytes, which is over the limit.
    #[error("store: too large: {0}")]
    TooLarge(u64),
    /// A growth of memory was refused.
    #[error("no memory")]
    NoMemory,
}
