//! Why a row change was not applied.

/// Why a row change was not applied.
#[derive(Clone, Copy, Debug, PartialEq, Eq)]
pub enum RowFault {
    /// The row change is not valid in the state.
    Invalid,
    /// A growth of memory was refused.
    NoMemory,
}
