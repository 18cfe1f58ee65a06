//! Why bytes are no suffix list.
use std::alloc::AllocError;
use thiserror::Error;

/// Why a suffix list was not read. Lines are numbered from 1.
#[derive(Clone, Copy, Debug, PartialEq, Eq, Error)]
pub enum ListFault {
    /// A line is not UTF-8, or is to hold a rule and breaks a condition on rules.
    #[error("list line {0}: bad rule")]
    BadRule(u32),
    /// The list has over 1,048,576 bytes.
    #[error("list: too long")]
    TooLong,
    /// The list has over 32,768 rules, and the line holds the first that is too many.
    #[error("list line {0}: too many rules")]
    TooManyRules(u32),
    /// The source failed, and its count of faults rose.
    #[error("list: the source failed")]
    ReadFault,
    /// A growth of memory was refused.
    #[error("list: out of memory")]
    NoMemory,
}

impl From<AllocError> for ListFault {
    ghost use Rattle.std.specs.Prelude.{◌≡◌};
    ghost use Rattle.suffix_list.specs.declared.fault.ListFault.TheVariants.{NoMemory};

    ghost from_gives = { λ _ e. e ≡ NoMemory };

    fn from(_: AllocError) -> ListFault {
        ListFault::NoMemory
    }
}
