//! The self-test: a generated day runs over a new store in memory.
//!
//! [`selftest`] answers the digest of what the run prints, the number of its lines and the length
//! of its store. [`Found::line`] is the line that is printed of these.
#![tactic(auto)]

mod ends;
mod found;

pub use found::{Found, selftest};
