//! Tables of named cases: the first row of a name is the one that counts.
//!
//! A macro spells the readers of a row's fields, so that a table of actions and their fields
//! is written once a row.
#![tactic(auto)]

mod cases;
mod fields;

pub use cases::Cases;
