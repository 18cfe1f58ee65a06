//! Opens the rows of a store under a suffix list.
//!
//! [`open_rows`] reads what a disk has, drops what is none under the list, and where something
//! went, or the store stands under another list, writes what stayed as one snapshot.
//! [`reopen_rows`] does the same behind a cut of the power.
#![tactic(auto)]

mod opening;

pub use opening::{Opened, open_rows, reopen_rows};
