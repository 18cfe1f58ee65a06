//! The Public Suffix List: reading one, and the registrable domain of a host under it.
//!
//! [`SuffixList::read`] answers the list that the bytes of a source are, or its first fault. The
//! registrable domain of a host is what the list's algorithm gives over all rules; the look-up goes
//! label by label, and takes no memory. Contracts see a list as its rules and its digest.
#![tactic(auto)]

mod fault;
mod labels;
mod list;
mod marks;
mod reader;
mod rule;
mod rules;

pub use fault::ListFault;
pub use list::SuffixList;
