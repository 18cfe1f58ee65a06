//! Prints the rows of a store.
//!
//! [`dump`] opens the store on a disk, lists its rows in the order of a snapshot, and writes a line
//! of JSON for each.
#![tactic(auto)]

mod fault;
mod laws;
mod opening;
mod printing;
mod writing;

pub use fault::DumpFault;
pub use laws::whole;
pub use printing::dump;
