//! A session over a disk: one line in, its reply out.
//!
//! A [`Session`] runs one line at a time over an agent, and has its reply. A line is one of a
//! script, and its reply is what a run of that script prints for it. By [`calls`] the replies of a
//! list of calls together are what is printed of a history of the lines that were read, and in it
//! the lines of each site are those of its own machine.
#![tactic(auto)]

mod laws;
mod reading;
mod refused;
mod session;

pub use laws::calls;
pub use refused::{LineRefused, Untended};
pub use session::Session;
