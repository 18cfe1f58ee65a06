//! Where suffix lists and stores are found, by their paths.
//!
//! A [`Host`] opens a list or a store and takes it back. [`MemHost`] has both in memory and tells
//! what they hold. [`RealHost`] has the files of the system, and tells nothing of them.
#![tactic(auto)]

mod entries;
mod host;
mod memory_host;
mod real_host;
mod store_fault;
mod streams;

pub use host::Host;
pub use memory_host::MemHost;
pub use real_host::RealHost;
pub use store_fault::StoreFault;
pub use streams::{HeldStreams, hold_streams};
