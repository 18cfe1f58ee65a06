//! The storage of all sites: local areas with the modes of their buckets, and the session areas of
//! tabs.
//!
//! Contracts see [`Storage`] as the machine of one site sees what it holds, by plain storage keys.
#![tactic(auto)]

mod listing;
mod local;
mod session;
mod storage;
mod texted;
mod texts;
mod under;

pub use storage::Storage;
