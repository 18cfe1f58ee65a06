//! An open store: a journal, the disk that it is on, and the state that they stand for.
//!
//! [`Store::commit`] leads from one state to the next, and [`Store::checkpoint`] puts a snapshot in
//! the place of the frames. A cut at any moment of them leaves the one state or the other.
//! [`reopen`] cuts the power, and opens what is left. What bodies mean is up to a `Replay`.
#![tactic(auto)]

mod reopening;
mod store;

pub use reopening::reopen;
pub use store::Store;
