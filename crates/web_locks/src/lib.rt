//! Web Locks: which requests for locks are held and which wait, by key and name.
//!
//! A [`LockTable`] is seen as the list of its requests, in the order in which they were made. A
//! document asks for a lock by a number of its own, by which it releases the lock or takes the
//! request back. What holds of the table after any calls is said by [`lock_laws`].
#![tactic(auto)]

mod groups;
mod index;
mod laws;
mod numbers;
mod request;
mod requests;
mod resource;
mod table;

pub use laws::lock_laws;
pub use request::{LockAnswer, LockFault, LockMode, LockOptions, LockRow, LockState, NoLock};
pub use table::LockTable;
