//! The agent: it runs lines over a store on a disk, in batches, and over restarts.
//!
//! Each line runs in memory first. At the end of a batch its durable changes are committed
//! together, and then its replies are given out. What a cut of the power leaves is the state before
//! the batch or the state after it. [`Agent::restart`] opens the store again.
#![tactic(auto)]

mod agent;
mod carried;
mod checkpoint;
mod looking;
mod open_batch;
mod outcome;
mod running;

pub use agent::{Agent, Options, Refused};
pub use outcome::Outcome;
