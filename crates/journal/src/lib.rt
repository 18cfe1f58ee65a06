//! A store file whose changes survive a power cut at any moment: frames behind gates.
//!
//! [`Journal::open`] reads a store, or makes one. [`Journal::commit`] adds a frame, and after `Ok`
//! no cut loses it. [`Journal::checkpoint`] puts a snapshot in the place of the frames. A cut at
//! any moment of these calls leaves a store from before or from after. What a frame's body says is
//! up to the caller, by its [`Replay`].
#![tactic(auto)]

mod checkpoint;
mod fields;
mod gated;
mod head;
mod journal;
mod laws;
mod open_fault;
mod opening;
mod region;
mod replay;

pub use journal::{DeviceFault, Journal};
pub use laws::{
    checkpoint_meaning, commit_meaning, one_list_of_frames, one_meaning, one_verdict, opening_cuts,
    opening_meaning, since_meaning, upgrade_keeps,
};
pub use open_fault::OpenFault;
pub use replay::{Replay, ReplayFault};
