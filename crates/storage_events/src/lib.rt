//! Storage events: what a change of an area tells other documents, and the queue of each document.
//!
//! A write makes one [`Event`] for its [`audience`], the documents that hear of it. A [`Queue`]
//! keeps the events of one document until they are taken. A copy of an event shares all its parts,
//! so that they stand in memory once, however many documents hear of it.
#![tactic(auto)]

mod broadcast;
mod event;
mod queue;

pub use broadcast::{audience, hears};
pub use event::{AreaKind, Event};
pub use queue::{EVENTS, Queue};
