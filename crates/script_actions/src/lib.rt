//! What a line of a script asks for.
//!
//! An [`Action`] is what the agent does; a [`Step`] is what a line asks for: an action, or that the
//! store is opened again. A [`Line`] is a step with its number. Contracts see them as plain data,
//! whose texts are lists of bytes.
#![tactic(auto)]

mod action;
mod step;
mod words;

pub use action::{Action, HeadField, boxed};
pub use step::{Line, Step};
pub use words::{Method, Prompt};
