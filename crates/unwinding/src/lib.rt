//! The general law of isolation: the replies to a site are those of its own machine, given its
//! local script alone, over restarts and lost changes too.
//!
//! It promises this of every machine that has the facts of `specs/Facts.antt`, and knows nothing
//! of storage.
#![tactic(auto)]

pub mod example;
mod laws;

pub use laws::{
    Isolated, course_ends, durable_follows, epoch_unwinding, local_scripts, printed_unwinding,
    restart_projects, same_replies, unshared_unwinding, unwinding,
};
