//! The run of a command that shows what scripts give a site: from the words, the list and the
//! scripts to the lines that are written.
//!
//! [`run`] is the call that the program makes. Statuses, fault lines and options are those of
//! `replay`, whose command `twin` takes the same words.
#![tactic(auto)]

mod runs;
mod scripts;
mod system;
mod told;

pub use runs::run;
pub use system::program;
pub use told::tell_shown;
