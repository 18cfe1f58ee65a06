//! The local script that a script gives a site, and whether two scripts give it the same.
//!
//! [`local_script`] runs a script over a new store in memory, and collects the items of the site's
//! local script line by line. [`twin`] does so with two, and compares them. [`line_of_entry`] tells
//! which line gave an entry.
#![tactic(auto)]

mod answer;
mod before;
mod collector;
mod counts;
mod entry_lines;
mod lines;
mod present;
mod scripts;
mod two_scripts;

pub use answer::{Twin, compare};
pub use entry_lines::line_of_entry;
pub use lines::local_script;
pub use scripts::LocalScript;
pub use two_scripts::twin;
