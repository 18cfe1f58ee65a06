//! What a script gives a site, and where two scripts part, as lines of JSON.
//!
//! [`show`] writes the local script that a script gives a site, a line for each item and one for
//! the end. [`differ`] writes whether two scripts give it the same, and where they do not the two
//! lines that differ, with the numbers of the script's lines that gave them.
#![tactic(auto)]

mod fault;
mod laws;
mod lines;
mod places;
mod showing;

pub use fault::ShowFault;
pub use laws::shown_texts_differ_as_local_scripts_do;
pub use showing::{differ, show};
