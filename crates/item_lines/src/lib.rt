//! An item of a local script, and the line of JSON that it is printed as.
//!
//! [`print_item`] puts the line of an entry or a restart behind what stands in a buffer, and
//! [`print_end`] that of the end of a script. Two items have the same line exactly where they are
//! equal.
#![tactic(auto)]

mod addresses;
mod cookies;
mod entries;
mod heads;
mod laws;
mod lines;
mod numbers;
mod printer;
mod words;

pub use laws::items_differ_as_their_lines_do;
pub use printer::{print_end, print_item};
