//! Script lines: reading a script by its grammar.
//!
//! [`Script::read`] answers the script that the bytes of a source are, or its first fault, and
//! [`Script::read_two`] the two scripts into which a line divides them. [`read_line`] reads a line.
//! Contracts see actions and lines as plain data, whose texts are lists of bytes; the grammar is a
//! table of actions with their fields.
#![tactic(auto)]

mod actions;
mod beginning;
mod cuts;
mod fields;
mod flat_object;
mod heads;
mod json_line;
mod json_value;
mod members;
mod pairs;
mod reader;
mod rows;
mod script;
mod two_scripts;
mod words;

pub use reader::read_line;
pub use script::{Script, ScriptFault};
