//! The words of a command line, and the command that they are: by [`read_words`] of the program
//! that runs scripts, and by [`read_show_words`] of the one that shows what they give a site.
#![tactic(auto)]

mod commands;
mod matches;
mod numbers;
mod options;
mod paths;
mod shows;

pub use commands::{Command, read_words};
pub use shows::{Show, Shown, read_show_words};
