//! Replies, and the lines of JSON that they are printed as.
//!
//! [`print`] writes the line of a reply, and [`print_into`] writes it into a buffer that is kept.
//! Contracts see a reply as plain data, whose texts are lists of bytes.
#![tactic(auto)]

mod json_text;
mod plain_texts;
mod printed_bodies;
mod printed_lists;
mod printer;
mod reply;

pub use printer::{print, print_into};
pub use reply::{Reply, ReplyBody};
