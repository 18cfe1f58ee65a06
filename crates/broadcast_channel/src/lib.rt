//! Broadcast channels: texts that documents of one storage key send each other.
//!
//! [`Channels`] are the channels of one agent. A text that is posted on one waits in every other
//! channel of its storage key and channel name until it is received there.
#![tactic(auto)]

mod channels;
mod hearers;
mod laws;
mod lines;
mod message;
mod queue;

pub use channels::{Channels, NoChannel, OpenFault, PostFault};
pub use laws::channel_laws;
pub use message::Message;
pub use queue::MESSAGES;
