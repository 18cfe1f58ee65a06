//! What an agent has in memory: it runs lines one after another, over one store for all sites.
//!
//! Each [`Memory::line`] leaves it standing for the world after that line, answers the line's
//! reply, and writes the line's durable change behind a body. The world, its replies and its
//! changes are defined in `agent_model`.
#![tactic(auto)]

mod body;
mod holdings;
mod memory;
mod replies;

pub use body::Body;
pub use memory::Memory;
