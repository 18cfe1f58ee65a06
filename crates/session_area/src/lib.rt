//! Session areas: each tab has areas of its own, one for each storage key.
//!
//! [`Sessions`] is seen as a map from tabs and keys to areas. A tab's areas can be copied into
//! another tab, and go when the tab is closed.
#![tactic(auto)]

mod sessions;
mod shared;

pub use sessions::Sessions;
pub use shared::{NotLent, SharedArea};
