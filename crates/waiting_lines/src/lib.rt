//! Lines that wait in memory, and are written together.
//!
//! Lines are put behind each other in a buffer. [`write_many`] writes what waits there, once it is
//! so much that it is written together.
#![tactic(auto)]

mod waiting;

pub use waiting::{MOST_WAITING, write_many};
