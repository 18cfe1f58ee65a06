//! One storage area: the names and values of one storage key, in the order in which the names came.
//!
//! An [`Area`] is seen as a list of pairs with distinct names. Its weight is kept as a running sum
//! of bytes and never passes the quota. A pair is found by a hash table, so `get` and `put` take
//! the same time in a large area as in a small one.
#![tactic(auto)]

mod area;
mod places;

pub use area::{Area, AreaFault, Put, QUOTA};
