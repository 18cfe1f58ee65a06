//! Values by key, in the order of the keys, each of which can be lent to be changed.
//!
//! A [`KeyMap`] is seen as the list of its entries, ordered by key. Its contracts say what the map
//! is after a write through a `&mut` that it lent.
#![tactic(auto)]

mod map;

pub use map::KeyMap;
