//! What a restart loses beside the session areas: the open tabs, and the events that wait for each
//! document.
//!
//! [`Live`] is seen as the list of open tabs in the order of their numbers, each with its frames
//! and a queue for each frame. Room is made by calls of their own, so that the calls that change it
//! take no memory.
#![tactic(auto)]

mod frame_queue;
mod listed;
mod live;
mod open_tab;
mod site_tabs;
mod tab_list;

pub use live::Live;
