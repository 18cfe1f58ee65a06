//! The durable state that the frames of a store lead to.
//!
//! [`Rows`] takes frames one after another: changes, or a snapshot. A row change that is not valid
//! in the state before it is a fault, with the offset at which it begins. A row change by itself is
//! applied where it is valid. No suffix list is asked, until [`Rows::migrate`] drops what is none
//! under one. An agent goes on with the [`Parts`] of the last state.
#![tactic(auto)]

mod body;
mod cell_texts;
mod cells;
mod laws;
mod listing;
mod lookups;
mod parts;
mod reading;
mod row_fault;
mod rows;
mod same;
mod sink;
mod spelling;
mod texted_cell;
mod which;

pub use body::{snapshot, snapshot_rows};
pub use laws::{bodies_mean_states, files_mean_one_state, states_stay_spelled};
pub use parts::Parts;
pub use row_fault::RowFault;
pub use rows::Rows;
