//! The limits of a cell of cookies, and which cookies go where one would be passed.
//!
//! A cell is the cookie jar of a domain, or its partition under a top-level site. What it holds is
//! a [`Tally`], and each cookie is weighed by what decides when it goes.
#![tactic(auto)]

mod excess;
mod tally;

pub use excess::{Weighed, victims};
pub use tally::{CellKind, Tally};
