//! Rows of a store, and the lines of JSON that they are printed as.
//!
//! A [`Row`] is a row change that a snapshot may have, over parts that others own. [`print_row`]
//! puts its line behind what stands in a buffer. The writers of [`members`] serve other lines too.
#![tactic(auto)]

pub mod members;
mod printer;
mod row;
mod rows;

pub use printer::print_row;
pub use row::Row;
pub use rows::same_site_text;
