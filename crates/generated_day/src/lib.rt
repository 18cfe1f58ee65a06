//! The generated day: a script of 5,020 lines, which a seed determines.
//!
//! [`generated_day`] makes its lines. In 20 tabs it goes to pages, loads frames, stores in areas
//! and sets cookies, while the clock moves.
#![tactic(auto)]

mod day;
mod draws;
mod rows;

pub use day::generated_day;
