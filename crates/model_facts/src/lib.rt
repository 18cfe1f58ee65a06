//! Values of the model, worked out by hand from the texts of the standards.
//!
//! This crate has no function: `proofs/` has the values, each of which would be another if the
//! definition that it names said otherwise.
#![tactic(auto)]
