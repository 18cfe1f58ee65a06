//! Tests of row changes and their bytes, by the public calls of `row_changes`.
//!
//! They stand apart from that library, so that it is proved once.
#![tactic(auto)]

#[cfg(test)]
mod bodies;
#[cfg(test)]
mod changes;
#[cfg(test)]
mod cookies;
#[cfg(test)]
mod parts;
