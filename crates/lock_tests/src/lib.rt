//! Tests of the requests for locks, by calls of their library.
#![tactic(auto)]

#[cfg(test)]
mod callers;
#[cfg(test)]
mod courses;
#[cfg(test)]
mod lists;
#[cfg(test)]
mod random;
