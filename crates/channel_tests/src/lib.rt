//! Tests of broadcast channels, by calls of their library.
#![tactic(auto)]

#[cfg(test)]
mod courses;
#[cfg(test)]
mod full;
