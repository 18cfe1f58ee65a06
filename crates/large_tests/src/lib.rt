//! Tests of public calls over much data.
//!
//! They stand apart from the libraries, so that those are proved once, and from other tests, for each
//! takes seconds.
#![tactic(auto)]

#[cfg(test)]
mod many_sites;
