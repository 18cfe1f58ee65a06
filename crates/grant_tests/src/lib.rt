//! Tests of permissions of storage access, by the public calls of `access_grants`.
//!
//! They stand apart from that library, so that it is proved once.
#![tactic(auto)]

#[cfg(test)]
mod callers;
#[cfg(test)]
mod permissions;
