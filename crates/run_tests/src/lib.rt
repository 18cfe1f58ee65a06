//! Tests of runs over stores on disks in memory, by the public calls of `store_runs` and `agent_core`.
//!
//! They stand apart from these libraries, so that each is proved once.
#![tactic(auto)]

#[cfg(test)]
mod checkpoints;
#[cfg(test)]
mod disks;
#[cfg(test)]
mod listing;
#[cfg(test)]
mod shared;
#[cfg(test)]
mod updates;
