//! Tests of streams, of disks, of hosts and of the journal of a store file, by calls of their libraries.
//!
//! They stand apart from `agent_base`, `disk_model`, `hosts` and `journal`, so that each of these is proved
//! once.
#![tactic(auto)]

#[cfg(test)]
mod callers;
#[cfg(test)]
mod carried;
#[cfg(test)]
mod disks;
#[cfg(test)]
mod failed_syncs;
#[cfg(test)]
mod forgetful_file;
#[cfg(test)]
mod interrupted;
#[cfg(test)]
mod journals;
#[cfg(test)]
mod named_stores;
#[cfg(test)]
mod part_file;
#[cfg(test)]
mod random_runs;
#[cfg(test)]
mod shared;
#[cfg(test)]
mod streams;
