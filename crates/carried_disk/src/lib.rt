//! A disk whose changing calls its owner carries out on a file of its own, write by write.
//!
//! A [`CarriedDisk`] holds the bytes of the file in memory, and keeps each write and each sync
//! until its owner has carried it out. The owner asks for the [`next`](CarriedDisk::next) call,
//! carries it out, and says so by [`done`](CarriedDisk::done). What was answered before the last of
//! them was carried out is durable only then: [`is_carried`](CarriedDisk::is_carried).
#![tactic(auto)]

mod call_list;
mod carried_disk;

pub use call_list::CarriedCall;
pub use carried_disk::CarriedDisk;
