//! A file as a store sees it: what a read returns, and what a cut of the power may leave.
//!
//! [`Disk`] says what each call promises, at each moment of the call and also where it fails.
//! [`MemDisk`] is such a disk in memory, whose power can be cut in any of its changing calls.
//! [`FileDisk`] is one over a [`RawFile`], and tells what that tells. A file of the system tells
//! nothing of its content. [`Carried`] is one whose owner carries out the changing calls.
#![tactic(auto)]

mod disk;
mod file_disk;
mod history;
mod medium;
mod mem_disk;
mod raw_file;
mod recovery;
mod schedule;
mod system_file;

pub use disk::{Carried, Disk};
pub use file_disk::FileDisk;
pub use mem_disk::MemDisk;
pub use raw_file::RawFile;
pub use schedule::Cut;
pub use system_file::SystemFile;
