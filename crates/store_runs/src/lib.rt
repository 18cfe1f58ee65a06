//! Runs of lines over an agent on a disk, over restarts and cuts of the power.
//!
//! [`run_line`] runs one line over an agent, and [`tend`] makes the checkpoint that it owes.
//! [`run_lines`] runs lines over an agent and writes their replies. [`run_on`] does so over the
//! store on a disk, and hands the disk back; [`run_in_memory`] over a new store on a disk in
//! memory. What a run writes is what is printed of a history, and by
//! `printed_model::printed_histories_are_isolated` the lines of each site in it are those of its
//! own machine.
#![tactic(auto)]

mod answer;
mod disks;
mod ending;
mod line;
mod lines;
mod replies;
mod waiting;

pub use answer::Answer;
pub use disks::{Finished, run_in_memory, run_on};
pub use ending::Ending;
pub use line::run_line;
pub use lines::{run_lines, tend};
