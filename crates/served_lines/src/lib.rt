//! Lines that a session is asked over a pipe.
//!
//! [`serve`] gives the lines of a source to a session, one after the other, and writes what each is
//! answered to a sink before it reads more. A line that is refused is answered by a line that tells
//! its first fault, and changes nothing. [`serve_on`] opens the store on a disk, serves over it,
//! and hands the disk back.
#![tactic(auto)]

mod answering;
mod disks;
mod ending;
mod refusal;
mod serving;
mod waiting;

pub use disks::{Finished, serve_on};
pub use ending::Served;
pub use serving::serve;
