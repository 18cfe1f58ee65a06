//! The run of a command: from the words, the list, the script and the store to the lines that are
//! written.
//!
//! [`run`] is the call that the program makes. What `out` took of a run of a script is what is
//! printed of a history of its lines, over restarts and cuts of the power, and the lines of each
//! site in it are those of its own one-site machine.
#![tactic(auto)]

mod dumps;
mod lists;
mod pairs;
mod runs;
mod scripts;
mod seeds;
mod status;
mod system;
mod told;

pub use lists::read_list;
pub use pairs::{read_scripts, write_answer};
pub use runs::{options, run};
pub use scripts::read_script;
pub use status::Status;
pub use system::{begin, program};
pub use told::tell;
