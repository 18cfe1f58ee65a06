//! Row changes: the changes of durable state as values, as the bytes that a store file holds, and
//! read back from them.
//!
//! A [`Change`] is a change of one row. A body of changes is durable changes to its end, each of
//! them one row change or more; a body of a snapshot is row changes to its end. What depends on the
//! state that a change is made to is not looked at here.
#![tactic(auto)]

mod body;
mod change;
mod cookies;
mod fields;
mod hosts;
mod keys;
mod laws;
mod names;
mod reading;
mod stop;
mod writing;

pub use body::{Piece, Reader};
pub use change::{Change, ChangeRef};
pub use laws::changes_read_back;
pub use reading::read_change;
pub use writing::{append_change, append_changes, append_row, write_changes, write_rows};
