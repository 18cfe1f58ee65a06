//! The cookies of all sites, and what requests and scripts make of them.
//!
//! [`Cookies`] has a jar for each cell. What a request makes of them is prepared first, with all
//! memory that it takes, and then performed without a refusal. Contracts see the cookies as the
//! machine of one site does: cells that sites share, and partitioned cells.
#![tactic(auto)]

mod both;
mod change;
mod cookie_use;
mod cookies;
mod granted;
mod in_place;
mod keys;
mod line_input;
mod listing;
mod prepared;
mod rows;
mod sending;
mod stored_rows;
mod words;

pub use cookie_use::CookieUse;
pub use cookies::Cookies;
pub use granted::{is_granted_at, is_granted_nav};
pub use line_input::LineInput;
pub use prepared::Prepared;
