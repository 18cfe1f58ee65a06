//! Cells of cookies: storing the cookie of a Set-Cookie text, and the cookies that go out.
//!
//! A [`Jar`] is one cell, the unpartitioned cookies of a domain or its partition under a top-level
//! site. Contracts see it as a kind and a list of plain cookies.
#![tactic(auto)]

mod access;
mod cause;
mod cookie;
mod drops;
mod header_text;
mod jar;
mod key;
mod new_cookie;
mod plan;
mod removals;
mod sending;
mod stays;
mod step;
mod steps;
mod store;

pub use access::{Access, Destination};
pub use cause::CookieDrop;
pub use cookie::{Cookie, CookieIdentity};
pub use header_text::header;
pub use jar::Jar;
pub use key::{CellKey, destination};
pub use plan::{Plan, StoredKind};
pub use stays::domain_of_cell;
pub use step::JarStep;
pub use store::Stored;
