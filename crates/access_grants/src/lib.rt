//! Storage access: which embedded sites may use their own unpartitioned cookies under which
//! top-level sites, and what a request for it comes to.
//!
//! [`Grants`] is an ordered list of permissions, at most one for each pair of a top-level site and
//! an embedded site. [`Grants::request`] decides and keeps nothing: its [`Outcome`] says what the
//! caller keeps and does.
#![tactic(auto)]

mod code;
mod facts;
mod grants;
mod outcome;
mod permission;

pub use facts::{Answer, Facts};
pub use grants::Grants;
pub use outcome::{Decision, Outcome, Refusal};
pub use permission::{GrantRow, GrantState, LIFETIME, Permission};
