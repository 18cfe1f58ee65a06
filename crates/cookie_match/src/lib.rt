//! When a host matches the domain of a cookie, and a path the path of a cookie.
//!
//! Hosts, domains and paths are those of URLs, in the form that the URL Standard writes them in. No
//! call takes memory.
#![tactic(auto)]

mod matching;

pub use matching::{default_path, domain_matches, path_matches};
