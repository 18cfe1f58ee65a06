//! Addresses, their origins and their sites.
//!
//! An [`Address`] is an http or https URL. Its [`Origin`] is scheme, host and port, and its
//! [`Site`] is the scheme and the domain of the host. An origin that came from an address has a
//! text that reads back. Contracts see each of them as plain data, whose texts are lists of bytes.
#![tactic(auto)]

mod address;
mod domain;
mod origin;
mod own;
mod site;

pub use address::{Address, AddressFault};
pub use domain::{domain_of, site_of};
pub use origin::{Origin, same_origin};
pub use own::{addresses_tell_their_kind, domain_under, is_ip_host, is_own_host};
pub use site::{Site, SiteFault, same_site};
