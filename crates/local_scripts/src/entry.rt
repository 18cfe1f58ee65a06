//! Entries: events of a site, with the cookies that they hold.

use crate::SiteEvent;
use cookie_jar::Jar;

/// The unpartitioned cookies of a domain, as an event found them.
#[derive(Debug, Drop)]
pub struct HeldJar {
    pub domain: String,
    pub jar: Jar,
}

/// An event of a site at a moment, in seconds since 1970.
#[derive(Debug, Drop)]
pub struct Entry {
    pub moment: u64,
    pub event: SiteEvent,
    /// The cookies that the event consults and that the site may not know. No event consults those
    /// of two domains.
    pub held: Option<HeldJar>,
}
