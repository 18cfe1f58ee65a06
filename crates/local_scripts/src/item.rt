//! Items: entries and restarts.

use crate::Entry;

/// A restart, as a site hears of it: the moment, how many of its replies were acknowledged, and how
/// many of its durable changes were kept.
#[derive(Clone, Copy, Debug, PartialEq, Eq)]
pub struct Restart {
    pub moment: u64,
    pub acknowledged: u64,
    pub kept: u64,
}

/// An item of a local script.
#[derive(Debug, Drop)]
pub enum Item {
    /// An event of the site happens.
    Happens(Entry),
    /// The store is opened again.
    Restarts(Restart),
}
