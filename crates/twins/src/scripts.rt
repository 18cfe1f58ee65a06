//! A local script, as it was collected.

use local_scripts::{Item, Restart};

/// A local script: its entries, and its end, which closes the last epoch.
#[derive(Debug, Drop)]
pub struct LocalScript {
    pub entries: Vec<Item>,
    pub end: Restart,
}
