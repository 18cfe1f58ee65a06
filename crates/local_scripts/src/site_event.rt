//! Events of a site.
ghost use Rattle.std.specs.Prelude.{◌≡◌, true};
ghost use Rattle.script_actions.specs.Plain.{action_of};
ghost use Rattle.local_scripts.specs.Lines.{is_of_document};

use origin_site::Address;
use script_actions::{Action, HeadField, Method};

/// A load of a top document.
#[derive(Clone, Copy, Debug, PartialEq, Eq)]
pub enum TopLoad {
    /// A tab is opened.
    Opens,
    /// A tab goes to an address.
    Goes,
}

/// A line that a document does.
#[derive(Debug, Drop, PartialEq, Eq)]
pub struct DocumentLine {
    pub action: Action,
    // the line names a document
    ghost named: { is_of_document (action_of action) ≡ true },
}

/// What happens at a site.
#[derive(Debug, Drop, PartialEq, Eq)]
pub enum SiteEvent {
    /// A document of one of its tabs acts.
    Acts(DocumentLine),
    /// A tab reaches it.
    Arrives {
        load: TopLoad,
        tab: u16,
        url: Box<Address>,
        method: Method,
        /// The user starts the load, or a page of the site.
        same_site: bool,
        head: Vec<HeadField>,
    },
    /// A tab leaves it for another site.
    Leaves {
        tab: u16,
    },
    /// A tab gets copies of another tab's session areas.
    Copies {
        from: u16,
        to: u16,
    },
    /// A tab is closed.
    Closes {
        tab: u16,
    },
    /// Its storage is evicted.
    Evicts,
}
