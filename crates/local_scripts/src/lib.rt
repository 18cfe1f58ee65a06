//! The local script of a site: what a line gives the site, told before the line is run, and where
//! two lists of its items first differ.
//!
//! An [`Item`] is an [`Entry`] or a restart. The events of a line are read off the open tabs of a
//! [`Present`]; nothing changes. Contracts see items as those of the general local script, with the
//! events and the cookies of the machine of one site.
#![tactic(auto)]

mod cells;
mod difference;
mod entry;
mod event;
mod held;
mod item;
mod laws;
mod main_events;
mod places;
mod present;
mod same;
mod seen_line;
mod side_events;
mod site_event;

pub use difference::first_difference;
pub use entry::{Entry, HeldJar};
pub use held::domain_cookies;
pub use item::{Item, Restart};
pub use laws::{changes, touches};
pub use main_events::{MainEvent, main_event};
pub use present::Present;
pub use same::{same_cookies, same_item};
pub use seen_line::{SeenLine, seen};
pub use side_events::side_event;
pub use site_event::{DocumentLine, SiteEvent, TopLoad};
