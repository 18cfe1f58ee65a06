//! What is printed of a run over a store: the replies of its lines, of restarts, and of lines that
//! met a device fault.
//!
//! A run over a store is a history: epochs of lines, each ended by a restart that finds some of the
//! durable changes. By [`printed_histories_are_isolated`] the lines of each site in what is printed
//! of it are those of the site's own machine.
#![tactic(auto)]

ghost use Rattle.printed_model.specs.Histories.{HasOneText, HasSameLines, HasSiteLines};

use durable_model::histories_are_isolated;

/// The laws of what is printed of a history. The lines of each site are those of its own machine,
/// given its local script alone. Two histories that give a site the same local script have the same
/// lines of it. Where no line reopens and none is answered `down`, the text is that of the replies
/// of the world of all sites.
pub fn printed_histories_are_isolated()
    ensures sites { HasSiteLines }
    ensures same { HasSameLines }
    ensures unbroken { HasOneText }
{
    histories_are_isolated();
}
