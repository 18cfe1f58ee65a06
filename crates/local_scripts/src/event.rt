//! The event of a line that is not refused.
ghost use Rattle.std.specs.Prelude.{◌≡◌, IfOk};
ghost use Rattle.script_actions.specs.Plain.{action_of};
ghost use Rattle.local_scripts.specs.Items.{event_of};
ghost use Rattle.local_scripts.specs.Events.{event_by};

use crate::{DocumentLine, SiteEvent, TopLoad};
use agent_base::NoMemory;
use script_actions::Action;
use std::alloc::Global;

/// The event of a line that is not refused. A load of a top document is same-site or is not.
pub fn event_of_line(alloc: Global, action: &Action, same_site: bool) -> Result<SiteEvent, NoMemory>
    ensures event { let event = event_by (action_of action.now) same_site in
        IfOk result (λ e. event_of e ≡ event) }
{
    Ok(event_from(action.copy(alloc)?, same_site))
}

fn event_from(action: Action, same_site: bool) -> SiteEvent
    ensures event { event_of result ≡ event_by (action_of action) same_site }
{
    match action {
        Action::Open {
            tab,
            url,
            method,
            head,
            ..
        } => SiteEvent::Arrives {
            load: TopLoad::Opens,
            tab,
            url,
            method,
            same_site,
            head,
        },
        Action::Go {
            tab,
            url,
            method,
            head,
            ..
        } => SiteEvent::Arrives {
            load: TopLoad::Goes,
            tab,
            url,
            method,
            same_site,
            head,
        },
        Action::Close { tab } => SiteEvent::Closes { tab },
        Action::Tick { .. } => SiteEvent::Evicts,
        Action::Evict { .. } => SiteEvent::Evicts,
        line => SiteEvent::Acts(DocumentLine { action: line }),
    }
}
