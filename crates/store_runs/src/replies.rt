//! The replies that are of no line's own: to a restart, and to a line that met a device fault.
ghost use Rattle.std.specs.Prelude.{◌≡◌};
ghost use Rattle.reply_lines.specs.Plain.{reply_of};
ghost use Rattle.agent_model.specs.Isolation.{printed};
ghost use Rattle.printed_model.specs.Histories.{down_reply, restart_reply};
ghost use Rattle.script_actions.specs.Plain.{step_of};

use reply_lines::{Reply, ReplyBody};
use script_actions::Step;

/// The reply to a restart that found so many durable changes.
pub fn restarted(kept: u64) -> Reply
    ensures { reply_of result ≡ printed (restart_reply kept) }
{
    Reply {
        name: "restart",
        site: None,
        body: ReplyBody::Kept { kept },
    }
}

/// The reply to a line that met a device fault.
pub fn down(step: &Step) -> Reply
    ensures { reply_of result ≡ printed (down_reply (step_of step.now)) }
{
    Reply {
        name: step.name(),
        site: None,
        body: ReplyBody::Plain { is: "down" },
    }
}
