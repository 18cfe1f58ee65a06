//! The replies that the agent gives.
ghost use Rattle.std.specs.Prelude.{◌≡◌, ◌≤◌, Some, None, codes, pos};
ghost use Rattle.origin_site.specs.Plain.{plain_site};
ghost use Rattle.reply_lines.specs.Plain.{body_of, reply_of};
ghost use Rattle.reply_lines.specs.Reply as reply_text;

use agent_base::Seconds;
use origin_site::Site;
use reply_lines::{Reply, ReplyBody};

/// The reply to a line that moved the clock here.
pub fn ticked(now: Seconds) -> Reply
    ensures { let body = reply_text.Now (pos now) in
        reply_of result ≡ record { name = codes "tick"; site = None; body = body } }
{
    Reply {
        name: "tick",
        site: None,
        body: ReplyBody::Now { now: now.signed() },
    }
}

/// A reply that is of no site.
pub fn refused(name: &'static str, is: &'static str) -> Reply
    ensures { let body = reply_text.Plain is.now in
        reply_of result ≡ record { name = name.now; site = None; body = body } }
{
    Reply {
        name,
        site: None,
        body: answer(is),
    }
}

/// A reply of a site.
pub fn replied(name: &'static str, site: Site, body: ReplyBody) -> Reply
    ensures { let own = plain_site site in
        reply_of result ≡ record { name = name.now; site = Some own; body = body_of body } }
{
    Reply {
        name,
        site: Some(site),
        body,
    }
}

/// An answer alone.
pub fn answer(is: &'static str) -> ReplyBody
    ensures { body_of result ≡ reply_text.Plain is.now }
{
    ReplyBody::Plain { is }
}
