//! The line of a reply.
ghost use Rattle.std.specs.Prelude.{◌≡◌, ◌++◌, [], IfOk, OnErr, OnOk};
ghost use Rattle.serde_json.specs.Written.{compact_text};
ghost use Rattle.reply_lines.specs.Plain.{reply_of};
ghost use Rattle.reply_lines.specs.Reply.{reply_data, reply_text};

use crate::json_text::put;
use crate::printed_bodies::{
    put_cleared, put_cookie, put_count, put_estimate, put_events_body, put_kept, put_load, put_now,
    put_plain, put_set_one, put_text, put_truth,
};
use crate::{Reply, ReplyBody};
use agent_base::NoMemory;
use std::alloc::Global;

/// The line of a reply, with its line feed, in time linear in its length.
pub fn print(alloc: Global, reply: &Reply) -> Result<Vec<u8>, NoMemory>
    ensures line { IfOk result (λ line. line.items ≡ reply_text (reply_of reply.now)) }
{
    let mut line = Vec::new(alloc);
    print_into(&mut line, reply)?;
    Ok(line)
}

/// The same in a buffer that is kept from reply to reply. What stood in it goes.
pub fn print_into(line: &mut Vec<u8>, reply: &Reply) -> Result<(), NoMemory>
    ensures line { OnOk result (line.new.items ≡ reply_text (reply_of reply.now)) }
    ensures refused { OnErr result (line.new.items ≡ []) }
{
    line.clear();
    let written = put_line(line, reply);
    if written.is_err() {
        line.clear();
    }
    written
}

fn put_line(line: &mut Vec<u8>, reply: &Reply) -> Result<(), NoMemory>
    ensures { OnOk result (line.new.items ≡ line.old.items ++ reply_text (reply_of reply.now)) }
{
    put_reply(line, reply)?;
    put(line, "\n")
}

fn put_reply(line: &mut Vec<u8>, reply: &Reply) -> Result<(), NoMemory>
    ensures { OnOk result
        (line.new.items ≡ line.old.items ++ compact_text (reply_data (reply_of reply.now))) }
{
    let name = reply.name;
    let site = &reply.site;
    match &reply.body {
        ReplyBody::Plain { is } => put_plain(line, name, site, is),
        ReplyBody::Now { now } => put_now(line, name, site, *now),
        ReplyBody::Kept { kept } => put_kept(line, name, site, *kept),
        ReplyBody::Load { cookie, set } => put_load(line, name, site, cookie, set),
        ReplyBody::Text { value } => put_text(line, name, site, value),
        ReplyBody::Number { value } => put_count(line, name, site, *value),
        ReplyBody::Truth { value } => put_truth(line, name, site, *value),
        ReplyBody::Events { events, lost } => put_events_body(line, name, site, events, *lost),
        ReplyBody::Cookie { cookie } => put_cookie(line, name, site, cookie.as_str()),
        ReplyBody::SetOne { set } => put_set_one(line, name, site, set),
        ReplyBody::Estimate { usage } => put_estimate(line, name, site, *usage),
        ReplyBody::Cleared { cleared } => put_cleared(line, name, site, *cleared),
    }
}
