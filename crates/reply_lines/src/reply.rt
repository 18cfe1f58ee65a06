//! Replies.
ghost use Rattle.std.specs.Prelude.{◌≡◌, IfOk, map, option_map, string_bytes};
ghost use Rattle.origin_site.specs.Plain.{plain_site};
ghost use Rattle.storage_events.specs.Event.{plain_event};
ghost use Rattle.reply_lines.specs.Plain.{body_of, reply_of};

use agent_base::NoMemory;
use origin_site::Site;
use std::alloc::Global;
use storage_events::Event;

/// The quota that an estimate tells, in bytes.
pub const QUOTA: u64 = 5_242_880;

/// What a reply answers. Every body but `Plain` answers `ok`.
#[derive(Debug, Drop, PartialEq, Eq)]
pub enum ReplyBody {
    /// The answer alone.
    Plain {
        is: &'static str,
    },
    /// The clock, in seconds since 1970.
    Now {
        now: i64,
    },
    /// How many durable changes a restart found.
    Kept {
        kept: u64,
    },
    /// A document was loaded: the Cookie header that went out, and an answer for each Set-Cookie.
    Load {
        cookie: Option<String>,
        set: Vec<&'static str>,
    },
    /// A look-up: the text that was found, if one was.
    Text {
        value: Option<String>,
    },
    /// A number of pairs.
    Number {
        value: u64,
    },
    /// A truth value.
    Truth {
        value: bool,
    },
    /// The storage events that a document had, and how many more were lost.
    Events {
        events: Vec<Event>,
        lost: u32,
    },
    /// The cookies that a document sees.
    Cookie {
        cookie: String,
    },
    /// The answer to one Set-Cookie text.
    SetOne {
        set: &'static str,
    },
    /// The weight of a local area, which is told beside the quota.
    Estimate {
        usage: u64,
    },
    /// How many areas an eviction emptied.
    Cleared {
        cleared: u32,
    },
}

/// The reply of a line: the name of its action, the site that it belongs to, and the answer.
#[derive(Debug, Drop, PartialEq, Eq)]
pub struct Reply {
    pub name: &'static str,
    pub site: Option<Site>,
    pub body: ReplyBody,
}

impl ReplyBody {
    /// The same answer, over memory of its own.
    pub fn copy(&self, alloc: Global) -> Result<ReplyBody, NoMemory>
        ensures same { IfOk result (λ b. body_of b ≡ body_of self.now) }
    {
        match self {
            ReplyBody::Plain { is } => Ok(ReplyBody::Plain { is: *is }),
            ReplyBody::Load { cookie, set } => Ok(ReplyBody::Load {
                cookie: optional_copy(alloc, cookie)?,
                set: names_copy(alloc, set)?,
            }),
            ReplyBody::Text { value } => Ok(ReplyBody::Text {
                value: optional_copy(alloc, value)?,
            }),
            ReplyBody::Now { now } => Ok(ReplyBody::Now { now: *now }),
            ReplyBody::Kept { kept } => Ok(ReplyBody::Kept { kept: *kept }),
            ReplyBody::Number { value } => Ok(ReplyBody::Number { value: *value }),
            ReplyBody::Truth { value } => Ok(ReplyBody::Truth { value: *value }),
            ReplyBody::Events { events, lost } => Ok(ReplyBody::Events {
                events: events_copy(alloc, events)?,
                lost: *lost,
            }),
            ReplyBody::Cookie { cookie } => Ok(ReplyBody::Cookie {
                cookie: String::from_str(alloc, cookie.as_str())?,
            }),
            ReplyBody::SetOne { set } => Ok(ReplyBody::SetOne { set: *set }),
            ReplyBody::Estimate { usage } => Ok(ReplyBody::Estimate { usage: *usage }),
            ReplyBody::Cleared { cleared } => Ok(ReplyBody::Cleared { cleared: *cleared }),
        }
    }
}

impl Reply {
    /// The same reply, over memory of its own.
    pub fn copy(&self, alloc: Global) -> Result<Reply, NoMemory>
        ensures same { IfOk result (λ r. reply_of r ≡ reply_of self.now) }
    {
        Ok(Reply {
            name: self.name,
            site: site_copy(alloc, &self.site)?,
            body: self.body.copy(alloc)?,
        })
    }
}

fn optional_copy(alloc: Global, text: &Option<String>) -> Result<Option<String>, NoMemory>
    ensures { IfOk result (λ t. option_map string_bytes t ≡ option_map string_bytes text.now) }
{
    match text {
        Some(text) => Ok(Some(String::from_str(alloc, text.as_str())?)),
        None => Ok(None),
    }
}

fn site_copy(alloc: Global, site: &Option<Site>) -> Result<Option<Site>, NoMemory>
    ensures { IfOk result (λ s. option_map plain_site s ≡ option_map plain_site site.now) }
{
    match site {
        Some(site) => Ok(Some(site.copy(alloc)?)),
        None => Ok(None),
    }
}

fn names_copy(alloc: Global, names: &[&'static str]) -> Result<Vec<&'static str>, NoMemory>
    ensures { IfOk result (λ v. map (λ t. t.now) v.items ≡ map (λ t. t.now) names.now) }
{
    let mut copy = Vec::new(alloc);
    match copy.extend_from_slice(names) {
        Ok(()) => Ok(copy),
        Err(_) => Err(NoMemory),
    }
}

fn events_copy(alloc: Global, events: &[Event]) -> Result<Vec<Event>, NoMemory>
    ensures { IfOk result (λ v. map plain_event v.items ≡ map plain_event events.now) }
{
    let mut copy = Vec::new(alloc);
    for event in events {
        if copy.push(event.copy()?).is_err() {
            return Err(NoMemory);
        }
    }
    Ok(copy)
}
