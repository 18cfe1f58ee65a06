//! What a line asks for.
ghost use Rattle.std.specs.Prelude.{◌≡◌, IfOk, map, option_map, string_bytes};
ghost use Rattle.script_actions.specs.Labels.{label_of};
ghost use Rattle.script_actions.specs.ActionNames.{action_name};
ghost use Rattle.script_actions.specs.Plain.{action_of, head_field_of};

use crate::{Method, Prompt};
use agent_base::{Label, NoMemory};
use origin_site::{Address, Site};
use std::alloc::Global;
use storage_events::AreaKind;

/// A field of a response's head, as it is written.
#[derive(Debug, Drop, PartialEq, Eq)]
pub struct HeadField {
    pub name: String,
    pub value: String,
}

/// What a line asks for.
#[derive(Debug, Drop, PartialEq, Eq)]
pub enum Action {
    /// Moves the clock by so many seconds.
    Tick {
        s: u32,
    },
    /// Opens a tab with a top document, started by the opener's page or by the user.
    Open {
        tab: u16,
        url: Box<Address>,
        opener: Option<u16>,
        /// The tab gets no copy of the opener's session areas.
        noopener: bool,
        method: Method,
        head: Vec<HeadField>,
    },
    /// Closes a tab.
    Close {
        tab: u16,
    },
    /// Goes to another top document, started by the page or by the user.
    Go {
        tab: u16,
        url: Box<Address>,
        by_page: bool,
        method: Method,
        head: Vec<HeadField>,
    },
    /// Adds a frame below a parent, with the text of its `sandbox` attribute.
    Frame {
        at: Label,
        parent: u8,
        // Fields lie in the order of the source: behind the address it would make a line longer.
        deny: bool,
        url: Box<Address>,
        sandbox: Option<Box<String>>,
        head: Vec<HeadField>,
    },
    /// Navigates a frame, started by itself or by its parent.
    Nav {
        at: Label,
        url: Box<Address>,
        by_self: bool,
        method: Method,
        head: Vec<HeadField>,
    },
    /// Removes a frame.
    Drop {
        at: Label,
    },
    /// Activates a document, as a user's click does.
    Click {
        at: Label,
    },
    /// Requests an address for a document.
    Fetch {
        at: Label,
        url: Box<Address>,
        method: Method,
        head: Vec<HeadField>,
    },
    /// Gives a name of an area a value.
    Set {
        at: Label,
        area: AreaKind,
        key: String,
        value: String,
    },
    /// Asks for the value of a name of an area.
    Get {
        at: Label,
        area: AreaKind,
        key: String,
    },
    /// Removes a name of an area, with its value.
    Del {
        at: Label,
        area: AreaKind,
        key: String,
    },
    /// Empties an area.
    Clear {
        at: Label,
        area: AreaKind,
    },
    /// Asks how many names an area has.
    Len {
        at: Label,
        area: AreaKind,
    },
    /// Asks for the name at a place of an area, from 0.
    Key {
        at: Label,
        area: AreaKind,
        n: u32,
    },
    /// Takes the storage events that a document has.
    Events {
        at: Label,
    },
    /// Asks for the cookies that a document's script reads.
    Cookie {
        at: Label,
    },
    /// Sets a cookie by a document's script.
    SetCookie {
        at: Label,
        text: String,
    },
    /// Asks whether a document has access to its unpartitioned cookies.
    Has {
        at: Label,
    },
    /// Requests that access for a document, with the user's answer to the prompt.
    Request {
        at: Label,
        answer: Prompt,
    },
    /// Asks whether a document's bucket is persistent.
    Persisted {
        at: Label,
    },
    /// Asks what a document's local area weighs.
    Estimate {
        at: Label,
    },
    /// Asks for a persistent bucket of a document. The answer of a line is never `Dismiss`.
    Persist {
        at: Label,
        answer: Prompt,
    },
    /// Empties the local areas under a top-level site, but for those of persistent buckets.
    Evict {
        site: Site,
    },
}

impl Action {
    /// The name of the action, as scripts and replies have it.
    pub fn name(&self) -> &'static str
        ensures name { result.now ≡ action_name (action_of self.now) }
    {
        match self {
            Action::Tick { .. } => "tick",
            Action::Open { .. } => "open",
            Action::Close { .. } => "close",
            Action::Go { .. } => "go",
            Action::Frame { .. } => "frame",
            Action::Nav { .. } => "nav",
            Action::Drop { .. } => "drop",
            Action::Click { .. } => "click",
            Action::Fetch { .. } => "fetch",
            Action::Set { .. } => "set",
            Action::Get { .. } => "get",
            Action::Del { .. } => "del",
            Action::Clear { .. } => "clear",
            Action::Len { .. } => "len",
            Action::Key { .. } => "key",
            Action::Events { .. } => "events",
            Action::Cookie { .. } => "cookie",
            Action::SetCookie { .. } => "setcookie",
            Action::Has { .. } => "has",
            Action::Request { .. } => "request",
            Action::Persisted { .. } => "persisted",
            Action::Estimate { .. } => "estimate",
            Action::Persist { .. } => "persist",
            Action::Evict { .. } => "evict",
        }
    }

    /// The document that the action names, if it names one.
    pub fn label(&self) -> Option<Label>
        ensures label { result ≡ label_of (action_of self.now) }
    {
        match self {
            Action::Tick { .. }
            | Action::Open { .. }
            | Action::Close { .. }
            | Action::Go { .. }
            | Action::Evict { .. } => None,
            Action::Frame { at, .. }
            | Action::Nav { at, .. }
            | Action::Drop { at }
            | Action::Click { at }
            | Action::Fetch { at, .. }
            | Action::Set { at, .. }
            | Action::Get { at, .. }
            | Action::Del { at, .. }
            | Action::Clear { at, .. }
            | Action::Len { at, .. }
            | Action::Key { at, .. }
            | Action::Events { at }
            | Action::Cookie { at }
            | Action::SetCookie { at, .. }
            | Action::Has { at }
            | Action::Request { at, .. }
            | Action::Persisted { at }
            | Action::Estimate { at }
            | Action::Persist { at, .. } => Some(*at),
        }
    }

    /// The same action, over memory of its own.
    pub fn copy(&self, alloc: Global) -> Result<Action, NoMemory>
        ensures same { IfOk result (λ a. action_of a ≡ action_of self.now) }
    {
        match self {
            Action::Tick { s } => Ok(Action::Tick { s: *s }),
            Action::Open {
                tab,
                url,
                opener,
                noopener,
                method,
                head,
            } => Ok(Action::Open {
                tab: *tab,
                url: boxed(alloc, url.copy(alloc)?)?,
                opener: *opener,
                noopener: *noopener,
                method: *method,
                head: copy_of_head(alloc, head)?,
            }),
            Action::Close { tab } => Ok(Action::Close { tab: *tab }),
            Action::Go {
                tab,
                url,
                by_page,
                method,
                head,
            } => Ok(Action::Go {
                tab: *tab,
                url: boxed(alloc, url.copy(alloc)?)?,
                by_page: *by_page,
                method: *method,
                head: copy_of_head(alloc, head)?,
            }),
            Action::Frame {
                at,
                parent,
                deny,
                url,
                sandbox,
                head,
            } => Ok(Action::Frame {
                at: *at,
                parent: *parent,
                deny: *deny,
                url: boxed(alloc, url.copy(alloc)?)?,
                sandbox: copy_of_text(alloc, sandbox)?,
                head: copy_of_head(alloc, head)?,
            }),
            Action::Nav {
                at,
                url,
                by_self,
                method,
                head,
            } => Ok(Action::Nav {
                at: *at,
                url: boxed(alloc, url.copy(alloc)?)?,
                by_self: *by_self,
                method: *method,
                head: copy_of_head(alloc, head)?,
            }),
            Action::Drop { at } => Ok(Action::Drop { at: *at }),
            Action::Click { at } => Ok(Action::Click { at: *at }),
            Action::Fetch {
                at,
                url,
                method,
                head,
            } => Ok(Action::Fetch {
                at: *at,
                url: boxed(alloc, url.copy(alloc)?)?,
                method: *method,
                head: copy_of_head(alloc, head)?,
            }),
            Action::Set {
                at,
                area,
                key,
                value,
            } => Ok(Action::Set {
                at: *at,
                area: *area,
                key: String::from_str(alloc, key.as_str())?,
                value: String::from_str(alloc, value.as_str())?,
            }),
            Action::Get { at, area, key } => Ok(Action::Get {
                at: *at,
                area: *area,
                key: String::from_str(alloc, key.as_str())?,
            }),
            Action::Del { at, area, key } => Ok(Action::Del {
                at: *at,
                area: *area,
                key: String::from_str(alloc, key.as_str())?,
            }),
            Action::Clear { at, area } => Ok(Action::Clear {
                at: *at,
                area: *area,
            }),
            Action::Len { at, area } => Ok(Action::Len {
                at: *at,
                area: *area,
            }),
            Action::Key { at, area, n } => Ok(Action::Key {
                at: *at,
                area: *area,
                n: *n,
            }),
            Action::Events { at } => Ok(Action::Events { at: *at }),
            Action::Cookie { at } => Ok(Action::Cookie { at: *at }),
            Action::SetCookie { at, text } => Ok(Action::SetCookie {
                at: *at,
                text: String::from_str(alloc, text.as_str())?,
            }),
            Action::Has { at } => Ok(Action::Has { at: *at }),
            Action::Request { at, answer } => Ok(Action::Request {
                at: *at,
                answer: *answer,
            }),
            Action::Persisted { at } => Ok(Action::Persisted { at: *at }),
            Action::Estimate { at } => Ok(Action::Estimate { at: *at }),
            Action::Persist { at, answer } => Ok(Action::Persist {
                at: *at,
                answer: *answer,
            }),
            Action::Evict { site } => Ok(Action::Evict {
                site: site.copy(alloc)?,
            }),
        }
    }
}

impl HeadField {
    /// The same field, over memory of its own.
    pub fn copy(&self, alloc: Global) -> Result<HeadField, NoMemory>
        ensures same { IfOk result (λ f. head_field_of f ≡ head_field_of self.now) }
    {
        Ok(HeadField {
            name: String::from_str(alloc, self.name.as_str())?,
            value: String::from_str(alloc, self.value.as_str())?,
        })
    }
}

/// A value behind a pointer: in place it would take most of a line, and few lines have one.
pub fn boxed<T: Drop>(alloc: Global, value: T) -> Result<Box<T>, NoMemory>
    ensures { IfOk result (λ boxed. boxed.value ≡ value) }
{
    match Box::new(alloc, value) {
        Ok(boxed) => Ok(boxed),
        Err(_) => Err(NoMemory),
    }
}

// A copy of a text, if there is one.
fn copy_of_text(alloc: Global, text: &Option<Box<String>>) -> Result<Option<Box<String>>, NoMemory>
    ensures { IfOk result (λ copy. option_map (λ t. string_bytes t.value) copy
        ≡ option_map (λ t. string_bytes t.value) text.now) }
{
    match text {
        Some(text) => Ok(Some(boxed(alloc, String::from_str(alloc, text.as_str())?)?)),
        None => Ok(None),
    }
}

// A copy of a head.
fn copy_of_head(alloc: Global, head: &[HeadField]) -> Result<Vec<HeadField>, NoMemory>
    ensures { IfOk result (λ v. map head_field_of v.items ≡ map head_field_of head.now) }
{
    let mut copy = Vec::new(alloc);
    for field in head {
        if copy.push(field.copy(alloc)?).is_err() {
            return Err(NoMemory);
        }
    }
    Ok(copy)
}
