//! One event.
ghost use Rattle.std.specs.Prelude.{◌≡◌, IfOk, option_copied, option_map, string_bytes};
ghost use Rattle.storage_events.specs.Event.{PlainEvent, plain_event};

use agent_base::NoMemory;
use std::alloc::Global;
use std::rc::Rc;

/// Which of its two areas a document wrote to.
#[derive(Clone, Copy, Debug, PartialEq, Eq)]
pub enum AreaKind {
    /// The area that all tabs share.
    Local,
    /// The area of one tab.
    Session,
}

/// What other documents are told of one change: a handle on the parts of the event.
///
/// A copy shares the parts, so that an event that waits in many queues stands in memory once. Two
/// events are equal where their parts are.
#[derive(Debug, Drop, PartialEq, Eq)]
pub struct Event {
    parts: Rc<Parts>,
}

// The parts of an event, which its handles share.
#[derive(Debug, Drop, PartialEq, Eq)]
struct Parts {
    area: AreaKind,
    key: Option<String>,
    before: Option<String>,
    after: Option<String>,
    url: String,
}

impl Event {
    /// An event of a change that a document of this URL made. `key`, `before` and `after` are
    /// absent where the area was cleared, `before` where the name is new, `after` where it was
    /// removed.
    pub fn new(
        alloc: Global,
        area: AreaKind,
        key: Option<&str>,
        before: Option<&str>,
        after: Option<&str>,
        url: &str,
    ) -> Result<Event, NoMemory>
        ensures event { let made : PlainEvent = record {
          area = area;
          key = option_copied key.entry;
          before = option_copied before.entry;
          after = option_copied after.entry;
          url = url.now;
        } in
            IfOk result (λ event. plain_event event ≡ made) }
    {
        let parts = Parts {
            area,
            key: owned(alloc, key)?,
            before: owned(alloc, before)?,
            after: owned(alloc, after)?,
            url: String::from_str(alloc, url)?,
        };
        match Rc::new(alloc, parts) {
            Ok(parts) => Ok(Event { parts }),
            Err(_) => Err(NoMemory),
        }
    }

    /// Which of the writer's areas was changed.
    pub fn area(&self) -> AreaKind
        ensures area { result ≡ (plain_event self.now).area }
    {
        self.parts.area
    }

    /// The name whose value was changed.
    pub fn key(&self) -> Option<&str>
        ensures key { option_copied result ≡ (plain_event self.now).key }
    {
        borrowed(&self.parts.key)
    }

    /// The value before the change.
    pub fn before(&self) -> Option<&str>
        ensures before { option_copied result ≡ (plain_event self.now).before }
    {
        borrowed(&self.parts.before)
    }

    /// The value after the change.
    pub fn after(&self) -> Option<&str>
        ensures after { option_copied result ≡ (plain_event self.now).after }
    {
        borrowed(&self.parts.after)
    }

    /// The URL of the document that made the change.
    pub fn url(&self) -> &str
        ensures url { result.now ≡ (plain_event self.now).url }
    {
        self.parts.url.as_str()
    }

    /// The same event. It shares the parts, and is refused only where their count is full.
    pub fn copy(&self) -> Result<Event, NoMemory>
        ensures same { IfOk result (λ event. plain_event event ≡ plain_event self.now) }
    {
        Ok(Event {
            parts: self.parts.clone()?,
        })
    }
}

// A text in memory of its own, if there is one.
fn owned(alloc: Global, text: Option<&str>) -> Result<Option<String>, NoMemory>
    ensures same { IfOk result (λ copy. option_map string_bytes copy ≡ option_copied text.entry) }
{
    match text {
        Some(text) => Ok(Some(String::from_str(alloc, text)?)),
        None => Ok(None),
    }
}

// A text that is there, borrowed.
fn borrowed(text: &Option<String>) -> Option<&str>
    ensures same { option_copied result ≡ option_map string_bytes text.now }
{
    match text {
        Some(text) => Some(text.as_str()),
        None => None,
    }
}
