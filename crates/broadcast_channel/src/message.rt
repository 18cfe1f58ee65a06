//! A text that is posted.
ghost use Rattle.std.specs.Prelude.{◌≡◌, IfOk, string_bytes};

use agent_base::NoMemory;
use std::alloc::Global;
use std::marker::Model;
use std::rc::Rc;

/// A handle on a text. A copy shares it, so that a text that waits in many channels stands in
/// memory once.
#[derive(Debug, Drop)]
pub struct Message {
    text: Rc<String>,
}

impl Model for Message {
    ghost use Rattle.std.specs.Prelude.{List, ℕ, string_bytes};
    ghost use Rattle.std.specs.Rc.{rc_value};

    ghost Value = { List ℕ };

    ghost view = { λ m. string_bytes (rc_value m.text) };
}

impl Message {
    /// A message of this text.
    pub fn new(alloc: Global, text: String) -> Result<Message, NoMemory>
        ensures text { IfOk result (λ message. message ≡ string_bytes text) }
    {
        match Rc::new(alloc, text) {
            Ok(text) => Ok(Message { text }),
            Err(_) => Err(NoMemory),
        }
    }

    /// The text.
    pub fn text(&self) -> &str
        ensures text { result.now ≡ self.now }
    {
        self.text.as_str()
    }

    /// The same message. It shares the text, and is refused only where its count is full.
    pub fn copy(&self) -> Result<Message, NoMemory>
        ensures same { IfOk result (λ message. message ≡ self.now) }
    {
        Ok(Message {
            text: self.text.clone()?,
        })
    }
}
