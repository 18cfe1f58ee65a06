//! What a line is answered.
ghost use Rattle.std.specs.Prelude.{◌≡◌, ◌++◌, OnErr, OnOk};
ghost use Rattle.store_runs.specs.Answers.{answer_text};

use crate::waiting::{hold, hold_all};
use agent_base::NoMemory;
use reply_lines::Reply;

/// What a line that ran is answered.
#[derive(Debug, Drop)]
pub enum Answer {
    /// The batch is in the store. These are the replies of its lines, in their order.
    Batch(Vec<Reply>),
    /// The line waits for the end of its batch, and is answered then.
    Waits,
    /// A reply of no site: to a restart, or to a line that met a device fault.
    One(Reply),
}

impl Answer {
    /// The text of the answer waits behind what waits already. That of each reply is made in a
    /// buffer that is kept from reply to reply.
    pub fn hold(&self, text: &mut Vec<u8>, waiting: &mut Vec<u8>) -> Result<(), NoMemory>
        ensures text { OnOk result
            (waiting.new.items ≡ waiting.old.items ++ answer_text self.now) }
        ensures unchanged { OnErr result (waiting.new.items ≡ waiting.old.items) }
    {
        match self {
            Answer::Batch(replies) => hold_all(replies, text, waiting),
            Answer::Waits => Ok(()),
            Answer::One(reply) => hold(reply, text, waiting),
        }
    }
}
