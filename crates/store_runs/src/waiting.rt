//! Replies that wait in memory, and are written together.
ghost use Rattle.std.specs.Prelude.{◌≡◌, ◌++◌, OnErr, OnOk, map};
ghost use Rattle.reply_lines.specs.Plain.{reply_of};
ghost use Rattle.reply_lines.specs.Reply.{reply_text};
ghost use Rattle.store_runs.specs.Waiting.{Ended, replies_text};

use crate::Ending;
use agent_base::{NoMemory, Sink, write_all};
use reply_lines::{Reply, print_into};

/// The text of a reply waits behind what waits already. It is made in a buffer that is kept from
/// reply to reply.
pub fn hold(reply: &Reply, text: &mut Vec<u8>, waiting: &mut Vec<u8>) -> Result<(), NoMemory>
    ensures text { OnOk result
        (waiting.new.items ≡ waiting.old.items ++ reply_text (reply_of reply.now)) }
    ensures unchanged { OnErr result (waiting.new.items ≡ waiting.old.items) }
{
    print_into(text, reply)?;
    match waiting.extend_from_slice(text) {
        Ok(()) => Ok(()),
        Err(_) => Err(NoMemory),
    }
}

/// The text of some replies waits, in their order. Where memory is wanting, nothing more waits.
pub fn hold_all(
    replies: &[Reply],
    text: &mut Vec<u8>,
    waiting: &mut Vec<u8>,
) -> Result<(), NoMemory>
    ensures text { OnOk result
        (waiting.new.items ≡ waiting.old.items ++ replies_text (map reply_of replies.now)) }
    ensures unchanged { OnErr result (waiting.new.items ≡ waiting.old.items) }
{
    let before = waiting.len();
    for reply in replies {
        let Ok(()) = hold(reply, text, waiting) else {
            waiting.truncate(before);
            return Err(NoMemory);
        };
    }
    Ok(())
}

/// Writes what waits, and answers this ending where that does not fail.
pub fn end<O: Sink>(out: &mut O, waiting: &[u8], ending: Ending) -> Ending
    ensures { Ended ending result (O.taken out.old) (O.taken out.new)
        (O.faults out.old) (O.faults out.new) waiting.now }
{
    match write_all(out, waiting) {
        Ok(()) => ending,
        Err(_) => Ending::Write,
    }
}
