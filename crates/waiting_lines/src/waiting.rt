//! Bytes that wait for a sink.
ghost use Rattle.std.specs.Prelude.{◌≡◌, ◌<◌, ◌≤◌, [], Ok, OnErr, OnOk, length};
ghost use Rattle.agent_base.specs.Counts.{HasCause};
ghost use Rattle.agent_base.specs.Streams.{TakesPrefix};
ghost use Rattle.waiting_lines.specs.Waiting.{TakesFront, most_waiting};

use agent_base::{Failed, Sink, write_all};

/// So many bytes are written together.
pub const MOST_WAITING: usize = 65_536;

/// Writes what waits, once it is so much that it is written together. Then nothing waits.
pub fn write_many<O: Sink>(out: &mut O, waiting: &mut Vec<u8>) -> Result<(), Failed>
    ensures written { OnOk result (TakesFront (O.taken out.old) (O.taken out.new)
        waiting.old.items waiting.new.items) }
    ensures few { length waiting.old.items < most_waiting
        → (result ≡ Ok tt) × (waiting.new ≡ waiting.old) × (out.new ≡ out.old) }
    ensures all { most_waiting ≤ length waiting.old.items
        → OnOk result (waiting.new.items ≡ []) }
    ensures prefix { OnErr result
        (TakesPrefix (O.taken out.old) (O.taken out.new) waiting.old.items) }
    ensures unchanged { OnErr result (waiting.new ≡ waiting.old) }
    ensures cause { HasCause (O.faults out.old) (O.faults out.new) result }
{
    if waiting.len() < MOST_WAITING {
        return Ok(());
    }
    write_all(out, waiting)?;
    waiting.clear();
    Ok(())
}
