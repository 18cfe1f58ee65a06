//! The line of a status.
ghost use Rattle.replay.specs.BeforeAfter.{from_to};
ghost use Rattle.show_commands.specs.FaultLines.{TellsLine};

use agent_base::{Sink, write_all};
use replay::{Status, tell};

/// The usage line, with its line feed.
pub const USAGE: &str = "usage: show SITE LIST, differ SITE LIST\n";

/// Writes the line of a status to `err`, and nothing where the run is done. Takes no memory.
pub fn tell_shown<E: Sink>(err: &mut E, status: &Status)
    ensures told { TellsLine status.now (from_to (E.taken err.old) (E.taken err.new))
        (from_to (E.faults err.old) (E.faults err.new)) }
{
    match status {
        Status::Usage => {
            let _ = write_all(err, USAGE.as_bytes());
        }
        _ => tell(err, status),
    }
}
