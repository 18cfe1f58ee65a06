//! The law of any list of calls.
ghost use Rattle.line_session.specs.Between.{HasCallsBetween};
ghost use Rattle.line_session.specs.Calls.{HasCallsSame, HasCallsSites, HasCallsText};
ghost use Rattle.line_session.specs.Left.{HasCallsLeft};

use disk_model::Disk;
use printed_model::printed_histories_are_isolated;

/// The laws of any list of lines that are given to a session. The replies together are the text of
/// an admissible history of exactly the lines that were read and ran. In such a text the lines of
/// each site are those of its own machine, given its local script alone, and two lists of calls
/// that give a site the same local script give it the same lines. What a restart may find of the
/// store such a history leaves. Calls that run no line may be made between them: a checkpoint, or
/// a call of the disk that its owner has carried out.
pub fn calls<D: Disk>()
    ensures text { HasCallsText D.view }
    ensures sites { HasCallsSites D.view }
    ensures same { HasCallsSame D.view }
    ensures left { HasCallsLeft D.view }
    ensures between { HasCallsBetween D.view }
{
    printed_histories_are_isolated();
}
