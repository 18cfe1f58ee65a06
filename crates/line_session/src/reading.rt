//! Reading the bytes of a line.
ghost use Rattle.std.specs.Prelude.{◌≡◌, MatchResult, Ok, option_map};
ghost use Rattle.script_actions.specs.Plain.{line_of};
ghost use Rattle.script_lines.specs.Grammar.{line_of_bytes};
ghost use Rattle.line_session.specs.Asked as asked;
ghost use Rattle.line_session.specs.Refusals.{IsFaultOf};

use crate::LineRefused;
use crate::refused::refused;
use json::Scratch;
use script_actions::Line;
use script_lines::read_line;
use std::alloc::Global;

/// The line that the bytes are, none where they are blank, or their first fault.
pub fn read(alloc: Global, line: &[u8], scratch: &mut Scratch) -> Result<Option<Line>, LineRefused>
    ensures { MatchResult result
        (λ l. asked.IsReadAs line.now (option_map line_of l))
        (λ why. IsFaultOf line.now why) }
{
    if !is_one_line(line) {
        return Err(LineRefused::LineFeed);
    }
    match read_line(alloc, line, 1, scratch) {
        Ok(line) => Ok(line),
        Err(fault) => Err(refused(fault)),
    }
}

fn is_one_line(bytes: &[u8]) -> bool
    ensures { result ≡ asked.is_one_line bytes.now }
{
    bytes.iter().all(|b| *b != b'\n')
}
