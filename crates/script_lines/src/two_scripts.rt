//! Two scripts in one input, which a line divides.
ghost use Rattle.std.specs.Prelude.{◌≡◌, ◌≤◌, ◌+◌, ◌⊎◌, [], Ok, Err, IfErr, IfOk, IfSome, IsErrOf};
ghost use Rattle.std.specs.Prelude.{MatchResult, OnOk, length};
ghost use Rattle.agent_base.specs.Counts.{Rose};
ghost use Rattle.agent_base.specs.Streams.{Shortens};
ghost use Rattle.script_lines.specs.Grammar.{lines_of, script_limit};
ghost use Rattle.script_lines.specs.Pieces.{scripts_in};
ghost use Rattle.script_lines.specs.Plain.{GaveTwo, Reads, ReadsSource, fault_of, scripts_of};
ghost use Rattle.script_lines.specs.TwoScripts as spec;
ghost use Rattle.script_lines.specs.TwoScripts.{two_of_bytes, two_scripts};

use crate::reader::{next_line, read_input, script_in};
use crate::{Script, ScriptFault};
use agent_base::Source;
use std::alloc::Global;

// The line that divides two scripts.
const DIVIDER: &[u8] = b"===";

// The texts of two scripts, and the number of the second one's first line.
#[derive(Clone, Copy)]
struct Parts<'a> {
    before: &'a [u8],
    behind: &'a [u8],
    number: u32,
}

impl Script {
    /// Reads the two scripts into which the first line `===` divides the bytes of a source, in time
    /// linear in their number. Of several faults the first is answered.
    pub fn read_two<S: Source>(
        alloc: Global,
        source: &mut S,
    ) -> Result<(Script, Script), ScriptFault>
        ensures answer { IfSome (S.left source.old)
            (λ bytes. ReadsSource scripts_of (two_of_bytes bytes) result) }
        ensures given { IfOk result (λ scripts.
            GaveTwo (S.left source.old) (S.left source.new) (Ok (scripts_of scripts))) }
        ensures refused { IfErr result (λ why. (why ≡ ScriptFault.NoMemory)
            ⊎ ((why ≡ ScriptFault.ReadFault) ⊎ ((why ≡ ScriptFault.TooLong)
            ⊎ GaveTwo (S.left source.old) (S.left source.new) (Err (fault_of why))))) }
        ensures cuts { IfOk result (λ scripts.
            (scripts.0.cuts.items ≡ []) × (scripts.1.cuts.items ≡ [])) }
        ensures end { OnOk result (IfSome (S.left source.new) (λ rest. rest ≡ [])) }
        ensures refused_end { IfErr result (λ why. (why ≡ ScriptFault.NoMemory)
            ⊎ ((why ≡ ScriptFault.ReadFault) ⊎ ((why ≡ ScriptFault.TooLong)
            ⊎ IfSome (S.left source.new) (λ rest. rest ≡ [])))) }
        ensures cause { IsErrOf result ScriptFault.ReadFault
            → Rose (S.faults source.old) (S.faults source.new) }
        ensures later { S.faults source.old ≤ S.faults source.new }
        ensures still { MatchResult result (λ _. S.faults source.new ≡ S.faults source.old)
            (λ why. (why ≡ ScriptFault.ReadFault)
            ⊎ (S.faults source.new ≡ S.faults source.old)) }
        ensures rest { Shortens (S.left source.old) (S.left source.new) }
    {
        let bytes = read_input(alloc, source)?;
        scripts_of_parts(alloc, &bytes)
    }
}

fn scripts_of_parts(alloc: Global, bytes: &[u8]) -> Result<(Script, Script), ScriptFault>
    requires { length bytes.now ≤ script_limit }
    ensures { Reads scripts_of (two_scripts (lines_of bytes.now)) result }
{
    match divided(bytes) {
        Some(parts) => {
            let first = script_in(alloc, parts.before, 1, false)?;
            let second = script_in(alloc, parts.behind, parts.number, false)?;
            Ok((first, second))
        }
        None => Err(ScriptFault::NoDivider),
    }
}

// What stands before the first divider, and what stands behind it.
fn divided(bytes: &[u8]) -> Option<Parts<'_>>
    requires { length bytes.now ≤ script_limit }
    ensures scripts { two_scripts (lines_of bytes.now) ≡ scripts_in result }
    ensures before { IfSome result (λ parts. length parts.before.now ≤ length bytes.now) }
    ensures count { IfSome result (λ parts.
        parts.number + length parts.behind.now ≤ length bytes.now + 1) }
{
    let mut rest = bytes;
    let mut number = 1;
    'lines: loop {
        let (line, later) = next_line(rest);
        number += 1;
        if is_divider(line) {
            return Some(Parts {
                before: &bytes[..bytes.len() - rest.len()],
                behind: later.unwrap_or(&[]),
                number,
            });
        }
        match later {
            Some(later) => rest = later,
            None => return None,
        }
    }
}

fn is_divider(line: &[u8]) -> bool
    ensures { result ≡ spec.is_divider line.now }
{
    line == DIVIDER
}
