//! Reading a script.
ghost use Rattle.std.specs.Prelude.{◌≡◌, ◌≤◌, ◌<◌, ◌∷◌, ◌++◌, ◌+◌, IfErr, IfOk, IsErrOf, OnOk};
ghost use Rattle.std.specs.Prelude.{[], Ok, Err, None, ◌==◌, ◌⊎◌, IfSome, MatchOption, MatchResult};
ghost use Rattle.std.specs.Prelude.{option_to_list};
ghost use Rattle.std.specs.Prelude.{false, position, true, length, map, Some, option_copied, option_map};
ghost use Rattle.std.specs.List.{All};
ghost use Rattle.std.specs.Str.{is_utf8};
ghost use Rattle.agent_base.specs.Counts.{Rose};
ghost use Rattle.agent_base.specs.Streams.{Gives, Shortens};
ghost use Rattle.disk_model.specs.Schedule.{AreFrom};
ghost use Rattle.script_lines.specs.Fields.{then_ok};
ghost use Rattle.script_lines.specs.Grammar as spec;
ghost use Rattle.script_lines.specs.Grammar.{line_of_bytes, lines_from};
ghost use Rattle.script_lines.specs.Grammar.{lines_of, script_from, script_limit, script_of_bytes};
ghost use Rattle.script_lines.specs.JsonLine.{data_of_line};
ghost use Rattle.script_lines.specs.Pieces as pieces;
ghost use Rattle.script_lines.specs.Pieces.{after, length_after, lines_after, with_later};
ghost use Rattle.script_lines.specs.Plain.{GaveScript, Reads, ReadsSource, fault_of, script_of};
ghost use Rattle.script_actions.specs.Plain.{line_of};

use crate::actions::read_step;
use crate::beginning::{FirstLine, first_line};
use crate::json_line::JsonLine;
use crate::{Script, ScriptFault};
use agent_base::{ReadAll, Source, read_all};
use json::Scratch;
use memchr::memchr;
use script_actions::Line;
use std::alloc::Global;
use std::str;

// The most bytes of a script.
const SCRIPT_LIMIT: usize = 16_777_216;

// The most bytes of a line without its end.
const LINE_LIMIT: usize = 1_048_576;

impl Script {
    /// Reads the script that the bytes of a source are, in time linear in their number. Of several
    /// faults the first is answered.
    pub fn read<S: Source>(
        alloc: Global,
        source: &mut S,
        cuts_allowed: bool,
    ) -> Result<Script, ScriptFault>
        ensures answer { IfSome (S.left source.old)
            (λ bytes. ReadsSource script_of (script_of_bytes cuts_allowed bytes) result) }
        ensures given { IfOk result (λ s.
            GaveScript cuts_allowed (S.left source.old) (S.left source.new) (Ok (script_of s))) }
        ensures refused { IfErr result (λ why. (why ≡ ScriptFault.NoMemory)
            ⊎ ((why ≡ ScriptFault.ReadFault) ⊎ ((why ≡ ScriptFault.TooLong)
            ⊎ GaveScript cuts_allowed (S.left source.old) (S.left source.new)
            (Err (fault_of why))))) }
        ensures cuts { IfOk result (λ s. AreFrom 1 s.cuts.items) }
        ensures end { OnOk result (IfSome (S.left source.new) (λ rest. rest ≡ [])) }
        ensures refused_end { IfErr result (λ why. (why ≡ ScriptFault.NoMemory)
            ⊎ ((why ≡ ScriptFault.ReadFault) ⊎ ((why ≡ ScriptFault.TooLong)
            ⊎ IfSome (S.left source.new) (λ rest. rest ≡ [])))) }
        ensures one_script { ¬ IsErrOf result ScriptFault.NoDivider }
        ensures cause { IsErrOf result ScriptFault.ReadFault
            → Rose (S.faults source.old) (S.faults source.new) }
        ensures later { S.faults source.old ≤ S.faults source.new }
        ensures still { MatchResult result (λ _. S.faults source.new ≡ S.faults source.old)
            (λ why. (why ≡ ScriptFault.ReadFault)
            ⊎ (S.faults source.new ≡ S.faults source.old)) }
        ensures rest { Shortens (S.left source.old) (S.left source.new) }
    {
        let bytes = read_input(alloc, source)?;
        script_in(alloc, &bytes, 1, cuts_allowed)
    }
}

/// All bytes of a source, where they are no more than a script may have.
pub fn read_input<S: Source>(alloc: Global, source: &mut S) -> Result<Vec<u8>, ScriptFault>
    ensures all { IfOk result (λ bytes. Gives (S.left source.old) (S.left source.new) bytes.items) }
    ensures end { OnOk result (IfSome (S.left source.new) (λ rest. rest ≡ [])) }
    ensures within { IfOk result (λ bytes. length bytes.items ≤ script_limit) }
    ensures refused { IfErr result (λ why. (why ≡ ScriptFault.NoMemory)
        ⊎ ((why ≡ ScriptFault.ReadFault) ⊎ (why ≡ ScriptFault.TooLong))) }
    ensures too_long { IsErrOf result ScriptFault.TooLong → IfSome (S.left source.old)
        (λ bytes. script_limit < length bytes) }
    ensures cause { IsErrOf result ScriptFault.ReadFault
        → Rose (S.faults source.old) (S.faults source.new) }
    ensures later { S.faults source.old ≤ S.faults source.new }
    ensures still { MatchResult result (λ _. S.faults source.new ≡ S.faults source.old)
        (λ why. (why ≡ ScriptFault.ReadFault)
        ⊎ (S.faults source.new ≡ S.faults source.old)) }
    ensures rest { Shortens (S.left source.old) (S.left source.new) }
{
    match read_all(alloc, source, SCRIPT_LIMIT) {
        Ok(bytes) => Ok(bytes),
        Err(ReadAll::TooLong) => Err(ScriptFault::TooLong),
        Err(ReadAll::Failed) => Err(ScriptFault::ReadFault),
        Err(ReadAll::NoMemory) => Err(ScriptFault::NoMemory),
    }
}

/// The script of a text, of which the first line has this number.
pub fn script_in(
    alloc: Global,
    bytes: &[u8],
    number: u32,
    cuts_allowed: bool,
) -> Result<Script, ScriptFault>
    requires { number + length bytes.now ≤ script_limit + 1 }
    ensures { Reads script_of (script_from cuts_allowed number (lines_of bytes.now)) result }
{
    match first_line(bytes, number) {
        Some(first) => script_at(alloc, &first, cuts_allowed),
        None => Ok(Script {
            cuts: Vec::new(alloc),
            lines: Vec::new(alloc),
        }),
    }
}

fn script_at(
    alloc: Global,
    first: &FirstLine<'_>,
    cuts_allowed: bool,
) -> Result<Script, ScriptFault>
    requires seen { spec.is_blank first.now.text.now ≡ false }
    requires count { first.now.number + length_after (option_copied first.now.later)
        ≤ script_limit + 1 }
    ensures { Reads script_of (pieces.script_at cuts_allowed (Some first.now)) result }
{
    let mut scratch = Scratch::new(alloc);
    let begun = first.read(alloc, cuts_allowed, &mut scratch)?;
    match first.later {
        Some(later) => {
            let lines = read_lines(alloc, begun.lines, first.number + 1, later, &mut scratch)?;
            Ok(Script {
                cuts: begun.cuts,
                lines,
            })
        }
        None => Ok(begun),
    }
}

// These lines, and then those of a text, of which the first has this number.
fn read_lines(
    alloc: Global,
    mut lines: Vec<Line>,
    mut number: u32,
    bytes: &[u8],
    scratch: &mut Scratch,
) -> Result<Vec<Line>, ScriptFault>
    requires { number + length bytes.now ≤ script_limit + 1 }
    ensures { Reads (λ v. map line_of v.items)
        (then_ok (lines_from number (lines_of bytes.now))
        (after (map line_of lines.items))) result }
{
    let mut rest = bytes;
    'lines: loop {
        let (line, later) = next_line(rest);
        push_some(&mut lines, read_line(alloc, line, number, scratch)?)?;
        match later {
            Some(later) => rest = later,
            None => return Ok(lines),
        }
        number += 1;
    }
}

/// The first line, and what follows its line feed.
pub fn next_line(bytes: &[u8]) -> (&[u8], Option<&[u8]>)
    ensures lines { lines_of bytes.now ≡ result.0.now ∷ lines_after (option_copied result.1) }
    ensures line { All (λ b. (b == 10) ≡ false) result.0.now }
    ensures bytes { bytes.now ≡ with_later result.0.now (option_copied result.1) }
    ensures shorter { IfSome result.1 (λ later. length later.now < length bytes.now) }
{
    match line_end(bytes) {
        Some(end) => (&bytes[..end], Some(&bytes[end + 1..])),
        None => (bytes, None),
    }
}

/// Puts a line behind the others, if there is one.
pub fn push_some(lines: &mut Vec<Line>, line: Option<Line>) -> Result<(), ScriptFault>
    ensures { MatchResult result (λ _. lines.new.items ≡ lines.old.items ++ option_to_list line)
        (λ e. e ≡ ScriptFault.NoMemory) }
{
    let Some(line) = line else {
        return Ok(());
    };
    match lines.push(line) {
        Ok(()) => Ok(()),
        Err(_) => Err(ScriptFault::NoMemory),
    }
}

fn line_end(bytes: &[u8]) -> Option<usize>
    ensures { result ≡ position (λ b. b == 10) bytes.now }
{
    memchr(b'\n', bytes)
}

/// Reads one line of bytes, which has this number in its script: the line that they are, none where
/// they are blank, or their first fault. The scratch is kept from line to line.
///
/// A line of a script has no line feed. Here one is white space, as it is to JSON.
pub fn read_line(
    alloc: Global,
    line: &[u8],
    number: u32,
    scratch: &mut Scratch,
) -> Result<Option<Line>, ScriptFault>
    ensures line { Reads (option_map line_of) (line_of_bytes number line.now) result }
    // What takes no memory is never told as want of it.
    ensures blank { spec.is_blank line.now ≡ true → MatchResult result (λ l. l ≡ None) (λ _. ⊥) }
    ensures too_long { spec.is_blank line.now ≡ false → spec.line_limit < length line.now
        → IsErrOf result (ScriptFault.LineTooLong number) }
    ensures not_utf8 { spec.is_blank line.now ≡ false → length line.now ≤ spec.line_limit
        → is_utf8 line.now ≡ false → IsErrOf result (ScriptFault.NotUtf8 number) }
{
    if is_blank(line) {
        return Ok(None);
    }
    let value = json_in(alloc, line, number, scratch)?;
    let step = read_step(alloc, &value, number)?;
    Ok(Some(Line { number, step }))
}

/// Whether a line is skipped.
pub fn is_blank(line: &[u8]) -> bool
    ensures { result ≡ spec.is_blank line.now }
{
    line.iter().all(|b| matches!(*b, b' ' | b'\t' | b'\r'))
}

/// The value of a line, or why it has none.
pub fn json_in<'a>(
    alloc: Global,
    line: &'a [u8],
    number: u32,
    scratch: &'a mut Scratch,
) -> Result<JsonLine<'a>, ScriptFault>
    ensures data { Reads data_of_line (spec.data_of_bytes number line.now) result }
    ensures too_long { spec.line_limit < length line.now
        → IsErrOf result (ScriptFault.LineTooLong number) }
    ensures not_utf8 { length line.now ≤ spec.line_limit → is_utf8 line.now ≡ false
        → IsErrOf result (ScriptFault.NotUtf8 number) }
{
    if line.len() > LINE_LIMIT {
        return Err(ScriptFault::LineTooLong(number));
    }
    match utf8_text(line) {
        Some(text) => JsonLine::read(alloc, text, number, scratch),
        None => Err(ScriptFault::NotUtf8(number)),
    }
}

fn utf8_text(line: &[u8]) -> Option<&str>
    ensures { MatchOption result (is_utf8 line.now ≡ false)
        (λ text. (text.now ≡ line.now) × (is_utf8 line.now ≡ true)) }
{
    match str::from_utf8(line) {
        Ok(text) => Some(text),
        Err(_) => None,
    }
}
