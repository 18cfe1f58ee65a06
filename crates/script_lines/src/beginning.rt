//! The first line that is not skipped, with which a script begins.
ghost use Rattle.std.specs.Prelude.{◌≡◌, ◌≤◌, ◌+◌, Bool, IfSome, false, length, option_copied};
ghost use Rattle.script_lines.specs.Grammar as spec;
ghost use Rattle.script_lines.specs.Grammar.{begun_by, begun_by_data, is_blank, lines_of, script_from};
ghost use Rattle.script_lines.specs.JsonLine.{data_of_line};
ghost use Rattle.script_lines.specs.Pieces.{length_after, script_at};
ghost use Rattle.script_lines.specs.Plain.{Reads, script_of};
ghost use Rattle.script_lines.specs.Steps.{cuts_of_data, name_of};

use crate::actions::read_step;
use crate::fields::bad_field;
use crate::json_line::JsonLine;
use crate::json_value::JsonValue;
use crate::reader::{is_blank, json_in, next_line, push_some};
use crate::rows::disk;
use crate::{Script, ScriptFault};
use disk_model::Cut;
use json::Scratch;
use script_actions::Line;
use std::alloc::Global;

/// A line with its number, and what follows its line feed.
#[derive(Clone, Copy)]
pub struct FirstLine<'a> {
    pub number: u32,
    pub text: &'a [u8],
    pub later: Option<&'a [u8]>,
}

/// The first line that is not blank. The first of all has this number.
pub fn first_line(bytes: &[u8], mut number: u32) -> Option<FirstLine<'_>>
    requires { number + length bytes.now ≤ spec.script_limit + 1 }
    ensures script { (cuts_allowed : Bool) → script_from cuts_allowed number (lines_of bytes.now)
        ≡ script_at cuts_allowed result }
    ensures seen { IfSome result (λ first. is_blank first.text.now ≡ false) }
    ensures count { IfSome result (λ first.
        first.number + length_after (option_copied first.later) ≤ number + length bytes.now) }
{
    let mut rest = bytes;
    'blank: loop {
        let (text, later) = next_line(rest);
        if !is_blank(text) {
            return Some(FirstLine {
                number,
                text,
                later,
            });
        }
        match later {
            Some(later) => rest = later,
            None => return None,
        }
        number += 1;
    }
}

impl FirstLine<'_> {
    /// The script of this line alone.
    pub fn read(
        &self,
        alloc: Global,
        cuts_allowed: bool,
        scratch: &mut Scratch,
    ) -> Result<Script, ScriptFault>
        ensures { Reads script_of
            (begun_by cuts_allowed self.now.number self.now.text.now) result }
    {
        let line = json_in(alloc, self.text, self.number, scratch)?;
        begin(alloc, &line, self.number, cuts_allowed)
    }
}

fn begin(
    alloc: Global,
    line: &JsonLine<'_>,
    number: u32,
    cuts_allowed: bool,
) -> Result<Script, ScriptFault>
    ensures { Reads script_of
        (begun_by_data cuts_allowed number (data_of_line line.now)) result }
{
    if is_disk(line) {
        let cuts = read_cuts(alloc, line, number, cuts_allowed)?;
        let lines = Vec::new(alloc);
        Ok(Script { cuts, lines })
    } else {
        let step = read_step(alloc, line, number)?;
        let mut lines = Vec::new(alloc);
        push_some(&mut lines, Some(Line { number, step }))?;
        let cuts = Vec::new(alloc);
        Ok(Script { cuts, lines })
    }
}

fn is_disk(line: &JsonLine<'_>) -> bool
    ensures { result ≡ spec.is_disk (name_of (data_of_line line.now)) }
{
    match line.get("do").and_then(JsonValue::as_str) {
        Some(name) => name == "disk",
        None => false,
    }
}

fn read_cuts(
    alloc: Global,
    line: &JsonLine<'_>,
    number: u32,
    cuts_allowed: bool,
) -> Result<Vec<Cut>, ScriptFault>
    ensures { Reads (λ v. v.items)
        (cuts_of_data cuts_allowed number (data_of_line line.now)) result }
{
    if cuts_allowed {
        disk(alloc, line, number)
    } else {
        Err(bad_field(alloc, number, "cuts"))
    }
}
