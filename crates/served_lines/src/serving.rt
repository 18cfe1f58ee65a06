//! Serving the lines of a source.
ghost use Rattle.std.specs.Prelude.{◌≡◌, ◌+◌, ℕ, List, Option, IfErr, IfSome, OnOk, [], false, true};
ghost use Rattle.agent_core.specs.AgentView.{owes};
ghost use Rattle.line_session.specs.SessionView.{SessionView};
ghost use Rattle.served_lines.specs.Serving.{Serves, SinkCounts, SourceCounts};
ghost use Rattle.served_lines.specs.Steps.{Answered, StandsAt, Stopped};
ghost use Rattle.served_lines.specs.Endings.{CountsSink, IsNotOfSource, IsOfLine};
ghost use Rattle.served_lines.specs.Waiting.{Waits};

use crate::Served;
use crate::answering::answer;
use crate::waiting::WaitingLine;
use agent_base::{Failed, Sink, Source};
use disk_model::Disk;
use line_session::Session;
use memchr::memchr;
use std::alloc::Global;

// The most lines that are served.
const MOST_LINES: u64 = u64::MAX - 2;

/// Serves the lines of a source to its end: each is given to the session, and what it is answered
/// is written to `out`, before more is read.
///
/// A line that is refused is answered by a line that tells its first fault, and changes nothing. A
/// line of spaces has no answer. Of a line that is too long no more is held than a line may have.
/// Behind each answer the checkpoint is made that is due.
pub fn serve<D: Disk + Drop, I: Source, O: Sink>(
    alloc: Global,
    session: &mut Session<'_, D>,
    source: &mut I,
    out: &mut O,
) -> Served
    // No reply of an earlier line is still to be printed.
    requires printed { session.old.printed ≡ true }
    ensures served { Serves D.view result session.old session.new
        (I.left source.old) (I.left source.new) (O.taken out.old) (O.taken out.new) }
    ensures read { SourceCounts result (I.faults source.old) (I.faults source.new) }
    ensures write { SinkCounts result (O.faults out.old) (O.faults out.new) }
{
    let mut place = Place::new(alloc);
    let mut piece = [0; 4096];
    'pieces: for _ in 0..u64::MAX {
        let n = match source.read(&mut piece) {
            Ok(n) => n,
            Err(Failed) => return Served::Read,
        };
        if n == 0 {
            return serve_last(session, &mut place, out);
        }
        match serve_piece(session, &mut place, &piece[..n], out) {
            Ok(()) => {}
            Err(ending) => return ending,
        }
    }
    Served::NoMemory
}

// The line that waits, its number, and a buffer for what it is answered.
#[derive(Drop)]
struct Place {
    line: WaitingLine,
    number: u64,
    text: Vec<u8>,
}

impl Place {
    fn new(alloc: Global) -> Place
        ensures { (Waits [] result.line) × (result.number ≡ 1) }
    {
        Place {
            line: WaitingLine::new(alloc),
            number: 1,
            text: Vec::new(alloc),
        }
    }
}

// Serves the lines that end in a piece. What follows them waits.
fn serve_piece<D: Disk + Drop, O: Sink>(
    session: &mut Session<'_, D>,
    place: &mut Place,
    piece: &[u8],
    out: &mut O,
) -> Result<(), Served>
    requires printed { session.old.printed ≡ true }
    ensures stands { OnOk result ((first : SessionView D) (before after taken : Option (List ℕ))
        → StandsAt D.view first session.old before after taken (O.taken out.old)
        place.old.line place.old.number piece.now
        → StandsAt D.view first session.new before after taken (O.taken out.new)
        place.new.line place.new.number []) }
    ensures stops { IfErr result (λ ending. (first : SessionView D)
        (before after taken : Option (List ℕ))
        → StandsAt D.view first session.old before after taken (O.taken out.old)
        place.old.line place.old.number piece.now
        → Serves D.view ending first session.new before after taken (O.taken out.new)) }
    ensures printed { OnOk result (session.new.printed ≡ true) }
    ensures kind { IfErr result IsOfLine }
    ensures counts { CountsSink result (O.faults out.old) (O.faults out.new) }
{
    let mut rest = piece;
    'lines: loop {
        match memchr(b'\n', rest) {
            Some(end) => {
                place.line.push(&rest[..end])?;
                serve_line(session, place, out)?;
                rest = &rest[end + 1..];
            }
            None => return Ok(place.line.push(rest)?),
        }
    }
}

// Answers the line that waits. Then the next one waits.
fn serve_line<D: Disk + Drop, O: Sink>(
    session: &mut Session<'_, D>,
    place: &mut Place,
    out: &mut O,
) -> Result<(), Served>
    requires printed { session.old.printed ≡ true }
    ensures answered { OnOk result ((line : List ℕ) → Waits line place.old.line
        → Answered D.view session.old session.new place.old.number line
        (O.taken out.old) (O.taken out.new)) }
    ensures next { OnOk result ((Waits [] place.new.line)
        × (place.new.number ≡ place.old.number + 1)) }
    ensures stopped { IfErr result (λ ending. (line : List ℕ) → Waits line place.old.line
        → Stopped D.view ending session.old session.new place.old.number line
        (O.taken out.old) (O.taken out.new)) }
    ensures printed { OnOk result (session.new.printed ≡ true) }
    ensures tidy { OnOk result (owes session.new.agent ≡ false) }
    ensures kind { IfErr result IsOfLine }
    ensures counts { CountsSink result (O.faults out.old) (O.faults out.new) }
{
    if place.number > MOST_LINES {
        return Err(Served::NoMemory);
    }
    answer(session, &place.line, place.number, &mut place.text, out)?;
    place.number += 1;
    place.line.begin();
    Ok(())
}

// Serves the last line, which no line feed ends.
fn serve_last<D: Disk + Drop, O: Sink>(
    session: &mut Session<'_, D>,
    place: &mut Place,
    out: &mut O,
) -> Served
    requires printed { session.old.printed ≡ true }
    ensures serves { (first : SessionView D) (before after taken : Option (List ℕ))
        → IfSome after (λ rest. rest ≡ [])
        → StandsAt D.view first session.old before after taken (O.taken out.old)
        place.old.line place.old.number []
        → Serves D.view result first session.new before after taken (O.taken out.new) }
    ensures counts { SinkCounts result (O.faults out.old) (O.faults out.new) }
    ensures kind { IsNotOfSource result }
{
    match serve_line(session, place, out) {
        Ok(()) if session.is_down() => Served::Device,
        Ok(()) => Served::Done,
        Err(ending) => ending,
    }
}
