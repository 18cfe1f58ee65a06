//! The line of a status, and how it is written.
ghost use Rattle.std.specs.Prelude.{◌≡◌, ◌++◌, ◌∷◌, [], OnOk, OnErr, codes, decimal, flat_map};
ghost use Rattle.agent_base.specs.Counts.{HasCause};
ghost use Rattle.agent_base.specs.Streams.{Takes, TakesPrefix};
ghost use Rattle.script_lines.specs.Plain.{fault_of};
ghost use Rattle.replay.specs.FaultLines as spec;
ghost use Rattle.replay.specs.LineParts.{line_text, piece_text};
ghost use Rattle.replay.specs.BeforeAfter.{from_to};
ghost use Rattle.replay.specs.FaultLines.{TellsFault};

use crate::Status;
use agent_base::{Failed, Sink, write_all};
use itoa::Buffer;
use journal::OpenFault;
use script_lines::ScriptFault;
use suffix_list::ListFault;

// A piece of a line.
#[derive(Clone, Copy)]
enum Piece<'a> {
    Text(&'a str),
    Number(u64),
}

// A line: its pieces, of which the last ones may be empty.
#[derive(Drop)]
struct FaultLine<'a> {
    pieces: [Piece<'a>; 5],
}

/// The usage line, with its line feed.
pub const USAGE: &str = "usage: replay LIST, twin SITE LIST, dump LIST STORE, selftest N\n";

/// Writes the line of a status to `err`, and nothing where the run is done. Takes no memory.
pub fn tell<E: Sink>(err: &mut E, status: &Status)
    ensures told { TellsFault status.now (from_to (E.taken err.old) (E.taken err.new))
        (from_to (E.faults err.old) (E.faults err.new)) }
{
    let _ = write_pieces(err, &fault_line(status).pieces);
}

/// Writes a line with a number in it. Takes no memory.
pub fn write_numbered<O: Sink>(
    out: &mut O,
    front: &str,
    number: u64,
    back: &str,
) -> Result<(), Failed>
    ensures all { let line = front.now ++ (decimal number ++ back.now) in
        OnOk result (Takes (O.taken out.old) (O.taken out.new) line) }
    ensures prefix { let line = front.now ++ (decimal number ++ back.now) in
        OnErr result (TakesPrefix (O.taken out.old) (O.taken out.new) line) }
    ensures cause { HasCause (O.faults out.old) (O.faults out.new) result }
{
    write_pieces(out, &numbered(front, number, back).pieces)
}

fn fault_line(status: &Status) -> FaultLine<'_>
    ensures { line_text result ≡ spec.fault_line status.now }
{
    match status {
        Status::Done => plain(""),
        Status::Usage => plain(USAGE),
        Status::Script(why) => script_line(why),
        Status::List(why) => list_line(*why),
        Status::Store(why) => store_line(why),
        Status::Read => plain("read fault\n"),
        Status::InUse => plain("store: in use\n"),
        Status::Write => plain("write fault\n"),
        Status::Device => plain("device fault\n"),
        Status::Memory => plain("no memory\n"),
    }
}

fn script_line(why: &ScriptFault) -> FaultLine<'_>
    ensures { line_text result ≡ spec.script_fault_line (fault_of why.now) }
{
    match why {
        ScriptFault::NotJson(number) => numbered("script line ", *number as u64, ": not json\n"),
        ScriptFault::UnknownAction(number) => {
            numbered("script line ", *number as u64, ": unknown action\n")
        }
        ScriptFault::BadField(number, name) => bad_field(*number, name),
        ScriptFault::LineTooLong(number) => {
            numbered("script line ", *number as u64, ": too long\n")
        }
        ScriptFault::NotUtf8(number) => numbered("script line ", *number as u64, ": not utf-8\n"),
        ScriptFault::BadHeader(number) => {
            numbered("script line ", *number as u64, ": bad header\n")
        }
        ScriptFault::TooLong => plain("script: too long\n"),
        ScriptFault::NoDivider => plain("script: no divider\n"),
        ScriptFault::ReadFault => plain("read fault\n"),
        ScriptFault::NoMemory => plain("no memory\n"),
    }
}

fn list_line<'a>(why: ListFault) -> FaultLine<'a>
    ensures { line_text result ≡ spec.list_fault_line why }
{
    match why {
        ListFault::BadRule(number) => numbered("list line ", number as u64, ": bad rule\n"),
        ListFault::TooManyRules(number) => {
            numbered("list line ", number as u64, ": too many rules\n")
        }
        ListFault::TooLong => plain("list: too long\n"),
        ListFault::ReadFault => plain("read fault\n"),
        ListFault::NoMemory => plain("no memory\n"),
    }
}

fn store_line(why: &OpenFault) -> FaultLine<'_>
    ensures { line_text result ≡ spec.store_fault_line why.now }
{
    match why {
        OpenFault::NotAStore(offset) => numbered("store: not a store at ", *offset, "\n"),
        OpenFault::TooLarge(len) => numbered("store: too large: ", *len, "\n"),
        OpenFault::DeviceFault => plain("device fault\n"),
        OpenFault::NoMemory => plain("no memory\n"),
    }
}

fn plain(text: &str) -> FaultLine<'_>
    ensures { line_text result ≡ text.now }
{
    let none = Piece::Text("");
    FaultLine {
        pieces: [Piece::Text(text), none, none, none, none],
    }
}

fn numbered<'a>(front: &'a str, number: u64, back: &'a str) -> FaultLine<'a>
    ensures { line_text result ≡ front.now ++ (decimal number ++ back.now) }
{
    let none = Piece::Text("");
    FaultLine {
        pieces: [
            Piece::Text(front),
            Piece::Number(number),
            Piece::Text(back),
            none,
            none,
        ],
    }
}

fn bad_field(number: u32, name: &str) -> FaultLine<'_>
    ensures { line_text result
        ≡ codes "script line "
        ++ (decimal number ++ (codes ": bad field " ++ (name.now ++ 10 ∷ []))) }
{
    FaultLine {
        pieces: [
            Piece::Text("script line "),
            Piece::Number(number as u64),
            Piece::Text(": bad field "),
            Piece::Text(name),
            Piece::Text("\n"),
        ],
    }
}

fn write_pieces<E: Sink>(err: &mut E, pieces: &[Piece<'_>]) -> Result<(), Failed>
    ensures all { OnOk result
        (Takes (E.taken err.old) (E.taken err.new) (flat_map piece_text pieces.now)) }
    ensures prefix { OnErr result
        (TakesPrefix (E.taken err.old) (E.taken err.new) (flat_map piece_text pieces.now)) }
    ensures cause { HasCause (E.faults err.old) (E.faults err.new) result }
{
    for piece in pieces {
        write_piece(err, piece)?;
    }
    Ok(())
}

fn write_piece<E: Sink>(err: &mut E, piece: &Piece<'_>) -> Result<(), Failed>
    ensures all { OnOk result (Takes (E.taken err.old) (E.taken err.new) (piece_text piece.now)) }
    ensures prefix { OnErr result
        (TakesPrefix (E.taken err.old) (E.taken err.new) (piece_text piece.now)) }
    ensures cause { HasCause (E.faults err.old) (E.faults err.new) result }
{
    match piece {
        Piece::Text(text) => write_all(err, text.as_bytes()),
        Piece::Number(n) => {
            let mut digits = Buffer::new();
            write_all(err, digits.format(*n).as_bytes())
        }
    }
}
