//! A line of which more may come.
ghost use Rattle.std.specs.Prelude.{◌≡◌, ◌++◌, ℕ, List, OnOk, [], true};
ghost use Rattle.script_lines.specs.Grammar.{is_blank};
ghost use Rattle.line_session.specs.Asked.{is_one_line};
ghost use Rattle.served_lines.specs.Waiting.{Waits};

use agent_base::NoMemory;
use std::alloc::Global;

// The most bytes of a line, as `script_lines` reads it.
const LINE_LIMIT: usize = 1_048_576;

/// A line of which more may come. One that is too long is not held.
#[derive(Debug, Drop)]
pub struct WaitingLine {
    pub bytes: Vec<u8>,
    pub long: bool,
    pub blank: bool,
}

impl WaitingLine {
    /// A line of which nothing has come.
    pub fn new(alloc: Global) -> WaitingLine
        ensures { Waits [] result }
    {
        WaitingLine {
            bytes: Vec::new(alloc),
            long: false,
            blank: true,
        }
    }

    /// The next line waits.
    pub fn begin(&mut self)
        ensures { Waits [] self.new }
    {
        self.bytes.clear();
        self.long = false;
        self.blank = true;
    }

    /// More of the line has come.
    pub fn push(&mut self, piece: &[u8]) -> Result<(), NoMemory>
        requires one { is_one_line piece.now ≡ true }
        ensures { (line : List ℕ) → Waits line self.old
            → OnOk result (Waits (line ++ piece.now) self.new) }
    {
        self.blank = self.blank && is_blank(piece);
        if self.long {
            return Ok(());
        }
        if self.bytes.len() + piece.len() > LINE_LIMIT {
            self.long = true;
            self.bytes.clear();
            return Ok(());
        }
        Ok(self.bytes.extend_from_slice(piece)?)
    }
}

fn is_blank(piece: &[u8]) -> bool
    ensures { result ≡ is_blank piece.now }
{
    piece.iter().all(|b| matches!(*b, b' ' | b'\t' | b'\r'))
}
