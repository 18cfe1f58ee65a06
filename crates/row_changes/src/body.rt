//! Reading a body piece by piece.
ghost use Rattle.std.specs.Prelude.{◌≡◌, [], IfOk, None, Ok, OnErr, OnOk, drop, option_map, slice_get};
ghost use Rattle.row_changes.specs.Body as spec;
ghost use Rattle.row_changes.specs.Pieces.{plain_piece, plain_progress};
ghost use Rattle.row_changes.specs.Reading.{change_at};
ghost use Rattle.row_changes.specs.Stops.{Gives};

use crate::Change;
use crate::fields::number_at;
use crate::keys::Keys;
use crate::reading::read_next;
use crate::stop::Stop;
use agent_base::NoMemory;
use std::alloc::Global;
use std::marker::Model;

/// A piece of a body.
#[derive(Debug, Drop)]
pub enum Piece {
    /// A durable change begins. A snapshot has no such piece.
    Begins,
    /// A row change, which begins at this offset of the body.
    Row { at: usize, change: Change },
    /// The first fault: a count that is 0 or cut off, or what is no row change. No piece follows.
    Fault { at: usize },
}

// How far a body is read: the row changes of the durable change that are still to come, and the
// bytes that are left.
#[derive(Clone, Copy, Debug)]
pub struct Progress<'b> {
    left: u32,
    rest: &'b [u8],
}

/// Reads a body, piece by piece.
#[derive(Debug, Drop)]
pub struct Reader<'b> {
    keys: Keys,
    snapshot: bool,
    size: usize,
    progress: Progress<'b>,
}

impl<'b> Model for Reader<'b> {
    ghost use Rattle.std.specs.Prelude.{List};
    ghost use Rattle.row_changes.specs.Body.{PlainPiece, pieces_from};
    ghost use Rattle.row_changes.specs.Pieces.{plain_progress};

    ghost Value = { List PlainPiece };

    ghost view = { λ r. pieces_from r.snapshot r.size (plain_progress r.progress) };
}

impl<'b> Reader<'b> {
    /// A reader of a body of changes, or of a snapshot.
    pub fn new(snapshot: bool, body: &'b [u8]) -> Reader<'b>
        ensures pieces { result ≡ spec.pieces_of snapshot body.now }
    {
        Reader {
            keys: Keys::new(),
            snapshot,
            size: body.len(),
            progress: Progress {
                left: 0,
                rest: body,
            },
        }
    }

    /// The next piece, and None behind the last, which takes no memory. Its time is linear in the
    /// bytes of the piece.
    pub fn next(&mut self, alloc: Global) -> Result<Option<Piece>, NoMemory>
        ensures piece { IfOk result
            (λ piece. option_map plain_piece piece ≡ slice_get self.old 0) }
        ensures rest { OnOk result (self.new ≡ drop 1 self.old) }
        ensures end { self.old ≡ [] → result ≡ Ok None }
        ensures unchanged { OnErr result (self.new ≡ self.old) }
    {
        if is_over(&self.progress) {
            return Ok(None);
        }
        let (piece, progress) = next_piece(
            alloc,
            &mut self.keys,
            self.snapshot,
            self.size,
            self.progress,
        )?;
        self.progress = progress;
        Ok(Some(piece))
    }
}

fn is_over(progress: &Progress<'_>) -> bool
    ensures { result ≡ spec.is_over (plain_progress progress.now) }
{
    progress.left == 0 && progress.rest.is_empty()
}

#[tactic(auto, unfolding(crate::specs::Body::count_at))]
fn count_at(bytes: &mut &[u8]) -> Result<u32, Stop>
    ensures { Gives (λ count. (count, bytes.new.now)) (spec.count_at bytes.old.now) result }
{
    let count = number_at(bytes)?;
    if 0 < count {
        Ok(count)
    } else {
        Err(Stop::NoField)
    }
}

fn faulty(size: usize, progress: Progress<'_>) -> (Piece, Progress<'_>)
    ensures { (plain_piece result.0, plain_progress result.1)
        ≡ spec.faulty size (plain_progress progress.entry) }
{
    let begin = size.saturating_sub(progress.rest.len());
    (Piece::Fault { at: begin }, Progress { left: 0, rest: &[] })
}

// The count of a durable change, or its fault.
fn begun(size: usize, progress: Progress<'_>) -> Result<(Piece, Progress<'_>), NoMemory>
    ensures { IfOk result (λ x. (plain_piece x.0, plain_progress x.1)
        ≡ spec.begun size (plain_progress progress.entry)
        (spec.count_at progress.entry.rest.now)) }
{
    let mut rest = progress.rest;
    match count_at(&mut rest) {
        Ok(left) => Ok((Piece::Begins, Progress { left, rest })),
        Err(Stop::NoField) => Ok(faulty(size, progress)),
        Err(Stop::NoMemory) => Err(NoMemory),
    }
}

// A row change, or its fault.
fn rowed<'b>(
    alloc: Global,
    keys: &mut Keys,
    size: usize,
    progress: Progress<'b>,
) -> Result<(Piece, Progress<'b>), NoMemory>
    ensures row { IfOk result (λ x. (plain_piece x.0, plain_progress x.1)
        ≡ spec.rowed size (plain_progress progress.entry)
        (change_at progress.entry.rest.now)) }
{
    match read_next(alloc, progress.rest, keys)? {
        Some((change, rest)) => {
            let at = size.saturating_sub(progress.rest.len());
            let left = progress.left.saturating_sub(1);
            Ok((Piece::Row { at, change }, Progress { left, rest }))
        }
        None => Ok(faulty(size, progress)),
    }
}

#[tactic(auto, unfolding(crate::specs::Body::next_piece))]
fn next_piece<'b>(
    alloc: Global,
    keys: &mut Keys,
    snapshot: bool,
    size: usize,
    progress: Progress<'b>,
) -> Result<(Piece, Progress<'b>), NoMemory>
    ensures next { IfOk result (λ x. (plain_piece x.0, plain_progress x.1)
        ≡ spec.next_piece snapshot size (plain_progress progress.entry)) }
{
    if progress.left == 0 && !snapshot {
        begun(size, progress)
    } else {
        rowed(alloc, keys, size, progress)
    }
}
