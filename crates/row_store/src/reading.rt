//! Reading a body: its pieces, one after another, are done to the parts of a durable state.
ghost use Rattle.std.specs.Prelude.{◌≡◌, ℕ, Err, IfOk, IsErrOf};
ghost use Rattle.journal.specs.declared.replay.ReplayFault.TheVariants.{Bad};
ghost use Rattle.row_changes.specs.Body.{pieces_of};
ghost use Rattle.row_changes.specs.Pieces.{plain_piece};
ghost use Rattle.row_store.specs.Bodies.{after_pieces};
ghost use Rattle.row_store.specs.Edits.{AreTaken, IsFaultAt, IsTaken};
ghost use Rattle.row_store.specs.Stored.{saved_of};

use crate::parts::Parts;
use agent_base::NoMemory;
use durable_model::lines_keep_durable_states;
use journal::ReplayFault;
use row_changes::{Piece, Reader, changes_read_back};
use spelled_model::lines_have_spellings;
use std::alloc::Global;

/// Reads a body to its end, and answers how many durable changes it has.
pub fn read_body(
    parts: &mut Parts,
    alloc: Global,
    snapshot: bool,
    body: &[u8],
) -> Result<u64, ReplayFault>
    ensures taken { let pieces = pieces_of snapshot body.now in
        IfOk result (λ count. AreTaken pieces parts.old parts.new count) }
    ensures fault { let pieces = pieces_of snapshot body.now in
        (at : ℕ) → IsErrOf result (Bad at) → after_pieces (saved_of parts.old) 0 pieces ≡ Err at }
{
    changes_read_back();
    let mut reader = Reader::new(snapshot, body);
    let mut count = 0;
    loop {
        match reader.next(alloc) {
            Ok(Some(piece)) => count += take(parts, alloc, piece)?,
            Ok(None) => return Ok(count),
            Err(NoMemory) => return Err(ReplayFault::NoMemory),
        }
    }
}

// Takes a piece, and answers how many durable changes begin with it.
fn take(parts: &mut Parts, alloc: Global, piece: Piece) -> Result<u64, ReplayFault>
    ensures taken { IfOk result (λ begun. IsTaken (plain_piece piece) parts.old parts.new begun) }
    ensures fault { (at : ℕ) → IsErrOf result (Bad at)
        → IsFaultAt (plain_piece piece) parts.old at }
{
    lines_keep_durable_states();
    lines_have_spellings();
    match piece {
        Piece::Begins => Ok(1),
        Piece::Row { at, change } => match parts.edit(alloc, change) {
            Ok(true) => Ok(0),
            Ok(false) => Err(ReplayFault::Bad(at as u64)),
            Err(NoMemory) => Err(ReplayFault::NoMemory),
        },
        Piece::Fault { at } => Err(ReplayFault::Bad(at as u64)),
    }
}
