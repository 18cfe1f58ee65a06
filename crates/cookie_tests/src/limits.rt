//! Which cookies go from a full cell.
use partition_limits::{CellKind, Tally, Weighed, victims};
use std::alloc::Global;
use std::test::Fail;

// A cell of 181 cookies of one byte, of which the last is the one just set.
fn full_cell(alloc: Global) -> Result<Vec<Weighed>, Fail> {
    let mut rows = Vec::new(alloc);
    for place in 0..181u32 {
        rows.push(Weighed {
            expired: place == 100,
            secure: place % 2 == 0,
            last: 1_000 - place as i64,
            bytes: 1,
        })?;
    }
    Ok(rows)
}

#[test]
fn a_full_cell_gives_up_one(rt: HostRuntime) -> Result<(), Fail> {
    let alloc = rt.alloc();
    let mut rows = full_cell(alloc)?;
    let full = Tally {
        cookies: 181,
        bytes: 181,
    };
    assert!(rt; !full.fits(CellKind::Own));
    assert!(rt; is_gone(alloc, &rows, 100)?);
    for row in &mut rows {
        row.expired = false;
    }
    assert!(rt; is_gone(alloc, &rows, 179)?);
    Ok(())
}

// Whether this one alone goes where the last one was just set.
fn is_gone(alloc: Global, rows: &[Weighed], place: usize) -> Result<bool, Fail> {
    if rows.len() < 1 {
        return Ok(false);
    }
    let gone = victims(alloc, CellKind::Partition, rows, rows.len() - 1)?;
    Ok(gone.as_slice() == [place].as_slice())
}
