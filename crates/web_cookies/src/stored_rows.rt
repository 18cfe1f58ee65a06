//! The row changes of what is stored.
ghost use Rattle.std.specs.Prelude.{◌≡◌, ◌++◌, IfOk, OnOk, map, option_to_list};
ghost use Rattle.cookie_jar.specs.Key.{plain_key};
ghost use Rattle.cookie_jar.specs.Lifetime.{is_persistent};
ghost use Rattle.cookie_jar.specs.Persistent as spec;
ghost use Rattle.cookie_jar.specs.Plain.{plain_cookie};
ghost use Rattle.row_changes.specs.Plain.{plain_change};
ghost use Rattle.agent_model.specs.CookieStore.{in_cell};

use agent_base::NoMemory;
use cookie_jar::{CellKey, Cookie, JarStep, Plan};
use row_changes::Change;
use std::alloc::Global;

/// Adds the row changes of a plan for a cell.
pub fn push_rows(
    rows: &mut Vec<Change>,
    alloc: Global,
    cell: &CellKey,
    plan: &Plan,
) -> Result<(), NoMemory>
    ensures rows { OnOk result (map plain_change rows.new.items
        ≡ map plain_change rows.old.items
        ++ map (in_cell (plain_key cell.now)) (spec.rows_of_steps plan.now.fresh plan.now.steps)) }
{
    push_steps(rows, alloc, cell, plan.fresh(), plan.steps())
}

// Adds the row changes of steps that put a cookie.
fn push_steps(
    rows: &mut Vec<Change>,
    alloc: Global,
    cell: &CellKey,
    fresh: &Cookie,
    steps: &[JarStep],
) -> Result<(), NoMemory>
    ensures rows { OnOk result (map plain_change rows.new.items
        ≡ map plain_change rows.old.items
        ++ map (in_cell (plain_key cell.now))
        (spec.rows_of_steps (plain_cookie fresh.now) steps.now)) }
{
    for step in steps {
        push_step(rows, alloc, cell, fresh, *step)?;
    }
    Ok(())
}

// Adds the row change of a step, if it has one.
fn push_step(
    rows: &mut Vec<Change>,
    alloc: Global,
    cell: &CellKey,
    fresh: &Cookie,
    step: JarStep,
) -> Result<(), NoMemory>
    ensures rows { OnOk result (map plain_change rows.new.items
        ≡ map plain_change rows.old.items
        ++ map (in_cell (plain_key cell.now))
        (spec.rows_of_step (plain_cookie fresh.now) step)) }
{
    let Some(row) = row_of(alloc, cell, fresh, step)? else {
        return Ok(());
    };
    match rows.push(row) {
        Ok(()) => Ok(()),
        Err(_) => Err(NoMemory),
    }
}

// The row change of a step. A session cookie has no row.
fn row_of(
    alloc: Global,
    cell: &CellKey,
    fresh: &Cookie,
    step: JarStep,
) -> Result<Option<Change>, NoMemory>
    ensures { IfOk result (λ row. map plain_change (option_to_list row)
        ≡ map (in_cell (plain_key cell.now)) (spec.rows_of_step (plain_cookie fresh.now) step)) }
{
    match step {
        JarStep::Insert { rank, .. } => inserted(alloc, cell, rank, fresh),
        JarStep::Replace {
            rank,
            was_persistent,
            ..
        } => replaced(alloc, cell, rank, was_persistent, fresh),
        JarStep::Remove {
            rank,
            was_persistent,
            ..
        } => removed(alloc, cell, rank, was_persistent),
    }
}

// The row change where a cookie is in the place of another.
fn replaced(
    alloc: Global,
    cell: &CellKey,
    rank: usize,
    was_persistent: bool,
    fresh: &Cookie,
) -> Result<Option<Change>, NoMemory>
    ensures { IfOk result (λ row. map plain_change (option_to_list row)
        ≡ map (in_cell (plain_key cell.now)) (spec.replace_row
        (is_persistent (plain_cookie fresh.now)) was_persistent rank (plain_cookie fresh.now))) }
{
    if fresh.expiry.is_none() {
        return removed(alloc, cell, rank, was_persistent);
    }
    if !was_persistent {
        return inserted(alloc, cell, rank, fresh);
    }
    Ok(Some(Change::CookieReplace {
        cell: cell.copy(alloc)?,
        place: row_place(rank)?,
        cookie: kept_cookie(fresh)?,
    }))
}

fn inserted(
    alloc: Global,
    cell: &CellKey,
    rank: usize,
    fresh: &Cookie,
) -> Result<Option<Change>, NoMemory>
    ensures { IfOk result (λ row. map plain_change (option_to_list row)
        ≡ map (in_cell (plain_key cell.now)) (spec.insert_row
        (is_persistent (plain_cookie fresh.now)) rank (plain_cookie fresh.now))) }
{
    if fresh.expiry.is_none() {
        return Ok(None);
    }
    Ok(Some(Change::CookieInsert {
        cell: cell.copy(alloc)?,
        place: row_place(rank)?,
        cookie: kept_cookie(fresh)?,
    }))
}

fn removed(
    alloc: Global,
    cell: &CellKey,
    rank: usize,
    was_persistent: bool,
) -> Result<Option<Change>, NoMemory>
    ensures { IfOk result (λ row. map plain_change (option_to_list row)
        ≡ map (in_cell (plain_key cell.now)) (spec.remove_row was_persistent rank)) }
{
    if !was_persistent {
        return Ok(None);
    }
    Ok(Some(Change::CookieRemove {
        cell: cell.copy(alloc)?,
        place: row_place(rank)?,
    }))
}

// A rank as the place of a row change. A cell keeps fewer cookies than a byte counts.
fn row_place(rank: usize) -> Result<u8, NoMemory>
    ensures { IfOk result (λ place. place ≡ rank) }
{
    match u8::try_from(rank) {
        Ok(place) => Ok(place),
        Err(_) => Err(NoMemory),
    }
}

// A cookie as it outlives a restart. It shares the texts.
fn kept_cookie(cookie: &Cookie) -> Result<Cookie, NoMemory>
    ensures { IfOk result (λ c. plain_cookie c ≡ spec.kept_cookie (plain_cookie cookie.now)) }
{
    let mut kept = cookie.copy()?;
    kept.last = 0;
    Ok(kept)
}
