//! The lines of a day.
ghost use Rattle.std.specs.Prelude.{◌≡◌, ◌++◌, [], ◌∷◌, IfOk, OnOk, length, map};
ghost use Rattle.script_actions.specs.Plain.{step_of};
ghost use Rattle.generated_day.specs.Day as spec;
ghost use Rattle.generated_day.specs.Draws.{first_state};

use crate::draws::Draws;
use crate::rows::{drawn_line, open_line};
use agent_base::NoMemory;
use script_actions::{Line, Step};
use std::alloc::Global;

/// The lines of the day of a seed.
///
/// Seeds that are equal modulo 2,147,483,648 have the same day.
#[tactic(auto, unfolding(crate::specs::Day::day_lines))]
pub fn generated_day(alloc: Global, seed: u32) -> Result<Vec<Line>, NoMemory>
    ensures lines { IfOk result
        (λ lines. map (λ line. step_of line.step) lines.items ≡ spec.day_lines seed) }
    // The lines are numbered from 1 on.
    ensures numbers { IfOk result
        (λ lines. map (λ line. line.number) lines.items ≡ spec.numbers_from 1) }
    ensures count { IfOk result (λ lines. length lines.items ≡ spec.day_length) }
{
    let mut lines = opened_tabs(alloc)?;
    add_drawn(alloc, seed, &mut lines)?;
    Ok(lines)
}

// The lines that open the tabs.
fn opened_tabs(alloc: Global) -> Result<Vec<Line>, NoMemory>
    ensures lines { IfOk result
        (λ lines. map (λ line. step_of line.step) lines.items ≡ spec.open_lines) }
    ensures numbers { IfOk result (λ lines. map (λ line. line.number) lines.items
        ++ spec.numbers_from 21 ≡ spec.numbers_from 1) }
{
    let mut lines = Vec::new(alloc);
    for tab in 1..21u16 {
        let step = open_line(alloc, tab)?;
        add(&mut lines, tab as u32, step)?;
    }
    Ok(lines)
}

// The lines that are drawn come behind those that open the tabs.
fn add_drawn(alloc: Global, seed: u32, lines: &mut Vec<Line>) -> Result<(), NoMemory>
    requires opened { map (λ line. line.number) lines.old.items
        ++ spec.numbers_from 21 ≡ spec.numbers_from 1 }
    ensures lines { OnOk result (map (λ line. step_of line.step) lines.new.items
        ≡ map (λ line. step_of line.step) lines.old.items
        ++ spec.drawn_lines spec.drawn_count (first_state seed)) }
    ensures numbers { OnOk result
        (map (λ line. line.number) lines.new.items ≡ spec.numbers_from 1) }
{
    let mut draws = Draws::from_seed(seed);
    for number in 21..5021u32 {
        let step = drawn_line(alloc, &mut draws)?;
        add(lines, number, step)?;
    }
    Ok(())
}

fn add(lines: &mut Vec<Line>, number: u32, step: Step) -> Result<(), NoMemory>
    ensures { OnOk result (lines.new.items
        ≡ lines.old.items ++ record { number = number; step = step } ∷ []) }
{
    match lines.push(Line { number, step }) {
        Ok(()) => Ok(()),
        Err(_) => Err(NoMemory),
    }
}
