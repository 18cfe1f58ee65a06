//! The rows of the table of lines, each with its draws.
ghost use Rattle.std.specs.Prelude.{◌≡◌, ◌<◌, ◌≤◌, IfOk, IsOk, Ok, [], ◌∷◌, codes, map};
ghost use Rattle.origin_site.specs.Address.{address_of};
ghost use Rattle.origin_site.specs.Plain.{plain_address};
ghost use Rattle.script_actions.specs.Plain.{head_field_of, step_of};
ghost use Rattle.generated_day.specs.Day as spec;

use crate::draws::Draws;
use agent_base::{Label, NoMemory};
use origin_site::{Address, AddressFault};
use script_actions::{Action, HeadField, Method, Step, boxed};
use std::alloc::Global;
use storage_events::AreaKind;

/// The line that opens a tab.
pub fn open_line(alloc: Global, tab: u16) -> Result<Step, NoMemory>
    requires tab { (0 < tab) × (tab ≤ 20) }
    ensures { IfOk result (λ step. step_of step ≡ spec.open_line tab) }
{
    Ok(Step::Act(Action::Open {
        tab,
        url: page(alloc, tab as u32 - 1)?,
        opener: None,
        noopener: false,
        method: Method::Get,
        head: Vec::new(alloc),
    }))
}

/// The next line that is drawn.
#[tactic(auto, unfolding(crate::specs::Day::drawn_line))]
pub fn drawn_line(alloc: Global, draws: &mut Draws) -> Result<Step, NoMemory>
    ensures { IfOk result
        (λ step. (step_of step, draws.new.state) ≡ spec.drawn_line draws.old.state) }
{
    let tab = 1 + draws.draw(20) as u16;
    let kind = draws.draw(8);
    row(alloc, draws, kind, tab)
}

// The line of a kind, by the draws of its row.
fn row(alloc: Global, draws: &mut Draws, kind: u32, tab: u16) -> Result<Step, NoMemory>
    ensures { IfOk result
        (λ step. (step_of step, draws.new.state) ≡ spec.row kind tab draws.old.state) }
{
    match kind {
        0 => go(alloc, tab, draws.draw(40)),
        1 => set(alloc, AreaKind::Local, tab, draws.draw(10), draws.draw(100)),
        2 => get(alloc, tab, draws.draw(10)),
        3 => frame(alloc, tab, draws.draw(10)),
        4 => fetch(alloc, tab, draws.draw(10), draws.draw(10)),
        5 => set_cookie(alloc, tab, draws.draw(10), draws.draw(100)),
        6 => Ok(Step::Act(Action::Tick { s: draws.draw(10) })),
        _ => set(
            alloc,
            AreaKind::Session,
            tab,
            draws.draw(10),
            draws.draw(100),
        ),
    }
}

fn go(alloc: Global, tab: u16, a: u32) -> Result<Step, NoMemory>
    requires page { a < 40 }
    ensures { IfOk result (λ step. step_of step ≡ spec.go_line tab a) }
{
    Ok(Step::Act(Action::Go {
        tab,
        url: page(alloc, a)?,
        by_page: false,
        method: Method::Get,
        head: Vec::new(alloc),
    }))
}

fn set(alloc: Global, area: AreaKind, tab: u16, a: u32, b: u32) -> Result<Step, NoMemory>
    ensures { IfOk result (λ step. step_of step ≡ spec.set_line area tab a b) }
{
    Ok(Step::Act(Action::Set {
        at: Label { tab, frame: 0 },
        area,
        key: format!(in alloc; "k{a}")?,
        value: format!(in alloc; "v{b}")?,
    }))
}

fn get(alloc: Global, tab: u16, a: u32) -> Result<Step, NoMemory>
    ensures { IfOk result (λ step. step_of step ≡ spec.get_line tab a) }
{
    Ok(Step::Act(Action::Get {
        at: Label { tab, frame: 0 },
        area: AreaKind::Local,
        key: format!(in alloc; "k{a}")?,
    }))
}

fn frame(alloc: Global, tab: u16, a: u32) -> Result<Step, NoMemory>
    requires widget { a < 10 }
    ensures { IfOk result (λ step. step_of step ≡ spec.frame_line tab a) }
{
    Ok(Step::Act(Action::Frame {
        at: Label { tab, frame: 1 },
        parent: 0,
        deny: false,
        url: widget(alloc, a)?,
        sandbox: None,
        head: Vec::new(alloc),
    }))
}

fn fetch(alloc: Global, tab: u16, a: u32, b: u32) -> Result<Step, NoMemory>
    requires widget { a < 10 }
    ensures { IfOk result (λ step. step_of step ≡ spec.fetch_line tab a b) }
{
    Ok(Step::Act(Action::Fetch {
        at: Label { tab, frame: 0 },
        url: widget(alloc, a)?,
        method: Method::Get,
        head: set_cookie_head(alloc, b)?,
    }))
}

// A head of one field.
fn set_cookie_head(alloc: Global, number: u32) -> Result<Vec<HeadField>, NoMemory>
    ensures { IfOk result (λ head. map head_field_of head.items ≡ spec.set_cookie number ∷ []) }
{
    let mut head = Vec::new(alloc);
    let field = HeadField {
        name: String::from_str(alloc, "Set-Cookie")?,
        value: format!(in alloc; "c{number}=1; Secure; SameSite=None; Partitioned; Max-Age=1000")?,
    };
    match head.push(field) {
        Ok(()) => Ok(head),
        Err(_) => Err(NoMemory),
    }
}

fn set_cookie(alloc: Global, tab: u16, a: u32, b: u32) -> Result<Step, NoMemory>
    ensures { IfOk result (λ step. step_of step ≡ spec.setcookie_line tab a b) }
{
    Ok(Step::Act(Action::SetCookie {
        at: Label { tab, frame: 0 },
        text: format!(in alloc; "d{a}={b}; Max-Age=1000")?,
    }))
}

// The address of a page.
fn page(alloc: Global, number: u32) -> Result<Box<Address>, NoMemory>
    requires page { number < 40 }
    ensures { IfOk result (λ url. plain_address url.value ≡ spec.address (codes "s") number) }
{
    let text = format!(in alloc; "https://s{number}.test/")?;
    read(alloc, text.as_str())
}

// The address of a frame in a page, and of what a page fetches.
fn widget(alloc: Global, number: u32) -> Result<Box<Address>, NoMemory>
    requires widget { number < 10 }
    ensures { IfOk result (λ url. plain_address url.value ≡ spec.address (codes "w") number) }
{
    let text = format!(in alloc; "https://w{number}.test/")?;
    read(alloc, text.as_str())
}

// The address that a text is.
fn read(alloc: Global, text: &str) -> Result<Box<Address>, NoMemory>
    requires address { IsOk (address_of text.now) }
    ensures { IfOk result (λ url. address_of text.now ≡ Ok (plain_address url.value)) }
{
    match Address::read(alloc, text) {
        Ok(address) => boxed(alloc, address),
        Err(fault) => Err(memory(fault)),
    }
}

// An address is refused for want of memory alone.
fn memory(fault: AddressFault) -> NoMemory
    requires memory { fault ≡ AddressFault.NoMemory }
{
    match fault {
        AddressFault::NoMemory => NoMemory,
        _ => unreachable!(),
    }
}
