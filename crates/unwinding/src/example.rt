ghost use Rattle.std.specs.Prelude.{◌≡◌};
ghost use Rattle.unwinding.specs.Facts.{UnsharedFacts, DurableFacts};
ghost use Rattle.unwinding.specs.Laws.{RestartFacts};
ghost use Rattle.unwinding.specs.ExampleSetting.{machine, unshared_machine, keeping, IsSound, IsValid};
ghost use Rattle.unwinding.specs.ExampleSetting.{example};
ghost use Rattle.unwinding.specs.Example.{step_of, one_cell};
ghost use Rattle.unwinding.specs.ExampleLaw.{ExampleUnwound};

use crate::laws::{Isolated, unwinding};

/// One of two sites.
#[derive(Debug, Clone, Copy, PartialEq, Eq)]
pub enum Site {
    First,
    Second,
}

/// What a site has for itself: a text that outlives a restart, and whether it heard a ring.
#[derive(Debug, Clone, Copy, PartialEq, Eq)]
pub struct Partition {
    pub site: Site,
    pub saved: u64,
    pub heard: bool,
}

/// What a shared cell holds: a text that outlives a restart, and whether it has been read.
#[derive(Debug, Clone, Copy, PartialEq, Eq)]
pub struct Note {
    pub text: u64,
    pub read: bool,
}

/// What happens at a site.
#[derive(Debug, Clone, Copy, PartialEq, Eq)]
pub enum Event {
    Save(u64),
    Write(u64),
    Read,
    Give(u64),
    Take,
    Ring,
    Hear,
}

/// A reply to an event or to a line.
#[derive(Debug, Clone, Copy, PartialEq, Eq)]
pub enum Reply {
    Plain,
    Text(u64),
}

/// What an event gives, where at most one cell is consulted.
#[derive(Debug, Clone, Copy, PartialEq, Eq)]
pub struct Stepped {
    pub partition: Partition,
    pub note: Note,
    pub reply: Option<Reply>,
}

/// The example's machine, as a program: a site's event on the cell that it consults.
pub fn site_step(partition: Partition, note: Note, event: Event) -> Stepped
    ensures partition { result.partition ≡ (step_of partition (one_cell note) event).partition }
    ensures note { (λ c. result.note) ≡ (step_of partition (one_cell note) event).cells }
    ensures reply { result.reply ≡ (step_of partition (one_cell note) event).reply }
{
    let plain = Stepped {
        partition,
        note,
        reply: Some(Reply::Plain),
    };
    match event {
        Event::Save(text) => Stepped {
            partition: Partition {
                saved: text,
                ..partition
            },
            ..plain
        },
        Event::Write(text) | Event::Give(text) => Stepped {
            note: Note { text, read: false },
            ..plain
        },
        Event::Read => Stepped {
            note: Note {
                text: note.text,
                read: true,
            },
            reply: Some(Reply::Text(note.text)),
            ..plain
        },
        Event::Take => Stepped {
            reply: Some(Reply::Text(note.text)),
            ..plain
        },
        Event::Ring => plain,
        Event::Hear => Stepped {
            partition: Partition {
                heard: true,
                ..partition
            },
            reply: None,
            ..plain
        },
    }
}

/// Stands for the example's machine.
#[derive(Debug, Clone, Copy, PartialEq, Eq)]
pub struct Example;

impl Isolated for Example {
    ghost setting = { example };
}

/// The example's machine has all facts that the laws ask for, and the one that keeps each site to
/// itself has the few that are asked of such a machine.
pub fn example_facts()
    ensures plain { UnsharedFacts unshared_machine }
    ensures restart { RestartFacts example }
    ensures durable { DurableFacts machine keeping IsSound IsValid }
{}

/// So the law holds of the example without any premise.
pub fn example_unwinding()
    ensures unwound { ExampleUnwound }
{
    example_facts();
    unwinding::<Example>();
}
