// What a disk in memory held at first, and what was done to it since.
ghost use Rattle.std.specs.Prelude.{◌≡◌, List, ℕ, []};
ghost use Rattle.std.specs.Borrow.{ftrue};
ghost use Rattle.disk_model.specs.History.{Event};

use std::marker::Model;

// What is done to a disk: its history begins with these bytes, a write, a sync, a sync that failed.
#[derive(Clone, Copy, Drop)]
pub enum Change<'a> {
    Began(&'a [u8]),
    Wrote(usize, &'a [u8]),
    Synced,
    Missed,
}

// Clauses alone read it. It takes no memory, and its calls do nothing when they run.
#[derive(Debug, Drop)]
pub struct History {
    pub ghost first: { List ℕ },
    pub ghost events: { List Event },
}

impl Model for History {
    ghost also_owns = { λ _. ftrue };
}

// It owns nothing.
unsafe impl Send for History {}

impl History {
    ghost use Rattle.disk_model.specs.Changes.{changed};

    // Of no bytes, to which nothing was done.
    pub fn new() -> History
        ensures { result ≡ record { first = []; events = [] } }
    {
        History {}
    }

    // With one change more.
    pub fn then(&self, _change: &Change<'_>) -> History
        ensures { result ≡ changed self.now _change.now }
    {
        History {}
    }
}
