//! Numbers in their order.
ghost use Rattle.std.specs.Prelude.{◌≡◌, ◌∷◌, [], IfOk, OnErr, OnOk, length, not, ◌==◌};
ghost use Rattle.std.specs.Ordering.{nat_cmp};
ghost use Rattle.web_locks.specs.Numbers.{first_after, with_number, without_number};

use agent_base::NoMemory;
use key_map::KeyMap;
use std::alloc::Global;
use std::marker::Model;

/// Numbers that stand in ascending order.
#[derive(Debug, Drop)]
pub(crate) struct Numbers {
    set: KeyMap<u64, ()>,
}

impl Model for Numbers {
    ghost use Rattle.std.specs.Prelude.{List, ℕ};
    ghost use Rattle.std.specs.Map.{keys_of};

    ghost Value = { List ℕ };

    ghost view = { λ n. keys_of n.set };
}

impl Numbers {
    /// One number alone.
    pub(crate) fn one(alloc: Global, number: u64) -> Result<Numbers, NoMemory>
        ensures one { IfOk result (λ numbers. numbers ≡ number ∷ []) }
    {
        let mut set = KeyMap::new(alloc);
        set.insert(number, ())?;
        Ok(Numbers { set })
    }

    /// Adds a number in its place.
    pub(crate) fn add(&mut self, number: u64) -> Result<(), NoMemory>
        ensures added { OnOk result (self.new ≡ with_number number self.old) }
        ensures unchanged { OnErr result (self.new ≡ self.old) }
    {
        self.set.insert(number, ())
    }

    /// Takes a number out, and tells whether any are left.
    pub(crate) fn remove(&mut self, number: u64) -> bool
        ensures removed { self.new ≡ without_number number self.old }
        ensures left { result ≡ not (length self.new == 0) }
    {
        let _ = self.set.remove(&number);
        !self.set.is_empty()
    }

    /// The first number that is greater than `after`, or the first of all.
    pub(crate) fn next(&self, after: Option<u64>) -> Option<u64>
        ensures next { result ≡ first_after after self.now }
    {
        self.set.next_key(after.as_ref()).copied()
    }
}
